//! Which classes include which, and which have the array part by their includes.

ghost use Rattle.std.specs.Prelude.{◌≡◌, IfOk, OnOk};
ghost use Rattle.sa_ast.specs.Types.{bare};
ghost use Rattle.sa_include_names.specs.Includes.{AreArrays, is_set};
ghost use Rattle.sa_include_names.specs.Tables.{AddsEdges, AreEdges, AreGraphOf, HasNumbers, IsNumber, NamesHere, included_in};

use crate::names::{ClassNumbers, ParamNames};
use failure::{Failure, Invariant};
use sa_ast::{Class, Include, Name, Ty};
use sa_graph::{Graph, word};
use std::alloc::Global;

/// The class that has the array part.
const ARRAY_PART: &'static [u8] = b"AREF";

/// An edge from a class to the class of each of its include clauses, by the numbers of classes. A clause that names no class
/// has no edge.
#[derive(Drop)]
struct Edges {
    starts: Vec<u32>,
    ends: Vec<u32>,
}

impl Edges {
    #[tactic(auto, using(crate::proofs::Clauses::classes_added))]
    fn new(alloc: Global, classes: &[Class], numbers: &ClassNumbers) -> Result<Edges, Failure>
        requires { HasNumbers classes.now numbers.now }
        ensures { IfOk result (AreEdges classes.now) }
    {
        let mut edges = Edges {
            starts: Vec::new(alloc),
            ends: Vec::new(alloc),
        };
        for (place, class) in classes.iter().enumerate() {
            let params = ParamNames::new(alloc, class.params.as_slice())?;
            edges.add_clauses(
                word(place, Invariant::IncludeTable)?,
                class.includes.as_slice(),
                &params,
                numbers,
            )?;
        }
        Ok(edges)
    }

    /// Adds the edges of a class with this number.
    #[tactic(auto, using(crate::proofs::Clauses::clauses))]
    fn add_clauses(
        &mut self,
        number: u32,
        includes: &[Include],
        params: &ParamNames,
        numbers: &ClassNumbers,
    ) -> Result<(), Failure>
        ensures { OnOk result (AddsEdges number (NamesHere params.now numbers.now includes.now) self.old self.new) }
    {
        for include in includes {
            self.add_clause(number, &include.ty, params, numbers)?;
        }
        Ok(())
    }

    /// Adds the edge of a clause of this type, if it names a class.
    #[tactic(auto, using(crate::proofs::Clauses::named_edges))]
    fn add_clause(
        &mut self,
        number: u32,
        ty: &Ty,
        params: &ParamNames,
        numbers: &ClassNumbers,
    ) -> Result<(), Failure>
        ensures { OnOk result (AddsEdges number (IsNumber (included_in params.now numbers.now (bare ty.now))) self.old self.new) }
    {
        match included_class(ty, params, numbers) {
            Some(included) => {
                self.add(number, included)?;
                Ok(())
            }
            None => Ok(()),
        }
    }

    #[tactic(auto, using(crate::proofs::Clauses::edge_added))]
    fn add(&mut self, start: u32, end: u32) -> Result<(), Failure>
        ensures { OnOk result (AddsEdges start (λ to. to ≡ end) self.old self.new) }
    {
        self.starts.push(start)?;
        self.ends.push(end)?;
        Ok(())
    }
}

/// The class that the type of an include clause names.
#[tactic(auto, using(sa_ast::proofs::BareTypes::bares))]
fn included_class(ty: &Ty, params: &ParamNames, numbers: &ClassNumbers) -> Option<u32>
    ensures { result ≡ included_in params.now numbers.now (bare ty.now) }
{
    match ty {
        Ty::Named(name, _, _) => {
            if params.hides(name) {
                None
            } else {
                numbers.of(name)
            }
        }
        Ty::Same(_) => None,
        Ty::Rout(_, _, _) => None,
        Ty::Iter(_, _, _) => None,
    }
}

/// The graph of the classes in which an edge leads from each to those that it includes.
#[tactic(auto, using(crate::proofs::Verdicts::graph_of))]
pub(crate) fn include_graph(
    alloc: Global,
    classes: &[Class],
    numbers: &ClassNumbers,
) -> Result<Graph, Failure>
    requires { HasNumbers classes.now numbers.now }
    ensures { IfOk result (AreGraphOf classes.now) }
{
    let Edges { starts, ends } = Edges::new(alloc, classes, numbers)?;
    let graph = Graph::new(alloc, classes.len(), starts, ends)?;
    Ok(graph)
}

/// For each class whether it is AREF or reaches it by its includes.
#[tactic(auto, using(crate::proofs::Verdicts::arrays))]
pub(crate) fn array_parts(
    alloc: Global,
    classes: &[Class],
    graph: &Graph,
    numbers: &ClassNumbers,
) -> Result<Vec<bool>, Failure>
    requires numbers { HasNumbers classes.now numbers.now }
    requires graph { AreGraphOf classes.now graph.now }
    ensures { IfOk result (λ marks. AreArrays classes.now marks.items) }
{
    let name = Name::from_slice(alloc, ARRAY_PART)?;
    match numbers.of(&name) {
        Some(array) => {
            let marks = graph.reaching(alloc, array)?;
            Ok(marks)
        }
        None => {
            let marks = vec![in alloc; false; classes.len()]?;
            Ok(marks)
        }
    }
}

/// Whether a class is marked.
pub(crate) fn is_marked(marks: &[bool], class: u32) -> bool
    ensures { result ≡ is_set marks.now class }
{
    marks.get(class as usize).copied().unwrap_or(false)
}
