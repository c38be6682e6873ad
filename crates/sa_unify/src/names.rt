//! The names of classes and their numbers.

ghost use Rattle.std.specs.Prelude.{◌≡◌, IfOk, length, map, slice_get};
ghost use Rattle.sa_ast.specs.Types.{bare};
ghost use Rattle.sa_unify.specs.Numbers.{AreNamesOf, HasNumbers, arity_of, kind_bare, kind_of_name, name_of, number_in, row_of};

use failure::{Failure, Invariant};
use sa_ast::{Class, ClassKind, Name, Ty};
use sa_graph::word;
use std::alloc::Global;
use std::collections::HashMap;

/// A class by its number.
#[derive(Clone, Copy)]
pub struct ClassRow {
    /// Its kind.
    pub kind: ClassKind,
    /// How many parameters it has.
    pub arity: usize,
}

/// The names of a program's classes. The number of a class is its index among them.
#[derive(Drop)]
pub struct Names {
    /// The numbers of the classes by their names.
    pub places: HashMap<Vec<u8>, u32>,
    /// The name of each class.
    pub names: Vec<Name>,
    /// The kind and the arity of each class.
    pub rows: Vec<ClassRow>,
}

impl Names {
    /// The names of these classes. Of two classes with one name the first counts.
    pub fn make(alloc: Global, classes: &[Class]) -> Result<Names, Failure>
        ensures { IfOk result (λ names. AreNamesOf classes.now names) }
    {
        let places = places_of(alloc, classes)?;
        let names = names_of(alloc, classes)?;
        let rows = rows_of(alloc, classes)?;
        Ok(Names {
            places,
            names,
            rows,
        })
    }

    /// How many classes there are, including those of a repeated name.
    pub fn classes(&self) -> usize
        ensures { result ≡ length self.now.rows.items }
    {
        self.rows.len()
    }

    /// The class with this number, if it is one.
    pub fn row(&self, number: u32) -> Option<ClassRow>
        ensures { result ≡ slice_get self.now.rows.items number }
    {
        self.rows.get(number as usize).copied()
    }

    /// The name of a class, which is empty if there is none.
    pub fn name(&self, number: u32) -> &[u8]
        ensures { result.now ≡ name_of self.now number }
    {
        match self.names.get(number as usize) {
            Some(name) => name.as_slice(),
            None => &[],
        }
    }

    /// How many parameters a class has, or 0 if there is none.
    pub fn arity(&self, number: u32) -> usize
        ensures { result ≡ arity_of self.now number }
    {
        match self.rows.get(number as usize) {
            Some(row) => row.arity,
            None => 0,
        }
    }

    /// The number of a class.
    pub fn class(&self, name: &[u8]) -> Option<u32>
        ensures { result ≡ number_in self.now.places name.now }
    {
        self.places.get(name).copied()
    }

    /// The same by a name of the AST.
    pub fn number(&self, name: &Name) -> Option<u32>
        ensures { result ≡ number_in self.now.places name.now }
    {
        self.class(name.as_slice())
    }

    /// What kind of class the type is. A bound type is a reference class.
    #[tactic(auto, using(sa_ast::proofs::BareTypes::bares))]
    pub fn kind(&self, t: &Ty) -> Option<ClassKind>
        ensures { result ≡ kind_bare self.now (bare t.now) }
    {
        match t {
            Ty::Named(name, _, _) => self.kind_named(name),
            Ty::Same(_) => None,
            Ty::Rout(_, _, _) => Some(ClassKind::Reference),
            Ty::Iter(_, _, _) => Some(ClassKind::Reference),
        }
    }

    /// What kind of class the class of a name is.
    pub(crate) fn kind_named(&self, name: &Name) -> Option<ClassKind>
        ensures { result ≡ kind_of_name self.now name.now }
    {
        let number = self.number(name)?;
        let row = self.row(number)?;
        Some(row.kind)
    }
}

/// The numbers of the classes by their names. Of two with one name the first counts.
fn places_of(alloc: Global, classes: &[Class]) -> Result<HashMap<Vec<u8>, u32>, Failure>
    ensures { IfOk result (λ table. HasNumbers table classes.now 0) }
{
    let mut places = HashMap::new(alloc);
    let mut at = classes.len();
    'classes: while at > 0 {
        at -= 1;
        let name = Vec::from_slice(alloc, classes[at].name.name.as_slice())?;
        places.insert(name, word(at, Invariant::SubtypeTable)?)?;
    }
    Ok(places)
}

/// The name of each class.
#[tactic(auto, using(crate::proofs::Numbers::rows))]
fn names_of(alloc: Global, classes: &[Class]) -> Result<Vec<Name>, Failure>
    ensures { IfOk result (λ names. names.items ≡ map (λ c. c.name.name) classes.now) }
{
    let mut names = Vec::new(alloc);
    for class in classes {
        names.push(class.name.name.copy(alloc)?)?;
    }
    Ok(names)
}

/// The kind and the arity of each class.
#[tactic(auto, using(crate::proofs::Numbers::rows))]
fn rows_of(alloc: Global, classes: &[Class]) -> Result<Vec<ClassRow>, Failure>
    ensures { IfOk result (λ rows. rows.items ≡ map row_of classes.now) }
{
    let mut rows = Vec::new(alloc);
    for class in classes {
        rows.push(ClassRow {
            kind: class.kind,
            arity: class.params.len(),
        })?;
    }
    Ok(rows)
}
