//! The features that the include clauses of a class contribute.

ghost use Rattle.std.specs.Prelude.{◌≡◌, IfOk, IfSome};
ghost use Rattle.sa_include.specs.Included.{given_in};
ghost use Rattle.sa_include.specs.Refusals.{IsGathered, IsOfChange};

use crate::renamings::{Renaming, access_after, name_after};
use crate::resolved::{Flattened, IncludeProgram};
use crate::substitute::{Included, Maker, RenamedFeature, TypeArguments};
use failure::{Failure, Invariant, known};
use sa_ast::{Class, Feature, Include, Refusal, Ty};
use sa_include_conflicts::{is_set, item};
use std::alloc::Global;

/// What the include clauses of a class contribute, before anything is replaced.
#[derive(Drop)]
pub(crate) struct CollectedFeatures {
    pub(crate) features: Vec<Feature>,
    /// For each of them whether its statements may write a parameter.
    pub(crate) open: Vec<bool>,
    /// The index of the clause that includes each feature.
    pub(crate) clauses: Vec<usize>,
    /// The refusal of the first renaming that is none of a feature that its clause includes.
    pub(crate) refusal: Option<Refusal>,
}

/// The features that include clauses contribute, in order.
#[derive(Drop)]
struct IncludedFeatures {
    features: Vec<Feature>,
    open: Vec<bool>,
    clauses: Vec<usize>,
}

/// What the include clauses of a class contribute.
#[tactic(auto, using(crate::proofs::Refusing::gathering))]
pub(crate) fn collect_features<'a>(
    alloc: Global,
    program: &IncludeProgram<'a>,
    resolved: &'a [Flattened],
    maker: &mut Maker<'_>,
    class: &Class,
) -> Result<CollectedFeatures, Failure>
    ensures { IfOk result (IsGathered class.now) }
{
    let mut inherited = IncludedFeatures {
        features: Vec::new(alloc),
        open: Vec::new(alloc),
        clauses: Vec::new(alloc),
    };
    let mut refusal = None;
    let same = Ty::Same(class.name.pos);
    for (place, include) in class.includes.as_slice().iter().enumerate() {
        let included = known(
            program.includes.included(&include.ty),
            Invariant::IncludeTable,
        )?;
        let source = source_of(program, resolved, included)?;
        let wrong = bring_clause(alloc, &source, include, place, &same, maker, &mut inherited)?;
        refusal = refusal.or(wrong);
    }
    let IncludedFeatures {
        features,
        open,
        clauses,
    } = inherited;
    Ok(CollectedFeatures {
        features,
        open,
        clauses,
        refusal,
    })
}

/// Adds the features of an include clause's class, and gives the refusal of its renamings. `same` is the type of the
/// including class.
fn bring_clause(
    alloc: Global,
    source: &Source<'_>,
    include: &Include,
    place: usize,
    same: &Ty,
    maker: &mut Maker<'_>,
    inherited: &mut IncludedFeatures,
) -> Result<Option<Refusal>, Failure>
    ensures { IfOk result (λ refusal. IfSome refusal (IsOfChange include.now.changes)) }
{
    let mut clause = Clause::new(alloc, source.class, include, place, same)?;
    clause.bring(alloc, source, maker, inherited)?;
    Ok(clause.renaming.refused(include.changes.as_slice()))
}

impl IncludedFeatures {
    /// Adds a feature of a clause after the others.
    fn add(&mut self, included: Included, clause: usize) -> Result<(), Failure> {
        let Included { feature, open } = included;
        self.features.push(feature)?;
        self.open.push(open)?;
        self.clauses.push(clause)?;
        Ok(())
    }
}

/// An included class, with the facts of it.
#[derive(Drop)]
struct Source<'a> {
    class: &'a Class,
    flattened: &'a Flattened,
    /// For each feature that the class writes whether its statements may write a parameter.
    open: &'a [bool],
}

fn source_of<'a>(
    program: &IncludeProgram<'a>,
    resolved: &'a [Flattened],
    number: u32,
) -> Result<Source<'a>, Failure> {
    let place = number as usize;
    Ok(Source {
        class: item(program.classes, place)?,
        flattened: item(resolved, place)?,
        open: item(program.open, place)?.as_slice(),
    })
}

/// An include clause.
#[derive(Drop)]
struct Clause<'a> {
    include: &'a Include,
    place: usize,
    renaming: Renaming,
    arguments: TypeArguments<'a>,
}

impl<'a> Clause<'a> {
    fn new(
        alloc: Global,
        class: &Class,
        include: &'a Include,
        place: usize,
        same: &'a Ty,
    ) -> Result<Clause<'a>, Failure> {
        let given = given_in(&include.ty);
        let renaming = Renaming::new(alloc, include.changes.as_slice())?;
        let arguments = TypeArguments::new(alloc, class.params.as_slice(), given, same)?;
        Ok(Clause {
            include,
            place,
            renaming,
            arguments,
        })
    }

    /// Adds the features of the included class: those that it includes itself, then those that it writes.
    fn bring(
        &mut self,
        alloc: Global,
        source: &Source<'_>,
        maker: &mut Maker<'_>,
        inherited: &mut IncludedFeatures,
    ) -> Result<(), Failure> {
        let flattened = source.flattened;
        for (place, feature) in flattened.inherited.as_slice().iter().enumerate() {
            let open = is_set(&flattened.open, place);
            self.bring_feature(alloc, feature, open, maker, inherited)?;
        }
        self.bring_written(alloc, source, maker, inherited)
    }

    fn bring_written(
        &mut self,
        alloc: Global,
        source: &Source<'_>,
        maker: &mut Maker<'_>,
        inherited: &mut IncludedFeatures,
    ) -> Result<(), Failure> {
        for (place, feature) in source.class.features.as_slice().iter().enumerate() {
            if is_set(&source.flattened.stays, place) {
                let open = is_set(source.open, place);
                self.bring_feature(alloc, feature, open, maker, inherited)?;
            }
        }
        Ok(())
    }

    /// Adds a feature, unless a renaming leaves it out.
    fn bring_feature(
        &mut self,
        alloc: Global,
        feature: &Feature,
        open: bool,
        maker: &mut Maker<'_>,
        inherited: &mut IncludedFeatures,
    ) -> Result<(), Failure> {
        let Some(renamed) = self.renamed(alloc, feature)? else {
            return Ok(());
        };
        let included = maker.include(alloc, feature, open, renamed, &self.arguments)?;
        inherited.add(included, self.place)
    }

    /// What a feature is called in the including class and who sees it there, or None if a renaming leaves it out.
    fn renamed(
        &mut self,
        alloc: Global,
        feature: &Feature,
    ) -> Result<Option<RenamedFeature>, Failure> {
        let changes = self.include.changes.as_slice();
        let change = self.renaming.change_of(&feature.name.name, changes)?;
        let Some(name) = name_after(alloc, change, &feature.name.name)? else {
            return Ok(None);
        };
        let access = access_after(self.include, change, feature.access);
        Ok(Some(RenamedFeature { name, access }))
    }
}

/// The types that are given to an included class.
#[tactic(auto, using(crate::proofs::Bringing::givens))]
pub(crate) fn given_in(ty: &Ty) -> &[Ty]
    ensures { result.now ≡ given_in ty.now }
{
    match ty {
        Ty::Named(_, given, _) => given.as_slice(),
        Ty::Same(_) => &[],
        Ty::Rout(_, _, _) => &[],
        Ty::Iter(_, _, _) => &[],
    }
}
