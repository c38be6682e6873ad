//! The classes of a program with their features flattened.

ghost use Rattle.std.specs.Prelude.{◌≡◌, Err, IfOk, OnOk, length, slice_set};
ghost use Rattle.std.specs.List.{All};
ghost use Rattle.sa_ast.specs.declared.refusal.Rejection.TheVariants.{Refused};
ghost use Rattle.sa_ast.specs.declared.refusal.Refusal.{Refusal};
ghost use Rattle.sa_include.specs.Flattened.{AreFlattened, IsApart};
ghost use Rattle.sa_include.specs.Included.{AreIncluded};
ghost use Rattle.sa_include.specs.Refusals.{AreAccepted, IsFirstRefusal, RefusesIncludes};
ghost use Rattle.sa_include.specs.Resolved.{AreDone, AreUndone, IsRefusedFrom, KnowsIncludes};
ghost use Rattle.sa_include_names.specs.Includes.{AreArrays};
ghost use Rattle.sa_include_names.specs.Refusals.{AreIncludesRight};
ghost use Rattle.sa_include_names.specs.Tables.{HasNumbers};

use crate::budget::Budget;
use crate::class::flatten_class;
use crate::include_trial::try_whole;
use crate::resolved::{Flattened, IncludeProgram};
use crate::substitute::{Maker, is_open};
use crate::weights::Weights;
use crate::whole::whole_class;
use failure::{Failure, Invariant, broken};
use sa_ast::{Class, Feature, FlatClass, Pos, Rejection, Ty};
use sa_include_conflicts::item;
use sa_include_names::Includes;
use sa_subst::Substitution;
use sqlite_items::Items;
use std::alloc::Global;

/// The classes with their features flattened: each class has the features that it includes, in the order of its
/// include clauses, then those that it writes, and no include clauses. The classes begin with the prelude's, and are in
/// the order of the files and of their texts.
///
/// # Errors
///
/// The first refusal by the rules of classes: E10 for all classes, then E12 for all names in headers and include clauses,
/// then E15, then per class in text order E16, E11, E17 and E22; or `NoMemory`, also where the includes bring more than
/// [`MOST_FORMS`](crate::MOST_FORMS).
#[tactic(auto, using(crate::proofs::Refusing::refusing))]
pub fn flatten(alloc: Global, classes: &[Class]) -> Result<FlatClass, Rejection>
    ensures flattened { IfOk result (λ flat. AreFlattened classes.now flat.classes) }
    ensures apart { IfOk result (λ flat. All IsApart flat.classes) }
    ensures included { IfOk result (λ flat. AreIncluded classes.now flat.classes) }
    ensures right { OnOk result (AreIncludesRight classes.now) }
    ensures accepted { OnOk result (AreAccepted classes.now (length classes.now)) }
    ensures refused { (refusal : Refusal) → result ≡ Err (Refused refusal) → RefusesIncludes classes.now refusal }
{
    let includes = Includes::new(alloc, classes)?;
    let resolved = resolved(alloc, classes, &includes)?;
    let whole = whole_classes(alloc, classes, resolved)?;
    try_whole(alloc, classes, whole.as_slice(), &includes)?;
    Ok(FlatClass { classes: whole })
}

/// The classes with their includes resolved, in the order of their numbers.
///
/// # Errors
///
/// The first refusal in source order.
#[tactic(auto, using(crate::proofs::Resolving::knows_includes))]
fn resolved(
    alloc: Global,
    classes: &[Class],
    includes: &Includes,
) -> Result<Vec<Flattened>, Rejection>
    requires numbers { HasNumbers classes.now includes.now.numbers }
    requires arrays { AreArrays classes.now includes.now.arrays.items }
    ensures accepted { OnOk result (AreAccepted classes.now (length classes.now)) }
    ensures refused { (refusal : Refusal) → result ≡ Err (Refused refusal) → IsFirstRefusal classes.now refusal }
{
    let params = all_params(alloc, classes)?;
    let open = open_in_all(alloc, classes, &params)?;
    let program = IncludeProgram {
        classes,
        includes,
        open: open.as_slice(),
    };
    let mut maker = Maker {
        params: &params,
        budget: Budget::new(),
    };
    resolve(alloc, &program, &mut maker)
}

/// Resolves the classes, each after those that it includes.
///
/// # Errors
///
/// The first refusal in source order. A class may have one while a class before it isn't resolved yet; so a refusal is
/// given as soon as all classes before it are, and the rest isn't resolved.
#[tactic(auto, using(crate::proofs::Resolving::resolving))]
fn resolve(
    alloc: Global,
    program: &IncludeProgram<'_>,
    maker: &mut Maker<'_>,
) -> Result<Vec<Flattened>, Rejection>
    requires { KnowsIncludes program.now }
    ensures accepted { OnOk result (AreAccepted program.now.classes.now (length program.now.classes.now)) }
    ensures refused { (refusal : Refusal) → result ≡ Err (Refused refusal) → IsFirstRefusal program.now.classes.now refusal }
{
    let mut resolved = unresolved(alloc, program.classes.len())?;
    let mut accepted = 0;
    for number in program.includes.order() {
        let flattened = flatten_class(alloc, program, resolved.as_slice(), maker, *number)?;
        keep(&mut resolved, *number as usize, flattened)?;
        accepted = accepted_up_to(resolved.as_slice(), accepted, program.classes.len())?;
    }
    if accepted < program.classes.len() {
        return Err(Rejection::Failed(Failure::Broken(Invariant::IncludeTable)));
    }
    Ok(resolved)
}

#[tactic(auto, using(crate::proofs::Resolving::undone))]
fn unresolved(alloc: Global, classes: usize) -> Result<Vec<Flattened>, Failure>
    ensures { IfOk result (λ list. AreUndone list.items) }
{
    let mut list = Vec::new(alloc);
    for _ in 0..classes {
        list.push(Flattened::none(alloc))?;
    }
    Ok(list)
}

/// Puts a class at its index, which is there.
fn keep(resolved: &mut Vec<Flattened>, at: usize, flattened: Flattened) -> Result<(), Failure>
    ensures { OnOk result (resolved.new.items ≡ slice_set resolved.old.items at flattened) }
{
    if at >= resolved.len() {
        return broken(Invariant::IncludeTable);
    }
    resolved.as_mut_slice()[at] = flattened;
    Ok(())
}

/// The parameters of all classes.
fn all_params(alloc: Global, classes: &[Class]) -> Result<Weights, Failure> {
    let mut params = Weights::new(alloc);
    for class in classes {
        params.add_all(alloc, class.params.as_slice())?;
    }
    Ok(params)
}

/// For each class and each feature that it writes whether its statements write a parameter of some class.
fn open_in_all(
    alloc: Global,
    classes: &[Class],
    params: &Weights,
) -> Result<Vec<Vec<bool>>, Failure> {
    let mut all = Vec::new(alloc);
    for class in classes {
        all.push(open_in(alloc, class.features.as_slice(), params)?)?;
    }
    Ok(all)
}

fn open_in(alloc: Global, features: &[Feature], params: &Weights) -> Result<Vec<bool>, Failure> {
    let mut open = Vec::new(alloc);
    for feature in features {
        open.push(is_open(feature, params))?;
    }
    Ok(open)
}

/// The number of the first class from this one on that isn't resolved, or how many classes there are. The first class
/// before it that has a refusal is refused.
#[tactic(auto, using(crate::proofs::Resolving::accepting))]
fn accepted_up_to(resolved: &[Flattened], from: usize, classes: usize) -> Result<usize, Rejection>
    ensures done { IfOk result (AreDone resolved.now from) }
    ensures refused { (refusal : Refusal) → result ≡ Err (Refused refusal) → IsRefusedFrom resolved.now from classes refusal }
{
    for number in from..classes {
        let flattened = item(resolved, number)?;
        if !flattened.done {
            return Ok(number);
        }
        match flattened.refusal {
            Some(refusal) => return Err(Rejection::Refused(refusal)),
            None => {}
        }
    }
    Ok(classes)
}

/// The classes without includes, each with the features that it includes and those of its own that stay.
#[tactic(auto, using(crate::proofs::Nothing::puts_nothing))]
fn whole_classes(
    alloc: Global,
    classes: &[Class],
    resolved: Vec<Flattened>,
) -> Result<Items<Class>, Failure>
    ensures { IfOk result (λ whole. AreFlattened classes.now whole) }
{
    let mut last_first = resolved;
    last_first.reverse();
    let same = Ty::Same(Pos { file: 0, at: 0 });
    let nothing = Substitution::make(alloc, &[], &[], &same)?;
    let mut whole = Items::new(alloc);
    for class in classes {
        let Some(flattened) = last_first.pop() else {
            return broken(Invariant::IncludeTable);
        };
        whole.push(whole_class(alloc, class, flattened, &nothing)?)?;
    }
    Ok(whole)
}
