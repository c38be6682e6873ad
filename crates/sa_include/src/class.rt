//! The features of one class, from those of the classes that it includes and its own, and its first refusal: two features
//! that it writes conflict (E11), two that it includes do or both have an array part (E17), or a stub is left.

ghost use Rattle.std.specs.Prelude.{◌≡◌, ◌||◌, IfOk, IfSome, is_some};
ghost use Rattle.sa_include.specs.Firsts.{do_brought_clash, left_stub, staying_features, written_conflict};
ghost use Rattle.sa_include_conflicts.specs.Sharing.{AreGrouped};
ghost use Rattle.sa_include_conflicts.specs.Staying.{all_stay};
ghost use Rattle.sa_ast.specs.declared.rule.Rule.TheVariants as rule;
ghost use Rattle.sa_include.specs.Refusals.{
  HasFeatures,
  IsClauseRefusal,
  IsGathered,
  IsOfClause,
  IsVerdict,
  IsVerdictAt,
  at_name,
  type_pos,
};
ghost use Rattle.sa_include.specs.Resolved.{KnowsIncludes};

use crate::clause::{CollectedFeatures, collect_features};
use crate::resolved::{Flattened, IncludeProgram};
use crate::substitute::Maker;
use crate::whole::is_immutable;
use failure::{Failure, Invariant};
use sa_ast::{Class, ClassKind, Feature, Pos, Refusal, Rule, Ty};
use sa_graph::entry;
use sa_include_conflicts::{
    ClassFeatures, Conflicts, first_conflict, group_features, is_set, item, remaining_stub,
    retained_features,
};
use sqlite_items::Items;
use std::alloc::{AllocError, Global};

/// The features of the class with this number, whose included classes are resolved.
#[tactic(auto, using(crate::proofs::Refusing::verdicts_at))]
pub(crate) fn flatten_class(
    alloc: Global,
    program: &IncludeProgram<'_>,
    resolved: &[Flattened],
    maker: &mut Maker<'_>,
    number: u32,
) -> Result<Flattened, Failure>
    requires { KnowsIncludes program.now }
    ensures { IfOk result (λ flattened. IsVerdictAt program.now.classes.now number flattened.refusal) }
{
    let class = item(program.classes, number as usize)?;
    let gathered = collect_features(alloc, program, resolved, maker, class)?;
    let judged = find_conflicts(alloc, program, class, &gathered)?;
    kept(alloc, gathered, judged)
}

/// Which features of a class stay, by their indices, and its first refusal.
#[derive(Drop)]
struct ConflictVerdict {
    stays: Vec<bool>,
    refusal: Option<Refusal>,
}

/// Which features stay of those that a class includes and of those that it writes.
#[tactic(auto, using(crate::proofs::Refusing::verdicts_at))]
fn find_conflicts(
    alloc: Global,
    program: &IncludeProgram<'_>,
    class: &Class,
    gathered: &CollectedFeatures,
) -> Result<ConflictVerdict, Failure>
    requires includes { KnowsIncludes program.now }
    requires gathered { IsGathered class.now gathered.now }
    ensures { IfOk result (λ judged. IsVerdict program.now.classes.now class.now judged.refusal) }
{
    let features = ClassFeatures {
        inherited: gathered.features.as_slice(),
        written: class.features.as_slice(),
        immutable: is_immutable(class.kind),
    };
    let conflicts = group_features(alloc, &features)?;
    let stays = retained_features(alloc, &features, &conflicts)?;
    let refusal = first_refusal(
        alloc, program, class, gathered, &features, &conflicts, &stays,
    )?;
    Ok(ConflictVerdict { stays, refusal })
}

/// The first refusal of a class with these features. That of a renaming comes before the others.
#[tactic(auto, using(crate::proofs::Refusing::verdicts))]
fn first_refusal(
    alloc: Global,
    program: &IncludeProgram<'_>,
    class: &Class,
    gathered: &CollectedFeatures,
    features: &ClassFeatures<'_>,
    conflicts: &Conflicts,
    stays: &[bool],
) -> Result<Option<Refusal>, Failure>
    requires includes { KnowsIncludes program.now }
    requires changes { IfSome gathered.now.refusal (IsOfClause class.now.includes) }
    requires features { HasFeatures class.now features.now }
    requires grouped { AreGrouped features.now conflicts.now }
    requires stays { stays.now ≡ all_stay features.now }
    ensures { IfOk result (IsVerdict program.now.classes.now class.now) }
{
    if gathered.refusal.is_some() {
        return Ok(gathered.refusal);
    }
    let written = written_refused(alloc, features, conflicts, stays)?;
    if written.is_some() {
        return Ok(written);
    }
    let clause = clause_refused(alloc, program, class, gathered, features, conflicts, stays)?;
    if clause.is_some() {
        return Ok(clause);
    }
    stub_refused(class.kind, features, stays)
}

/// The refusal of the first written feature that conflicts with an earlier one.
#[tactic(auto, using(crate::proofs::Refusing::written_conflicts))]
fn written_refused(
    alloc: Global,
    features: &ClassFeatures<'_>,
    conflicts: &Conflicts,
    stays: &[bool],
) -> Result<Option<Refusal>, Failure>
    requires grouped { AreGrouped features.now conflicts.now }
    requires stays { stays.now ≡ all_stay features.now }
    ensures { IfOk result (λ refusal. refusal ≡
        at_name rule.FeaturesConflict (written_conflict features.now.immutable features.now.inherited.now features.now.written.now)) }
{
    let first = features.inherited.len();
    let Some(place) = first_conflict(alloc, conflicts, stays, first, features.len())? else {
        return Ok(None);
    };
    let pos = features.at(place)?.name.pos;
    Ok(Some(Rule::FeaturesConflict.at(pos)))
}

/// The refusal of the first clause that includes a feature that conflicts with an earlier included one, or that is the second
/// with an array part.
#[tactic(auto, using(crate::proofs::Refusing::clauses_refused))]
fn clause_refused(
    alloc: Global,
    program: &IncludeProgram<'_>,
    class: &Class,
    gathered: &CollectedFeatures,
    features: &ClassFeatures<'_>,
    conflicts: &Conflicts,
    stays: &[bool],
) -> Result<Option<Refusal>, Failure>
    requires includes { KnowsIncludes program.now }
    requires grouped { AreGrouped features.now conflicts.now }
    requires stays { stays.now ≡ all_stay features.now }
    ensures { IfOk result (IsClauseRefusal program.now.classes.now class.now
        (do_brought_clash features.now.immutable features.now.inherited.now features.now.written.now features.now.inherited.now)) }
{
    let last = features.inherited.len();
    let conflict = first_conflict(alloc, conflicts, stays, 0, last)?;
    let arrays = program
        .includes
        .second_with_array(class.includes.as_slice());
    let Some(clause) = refused_clause(&gathered.clauses, conflict, arrays)? else {
        return Ok(None);
    };
    let include = item(class.includes.as_slice(), clause)?;
    Ok(Some(Rule::IncludedFeaturesConflict.at(pos_of(&include.ty))))
}

/// The first include clause that is refused: the one that includes the first included feature that conflicts with an earlier
/// one, or the second one with an array part. `clauses` has the clause of each included feature.
fn refused_clause(
    clauses: &[usize],
    conflict: Option<usize>,
    arrays: Option<usize>,
) -> Result<Option<usize>, Failure>
    ensures { IfOk result (λ clause. is_some clause ≡ (is_some conflict || is_some arrays)) }
{
    let Some(place) = conflict else {
        return Ok(arrays);
    };
    let clause = entry(clauses, place, Invariant::IncludeTable)?;
    match arrays {
        Some(second) => Ok(Some(clause.min(second))),
        None => Ok(Some(clause)),
    }
}

/// The refusal of the first stub that stays.
#[tactic(auto, using(crate::proofs::Refusing::stubs_left))]
fn stub_refused(
    kind: ClassKind,
    features: &ClassFeatures<'_>,
    stays: &[bool],
) -> Result<Option<Refusal>, Failure>
    requires { stays.now ≡ all_stay features.now }
    ensures { IfOk result (λ refusal. refusal ≡ at_name rule.StubLeft
        (left_stub kind (staying_features features.now.immutable features.now.inherited.now features.now.written.now))) }
{
    match remaining_stub(kind, features, stays)? {
        Some(pos) => Ok(Some(Rule::StubLeft.at(pos))),
        None => Ok(None),
    }
}

#[tactic(auto, using(crate::proofs::Refusing::positions))]
fn pos_of(ty: &Ty) -> Pos
    ensures { result ≡ type_pos ty.now }
{
    match ty {
        Ty::Named(_, _, pos) => *pos,
        Ty::Same(pos) => *pos,
        Ty::Rout(_, _, pos) => *pos,
        Ty::Iter(_, _, pos) => *pos,
    }
}

/// The features of a class that stay.
fn kept(
    alloc: Global,
    gathered: CollectedFeatures,
    judged: ConflictVerdict,
) -> Result<Flattened, Failure>
    ensures { IfOk result (λ flattened. flattened.refusal ≡ judged.refusal) }
{
    let CollectedFeatures { features, open, .. } = gathered;
    let ConflictVerdict { stays, refusal } = judged;
    let written = marks_from(alloc, &stays, features.len())?;
    let open = marks_of_staying(alloc, &stays, &open)?;
    let inherited = features_that_stay(alloc, features, &stays)?;
    Ok(Flattened {
        inherited,
        open,
        stays: written,
        refusal,
        done: true,
    })
}

fn features_that_stay(
    alloc: Global,
    features: Vec<Feature>,
    stays: &[bool],
) -> Result<Items<Feature>, AllocError> {
    let mut rest = features;
    let mut last_first = Vec::new(alloc);
    for _ in 0..rest.len() {
        let Some(feature) = rest.pop() else {
            break;
        };
        if is_set(stays, rest.len()) {
            last_first.push(feature)?;
        }
    }
    last_first.reverse();
    Ok(Items::from_vec(last_first))
}

/// The marks of those features that stay.
fn marks_of_staying(
    alloc: Global,
    stays: &[bool],
    marks: &[bool],
) -> Result<Vec<bool>, AllocError> {
    let mut kept = Vec::new(alloc);
    for (place, mark) in marks.iter().enumerate() {
        if is_set(stays, place) {
            kept.push(*mark)?;
        }
    }
    Ok(kept)
}

/// The marks from an index on.
fn marks_from(alloc: Global, marks: &[bool], from: usize) -> Result<Vec<bool>, AllocError> {
    let mut rest = Vec::new(alloc);
    for place in from..marks.len() {
        rest.push(is_set(marks, place))?;
    }
    Ok(rest)
}
