//! The verifier of structured regions: that they stand for the blocks of a body. The block in which each block continues begins after it,
//! or is jumped to from where its label is in scope.

ghost use Rattle.std.specs.Prelude.{◌≡◌, IfOk};
ghost use Rattle.sa_structure.specs.Regions.{piece, pieces};
ghost use Rattle.sa_structure.specs.Stands as are;

use crate::numbering::is_numbered;
use crate::raises::{leaves, raised_of};
use crate::regions::{Region, block_after, first_of};
use failure::Failure;
use sa_cfg::{CfgBody, CfgOperation, Handler, Terminator};
use std::alloc::Global;

/// What regions are verified against.
#[derive(Clone, Copy)]
pub(crate) struct Against<'a> {
    pub body: &'a CfgBody,
    /// The blocks in which the body begins and resumes, the first of which is block 0.
    pub entries: &'a [u32],
    /// For each block its number in the dispatch, if it is reached again by way of that: of no block where the dispatch is made once.
    pub again: &'a [Option<u32>],
}

/// Whether a list stands for the blocks of a body.
///
/// # Errors
///
/// A `Failure`.
pub(crate) fn occurs(alloc: Global, against: Against<'_>, list: &[Region]) -> Result<bool, Failure>
    ensures { IfOk result (λ so. so ≡
        are.occurs against.entry.body.now against.entry.entries.now against.entry.again.now (pieces list.now)) }
{
    if !begins_correctly(against, list) {
        return Ok(false);
    }
    list_stands(alloc, against, &[], list, None)
}

/// Whether a list begins with the first block where that is the one entry, and else with the dispatch; and is one loop with the dispatch
/// where that is reached again.
fn begins_correctly(against: Against<'_>, list: &[Region]) -> bool
    ensures { result ≡ are.begins_correctly against.entry.entries.now against.entry.again.now (pieces list.now) }
{
    match first_of(list) {
        Some(block) => block == 0 && against.entries.len() == 1 && against.again.is_empty(),
        None => begin_with_dispatch(list) && (against.again.is_empty() || is_loop(list)),
    }
}

/// Whether a list begins with the dispatch.
#[tactic(auto, using(crate::proofs::Trials::tried))]
#[cycle(choosing)]
fn begin_with_dispatch(list: &[Region]) -> bool
    ensures { result ≡ are.begin_with_dispatch (pieces list.now) }
{
    match list.split_first() {
        Some((shape, _)) => begins_with_dispatch(shape),
        None => false,
    }
}

/// Whether a piece begins with the dispatch.
#[tactic(auto, using(crate::proofs::Trials::tried))]
#[cycle(choosing)]
fn begins_with_dispatch(shape: &Region) -> bool
    ensures { result ≡ are.begins_with_dispatch (piece shape.now) }
{
    match shape {
        Region::Basic(_) | Region::If(_, _) => false,
        Region::LabelledBlock(inside) => begin_with_dispatch(inside.as_slice()),
        Region::Loop(inside) => begin_with_dispatch(inside.as_slice()),
        Region::Dispatch => true,
    }
}

/// Whether a list is one loop.
#[tactic(auto, using(crate::proofs::Trials::tried))]
fn is_loop(list: &[Region]) -> bool
    ensures { result ≡ are.is_loop (pieces list.now) }
{
    match list.split_first() {
        Some((shape, rest)) => is_whole_loop(shape, rest),
        None => false,
    }
}

/// Whether a piece is a loop, and nothing follows it.
#[tactic(auto, using(crate::proofs::Trials::tried))]
fn is_whole_loop(shape: &Region, rest: &[Region]) -> bool
    ensures { result ≡ are.is_whole_loop (piece shape.now) (pieces rest.now) }
{
    match shape {
        Region::Loop(_) => rest.is_empty(),
        Region::Basic(_) | Region::If(_, _) | Region::LabelledBlock(_) | Region::Dispatch => false,
    }
}

/// Whether a list stands for its blocks, where `following` is the block after it. `seen` has the blocks whose labels are in scope.
#[tactic(auto, using(crate::proofs::Trials::tried))]
#[cycle(occurrence)]
fn list_stands(
    alloc: Global,
    against: Against<'_>,
    seen: &[u32],
    list: &[Region],
    following: Option<u32>,
) -> Result<bool, Failure>
    ensures { IfOk result (λ so. so ≡
        are.pieces_stand against.entry.body.now against.entry.entries.now against.entry.again.now seen.now following (pieces list.now)) }
{
    for (place, shape) in list.iter().enumerate() {
        let next = block_after(&list[place + 1..], following);
        if !region_stands(alloc, against, seen, shape, next)? {
            return Ok(false);
        }
    }
    Ok(true)
}

/// Whether a piece stands for its blocks.
#[tactic(auto, using(crate::proofs::Trials::tried))]
#[cycle(occurrence)]
fn region_stands(
    alloc: Global,
    against: Against<'_>,
    seen: &[u32],
    shape: &Region,
    following: Option<u32>,
) -> Result<bool, Failure>
    ensures { IfOk result (λ so. so ≡
        are.piece_stands against.entry.body.now against.entry.entries.now against.entry.again.now seen.now following (piece shape.now)) }
{
    match shape {
        Region::Basic(block) => Ok(block_occurs(against, seen, *block, following)),
        Region::If(block, list) => {
            let side = list.as_slice();
            if !if_stands(against, seen, *block, first_of(side), following) {
                return Ok(false);
            }
            list_stands(alloc, against, seen, side, None)
        }
        Region::LabelledBlock(list) => labelled_stands(
            alloc,
            against,
            seen,
            following,
            list.as_slice(),
            following,
        ),
        Region::Loop(list) => {
            let inside = list.as_slice();
            match first_of(inside) {
                Some(block) => labelled_stands(alloc, against, seen, Some(block), inside, None),
                None => list_stands(alloc, against, seen, inside, None),
            }
        }
        Region::Dispatch => Ok(dispatch_stands(against.entries, seen, following)),
    }
}

/// Whether a list stands for its blocks inside something whose label is that of a block.
#[tactic(auto, using(crate::proofs::Trials::tried))]
#[cycle(occurrence)]
fn labelled_stands(
    alloc: Global,
    against: Against<'_>,
    seen: &[u32],
    label: Option<u32>,
    list: &[Region],
    following: Option<u32>,
) -> Result<bool, Failure>
    ensures { IfOk result (λ so. so ≡ are.with_label label seen.now (λ more.
        are.pieces_stand against.entry.body.now against.entry.entries.now against.entry.again.now more following (pieces list.now))) }
{
    let Some(block) = label else {
        return Ok(false);
    };
    if is_in(seen, block) {
        return Ok(false);
    }
    let mut more = Vec::from_slice(alloc, seen)?;
    more.push(block)?;
    list_stands(alloc, against, &more, list, following)
}

/// Whether the dispatch comes to each of the blocks in which the body begins or resumes.
#[tactic(auto, using(crate::proofs::Trials::tried))]
fn dispatch_stands(entries: &[u32], seen: &[u32], following: Option<u32>) -> bool
    ensures { result ≡ are.each (are.is_come_to seen.now following) entries.now }
{
    for block in entries {
        if !is_come_to(seen, following, *block) {
            return false;
        }
    }
    true
}

/// Whether the dispatch comes to a block: it begins after that, or its label is in scope.
fn is_come_to(seen: &[u32], following: Option<u32>, block: u32) -> bool
    ensures { result ≡ are.is_come_to seen.now following block }
{
    begins(following, block) || is_in(seen, block)
}

/// Whether a block is the one that begins there.
fn begins(there: Option<u32>, block: u32) -> bool
    ensures { result ≡ are.begins there block }
{
    match there {
        Some(other) => other == block,
        None => false,
    }
}

/// Whether a list has a block.
#[tactic(auto, using(crate::proofs::Trials::tried))]
fn is_in(list: &[u32], block: u32) -> bool
    ensures { result ≡ are.is_in list.now block }
{
    for other in list {
        if *other == block {
            return true;
        }
    }
    false
}

/// Whether a block is reached: it begins after the piece, or is jumped to.
fn is_reached(against: Against<'_>, seen: &[u32], following: Option<u32>, block: u32) -> bool
    ensures { result ≡ are.is_reached against.entry.again.now seen.now following block }
{
    begins(following, block) || is_jumped_to(against, seen, block)
}

/// Whether a block is jumped to: by way of the dispatch, or its label is in scope.
fn is_jumped_to(against: Against<'_>, seen: &[u32], block: u32) -> bool
    ensures { result ≡ are.is_jumped_to against.entry.again.now seen.now block }
{
    is_numbered(against.again, block) || is_in(seen, block)
}

/// Whether a block piece stands for its block.
fn block_occurs(against: Against<'_>, seen: &[u32], number: u32, following: Option<u32>) -> bool
    ensures { result ≡ are.block_occurs against.entry.body.now against.entry.again.now
        (are.exit_occurs against.entry.body.now against.entry.entries.now against.entry.again.now seen.now following) seen.now number }
{
    match against.body.blocks.get(number as usize) {
        Some(block) => {
            steps_stand(against, seen, block.steps.as_slice())
                && exit_occurs(against, seen, following, &block.exit)
        }
        None => false,
    }
}

/// The same for a block that ends with a branch, whose side for where the test holds begins with a block.
fn if_stands(
    against: Against<'_>,
    seen: &[u32],
    number: u32,
    first: Option<u32>,
    following: Option<u32>,
) -> bool
    ensures { result ≡ are.block_occurs against.entry.body.now against.entry.again.now
        (are.side_occurs against.entry.again.now seen.now first following) seen.now number }
{
    match against.body.blocks.get(number as usize) {
        Some(block) => {
            steps_stand(against, seen, block.steps.as_slice())
                && side_occurs(against, seen, first, following, &block.exit)
        }
        None => false,
    }
}

/// Whether a terminator continues in blocks that are reached.
fn exit_occurs(
    against: Against<'_>,
    seen: &[u32],
    following: Option<u32>,
    exit: &Terminator,
) -> bool
    ensures { result ≡ are.exit_occurs against.entry.body.now against.entry.entries.now against.entry.again.now seen.now following exit.now }
{
    match exit {
        Terminator::Jump(to) => is_reached(against, seen, following, *to),
        Terminator::Branch { test: _, yes, no } => {
            is_reached(against, seen, following, *yes) && is_reached(against, seen, following, *no)
        }
        Terminator::Suspend { value: _, resume } => suspension_occurs(against, *resume),
        Terminator::Fault { kind: _, fail } => raise_occurs(against, seen, fail.raised),
        Terminator::Return { value: _ } => true,
        Terminator::Quit => true,
        Terminator::Raise { .. } => true,
    }
}

/// Whether a terminator is a branch that continues in a side, and else in a block that is reached.
fn side_occurs(
    against: Against<'_>,
    seen: &[u32],
    first: Option<u32>,
    following: Option<u32>,
    exit: &Terminator,
) -> bool
    ensures { result ≡ are.side_occurs against.entry.again.now seen.now first following exit.now }
{
    match exit {
        Terminator::Branch { test: _, yes, no } => {
            begins(first, *yes) && is_reached(against, seen, following, *no)
        }
        _ => false,
    }
}

/// Whether the blocks are jumped to that raises of the operations go to.
#[tactic(auto, using(crate::proofs::Trials::tried))]
fn steps_stand(against: Against<'_>, seen: &[u32], steps: &[CfgOperation]) -> bool
    ensures { result ≡ are.each (are.step_occurs against.entry.body.now against.entry.again.now seen.now) steps.now }
{
    for step in steps {
        if !step_occurs(against, seen, step) {
            return false;
        }
    }
    true
}

/// Whether the block is jumped to that a raise of an operation goes to.
fn step_occurs(against: Against<'_>, seen: &[u32], step: &CfgOperation) -> bool
    ensures { result ≡ are.step_occurs against.entry.body.now against.entry.again.now seen.now step.now }
{
    match raised_of(step) {
        Some(raised) => raise_occurs(against, seen, raised),
        None => true,
    }
}

/// Whether the block of a raise is jumped to, or the raise leaves the body at once.
fn raise_occurs(against: Against<'_>, seen: &[u32], raised: Handler) -> bool
    ensures { result ≡ are.raise_occurs against.entry.body.now against.entry.again.now seen.now raised }
{
    leaves(against.body, raised) || is_jumped_to(against, seen, raised.block)
}

/// Whether the block in which a suspension resumes is one of the entries.
fn suspension_occurs(against: Against<'_>, resume: Option<u32>) -> bool
    ensures { result ≡ are.suspension_occurs against.entry.entries.now resume }
{
    match resume {
        Some(block) => is_in(against.entries, block),
        None => true,
    }
}
