//! The lines of the refusals that are reported after the first one.

ghost use Rattle.std.specs.Prelude.{◌≡◌, ◌++◌, IfOk, OnOk};
ghost use Rattle.std.specs.List.{All};
ghost use Rattle.sa_driver.specs.Further.{IsFurther, refusal_line, refusal_lines};

use crate::checkers::is_of_checker;
use crate::lines::about_place;
use crate::place::is_place_in;
use failure::{Failure, Invariant, broken};
use sa_ast::{Refusal, Sources};
use std::alloc::Global;

/// The lines of refusals of a program of these texts, in order. A refusal that isn't the checker's, or at no position in the texts, which
/// the checker never gives, is an internal error.
pub fn refusal_lines(
    alloc: Global,
    sources: &Sources,
    refusals: &[Refusal],
) -> Result<Vec<u8>, Failure>
    ensures lines { IfOk result (λ lines. lines.items ≡ refusal_lines sources.now refusals.now) }
    ensures further { IfOk result (λ lines. All (IsFurther sources.now) refusals.now) }
{
    let mut lines = Vec::new(alloc);
    for refusal in refusals {
        add_line(alloc, &mut lines, sources, *refusal)?;
    }
    Ok(lines)
}

/// Adds the line of a refusal.
fn add_line(
    alloc: Global,
    lines: &mut Vec<u8>,
    sources: &Sources,
    refusal: Refusal,
) -> Result<(), Failure>
    ensures line { OnOk result (lines.new.items ≡ lines.old.items ++ refusal_line sources.now refusal) }
    ensures further { OnOk result (IsFurther sources.now refusal) }
{
    if !is_of_checker(refusal.rule) {
        return broken(Invariant::RefusalPhase);
    }
    if !is_place_in(sources.texts.as_slice(), refusal.pos) {
        return broken(Invariant::RefusalPosition);
    }
    let line = about_place(alloc, sources, refusal.pos, "", refusal.rule.text())?;
    lines.extend_from_slice(line.as_slice())?;
    Ok(())
}
