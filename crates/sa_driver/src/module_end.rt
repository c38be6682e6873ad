//! The explanation for a module that `exec` doesn't run, or that ended by itself.

use crate::cause::Cause;
use crate::function::say_function;
use crate::malformed::malformed;
use crate::unlinked::unlinked;
use failure::Failure;
use sa_ast::FaultKind;
use sa_diagnostics::{MessagePart, Sentences};
use std::alloc::{AllocError, Global};
use wa_syntax::TrapKind;

/// The explanation of a cause with which a module of these bytes ended, in this function where it is known; nothing for a cause that is
/// never the end of a module.
pub fn module_end(
    alloc: Global,
    module: &[u8],
    cause: Cause,
    func: Option<usize>,
) -> Result<Vec<u8>, Failure> {
    let mut said = Sentences::new(alloc);
    match cause {
        Cause::Malformed => malformed(module, &mut said)?,
        Cause::Invalid(own) => invalid(own, &mut said)?,
        Cause::Unlinked(number) => unlinked(alloc, module, number, &mut said)?,
        Cause::Segment => segment(&mut said)?,
        Cause::Trap(kind) => {
            trap(kind, &mut said)?;
            say_function(alloc, module, func, "It was in function ", &mut said)?;
            said.say_words("Look at what has made the module; `listing` shows its instructions.")?;
        }
        Cause::TooDeep => {
            said.say_words("40000 functions of the module are running, and one more begins.")?;
            say_function(alloc, module, func, "It is called in function ", &mut said)?;
            said.say_words("See that what calls itself comes to an end, or make a loop of it.")?;
        }
        Cause::Stopped(code, _) => stopped(code, &mut said)?,
        _ => {}
    }
    Ok(said.text)
}

fn invalid(func: Option<u32>, said: &mut Sentences) -> Result<(), AllocError> {
    match func {
        Some(number) => said.say(&[
            MessagePart::Words("Function "),
            MessagePart::Number(number as usize),
            MessagePart::Words(
                " of the module's own, from 0, breaks a rule of the standard, so no engine runs it.",
            ),
        ])?,
        None => said.say_words(
            "The module breaks a rule of the standard outside of its functions, so no engine runs it.",
        )?,
    }
    said.say_words("Look at what has made it; `listing` shows its instructions.")
}

fn segment(said: &mut Sentences) -> Result<(), AllocError> {
    said.say_words(
        "A data segment doesn't fit into the memory, or an element segment into the table.",
    )?;
    said.say_words("Make the memory or the table larger.")
}

fn trap(kind: TrapKind, said: &mut Sentences) -> Result<(), AllocError> {
    said.say_words(match kind {
        TrapKind::Unreachable => "The module has come to an `unreachable`.",
        TrapKind::DivZero => "A division or a remainder has the divisor 0.",
        TrapKind::Overflow => "The quotient of a signed division doesn't fit.",
        TrapKind::Memory => "A load or a store is past the end of the memory.",
        TrapKind::Element => "A call through the table is past its end.",
        TrapKind::Uninitialised => "A call through the table is of an element that was never set.",
        TrapKind::Mismatch => "A call through the table is of a function of another type.",
    })
}

/// A sentence on a module that called `env.stop` with this code.
fn stopped(code: u32, said: &mut Sentences) -> Result<(), AllocError> {
    match FaultKind::of_number(code) {
        Some(kind) => said.say(&[
            MessagePart::Words("The module ended itself. Where `build` has made it, "),
            MessagePart::Number(code as usize),
            MessagePart::Words(" is the fault "),
            MessagePart::Code(kind.text().as_bytes()),
            MessagePart::Words("."),
        ])?,
        None => said.say_words(
            "The module ended itself by a call of `env.stop` with this number.",
        )?,
    }
    said.say_words(
        "To see the line of a fault run the source, or look its site up in the file that `build --sites` wrote.",
    )
}
