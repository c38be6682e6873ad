//! The typed AST of the classes of a program: of those that MAIN needs, or of all.

use crate::passes::typed_program;
use sa_ast::{Class, FlatClass, Refusal, Rejection};
use sa_check::{Diagnostics, with_main, with_others};
use sa_include::flatten;
use sa_typed::TypedProgram;
use sqlite_items::Items;
use std::alloc::Global;

/// The typed program, whose classes begin with the prelude's and are those of these texts.
///
/// # Errors
///
/// The first refusal: by the rules on classes and their includes, on supertypes, on `main`, on the needed types, on
/// conformance, on constants, and on the bodies of the needed types, in this order; a `Failure`.
pub fn check_needed(
    alloc: Global,
    classes: &[Class],
    texts: &[Items<u8>],
) -> Result<TypedProgram, Rejection> {
    let flat = flatten(alloc, classes)?;
    let mut refused = Diagnostics::first(alloc);
    typed_program(alloc, &flat, texts, &mut refused)
}

/// The typed program with all classes of its files, also those that nothing needs: those without parameters, and those with parameters at
/// their bounds. The classes begin with the prelude's and are those of these texts. Where there is no MAIN, it is one whose `main` does
/// nothing.
///
/// # Errors
///
/// The first refusal in the order of checking: by the rules of `check_needed`, and then, where these give no refusal or refuse only
/// bodies, by the same rules with the classes that nothing needs. For each further feature whose body is refused the first refusal is put
/// at the end of `further`, in the same order, and after them the refusal with which checking ends, where it is none of a body.
/// A `Failure`.
pub(crate) fn check_all(
    alloc: Global,
    classes: &[Class],
    texts: &[Items<u8>],
    further: &mut Vec<Refusal>,
) -> Result<TypedProgram, Rejection> {
    let flat = with_main(alloc, flatten(alloc, classes)?)?;
    let mut refused = Diagnostics::of_each(alloc);
    let core = typed_with_others(alloc, flat, texts, &mut refused);
    refused.answer(core, further)
}

/// The typed program with the classes that nothing needs, after what MAIN needs has been checked by itself. It lacks the features that are
/// refused.
fn typed_with_others(
    alloc: Global,
    flat: FlatClass,
    texts: &[Items<u8>],
    refused: &mut Diagnostics,
) -> Result<TypedProgram, Rejection> {
    drop(typed_program(alloc, &flat, texts, refused)?);
    let flat = with_others(alloc, flat)?;
    typed_program(alloc, &flat, texts, refused)
}
