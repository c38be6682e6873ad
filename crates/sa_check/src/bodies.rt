//! The typed AST of a program from its tables, by the bodies of its features.

use crate::class_supertypes::supertypes_by_type;
use crate::feature_refusals::Diagnostics;
use crate::newlines::line_feeds;
use crate::sigs::program_signatures;
use crate::types::type_infos;
use crate::typing::{Typing, typed_bodies};
use failure::Failure;
use sa_ast::Rejection;
use sa_conformance::{ConformingMember, Signatures};
use sa_constants::ConstTable;
use sa_instantiate::Instances;
use sa_typed::{TypeDef, TypedProgram, TypedSignature};
use sqlite_items::Items;
use std::alloc::Global;

/// The typed program of these instances, with the signatures of its abstract types, the features that implement each of them, and the
/// values of its constants. Its classes begin with the prelude's and are those of these texts. It lacks the features that are refused,
/// where more than the first refusal is looked for.
///
/// # Errors
///
/// The first refusal by the rules on bodies, type by type, unless `refused` takes it; E55 and E56, where the program is too large; a
/// `Failure`.
pub fn check_bodies<'a>(
    alloc: Global,
    program: &'a Instances<'_>,
    signatures: &'a Signatures,
    implementations: &[Items<ConformingMember>],
    consts: &'a ConstTable,
    texts: &[Items<u8>],
    refused: &mut Diagnostics,
) -> Result<TypedProgram, Rejection> {
    let above = supertypes_by_type(alloc, program)?;
    let typing = typed_bodies(
        alloc,
        program,
        signatures,
        consts,
        above.as_slice(),
        refused,
    )?;
    let types = type_infos(alloc, program, &typing.built.bound, above)?;
    let sigs = program_signatures(alloc, program, signatures, implementations)?;
    Ok(whole(alloc, program, types, sigs, typing, texts)?)
}

/// The parts of a typed program put together.
fn whole(
    alloc: Global,
    program: &Instances<'_>,
    types: Items<TypeDef>,
    sigs: Items<TypedSignature>,
    typing: Typing,
    texts: &[Items<u8>],
) -> Result<TypedProgram, Failure> {
    let newlines = line_feeds(alloc, texts)?;
    Ok(TypedProgram {
        types,
        features: typing.features,
        sigs,
        shareds: typing.shareds,
        main: program.main(),
        newlines,
    })
}
