//! The lists of signatures, numbered one after another and found by name.

use crate::features::feature_of;
use crate::listed::{ListedSignature, Lists};
use crate::signatures::{Names, Origin, Signatures};
use failure::{Failure, Invariant, known};
use indexmap::IndexMap;
use sa_graph::word;
use sa_instantiate::Instances;
use smallvec::SmallVec;
use sqlite_items::Items;
use std::alloc::Global;

/// The signatures in the order of the lists.
pub(crate) fn numbered(
    alloc: Global,
    program: &Instances<'_>,
    lists: &Lists,
) -> Result<Signatures, Failure> {
    let mut signatures = Signatures {
        origins: Items::new(alloc),
        starts: Items::new(alloc),
        names: Items::new(alloc),
        unlike: lists.unlike,
    };
    signatures.starts.push(0)?;
    for (ty, list) in lists.by_type.iter().enumerate() {
        add_list(
            alloc,
            program,
            &mut signatures,
            word(ty, Invariant::SignatureTable)?,
            list.as_slice(),
        )?;
    }
    Ok(signatures)
}

/// Numbers the signatures of a type.
fn add_list(
    alloc: Global,
    program: &Instances<'_>,
    signatures: &mut Signatures,
    ty: u32,
    list: &[ListedSignature],
) -> Result<(), Failure> {
    let mut names = IndexMap::new(alloc);
    for listed in list {
        let place = word(signatures.origins.len(), Invariant::SignatureTable)?;
        add_name(alloc, program, &mut names, listed, place)?;
        signatures.origins.push(Origin {
            ty,
            from: listed.from,
            member: listed.member,
        })?;
    }
    signatures.names.push(names)?;
    signatures
        .starts
        .push(word(signatures.origins.len(), Invariant::SignatureTable)?)?;
    Ok(())
}

/// Adds the number of a signature to those of its name.
fn add_name(
    alloc: Global,
    program: &Instances<'_>,
    names: &mut Names,
    listed: &ListedSignature,
    place: u32,
) -> Result<(), Failure> {
    let member = known(
        program.member(listed.from, listed.member),
        Invariant::SignatureTable,
    )?;
    let name = feature_of(program, listed.from, member)?
        .name
        .name
        .as_slice();
    if let Some(places) = names.get_mut(name) {
        places.push(place)?;
        return Ok(());
    }
    let mut places = SmallVec::new(alloc);
    places.push(place)?;
    names.insert(Vec::from_slice(alloc, name)?, places)?;
    Ok(())
}
