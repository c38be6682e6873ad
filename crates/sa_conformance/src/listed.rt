//! The list of signatures of each abstract type, made from its own and from the lists of the types after its `<`.

use crate::parents::parents;
use crate::signature_keys::{SignatureKey, SignatureKeys};
use failure::{Failure, Invariant, known, limit};
use indexmap::IndexMap;
use sa_graph::word;
use sa_instantiate::{Instances, Member};
use sa_overload::conforms;
use sqlite_items::Items;
use std::alloc::Global;

/// The greatest number of signatures that the types of a program have together.
const MOST_SIGNATURES: usize = 4_194_304;

/// A signature in a list: where it is written, and by what it hides others and is the same as others.
#[derive(Clone, Copy)]
pub(crate) struct ListedSignature {
    pub from: u32,
    pub member: u32,
    shape: SignatureKey,
    result: Option<u32>,
}

/// The lists by type.
#[derive(Drop)]
pub(crate) struct Lists {
    pub by_type: Vec<Items<ListedSignature>>,
    /// The first type of which a written signature doesn't conform to an inherited one that it hides.
    pub unlike: Option<u32>,
    shapes: SignatureKeys,
    count: usize,
}

/// The list of a type as it grows.
#[derive(Drop)]
struct GrowingList {
    ty: u32,
    list: Items<ListedSignature>,
    /// The members of the type itself, by their signature keys.
    own: IndexMap<SignatureKey, u32>,
    /// The signature keys and results of the signatures in the list. Signatures are the same where both are.
    held: IndexMap<(SignatureKey, Option<u32>), ()>,
    /// Whether a signature of the type itself doesn't conform to an inherited one that it hides.
    unlike: bool,
}

impl Lists {
    /// An empty list for each of this many types.
    pub(crate) fn new(alloc: Global, types: u32) -> Result<Lists, Failure> {
        let mut by_type = Vec::new(alloc);
        for _ in 0..types {
            by_type.push(Items::new(alloc))?;
        }
        Ok(Lists {
            by_type,
            unlike: None,
            shapes: SignatureKeys::new(alloc),
            count: 0,
        })
    }

    /// Makes the list of a type. The types after its `<` have theirs already.
    pub(crate) fn add(
        &mut self,
        alloc: Global,
        program: &Instances<'_>,
        ty: u32,
    ) -> Result<(), Failure> {
        let mut growing = self.own(alloc, program, ty)?;
        for parent in parents(alloc, program, ty)? {
            self.inherit(alloc, program, parent, &mut growing)?;
        }
        if growing.unlike {
            self.unlike = Some(first(self.unlike, ty));
        }
        self.keep(growing)
    }

    /// The signatures that a type writes, each once.
    fn own(
        &mut self,
        alloc: Global,
        program: &Instances<'_>,
        ty: u32,
    ) -> Result<GrowingList, Failure> {
        let mut growing = GrowingList {
            ty,
            list: Items::new(alloc),
            own: IndexMap::new(alloc),
            held: IndexMap::new(alloc),
            unlike: false,
        };
        for (place, member) in program.members(ty).iter().enumerate() {
            let listed = self.listed(
                alloc,
                program,
                ty,
                word(place, Invariant::SignatureTable)?,
                member,
            )?;
            growing.own.insert(listed.shape, listed.member)?;
            growing.hold(listed)?;
        }
        Ok(growing)
    }

    /// A signature as it is listed.
    fn listed(
        &mut self,
        alloc: Global,
        program: &Instances<'_>,
        from: u32,
        place: u32,
        member: &Member,
    ) -> Result<ListedSignature, Failure> {
        Ok(ListedSignature {
            from,
            member: place,
            shape: self.shapes.of(alloc, program, from, member)?,
            result: program.result(from, member),
        })
    }

    /// Inherits the signatures of a type after the `<`, except those that are hidden.
    fn inherit(
        &self,
        alloc: Global,
        program: &Instances<'_>,
        parent: u32,
        growing: &mut GrowingList,
    ) -> Result<(), Failure> {
        let inherited = known(self.by_type.get(parent as usize), Invariant::SignatureTable)?;
        for listed in inherited.as_slice() {
            growing.take_over(alloc, program, listed)?;
        }
        Ok(())
    }

    /// Stores the list of a type.
    fn keep(&mut self, growing: GrowingList) -> Result<(), Failure> {
        self.count = self.count.saturating_add(growing.list.len());
        if self.count > MOST_SIGNATURES {
            return limit();
        }
        let place = known(
            self.by_type.get_mut(growing.ty as usize),
            Invariant::SignatureTable,
        )?;
        *place = growing.list;
        Ok(())
    }
}

impl GrowingList {
    /// Appends a signature to the list, unless the same one is in it.
    fn hold(&mut self, listed: ListedSignature) -> Result<(), Failure> {
        let same = (listed.shape, listed.result);
        if self.held.insert(same, ())?.is_none() {
            self.list.push(listed)?;
        }
        Ok(())
    }

    /// Adds an inherited signature, unless it is hidden.
    fn take_over(
        &mut self,
        alloc: Global,
        program: &Instances<'_>,
        listed: &ListedSignature,
    ) -> Result<(), Failure> {
        let Some(hiding) = self.own.get(&listed.shape).copied() else {
            return self.hold(*listed);
        };
        if !hides(alloc, program, self.ty, hiding, listed)? {
            self.unlike = true;
        }
        Ok(())
    }
}

/// Whether a written signature conforms to the inherited one that it hides.
fn hides(
    alloc: Global,
    program: &Instances<'_>,
    ty: u32,
    member: u32,
    inherited: &ListedSignature,
) -> Result<bool, Failure> {
    let own = program.signature(alloc, ty, member)?;
    let other = program.signature(alloc, inherited.from, inherited.member)?;
    Ok(conforms(&own, &other, program.edges()))
}

/// The lesser of two numbers, of which the first may be missing.
fn first(one: Option<u32>, other: u32) -> u32 {
    match one {
        Some(one) => one.min(other),
        None => other,
    }
}
