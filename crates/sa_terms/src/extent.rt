//! How deep a type is, and of how many types it consists.

use sa_ast::{ModeTy, Ty};
use sqlite_items::Boxed;

/// The greatest depth of a type.
pub const DEEPEST: u32 = 8;

/// The depth of a type: 1 where no types are nested in it, else one more than that of the deepest nested type.
#[cycle(depth)]
pub fn depth(ty: &Ty) -> u32 {
    let inside = match ty {
        Ty::Named(_, args, _) => depth_of_types(args.as_slice()),
        Ty::Same(_) => 0,
        Ty::Rout(args, result, _) => depth_of_args(args.as_slice()).max(depth_of_result(result)),
        Ty::Iter(args, result, _) => depth_of_args(args.as_slice()).max(depth_of_result(result)),
    };
    inside.saturating_add(1)
}

#[cycle(depth)]
fn depth_of_types(types: &[Ty]) -> u32 {
    let mut deepest = 0;
    for ty in types {
        deepest = depth(ty).max(deepest);
    }
    deepest
}

#[cycle(depth)]
fn depth_of_args(args: &[ModeTy]) -> u32 {
    let mut deepest = 0;
    for arg in args {
        deepest = depth(&arg.ty).max(deepest);
    }
    deepest
}

#[cycle(depth)]
fn depth_of_result(of: &Option<Boxed<Ty>>) -> u32 {
    match of {
        None => 0,
        Some(ty) => depth(ty.get()),
    }
}

/// Of how many types a type consists, itself included, each occurrence counted.
#[cycle(size)]
pub fn size(ty: &Ty) -> u64 {
    let inside = match ty {
        Ty::Named(_, args, _) => size_of_types(args.as_slice()),
        Ty::Same(_) => 0,
        Ty::Rout(args, result, _) => {
            size_of_args(args.as_slice()).saturating_add(size_of_result(result))
        }
        Ty::Iter(args, result, _) => {
            size_of_args(args.as_slice()).saturating_add(size_of_result(result))
        }
    };
    inside.saturating_add(1)
}

#[cycle(size)]
fn size_of_types(types: &[Ty]) -> u64 {
    let mut sum = 0u64;
    for ty in types {
        sum = sum.saturating_add(size(ty));
    }
    sum
}

#[cycle(size)]
fn size_of_args(args: &[ModeTy]) -> u64 {
    let mut sum = 0u64;
    for arg in args {
        sum = sum.saturating_add(size(&arg.ty));
    }
    sum
}

#[cycle(size)]
fn size_of_result(of: &Option<Boxed<Ty>>) -> u64 {
    match of {
        None => 0,
        Some(ty) => size(ty.get()),
    }
}
