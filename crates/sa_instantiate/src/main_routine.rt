//! The routine that a program runs: the `main` of the class MAIN.

use failure::{Failure, Invariant};
use sa_ast::{Class, ClassKind, Feature, FeatureBody, FlatClass, Pos, Rejection, Rule, Ty};
use sa_graph::word;

/// The index of `main` among the features of MAIN, which is at this index among the classes, if there is one.
///
/// MAIN has to be a reference class without parameters that has exactly one routine `main` without arguments and with no result or an INT.
/// Otherwise it is refused with E24, at MAIN's name, or at the start of the command's first file where there is no MAIN.
pub(crate) fn main_routine(flat: &FlatClass, place: Option<u32>) -> Result<u32, Rejection> {
    let Some(place) = place else {
        return Err(no_main(Pos { file: 1, at: 0 }));
    };
    let Some(class) = flat.classes.get(place as usize) else {
        return Err(Rejection::Failed(Failure::Broken(Invariant::InstanceTable)));
    };
    if class.kind != ClassKind::Reference || !class.params.is_empty() {
        return Err(no_main(class.name.pos));
    }
    match main_of(class)? {
        Some(main) => Ok(main),
        None => Err(no_main(class.name.pos)),
    }
}

fn no_main(pos: Pos) -> Rejection {
    Rule::NoMain.at(pos).into()
}

/// The index of the one routine of a class that can be run.
fn main_of(class: &Class) -> Result<Option<u32>, Failure> {
    let mut main = None;
    let mut count = 0usize;
    for (place, feature) in class.features.as_slice().iter().enumerate() {
        if can_run(feature) {
            main = Some(word(place, Invariant::CheckedCount)?);
            count = count.saturating_add(1);
        }
    }
    if count == 1 {
        return Ok(main);
    }
    Ok(None)
}

/// Whether a feature is a routine `main` without arguments and with no result or an INT.
fn can_run(feature: &Feature) -> bool {
    feature.name.name.as_slice() == b"main".as_slice()
        && feature.formals.is_empty()
        && is_routine(feature)
        && is_status(&feature.result)
}

fn is_routine(feature: &Feature) -> bool {
    match &feature.part {
        FeatureBody::Routine(_) => true,
        _ => false,
    }
}

fn is_status(of: &Option<Ty>) -> bool {
    match of {
        None => true,
        Some(ty) => is_int(ty),
    }
}

fn is_int(ty: &Ty) -> bool {
    match ty {
        Ty::Named(name, args, _) => name.as_slice() == b"INT".as_slice() && args.is_empty(),
        _ => false,
    }
}
