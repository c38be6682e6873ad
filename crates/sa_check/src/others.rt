//! The classes that nothing needs. MAIN is made to need them, by a feature that no source can spell and whose parameters are of their
//! types.

ghost use Rattle.std.specs.Prelude.{◌<◌, length, IfSome};

use failure::{Failure, Invariant, broken, known};
use sa_ast::{
    Access, Class, ClassKind, Feature, FeatureBody, FlatClass, FormalParam, Local, Mode, Name, Pos,
    Rejection, Shared, Ty, TypeParam,
};
use sa_instantiate::Instances;
use sa_subst::subst;
use sa_subtypes::SubtypeRelation;
use sqlite_items::Items;
use std::alloc::Global;

/// The number of the command's first file, which has the MAIN that is made.
const FIRST_FILE: u32 = 1;

/// The number of the prelude.
const PRELUDE: u32 = 0;

/// The classes of one kind among those that nothing needs.
#[derive(Clone, Copy)]
enum Which {
    WithoutParameters,
    WithParameters,
}

/// The flattened classes of a program, with a MAIN whose `main` does nothing where there is none.
pub fn with_main(alloc: Global, flat: FlatClass) -> Result<FlatClass, Failure> {
    if place_of_main(flat.classes.as_slice()).is_some() {
        return Ok(flat);
    }
    let FlatClass { classes } = flat;
    let mut classes = classes;
    classes.push(empty_main(alloc)?)?;
    Ok(FlatClass { classes })
}

/// The flattened classes of a program in which MAIN needs all classes of the files, except partial ones, which are no types, and those with
/// a bound that names a parameter of the class.
///
/// A class with parameters that one without parameters needs is no more one that nothing needs.
///
/// # Errors
///
/// The first refusal by the rules on supertypes, on `main` and on the needed types, and a `Failure`.
pub fn with_others(alloc: Global, flat: FlatClass) -> Result<FlatClass, Rejection> {
    let types = others(alloc, &flat, Which::WithoutParameters)?;
    let flat = with_types(alloc, flat, types)?;
    let types = others(alloc, &flat, Which::WithParameters)?;
    Ok(with_types(alloc, flat, types)?)
}

/// The index of MAIN.
fn place_of_main(classes: &[Class]) -> Option<usize>
    ensures within { IfSome result (λ place. place < length classes.now) }
{
    for (place, class) in classes.iter().enumerate() {
        if class.name.name.as_slice() == b"MAIN".as_slice() {
            return Some(place);
        }
    }
    None
}

/// A class MAIN whose `main` does nothing.
fn empty_main(alloc: Global) -> Result<Class, Failure> {
    let pos = Pos {
        file: FIRST_FILE,
        at: 0,
    };
    let body = FeatureBody::Routine(Shared::new(alloc, Items::new(alloc))?);
    let mut features = Items::new(alloc);
    features.push(feature(alloc, b"main", pos, Items::new(alloc), body)?)?;
    Ok(Class {
        kind: ClassKind::Reference,
        name: local(alloc, b"MAIN", pos)?,
        params: Items::new(alloc),
        below: Items::new(alloc),
        above: Items::new(alloc),
        includes: Items::new(alloc),
        features,
    })
}

/// The same classes, with a feature of MAIN that has parameters of these types. MAIN is then after the others.
fn with_types(
    alloc: Global,
    flat: FlatClass,
    types: Items<FormalParam>,
) -> Result<FlatClass, Failure> {
    let FlatClass { classes } = flat;
    let mut classes = classes;
    let Some(place) = place_of_main(classes.as_slice()) else {
        return broken(Invariant::CheckedNumber);
    };
    let mut main = classes.remove(place);
    let naming = feature(alloc, b"", main.name.pos, types, FeatureBody::Stub)?;
    main.features.push(naming)?;
    classes.push(main)?;
    Ok(FlatClass { classes })
}

/// A private feature without a result.
fn feature(
    alloc: Global,
    name: &[u8],
    pos: Pos,
    formals: Items<FormalParam>,
    part: FeatureBody,
) -> Result<Feature, Failure> {
    Ok(Feature {
        name: local(alloc, name, pos)?,
        access: Access::Private,
        formals,
        result: None,
        part,
    })
}

fn local(alloc: Global, name: &[u8], pos: Pos) -> Result<Local, Failure> {
    Ok(Local {
        name: Name::from_slice(alloc, name)?,
        pos,
    })
}

/// A parameter of the type of each class of a kind that nothing needs, in text order.
fn others(alloc: Global, flat: &FlatClass, which: Which) -> Result<Items<FormalParam>, Rejection> {
    let edges = SubtypeRelation::make(alloc, flat)?;
    let program = Instances::instantiate(alloc, flat, &edges)?;
    let needed = needed_places(alloc, &program, flat.classes.len())?;
    Ok(formals(alloc, flat.classes.as_slice(), which, needed.as_slice())?)
}

/// For each of this many classes whether a needed type is of it.
fn needed_places(
    alloc: Global,
    program: &Instances<'_>,
    classes: usize,
) -> Result<Vec<bool>, Failure> {
    let mut needed = vec![in alloc; false; classes]?;
    for ty in 0..program.count() {
        if let Some(class) = program.class(ty) {
            let place = known(
                program.edges().class_place(class.name.name.as_slice()),
                Invariant::CheckedNumber,
            )?;
            *known(needed.get_mut(place as usize), Invariant::CheckedNumber)? = true;
        }
    }
    Ok(needed)
}

/// A parameter of the type of each class of a kind that isn't among the needed ones.
fn formals(
    alloc: Global,
    classes: &[Class],
    which: Which,
    needed: &[bool],
) -> Result<Items<FormalParam>, Failure> {
    let mut formals = Items::new(alloc);
    for (class, is_needed) in classes.iter().zip(needed.iter()) {
        if !*is_needed && is_among(class, which) {
            add_formal(alloc, class, &mut formals)?;
        }
    }
    Ok(formals)
}

/// Whether a class is one of a file and of this kind, and no partial one.
fn is_among(class: &Class, which: Which) -> bool {
    let has_parameters = !class.params.is_empty();
    let is_of_kind = match which {
        Which::WithoutParameters => !has_parameters,
        Which::WithParameters => has_parameters,
    };
    is_of_kind && class.kind != ClassKind::Partial && class.name.pos.file != PRELUDE
}

/// Adds a parameter of the type of a class, if it is one at its bounds.
fn add_formal(
    alloc: Global,
    class: &Class,
    formals: &mut Items<FormalParam>,
) -> Result<(), Failure> {
    if let Some(ty) = at_bounds(alloc, class)? {
        let local = local(alloc, b"", class.name.pos)?;
        let mode = Mode::In;
        formals.push(FormalParam { mode, local, ty })?;
    }
    Ok(())
}

/// The type of a class with its bounds as type arguments, and with `$OB` for those parameters that have none. `None` where a bound names a
/// parameter.
fn at_bounds(alloc: Global, class: &Class) -> Result<Option<Ty>, Failure> {
    let tops = tops(alloc, class.params.as_slice())?;
    let mut args = Items::new(alloc);
    for (param, top) in class.params.as_slice().iter().zip(tops.as_slice().iter()) {
        let bound = bound_or(param, top);
        if names_parameter(alloc, bound, class.params.as_slice(), tops.as_slice())? {
            return Ok(None);
        }
        args.push(bound.copy(alloc)?)?;
    }
    let name = class.name.name.copy(alloc)?;
    Ok(Some(Ty::Named(name, args, class.name.pos)))
}

/// `$OB` for each of these parameters, at its position.
fn tops(alloc: Global, params: &[TypeParam]) -> Result<Items<Ty>, Failure> {
    let mut tops = Items::new(alloc);
    for param in params {
        let name = Name::from_slice(alloc, b"$OB")?;
        tops.push(Ty::Named(name, Items::new(alloc), param.name.pos))?;
    }
    Ok(tops)
}

/// The bound of a parameter, or this type where it has none.
fn bound_or<'a>(param: &'a TypeParam, top: &'a Ty) -> &'a Ty {
    match &param.bound {
        Some(bound) => bound,
        None => top,
    }
}

/// Whether a type is another one once `$OB` is substituted for each of these parameters.
fn names_parameter(
    alloc: Global,
    ty: &Ty,
    params: &[TypeParam],
    tops: &[Ty],
) -> Result<bool, Failure> {
    let same = Ty::Same(Pos {
        file: PRELUDE,
        at: 0,
    });
    Ok(subst(alloc, ty, params, tops, &same)? != *ty)
}
