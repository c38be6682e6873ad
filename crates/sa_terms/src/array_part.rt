//! Whether objects of a class have an array part, and the type of its elements.

use crate::terms::TypeTerms;
use sa_ast::{Feature, FeatureBody, Ty};

/// Whether objects of a class with these features have an array part: whether one is a built-in of AREF or ARRAY.
pub(crate) fn has_array(features: &[Feature]) -> bool {
    for feature in features {
        if is_of_array(&feature.part) {
            return true;
        }
    }
    false
}

fn is_of_array(part: &FeatureBody) -> bool {
    match part {
        FeatureBody::Builtin(class, _) => {
            class.as_slice() == b"AREF".as_slice() || class.as_slice() == b"ARRAY".as_slice()
        }
        _ => false,
    }
}

/// The term of the type that AREF's `aget` gives or that its `aset` takes, where one of them is a feature.
pub(crate) fn element_of(features: &[Feature], terms: &TypeTerms<'_>) -> Option<u32> {
    for feature in features {
        if let Some(ty) = element_type(feature) {
            return terms.term(ty);
        }
    }
    None
}

fn element_type(feature: &Feature) -> Option<&Ty> {
    let FeatureBody::Builtin(class, name) = &feature.part else {
        return None;
    };
    if class.as_slice() != b"AREF".as_slice() {
        return None;
    }
    if name.as_slice() == b"aget".as_slice() {
        return feature.result.as_ref();
    }
    if name.as_slice() == b"aset".as_slice() {
        return Some(&feature.formals.get(1)?.ty);
    }
    None
}
