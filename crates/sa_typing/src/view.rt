//! The tables of a program, as the verifier reads them.

ghost use Rattle.std.specs.Prelude.{◌≡◌, option_copied};
ghost use Rattle.sa_typing.specs.Rows.{attribute, element_of, has_supertype, has_array, has_objects, is_supertype, is_abstract, is_abstract_kind};
ghost use Rattle.sa_typing.specs.Rows.{is_strict_supertype, is_immutable, is_immutable_kind, is_reference, is_reference_kind, is_type, rows, call_type_at};
ghost use Rattle.sa_typing.specs.ExprType.{is_assignable};

use crate::call_type::CallType;
use crate::expr_type::ExprType;
use sa_ast::ClassKind;
use sa_typed::{TypeDef, TypedFeature, TypedShared, TypedSignature};

/// The types, features, shareds and signatures of a program, with the call types of its bound types and signatures.
#[derive(Clone, Copy)]
pub struct TypingView<'a> {
    pub types: &'a [TypeDef],
    pub features: &'a [TypedFeature],
    pub shareds: &'a [TypedShared],
    pub signatures: &'a [TypedSignature],
    pub bound: &'a [Option<CallType>],
    pub shapes: &'a [Option<CallType>],
    /// The number of ARRAY{CHAR}.
    pub characters: Option<u32>,
}

impl TypingView<'_> {
    /// Whether a type has this number.
    pub(crate) fn is_type(&self, ty: u32) -> bool
        ensures { result ≡ is_type (rows self.now) ty }
    {
        self.types.get(ty as usize).is_some()
    }

    /// Whether a type is abstract.
    pub fn is_abstract(&self, ty: u32) -> bool
        ensures { result ≡ is_abstract (rows self.now) ty }
    {
        match self.types.get(ty as usize) {
            Some(info) => is_abstract_kind(info.kind),
            None => false,
        }
    }

    /// Whether a type is an immutable class.
    pub fn is_immutable(&self, ty: u32) -> bool
        ensures { result ≡ is_immutable (rows self.now) ty }
    {
        match self.types.get(ty as usize) {
            Some(info) => is_immutable_kind(info.kind),
            None => false,
        }
    }

    pub(crate) fn is_reference(&self, ty: u32) -> bool
        ensures { result ≡ is_reference (rows self.now) ty }
    {
        match self.types.get(ty as usize) {
            Some(info) => is_reference_kind(info.kind),
            None => false,
        }
    }

    /// Whether a type is a reference class: no bound type, and not STR, whose values are texts.
    pub(crate) fn has_objects(&self, ty: u32) -> bool
        ensures { result ≡ has_objects (rows self.now) ty }
    {
        self.is_reference(ty) && call_type_at(self.bound, ty as usize).is_none() && ty != 6
    }

    /// Whether objects of a type have an array part.
    pub(crate) fn has_array(&self, ty: u32) -> bool
        ensures { result ≡ has_array (rows self.now) ty }
    {
        match self.types.get(ty as usize) {
            Some(info) => info.array,
            None => false,
        }
    }

    /// The number of the type of a type's elements.
    pub(crate) fn element_of(&self, ty: u32) -> Option<u32>
        ensures { result ≡ element_of (rows self.now) ty }
    {
        match self.types.get(ty as usize) {
            Some(info) => info.elem,
            None => None,
        }
    }

    /// The number of the type of an attribute.
    pub(crate) fn attribute(&self, ty: u32, place: u32) -> Option<u32>
        ensures { result ≡ attribute (rows self.now) ty place }
    {
        match self.types.get(ty as usize) {
            Some(info) => info.attrs.get(place as usize).copied(),
            None => None,
        }
    }

    /// Whether the first type is one of the proper supertypes of the other.
    pub(crate) fn is_strict_supertype(&self, ty: u32, other: u32) -> bool
        ensures { result ≡ is_strict_supertype (rows self.now) ty other }
    {
        match self.types.get(other as usize) {
            Some(info) => has_supertype(ty, info),
            None => false,
        }
    }

    /// Whether the first type is the other one, or a supertype of it.
    pub fn is_supertype(&self, ty: u32, other: u32) -> bool
        ensures { result ≡ is_supertype (rows self.now) ty other }
    {
        ty == other || self.is_strict_supertype(ty, other)
    }

    /// Whether an expression of this type is assignable to that type.
    pub(crate) fn is_assignable(&self, given: ExprType, ty: u32) -> bool
        ensures { result ≡ is_assignable (rows self.now) given ty }
    {
        match given {
            ExprType::NoValue => false,
            ExprType::Of(own) => {
                own == ty || (!self.is_immutable(own) && self.is_strict_supertype(ty, own))
            }
            ExprType::BoxedOf(own) => self.is_strict_supertype(ty, own),
        }
    }
}

/// Whether a type is one of the proper supertypes of another.
#[tactic(auto, unfolding(crate::specs::Rows::has_supertype))]
pub(crate) fn has_supertype(ty: u32, info: &TypeDef) -> bool
    ensures { result ≡ has_supertype ty info.now }
{
    info.above.as_slice().iter().any(|above| ty == *above)
}

pub(crate) fn is_abstract_kind(kind: ClassKind) -> bool
    ensures { result ≡ is_abstract_kind kind }
{
    matches!(kind, ClassKind::Abstract)
}

pub(crate) fn is_immutable_kind(kind: ClassKind) -> bool
    ensures { result ≡ is_immutable_kind kind }
{
    matches!(kind, ClassKind::Immutable)
}

pub(crate) fn is_reference_kind(kind: ClassKind) -> bool
    ensures { result ≡ is_reference_kind kind }
{
    matches!(kind, ClassKind::Reference)
}

/// The call type at an index, where there is one.
pub(crate) fn call_type_at(list: &[Option<CallType>], place: usize) -> Option<&CallType>
    ensures { option_copied result ≡ call_type_at list.now place }
{
    match list.get(place) {
        Some(Some(shape)) => Some(shape),
        Some(None) => None,
        None => None,
    }
}
