//! What the numbers of a typed program stand for: the names of types and features.

use crate::builtin::builtin_name;
use crate::writer::Writer;
use sa_ast::{Class, Pos, Ty};
use sa_prelude::BuiltinFeature;
use sa_typed::{Target, TypedCallee, TypedFeature, TypedProgram};
use sqlite_items::Items;
use std::alloc::AllocError;

/// What the numbers of a typed program stand for, and how much of the program is printed.
#[derive(Clone, Copy)]
pub struct Symbols<'a> {
    pub core: &'a TypedProgram,
    /// The classes that its texts declare, the prelude's first.
    pub classes: &'a [Class],
    /// The texts, which spell the names of features.
    pub texts: &'a [Items<u8>],
    /// Whether what the prelude declares and the compiler adds is printed too.
    pub all: bool,
}

impl<'a> Symbols<'a> {
    /// Whether what is written at this position is printed.
    pub(crate) fn prints_at(self, pos: Pos) -> bool {
        self.all || pos.file != 0
    }

    /// Whether a type is printed: a bound type, or one of a class that isn't the prelude's.
    pub(crate) fn prints_type(self, place: usize) -> bool {
        match self.core.types.as_slice().get(place) {
            Some(info) => self.all || self.is_own(&info.ty),
            None => false,
        }
    }

    fn is_own(self, ty: &Ty) -> bool {
        match ty {
            Ty::Named(name, _, _) => !self
                .classes
                .iter()
                .take_while(|class| class.name.pos.file == 0)
                .any(|class| class.name.name == *name),
            _ => true,
        }
    }

    /// The feature of this number.
    pub(crate) fn feature(self, number: u32) -> Option<&'a TypedFeature> {
        self.core.features.as_slice().get(number as usize)
    }

    /// The name of a type.
    pub(crate) fn put_type(self, to: &mut Writer, number: u32) -> Result<(), AllocError> {
        match self.core.types.as_slice().get(number as usize) {
            Some(info) => to.ty(&info.ty),
            None => to.numbered("type ", number),
        }
    }

    /// The names of types.
    pub(crate) fn put_types(self, to: &mut Writer, numbers: &[u32]) -> Result<(), AllocError> {
        let mut first = true;
        for number in numbers {
            to.put(if first { "" } else { ", " })?;
            self.put_type(to, *number)?;
            first = false;
        }
        Ok(())
    }

    /// The type of what was named, where there is one.
    pub(crate) fn put_of_type(self, to: &mut Writer, ty: Option<u32>) -> Result<(), AllocError> {
        match ty {
            Some(ty) => {
                to.put(": ")?;
                self.put_type(to, ty)
            }
            None => Ok(()),
        }
    }

    /// A variable with its type, after the mode of an argument.
    pub(crate) fn put_variable(
        self,
        to: &mut Writer,
        place: usize,
        ty: u32,
    ) -> Result<(), AllocError> {
        to.put("v")?;
        to.place(place)?;
        to.put(": ")?;
        self.put_type(to, ty)
    }

    /// The name of a feature, after that of its type.
    pub(crate) fn put_feature(self, to: &mut Writer, number: u32) -> Result<(), AllocError> {
        match self.feature(number) {
            Some(feature) => self.put_name(to, feature),
            None => to.numbered("feature ", number),
        }
    }

    /// The name of a feature, after that of its type: as it is written where the feature is.
    pub(crate) fn put_name(
        self,
        to: &mut Writer,
        feature: &TypedFeature,
    ) -> Result<(), AllocError> {
        self.put_type(to, feature.class)?;
        to.put(".")?;
        match self.texts.get(feature.pos.file as usize) {
            Some(text) => put_name_at(to, text.as_slice(), feature.pos.at as usize),
            None => Ok(()),
        }
    }

    /// A built-in feature of a type, where that is known.
    pub(crate) fn put_builtin(
        self,
        to: &mut Writer,
        feature: BuiltinFeature,
        ty: Option<u32>,
    ) -> Result<(), AllocError> {
        let (class, name) = builtin_name(feature);
        match ty {
            Some(ty) => self.put_type(to, ty)?,
            None => to.put(class)?,
        }
        to.put(".")?;
        to.put(name)
    }

    /// An attribute of a type, by its place among the attributes, after what is done with it.
    pub(crate) fn put_attribute(
        self,
        to: &mut Writer,
        word: &str,
        ty: Option<u32>,
        place: u32,
    ) -> Result<(), AllocError> {
        to.put(word)?;
        if let Some(ty) = ty {
            self.put_type(to, ty)?;
        }
        to.numbered(".", place)
    }

    /// What a call of a feature of a type does, where the type is known.
    pub(crate) fn put_target(
        self,
        to: &mut Writer,
        target: Target,
        ty: Option<u32>,
    ) -> Result<(), AllocError> {
        match target {
            Target::Feature(number) => self.put_feature(to, number),
            Target::Builtin(feature) => self.put_builtin(to, feature, ty),
            Target::Get(place) => self.put_attribute(to, "get ", ty, place),
            Target::Set(place) => self.put_attribute(to, "set ", ty, place),
            Target::GetShared(number) => to.numbered("get_shared ", number),
            Target::SetShared(number) => to.numbered("set_shared ", number),
        }
    }

    /// A signature, after the name of its type.
    pub(crate) fn put_signature(self, to: &mut Writer, place: usize) -> Result<(), AllocError> {
        match self.core.sigs.as_slice().get(place) {
            Some(signature) => {
                self.put_type(to, signature.ty)?;
                to.put(".")?;
                to.bytes(signature.sig.name.as_slice())
            }
            None => {
                to.put("signature ")?;
                to.place(place)
            }
        }
    }

    /// What is called.
    pub(crate) fn put_callee(self, to: &mut Writer, callee: TypedCallee) -> Result<(), AllocError> {
        match callee {
            TypedCallee::Static(target, ty) => self.put_target(to, target, Some(ty)),
            TypedCallee::Dispatch(number) => {
                to.put("dispatch ")?;
                self.put_signature(to, number as usize)
            }
            TypedCallee::Bound => to.put("bound"),
        }
    }

    /// What a feature is, its name, its arguments as its first variables, and its result.
    pub(crate) fn put_header(
        self,
        to: &mut Writer,
        feature: &TypedFeature,
    ) -> Result<(), AllocError> {
        to.put(if feature.iter { "iter " } else { "routine " })?;
        self.put_name(to, feature)?;
        let mut first = true;
        for (place, mode) in feature.modes.as_slice().iter().enumerate() {
            to.put(if first { "(" } else { ", " })?;
            to.mode(*mode)?;
            if let Some(ty) = feature.vars.as_slice().get(place) {
                self.put_variable(to, place, *ty)?;
            }
            first = false;
        }
        to.put(if feature.modes.as_slice().is_empty() {
            ""
        } else {
            ")"
        })?;
        self.put_of_type(to, feature.result)
    }

    /// A line of the variables of a feature that are no arguments, where there are some.
    pub(crate) fn put_variables(
        self,
        to: &mut Writer,
        feature: &TypedFeature,
    ) -> Result<(), AllocError> {
        let args = feature.modes.as_slice().len();
        let vars = feature.vars.as_slice();
        if vars.len() <= args {
            return Ok(());
        }
        let mut first = true;
        to.begin("")?;
        for (place, ty) in vars.iter().enumerate() {
            if place >= args {
                to.put(if first { "variables " } else { ", " })?;
                self.put_variable(to, place, *ty)?;
                first = false;
            }
        }
        to.end()
    }
}

/// The name that stands in a text at this place.
fn put_name_at(to: &mut Writer, text: &[u8], at: usize) -> Result<(), AllocError> {
    for byte in text.iter().skip(at) {
        if !is_of_name(*byte) {
            return Ok(());
        }
        to.bytes(&[*byte])?;
    }
    Ok(())
}

/// Whether a byte is one of a name.
fn is_of_name(byte: u8) -> bool {
    byte.is_ascii_alphanumeric() || byte == b'_' || byte == b'!'
}
