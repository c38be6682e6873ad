//! The classes of a program as they are written, by name and by position.

use sa_ast::{Access, Class, Feature, FeatureBody, Pos, Sources, Ty};

/// A property of features, by which they are looked for.
#[derive(Clone, Copy)]
pub enum Quality {
    Any,
    /// It has a result, and can't be written.
    Gives,
    /// It has no result.
    GivesNone,
    /// It takes this number of arguments, as it is read or as it is written.
    Takes(usize),
    /// Other classes read it, and only its own writes it.
    ReadOnly,
    /// Only its own class sees it.
    Private,
}

/// The classes of a program, those of the prelude first, and its texts. Where the texts don't parse there are no classes.
#[derive(Clone, Copy)]
pub struct Declarations<'a> {
    pub classes: &'a [Class],
    pub sources: &'a Sources,
}

impl<'a> Declarations<'a> {
    /// The first class with a name, or none.
    pub fn class(self, name: &[u8]) -> Option<&'a Class> {
        self.classes
            .iter()
            .find(|class| class.name.name.as_slice() == name)
    }

    /// The class whose text a position is in, or none.
    pub fn class_at(self, pos: Pos) -> Option<&'a Class> {
        let mut found = None;
        for class in self.classes {
            if is_before(class.name.pos, pos) {
                found = Some(class);
            }
        }
        found
    }

    /// The class whose text a position is in, and its feature there, or none.
    pub fn feature_at(self, pos: Pos) -> Option<(&'a Class, &'a Feature)> {
        let class = self.class_at(pos)?;
        let mut found = None;
        for feature in class.features.as_slice() {
            if is_before(feature.name.pos, pos) {
                found = Some(feature);
            }
        }
        Some((class, found?))
    }

    /// How many features with this name and property all classes write.
    pub fn count(self, name: &[u8], quality: Quality) -> usize {
        let mut count = 0usize;
        for class in self.classes {
            count = count.saturating_add(count_in(class, name, quality));
        }
        count
    }

    /// Whether an include of some class renames a feature to this name, so that more features have it than are written.
    pub fn is_given(self, name: &[u8]) -> bool {
        self.classes.iter().any(|class| gives_name(class, name))
    }

    /// The first class that writes a feature with this name and property, or none.
    pub fn class_with(self, name: &[u8], quality: Quality) -> Option<&'a Class> {
        self.classes
            .iter()
            .find(|class| count_in(class, name, quality) > 0)
    }

    /// The name of the file that a position is in.
    pub fn file(self, pos: Pos) -> &'a [u8] {
        self.file_at(pos.file)
    }

    /// The name of the file with an index, or no bytes where there is none.
    pub fn file_at(self, number: u32) -> &'a [u8] {
        match self.sources.names.get(number as usize) {
            Some(name) => name.as_slice(),
            None => &[],
        }
    }

    /// The number of the line that a position is in, from 1, or 0 where its file has no text.
    pub fn line(self, pos: Pos) -> usize {
        match self.sources.texts.get(pos.file as usize) {
            Some(text) => line_in(text.as_slice(), pos.at as usize),
            None => 0,
        }
    }
}

/// The number of the line, from 1, that a position of a text is in.
pub fn line_in(text: &[u8], place: usize) -> usize {
    text.iter()
        .take(place)
        .filter(|byte| **byte == b'\n')
        .count()
        .saturating_add(1)
}

/// Whether a position is in the same file as another one, and not after it.
fn is_before(name: Pos, pos: Pos) -> bool {
    name.file == pos.file && name.at <= pos.at
}

/// How many features with this name and property a class writes.
pub fn count_in(class: &Class, name: &[u8], quality: Quality) -> usize {
    let mut count = 0usize;
    for feature in class.features.as_slice() {
        if feature.name.name.as_slice() == name && is_of(feature, quality) {
            count = count.saturating_add(1);
        }
    }
    count
}

/// Whether an include of a class renames a feature to this name.
fn gives_name(class: &Class, name: &[u8]) -> bool {
    for include in class.includes.as_slice() {
        for change in include.changes.as_slice() {
            if let Some(to) = &change.to
                && to.as_slice() == name
            {
                return true;
            }
        }
    }
    false
}

/// The first feature with this name that a class writes, or none.
pub fn feature_in<'a>(class: &'a Class, name: &[u8]) -> Option<&'a Feature> {
    class
        .features
        .as_slice()
        .iter()
        .find(|feature| feature.name.name.as_slice() == name)
}

/// Whether a type parameter of a class has this name.
pub fn has_parameter(class: &Class, name: &[u8]) -> bool {
    class
        .params
        .as_slice()
        .iter()
        .any(|param| param.name.name.as_slice() == name)
}

/// The name of a type that is a class without type parameters, or none.
pub fn plain_name(ty: &Ty) -> Option<&[u8]> {
    match ty {
        Ty::Named(name, args, _) if args.is_empty() => Some(name.as_slice()),
        _ => None,
    }
}

fn is_of(feature: &Feature, quality: Quality) -> bool {
    match quality {
        Quality::Any => true,
        Quality::Gives => feature.result.is_some() && !is_written(feature),
        Quality::GivesNone => feature.result.is_none(),
        Quality::Takes(count) => {
            feature.formals.len() == count || (count == 1 && is_written(feature))
        }
        Quality::ReadOnly => feature.access == Access::ReadOnly,
        Quality::Private => feature.access == Access::Private,
    }
}

/// Whether a feature has a writer beside its reader.
fn is_written(feature: &Feature) -> bool {
    matches!(feature.part, FeatureBody::Attr | FeatureBody::Shared(_))
}
