//! What a node is matched against.

ghost use Rattle.std.specs.Prelude.{◌≡◌};
ghost use Rattle.sa_subtypes.specs.Questions.{item_of, same_item};
ghost use Rattle.sa_unify.specs.Spelled.{a_mode, a_type};
ghost use Rattle.sa_ast.specs.Types.{bare};

use sa_ast::{Mode, Ty};

/// What a node is matched against: a type, or the mode of an argument.
#[derive(Clone, Copy)]
pub(crate) enum TypePart<'a> {
    Typed(&'a Ty),
    Passed(Mode),
}

/// Whether two are the same, up to positions.
pub(crate) fn is_same(one: TypePart<'_>, other: TypePart<'_>) -> bool
    ensures { result ≡ same_item (item_of one.entry) (item_of other.entry) }
{
    match one {
        TypePart::Typed(ty) => is_same_type(ty, other),
        TypePart::Passed(mode) => is_same_mode(mode, other),
    }
}

fn is_same_type(one: &Ty, other: TypePart<'_>) -> bool
    ensures { result ≡ same_item (a_type (bare one.now)) (item_of other.entry) }
{
    match other {
        TypePart::Typed(ty) => *one == *ty,
        TypePart::Passed(_) => false,
    }
}

fn is_same_mode(one: Mode, other: TypePart<'_>) -> bool
    ensures { result ≡ same_item (a_mode one) (item_of other.entry) }
{
    match other {
        TypePart::Typed(_) => false,
        TypePart::Passed(mode) => one == mode,
    }
}
