//! How much is copied where contracts are woven in. A condition occurs once at each place where it is checked, so that without a limit,
//! what is woven could take memory quadratic in the size of the source.

use failure::{Failure, limit};
use sa_ast::{ModeTy, Name, Ty};
use sqlite_items::Boxed;

/// How many forms are copied at most for the contracts of one program: expressions, types in them, and one more for each 16 bytes of a name
/// or a text. The bodies of the largest source have fewer than half of these.
pub const MOST_FORMS: u64 = 8_388_608;

/// How many forms may still be copied.
#[derive(Clone, Copy)]
pub(crate) struct Budget {
    left: u64,
}

impl Budget {
    pub(crate) fn new() -> Budget {
        Budget { left: MOST_FORMS }
    }

    /// Takes so many forms, or answers that there is no memory for so many.
    fn take(&mut self, forms: u64) -> Result<(), Failure> {
        match self.left.checked_sub(forms) {
            Some(left) => {
                self.left = left;
                Ok(())
            }
            None => limit(),
        }
    }

    /// Takes the form of an expression, without those of its parts.
    pub(crate) fn take_expr(&mut self) -> Result<(), Failure> {
        self.take(1)
    }

    /// Takes what a name or a text counts besides the form that it belongs to.
    pub(crate) fn take_name(&mut self, name: &Name) -> Result<(), Failure> {
        self.take(forms_of_name(name))
    }

    /// Takes the forms of a type.
    pub(crate) fn take_type(&mut self, ty: &Ty) -> Result<(), Failure> {
        self.take(forms_of_type(ty))
    }
}

fn forms_of_name(name: &Name) -> u64 {
    (name.as_slice().len() / 16) as u64
}

#[cycle(types)]
fn forms_of_type(ty: &Ty) -> u64 {
    let inside = match ty {
        Ty::Named(name, given, _) => {
            forms_of_types(given.as_slice()).saturating_add(forms_of_name(name))
        }
        Ty::Same(_) => 0,
        Ty::Rout(args, result, _) | Ty::Iter(args, result, _) => {
            forms_of_args(args.as_slice()).saturating_add(forms_of_result(result))
        }
    };
    inside.saturating_add(1)
}

#[cycle(types)]
fn forms_of_types(types: &[Ty]) -> u64 {
    let mut forms = 0u64;
    for ty in types {
        forms = forms.saturating_add(forms_of_type(ty));
    }
    forms
}

#[cycle(types)]
fn forms_of_args(args: &[ModeTy]) -> u64 {
    let mut forms = 0u64;
    for arg in args {
        forms = forms.saturating_add(forms_of_type(&arg.ty));
    }
    forms
}

#[cycle(types)]
fn forms_of_result(of: &Option<Boxed<Ty>>) -> u64 {
    match of {
        None => 0,
        Some(ty) => forms_of_type(ty.get()),
    }
}
