//! When two signatures conflict: no call could tell them apart.

ghost use Rattle.std.specs.Prelude.{◌≡◌};
ghost use Rattle.std.specs.Cmp.Lexicographic.{pointwise};
ghost use Rattle.sa_overload.specs.Conflict.{args_clash, do_conflict, types_clash};

use sa_ast::{ModeTy, Ty};
use sa_subst::{Sig, is_abstract};

/// Whether two signatures conflict: name, number of arguments, modes and presence of a result are equal, and each pair of
/// argument types is equal or both abstract. It takes no memory.
pub fn conflict(f: &Sig, g: &Sig) -> bool
    ensures { result ≡ do_conflict f.now g.now }
{
    f.name == g.name
        && f.result.is_some() == g.result.is_some()
        && all_clash(f.args.as_slice(), g.args.as_slice())
}

/// Whether there are equally many arguments and each pair of them clashes.
#[tactic(auto, using(sa_ast::proofs::Pointwise::places))]
fn all_clash(f: &[ModeTy], g: &[ModeTy]) -> bool
    ensures { result ≡ pointwise args_clash f.now g.now }
{
    if f.len() != g.len() {
        return false;
    }
    for (i, arg) in f.iter().enumerate() {
        if !args_clash(arg, &g[i]) {
            return false;
        }
    }
    true
}

/// Whether two arguments have one mode, and types that are equal or both abstract.
fn args_clash(f: &ModeTy, g: &ModeTy) -> bool
    ensures { result ≡ args_clash f.now g.now }
{
    f.mode == g.mode && types_clash(&f.ty, &g.ty)
}

fn types_clash(f: &Ty, g: &Ty) -> bool
    ensures { result ≡ types_clash f.now g.now }
{
    *f == *g || (is_abstract(f) && is_abstract(g))
}
