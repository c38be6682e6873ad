//! When a signature conforms to another: a call that is typed by the other may run the first.

ghost use Rattle.std.specs.Prelude.{◌≡◌};
ghost use Rattle.std.specs.Cmp.Lexicographic.{pointwise};
ghost use Rattle.sa_overload.specs.Conformance.{arg_conforms, does_conform, result_conforms, type_conforms};

use sa_ast::{Mode, ModeTy, Ty};
use sa_subst::Sig;
use sa_subtypes::SubtypeRelation;

/// Whether signature `f` conforms to `g`: name, number, modes and presence of a result are equal, each `in` and `once` type
/// of `g` is a subtype of `f`'s, `inout` types are equal, each `out` type of `f` is a subtype of `g`'s, and `f`'s result is a
/// subtype of `g`'s. It takes no memory.
pub fn conforms(f: &Sig, g: &Sig, edges: &SubtypeRelation) -> bool
    ensures { result ≡ does_conform edges.now f.now g.now }
{
    f.name == g.name
        && args_conform(f.args.as_slice(), g.args.as_slice(), edges)
        && result_conforms(&f.result, &g.result, edges)
}

/// Whether there are equally many arguments and each conforms.
#[tactic(auto, using(sa_ast::proofs::Pointwise::places))]
fn args_conform(f: &[ModeTy], g: &[ModeTy], edges: &SubtypeRelation) -> bool
    ensures { result ≡ pointwise (arg_conforms edges.now) f.now g.now }
{
    if f.len() != g.len() {
        return false;
    }
    for (i, arg) in f.iter().enumerate() {
        if !arg_conforms(arg, &g[i], edges) {
            return false;
        }
    }
    true
}

fn arg_conforms(f: &ModeTy, g: &ModeTy, edges: &SubtypeRelation) -> bool
    ensures { result ≡ arg_conforms edges.now f.now g.now }
{
    f.mode == g.mode && type_conforms(f.mode, &f.ty, &g.ty, edges)
}

/// Whether the type of an argument conforms at its mode.
fn type_conforms(mode: Mode, f: &Ty, g: &Ty, edges: &SubtypeRelation) -> bool
    ensures { result ≡ type_conforms edges.now mode f.now g.now }
{
    match mode {
        Mode::In | Mode::Once => edges.is_sub(g, f),
        Mode::Inout => *f == *g,
        Mode::Out => edges.is_sub(f, g),
    }
}

/// Whether both have a result and that of `f` is a subtype, or neither has one.
fn result_conforms(f: &Option<Ty>, g: &Option<Ty>, edges: &SubtypeRelation) -> bool
    ensures { result ≡ result_conforms edges.now f.now g.now }
{
    match (f, g) {
        (None, None) => true,
        (Some(f), Some(g)) => edges.is_sub(f, g),
        _ => false,
    }
}
