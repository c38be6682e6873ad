//! Signatures as keys of a table, in which two are equal if they conflict.

ghost use Rattle.std.specs.Prelude.{◌≡◌, fold};
ghost use Rattle.std.specs.Cmp.{partial_equiv_from_equiv};
ghost use Rattle.std.specs.Hash as fed;
ghost use Rattle.sa_overload.specs.Conflict.{do_conflict};
ghost use Rattle.sa_include_conflicts.specs.SignatureKeys.{argument_writes, conflict_Alike, conflict_equiv, seen, seen_writes, sig_writes};

use sa_ast::{ModeTy, Ty};
use sa_overload::conflict;
use sa_subst::{Sig, is_abstract};
use std::hash::{Hash, Hasher};
use std::marker::Model;

/// A signature, which is equal to those that it conflicts with.
#[derive(Drop)]
pub(crate) struct SignatureKey {
    sig: Sig,
}

impl Model for SignatureKey {
    ghost use Rattle.sa_subst.specs.declared.sig.Sig.{Sig};
    ghost use Rattle.sa_ast.specs.contracts.ty.Ty as e;
    ghost use Rattle.std.specs.Coded.{codes};

    ghost Value = { Sig };

    ghost coded = { Prim.hlevel (codes, e.the_row.coded) };

    ghost view = { λ s. s.sig };
}

impl SignatureKey {
    pub(crate) fn new(sig: Sig) -> SignatureKey
        ensures { result ≡ sig }
    {
        SignatureKey { sig }
    }
}

impl PartialEq for SignatureKey {
    ghost eq = { do_conflict };

    ghost laws = { partial_equiv_from_equiv conflict_equiv };

    fn eq(&self, other: &SignatureKey) -> bool {
        conflict(&self.sig, &other.sig)
    }
}

impl Eq for SignatureKey {
    ghost laws = { conflict_equiv };
}

impl Hash for SignatureKey {
    ghost hash_input = { sig_writes };

    ghost respects_eq = { conflict_Alike.fed };

    fn hash<H: Hasher>(&self, state: &mut H) {
        self.sig.name.hash(state);
        self.sig.result.is_some().hash(state);
        hash_args(self.sig.args.as_slice(), state);
    }
}

#[tactic(auto, using(crate::proofs::Hashes::hashes))]
fn hash_args<H: Hasher>(args: &[ModeTy], state: &mut H)
    ensures { state.new ≡ fold H.write state.old (fed.slice argument_writes args.now) }
{
    state.write_usize(args.len());
    for arg in args {
        hash_arg(arg, state);
    }
}

fn hash_arg<H: Hasher>(arg: &ModeTy, state: &mut H)
    ensures { state.new ≡ fold H.write state.old (argument_writes arg.now) }
{
    arg.mode.hash(state);
    hash_type(&arg.ty, state);
}

/// All abstract types are alike.
fn hash_type<H: Hasher>(ty: &Ty, state: &mut H)
    ensures { state.new ≡ fold H.write state.old (seen_writes (seen ty.now)) }
{
    if is_abstract(ty) {
        state.write_u8(0);
    } else {
        state.write_u8(1);
        ty.hash(state);
    }
}
