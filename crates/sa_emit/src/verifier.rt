//! The verifier of functions: whether one contains a `br_table`, and which bodies ask for none.

ghost use Rattle.std.specs.Prelude.{◌≡◌, false, IfOk};
ghost use Rattle.wa_syntax.specs.Instructions.{instruction, sequence};
ghost use Rattle.sa_emit.specs.Tables as are;

use failure::{Failure, Invariant, broken};
use sa_cfg::{BasicBlock, CfgBody, Terminator};
use wa_syntax::{Func, Instr};

/// How many blocks a body has at most whose regions are sure not to nest too deep: what a block has around what is further in is a loop and
/// a condition, or a labelled block.
const FEW: usize = 150;

/// The function of a body, which has structured regions or hasn't.
///
/// # Errors
///
/// `Broken` where it holds a `br_table` that the body doesn't ask for.
pub(crate) fn tried(body: &CfgBody, is_shaped: bool, func: Func) -> Result<Func, Failure>
    ensures { IfOk result (λ func. are.IsFunctionOf body.now func) }
{
    if asks_for_table(body, is_shaped) {
        return Ok(func);
    }
    if has_table(&func) {
        return broken(Invariant::DispatchLeft);
    }
    Ok(func)
}

/// Whether the function of a body may contain a `br_table`: the body is suspended, or has no structured regions and so many blocks that it
/// may nest too deep for them.
fn asks_for_table(body: &CfgBody, is_shaped: bool) -> bool
    ensures { are.IsPlain body.now → are.HasFewBlocks body.now → result ≡ false }
{
    if are_resumed(body.blocks.as_slice()) {
        return true;
    }
    if is_shaped || body.blocks.len() <= FEW {
        return false;
    }
    true
}

/// Whether a body continues after one of the blocks once it is resumed.
#[tactic(auto, using(crate::proofs::Holding::held))]
fn are_resumed(blocks: &[BasicBlock]) -> bool
    ensures { result ≡ are.are_resumed blocks.now }
{
    for block in blocks {
        if is_resumed(&block.exit) {
            return true;
        }
    }
    false
}

/// Whether a body continues in a block after a terminator once it is resumed.
fn is_resumed(exit: &Terminator) -> bool
    ensures { result ≡ are.is_resumed exit.now }
{
    match exit {
        Terminator::Suspend { value: _, resume } => resume.is_some(),
        _ => false,
    }
}

/// Whether one of the functions contains a `br_table`.
#[tactic(auto, using(crate::proofs::Holding::held))]
pub(crate) fn have_table(funcs: &[Func]) -> bool
    ensures { result ≡ are.have_table funcs.now }
{
    for func in funcs {
        if has_table(func) {
            return true;
        }
    }
    false
}

/// Whether a function contains a `br_table`.
pub(crate) fn has_table(func: &Func) -> bool
    ensures { result ≡ are.has_table func.now }
{
    holds_table(func.body.as_slice())
}

/// Whether code contains a `br_table`, also inside its blocks.
#[tactic(auto, using(crate::proofs::Holding::held))]
#[cycle(holding)]
fn holds_table(code: &[Instr]) -> bool
    ensures { result ≡ are.holds_table (sequence code.now) }
{
    for instr in code {
        if is_table(instr) {
            return true;
        }
    }
    false
}

/// Whether an instruction is a `br_table`, or has one inside it.
#[tactic(auto, using(crate::proofs::Holding::held))]
#[cycle(holding)]
fn is_table(instr: &Instr) -> bool
    ensures { result ≡ are.is_table (instruction instr.now) }
{
    match instr {
        Instr::BrTable(_) => true,
        Instr::Block(_, inside) => holds_table(inside.get().as_slice()),
        Instr::Loop(_, inside) => holds_table(inside.get().as_slice()),
        Instr::If(_, arms) => {
            let (first, other) = arms.get();
            holds_table(first.as_slice()) || holds_table(other.as_slice())
        }
        _ => false,
    }
}
