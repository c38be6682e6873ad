//! The types of a function's locals by index. The parameters stay where the function's type has them, and the runs of
//! declared locals are summed once, so that a look-up is a binary search among the sums.

ghost use Rattle.std.specs.Prelude.{◌≡◌, ◌+◌, ◌++◌, slice_get, Some, None, IfOk, IfErr};
ghost use Rattle.std.specs.List.Sorted.{IsNonDecreasingBy};
ghost use Rattle.wa_syntax.specs.Locals.{types_of_runs};
ghost use Rattle.wa_valid.specs.Ends.{types_of_ends};

use crate::fault::Fault;
use std::alloc::Global;
use std::marker::Model;
use wa_syntax::{FuncTy, LocalRun, Locals, ValTy};

/// A run of declared locals, with the number of those up to its end.
#[derive(Clone, Copy)]
pub struct LocalRunEnd {
    end: u64,
    ty: ValTy,
}

/// The declared locals of a function. Contracts see their types.
#[derive(Drop)]
pub struct DeclaredLocals {
    ends: Vec<LocalRunEnd>,
}

impl Model for DeclaredLocals {
    ghost use Rattle.std.specs.Prelude.{List};
    ghost use Rattle.std.specs.List.Sorted.{IsNonDecreasingBy};
    ghost use Rattle.wa_syntax.specs.declared.module.ValTy.{ValTy};
    ghost use Rattle.wa_valid.specs.Ends.{types_of_ends};

    ghost Value = { List ValTy };

    ghost view = { λ d. types_of_ends 0 d.ends.items };

    ghost invariant = { λ d. IsNonDecreasingBy (λ run. run.end) d.ends.items };
}

impl DeclaredLocals {
    /// These locals. Fails where memory runs out.
    pub fn new(alloc: Global, locals: &Locals) -> Result<DeclaredLocals, Fault>
        ensures ok { IfOk result (λ declared. declared ≡ locals.now) }
        ensures err { IfErr result (λ fault. fault ≡ Fault.NoMemory) }
    {
        let ends = ends_of(alloc, locals.runs())?;
        Ok(DeclaredLocals { ends })
    }

    /// The type of the declared local with this index, if there is one. Takes logarithmically many steps in the number of runs.
    fn get(&self, at: u64) -> Option<ValTy>
        ensures { result ≡ slice_get self.now at }
    {
        type_at(&self.ends, at)
    }

    /// The type of a function's local with this index, the parameters first, if there is one.
    pub fn type_at(&self, ty: &FuncTy, local: u32) -> Result<ValTy, Fault>
        ensures ok { IfOk result (λ found. slice_get (ty.now.params ++ self.now) local ≡ Some found) }
        ensures err { IfErr result (λ fault. (fault ≡ Fault.Invalid) × (slice_get (ty.now.params ++ self.now) local ≡ None)) }
    {
        let params = ty.params.as_slice();
        let local = local as usize;
        if local < params.len() {
            return Ok(params[local]);
        }
        match self.get((local - params.len()) as u64) {
            Some(found) => Ok(found),
            None => Err(Fault::Invalid),
        }
    }
}

/// The runs with the number of locals up to the end of each. A count that no memory holds is taken as want of memory.
fn ends_of(alloc: Global, runs: &[LocalRun]) -> Result<Vec<LocalRunEnd>, Fault>
    ensures sorted { IfOk result (λ ends. IsNonDecreasingBy (λ run. run.end) ends.items) }
    ensures types { IfOk result (λ ends. types_of_ends 0 ends.items ≡ types_of_runs runs.now) }
    ensures err { IfErr result (λ fault. fault ≡ Fault.NoMemory) }
{
    let mut ends = Vec::new(alloc);
    let mut end: u64 = 0;
    for run in runs {
        end = end_after(end, run.count)?;
        ends.push(LocalRunEnd { end, ty: run.ty })?;
    }
    Ok(ends)
}

/// The number of locals up to the end of a run of `count`, after the others.
fn end_after(end: u64, count: u32) -> Result<u64, Fault>
    ensures ok { IfOk result (λ sum. sum ≡ end + count) }
    ensures err { IfErr result (λ fault. fault ≡ Fault.NoMemory) }
{
    match end.checked_add(u64::from(count)) {
        Some(sum) => Ok(sum),
        None => Err(Fault::NoMemory),
    }
}

/// The type of the local with this index, if there is one, by the ends of the runs.
fn type_at(ends: &[LocalRunEnd], at: u64) -> Option<ValTy>
    requires { IsNonDecreasingBy (λ run. run.end) ends.now }
    ensures { result ≡ slice_get (types_of_ends 0 ends.now) at }
{
    let run = ends.partition_point(|run| run.end <= at);
    match sqlite_items::at(ends, run) {
        Some(found) => Some(found.ty),
        None => None,
    }
}
