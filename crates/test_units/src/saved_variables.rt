//! The variables of an iter that are saved while it is suspended.

use failure::Failure;
use sa_cfg::{
    BasicBlock, CallOperation, CallTarget, CfgBody, CfgOperation, FaultExit, Handler, Terminator,
};
use sa_liveness::saved_variables;
use sa_prelude::BuiltinFeature;
use sqlite_items::Items;
use std::alloc::Global;

/// A call of a feature without arguments, whose handler is in a block.
fn call(alloc: Global, recv: u32, value: u32, block: u32) -> CfgOperation {
    let raised = Handler {
        block,
        value: 200,
        place: 201,
        kind: 202,
    };
    let plan = CallOperation {
        callee: CallTarget::Builtin(BuiltinFeature::BoolIsEq),
        class: 0,
        recv,
        args: Items::new(alloc),
        value: Some(value),
        fail: FaultExit {
            place: 0,
            line: 1,
            raised,
        },
    };
    CfgOperation::Call { plan }
}

/// Block 0 sets variable 0, and yields.
fn beginning(alloc: Global) -> Result<BasicBlock, Failure> {
    let mut steps = Items::new(alloc);
    steps.push(CfgOperation::SelfRef { to: 0 })?;
    let exit = Terminator::Suspend {
        value: None,
        resume: Some(2),
    };
    Ok(BasicBlock { steps, exit })
}

/// Block 1 leaves the iter with a raise.
fn raising(alloc: Global) -> BasicBlock {
    let exit = Terminator::Raise {
        value: 200,
        place: 201,
        kind: 202,
    };
    BasicBlock {
        steps: Items::new(alloc),
        exit,
    }
}

/// Block 2 continues after the yield, in a protect: it sets variable 1, and then variable 0 by a call.
fn guarded(alloc: Global) -> Result<BasicBlock, Failure> {
    let mut steps = Items::new(alloc);
    steps.push(CfgOperation::SelfRef { to: 1 })?;
    steps.push(call(alloc, 1, 0, 3))?;
    Ok(BasicBlock {
        steps,
        exit: Terminator::Quit,
    })
}

/// Block 3, a branch of the protect, reads variable 0.
fn branch(alloc: Global) -> Result<BasicBlock, Failure> {
    let mut steps = Items::new(alloc);
    steps.push(call(alloc, 0, 203, 1))?;
    Ok(BasicBlock {
        steps,
        exit: Terminator::Quit,
    })
}

/// An iter of two variables and these four blocks.
fn iter(alloc: Global) -> Result<CfgBody, Failure> {
    let mut blocks = Items::new(alloc);
    blocks.push(beginning(alloc)?)?;
    blocks.push(raising(alloc))?;
    blocks.push(guarded(alloc)?)?;
    blocks.push(branch(alloc)?)?;
    Ok(CfgBody {
        feature: Some(0),
        iter: true,
        formals: Items::new(alloc),
        variable_count: 2,
        temporaries: 204,
        sites: 0,
        saved: Items::new(alloc),
        blocks,
    })
}

#[test]
fn what_a_raise_reads_is_kept_and_what_is_set_before_it_is_read_is_not(
    rt: HostRuntime,
) -> Result<(), Failure> {
    let body = iter(rt.alloc())?;
    let kept = saved_variables(rt.alloc(), &body)?;
    assert_eq!(rt; kept.as_slice(), [0].as_slice());
    Ok(())
}
