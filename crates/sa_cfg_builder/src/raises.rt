//! The fragments for raises, at the end of the open block, and the test of a class, which dispatches to a branch.

use crate::body::BodyBuilder;
use crate::context::LoweringContext;
use failure::Failure;
use sa_cfg::{CfgOperation, Handler, Terminator};
use std::alloc::Global;

/// The type of a branch of a protect or an arm of a `typecase`, and the block in which its statements begin.
#[derive(Clone, Copy, Debug, PartialEq, Eq)]
pub struct ClassTest {
    pub ty: u32,
    pub block: u32,
}

impl BodyBuilder {
    /// Passes the raise that has come to a block on to the handler of the context. The block that is open then is unreachable.
    pub fn forward_raise(
        &mut self,
        alloc: Global,
        from: Handler,
        to: Handler,
    ) -> Result<(), Failure> {
        self.move_to(to.value, from.value)?;
        self.move_to(to.place, from.place)?;
        self.move_to(to.kind, from.kind)?;
        self.leave(alloc, Terminator::Jump(to.block))
    }

    /// Goes on in the block of the first branch whose type is a supertype of the object's class, or in `rest`, which is open then.
    pub fn choose_arm(
        &mut self,
        alloc: Global,
        inside: &LoweringContext,
        value: u32,
        arms: &[ClassTest],
        rest: u32,
    ) -> Result<(), Failure> {
        let Some((last, others)) = arms.split_last() else {
            return self.end(alloc, Terminator::Jump(rest), rest);
        };
        for arm in others {
            let next = self.block(alloc)?;
            let exit = self.test_class(inside, value, *arm, next)?;
            self.end(alloc, exit, next)?;
        }
        let exit = self.test_class(inside, value, *last, rest)?;
        self.end(alloc, exit, rest)
    }

    /// Tests the class of a value, and gives the terminator that goes on in the block of the branch where its type is a supertype of the
    /// class, otherwise in `other`.
    pub fn test_class(
        &mut self,
        inside: &LoweringContext,
        value: u32,
        arm: ClassTest,
        other: u32,
    ) -> Result<Terminator, Failure> {
        self.statement(inside);
        let test = self.temporary()?;
        self.step(CfgOperation::TypeIs {
            to: test,
            from: value,
            ty: arm.ty,
        })?;
        Ok(Terminator::Branch {
            test,
            yes: arm.block,
            no: other,
        })
    }
}
