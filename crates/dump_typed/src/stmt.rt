//! Statements as JSON: each a list of the name of its form and of its fields, in their order.

use crate::writer::Writer;
use sa_typed::{LoopExit, TypedArm, TypedBranch, TypedExpr, TypedStmt};
use std::alloc::AllocError;

impl Writer {
    /// A statement.
    #[cycle(write_stmt)]
    fn stmt(&mut self, stmt: &TypedStmt) -> Result<(), AllocError> {
        match stmt {
            TypedStmt::Assign(var, value) => {
                self.open("Let")?;
                self.number(*var)?;
                self.expr(value)?;
            }
            TypedStmt::ExprStmt(value) => {
                self.open("Do")?;
                self.expr(value)?;
            }
            TypedStmt::If(tests, other) => {
                self.open("If")?;
                self.tests(tests.as_slice())?;
                self.stmts(other.as_slice())?;
            }
            TypedStmt::Loop(number, body) => {
                self.open("Loop")?;
                self.number(*number)?;
                self.stmts(body.as_slice())?;
            }
            TypedStmt::ExitLoop(exit) => {
                self.open("Leave")?;
                self.exit(exit)?;
            }
            TypedStmt::TypeCase(var, arms, other, pos) => {
                self.open("TypeCase")?;
                self.number(*var)?;
                self.arms(arms.as_slice())?;
                match other {
                    Some(other) => self.stmts(other.as_slice())?,
                    None => self.nothing()?,
                }
                self.pos(*pos)?;
            }
            TypedStmt::Protect(body, arms, other) => {
                self.open("Protect")?;
                self.stmts(body.as_slice())?;
                self.arms(arms.as_slice())?;
                match other {
                    Some(other) => self.stmts(other.as_slice())?,
                    None => self.nothing()?,
                }
            }
            TypedStmt::Return(value) => {
                self.open("Return")?;
                self.expr_or_nothing(value)?;
            }
            TypedStmt::Yield(value) => {
                self.open("Yield")?;
                self.expr_or_nothing(value)?;
            }
            TypedStmt::Quit => self.open("Quit")?,
            TypedStmt::Raise(value, pos) => {
                self.open("Raise")?;
                self.expr(value)?;
                self.pos(*pos)?;
            }
            TypedStmt::Fault(kind, pos) => {
                self.open("Stop")?;
                self.number(u32::from(kind.number()))?;
                self.pos(*pos)?;
            }
        }
        self.close_list()
    }

    /// Statements in order.
    #[cycle(write_stmt)]
    pub fn stmts(&mut self, stmts: &[TypedStmt]) -> Result<(), AllocError> {
        self.open_list()?;
        for stmt in stmts {
            self.stmt(stmt)?;
        }
        self.close_list()
    }

    #[cycle(write_stmt)]
    fn tests(&mut self, tests: &[TypedBranch]) -> Result<(), AllocError> {
        self.open_list()?;
        for test in tests {
            self.test(test)?;
        }
        self.close_list()
    }

    /// Tests, and the statements that are executed where one of them is true.
    #[cycle(write_stmt)]
    fn test(&mut self, test: &TypedBranch) -> Result<(), AllocError> {
        self.open_list()?;
        self.exprs(test.tests.as_slice())?;
        self.stmts(test.body.as_slice())?;
        self.close_list()
    }

    #[cycle(write_stmt)]
    fn arms(&mut self, arms: &[TypedArm]) -> Result<(), AllocError> {
        self.open_list()?;
        for arm in arms {
            self.arm(arm)?;
        }
        self.close_list()
    }

    /// The type of a branch, its variable, and its statements.
    #[cycle(write_stmt)]
    fn arm(&mut self, arm: &TypedArm) -> Result<(), AllocError> {
        self.open_list()?;
        self.number(arm.ty)?;
        self.number(arm.var)?;
        self.stmts(arm.body.as_slice())?;
        self.close_list()
    }

    /// What exits a loop: 0 and `null` for always, 1 and the test that is false, or 2 and the test that is true.
    fn exit(&mut self, exit: &LoopExit) -> Result<(), AllocError> {
        match exit {
            LoopExit::Break => {
                self.number(0)?;
                self.nothing()
            }
            LoopExit::While(test) => {
                self.number(1)?;
                self.expr(test)
            }
            LoopExit::Until(test) => {
                self.number(2)?;
                self.expr(test)
            }
        }
    }

    /// An expression, or `null` for none.
    pub fn expr_or_nothing(&mut self, e: &Option<TypedExpr>) -> Result<(), AllocError> {
        match e {
            Some(e) => self.expr(e),
            None => self.nothing(),
        }
    }
}
