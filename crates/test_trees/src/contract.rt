//! Contracts as text: the positions of the class and the feature, and each condition as an AST, with the byte at which it is.

use crate::expr::Printer;
use sa_ast::{Condition, Contract};
use std::alloc::AllocError;
use std::fmt::Write;

impl Printer {
    /// Writes a contract.
    pub fn contract(&mut self, contract: &Contract) -> Result<(), AllocError> {
        match contract {
            Contract::Clauses {
                class,
                feature,
                pre,
                post,
            } => {
                write!(self.text, " | {class}/{feature}")?;
                self.clause(" pre", pre)?;
                self.clause(" post", post)
            }
            Contract::Invariant { class, holds } => {
                write!(self.text, " | {class}")?;
                self.condition(" invariant", holds)
            }
        }
    }

    fn clause(&mut self, word: &str, clause: &Option<Condition>) -> Result<(), AllocError> {
        match clause {
            Some(condition) => self.condition(word, condition),
            None => Ok(()),
        }
    }

    fn condition(&mut self, word: &str, condition: &Condition) -> Result<(), AllocError> {
        let at = condition.pos.at;
        write!(self.text, "{word}@{at} ")?;
        self.expr(&condition.test)
    }
}
