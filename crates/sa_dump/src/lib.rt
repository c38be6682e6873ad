//! A program as text, in each form that it has inside the compiler: the AST of its source, the typed AST, the control-flow graphs of
//! its bodies, and their structured regions.
#![tactic(auto)]

mod ast_class;
mod ast_expr;
mod ast_stmt;
mod builtin;
mod cfg_body;
mod cfg_call;
mod cfg_operation;
mod cfg_terminator;
mod regions;
mod symbols;
mod typed_expr;
mod typed_program;
mod typed_stmt;
mod writer;

pub use ast_class::dump_ast;
pub use cfg_body::dump_cfg;
pub use regions::dump_regions;
pub use symbols::Symbols;
pub use typed_program::dump_typed;
