//! The grammar, as a law of the definitions of `sa_parser_expr` and `sa_parser`: lexemes spell one type, one expression, one statement,
//! one class and one file at most, and they are read as far as they begin one. No code runs this.
#![tactic(auto)]

mod law;

pub use law::{
    classes_are_read, exprs_are_read, files_are_read, lists_of_exprs_are_read,
    lists_of_formals_are_read, lists_of_stmts_are_read, lists_of_types_are_read, members_are_read,
    one_class, one_expr, one_file, one_list_of_exprs, one_list_of_formals, one_list_of_stmts,
    one_list_of_types, one_member, one_post, one_sig, one_stmt, one_type, posts_are_read,
    sigs_are_read, stmts_are_read, types_are_read,
};
