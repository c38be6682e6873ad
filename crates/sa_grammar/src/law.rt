//! The law, as clauses of functions with empty bodies.

ghost use Rattle.sa_grammar.specs.Law.{ClassesAreRead, FilesAreRead, OneClass, OneFile};
ghost use Rattle.sa_grammar.specs.Law.{ExprsAreRead, ListsOfExprsAreRead, OneExpr, OneListOfExprs, OnePost, PostsAreRead};
ghost use Rattle.sa_grammar.specs.Law.{ListsOfStmtsAreRead, OneListOfStmts, OneStmt, StmtsAreRead};
ghost use Rattle.sa_grammar.specs.Law.{ListsOfFormalsAreRead, MembersAreRead, OneListOfFormals, OneMember, OneSig, SigsAreRead};
ghost use Rattle.sa_grammar.specs.Law.{ListsOfTypesAreRead, OneListOfTypes, OneType, TypesAreRead};

/// Lexemes spell one type at most.
pub fn one_type()
    ensures { OneType }
{}

/// Lexemes are read as far as they begin a type.
pub fn types_are_read()
    ensures { TypesAreRead }
{}

/// Lexemes spell one list of types at most.
pub fn one_list_of_types()
    ensures { OneListOfTypes }
{}

/// Lexemes are read as far as they begin a list of types.
pub fn lists_of_types_are_read()
    ensures { ListsOfTypesAreRead }
{}

/// Lexemes spell one expression at most.
pub fn one_expr()
    ensures { OneExpr }
{}

/// Lexemes are read as far as they begin an expression.
pub fn exprs_are_read()
    ensures { ExprsAreRead }
{}

/// Lexemes spell one expression without operators at most.
pub fn one_post()
    ensures { OnePost }
{}

/// Lexemes are read as far as they begin an expression without operators.
pub fn posts_are_read()
    ensures { PostsAreRead }
{}

/// Lexemes spell one list of expressions at most.
pub fn one_list_of_exprs()
    ensures { OneListOfExprs }
{}

/// Lexemes are read as far as they begin a list of expressions.
pub fn lists_of_exprs_are_read()
    ensures { ListsOfExprsAreRead }
{}

/// Lexemes spell one statement at most.
pub fn one_stmt()
    ensures { OneStmt }
{}

/// Lexemes are read as far as they begin a statement.
pub fn stmts_are_read()
    ensures { StmtsAreRead }
{}

/// Lexemes spell one list of statements at most.
pub fn one_list_of_stmts()
    ensures { OneListOfStmts }
{}

/// Lexemes are read as far as they begin a list of statements.
pub fn lists_of_stmts_are_read()
    ensures { ListsOfStmtsAreRead }
{}

/// Lexemes spell one list of arguments at most.
pub fn one_list_of_formals()
    ensures { OneListOfFormals }
{}

/// Lexemes are read as far as they begin a list of arguments.
pub fn lists_of_formals_are_read()
    ensures { ListsOfFormalsAreRead }
{}

/// Lexemes spell one signature at most.
pub fn one_sig()
    ensures { OneSig }
{}

/// Lexemes are read as far as they begin a signature.
pub fn sigs_are_read()
    ensures { SigsAreRead }
{}

/// Lexemes spell one member of a class at most.
pub fn one_member()
    ensures { OneMember }
{}

/// Lexemes are read as far as they begin a member of a class.
pub fn members_are_read()
    ensures { MembersAreRead }
{}

/// Lexemes spell one class at most.
pub fn one_class()
    ensures { OneClass }
{}

/// Lexemes are read as far as they begin a class.
pub fn classes_are_read()
    ensures { ClassesAreRead }
{}

/// Lexemes spell one file at most.
pub fn one_file()
    ensures { OneFile }
{}

/// Lexemes are read as far as they begin a file.
pub fn files_are_read()
    ensures { FilesAreRead }
{}
