//! The law, as what a function with an empty body ensures.

ghost use Rattle.sa_type_safety.specs.Law.{NeverStuck};

use sa_typed::TypedProgram;

/// No run of a well-typed AST gets stuck.
pub fn never_stuck(core: &TypedProgram)
    ensures { NeverStuck core.now }
{}
