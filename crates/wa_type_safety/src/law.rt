//! The laws of type safety, each as what a function with an empty body ensures.

ghost use Rattle.wa_type_safety.specs.Law.{NeverStuck, StaysTyped, EndsAsMain, SpelledIsInRange};

use wa_syntax::Module;

/// Type safety: no run of a valid module that is linked gets stuck.
pub fn never_stuck(program: &Module)
    ensures { NeverStuck program.now }
{}

/// Preservation over whole runs: each state that such a run reaches is well typed.
pub fn stays_typed(program: &Module)
    ensures { StaysTyped program.now }
{}

/// Such a run ends with a value exactly where `main` has a result.
pub fn ends_as_main(program: &Module)
    ensures { EndsAsMain program.now }
{}

/// Such a run begins in range where bytes spell the module, the segments fit and the input is of bytes.
pub fn spelled_is_in_range(program: &Module)
    ensures { SpelledIsInRange program.now }
{}
