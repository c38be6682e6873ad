//! The laws, each as what a function with an empty body ensures.

ghost use Rattle.wa_runs.specs.Law.{Composes, IsDeterministic, IsSteady, RunsStraight, StoresWords};

use wa_syntax::Module;

/// Runs one after the other are one run, of as many instructions as both.
pub fn composes(program: &Module)
    ensures { Composes program.now }
{}

/// A run ends or halts in one way.
pub fn is_deterministic(program: &Module)
    ensures { IsDeterministic program.now }
{}

/// Straight-line code that succeeds runs to its computed effect, a step for each instruction.
pub fn runs_straight(program: &Module)
    ensures { RunsStraight program.now }
{}

/// A run of the module that is over within so many instructions is the same within more.
pub fn is_steady(program: &Module)
    ensures { IsSteady program.now }
{}

/// A stored word is read again, and a store changes nothing else.
pub fn stores_words()
    ensures { StoresWords }
{}
