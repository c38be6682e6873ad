//! Laws of the semantics of control-flow graphs, each as what a function with an empty body ensures.

ghost use Rattle.sa_cfg_semantics.specs.Law.{HasLevels, RunsTerminators, RunsOperations};

use sa_cfg::CfgProgram;
use sa_dispatch::ImplementationTable;

/// A run from the index of an operation does this operation, and then goes on where it leads.
pub fn runs_operations(program: &CfgProgram, rows: &ImplementationTable)
    ensures { RunsOperations program.now rows.now }
{}

/// A run from the index of a terminator takes this terminator.
pub fn runs_terminators(program: &CfgProgram, rows: &ImplementationTable)
    ensures { RunsTerminators program.now rows.now }
{}

/// More levels than CFG steps that are left make no difference to a run from an index in a block.
#[tactic(auto, using(crate::proofs::AlikeSteps::has_levels))]
pub fn has_levels(program: &CfgProgram, rows: &ImplementationTable)
    ensures { HasLevels program.now rows.now }
{}
