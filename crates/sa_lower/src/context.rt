//! The context of a statement.

ghost use Rattle.std.specs.Prelude.{◌≡◌};

use crate::loop_sites::LoopSites;
use sa_cfg_builder::LoweringContext;
use sa_typing::TypingEnv;

/// The context of a statement.
#[derive(Clone, Copy)]
pub(crate) struct StmtContext<'a> {
    /// The feature that it belongs to.
    pub scope: &'a TypingEnv<'a>,
    /// The sites of this feature.
    pub sites: &'a LoopSites,
    pub inside: LoweringContext,
}

impl<'a> StmtContext<'a> {
    /// The context of a statement of the same feature, with another `inside`.
    pub fn with(&self, inside: LoweringContext) -> StmtContext<'a>
        ensures scope { result.scope.now ≡ self.now.scope.now }
        ensures inside { result.inside ≡ inside }
    {
        StmtContext { inside, ..*self }
    }
}
