//! What the compiler relies on where no proof knows of it.

ghost use Rattle.std.specs.Prelude.{◌≡◌};
ghost use Rattle.failure.specs.Names.{invariant_name};

use thiserror::Error;

/// What the compiler relies on and no contract says yet. Where one isn't so, the compiler is wrong, and not the program that it reads.
#[derive(Clone, Copy, Debug, PartialEq, Eq, Hash, Error)]
#[error("{}", self.name())]
pub enum Invariant {
    GraphNode,
    SubtypeTable,
    HierarchyTable,
    IncludeTable,
    ConflictTable,
    ClassTable,
    InstanceTable,
    SignatureTable,
    ConstantTable,
    CheckedNumber,
    CheckedCount,
    RefusalPosition,
    RefusalPhase,
    IllTyped,
    RuleDenied,
    PositionMissing,
    BlockMissing,
    CfgNumber,
    LabelDepth,
    TableIndex,
    ModuleInvalid,
    ModuleUnlinked,
    SegmentsDontFit,
    ModuleNotConfined,
    DispatchLeft,
    ExcludedForm,
}

impl Invariant {
    /// The name by which the line of an internal error has it.
    pub fn name(self) -> &'static str
        ensures { result.now ≡ invariant_name self }
    {
        match self {
            Invariant::GraphNode => "graph node",
            Invariant::SubtypeTable => "subtype table",
            Invariant::HierarchyTable => "hierarchy table",
            Invariant::IncludeTable => "include table",
            Invariant::ConflictTable => "conflict table",
            Invariant::ClassTable => "class table",
            Invariant::InstanceTable => "instance table",
            Invariant::SignatureTable => "signature table",
            Invariant::ConstantTable => "constant table",
            Invariant::CheckedNumber => "checked number",
            Invariant::CheckedCount => "checked count",
            Invariant::RefusalPosition => "refusal position",
            Invariant::RefusalPhase => "refusal phase",
            Invariant::IllTyped => "ill typed",
            Invariant::RuleDenied => "rule denied",
            Invariant::PositionMissing => "position missing",
            Invariant::BlockMissing => "block missing",
            Invariant::CfgNumber => "CFG number",
            Invariant::LabelDepth => "label depth",
            Invariant::TableIndex => "table index",
            Invariant::ModuleInvalid => "module invalid",
            Invariant::ModuleUnlinked => "module unlinked",
            Invariant::SegmentsDontFit => "segments don't fit",
            Invariant::ModuleNotConfined => "module not confined",
            Invariant::DispatchLeft => "dispatch left",
            Invariant::ExcludedForm => "excluded form",
        }
    }
}
