//! The sections of docs/ERRORS.md, in parts. conformance/texts.py writes these files.

pub(crate) mod part_0;
pub(crate) mod part_1;
pub(crate) mod part_10;
pub(crate) mod part_11;
pub(crate) mod part_2;
pub(crate) mod part_3;
pub(crate) mod part_4;
pub(crate) mod part_5;
pub(crate) mod part_6;
pub(crate) mod part_7;
pub(crate) mod part_8;
pub(crate) mod part_9;
