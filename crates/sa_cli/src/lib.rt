//! The command line: which command its arguments are, with its numbers and names, and the texts of `help` and `version`.
//!
//! `clap` parses the arguments, by the description in `program.rt`, unless an option asks for help or for the version. The numbers are
//! parsed here, since they are decimal digits alone and have limits of their own.
#![tactic(auto)]

mod command;
mod detail;
mod fault;
mod help;
mod mistake;
mod number;
mod printing;
mod program;
mod read;
mod subcommand;
mod texts;
mod topic;

pub use command::{
    Assemble, Build, Check, Command, Contracts, Detail, Dump, DumpForm, Exec, Extent, Listing, Run,
    Topic, Trace,
};
pub use detail::{detail_of, detail_without_command};
pub use fault::ArgsError;
pub use help::topic_named;
pub use mistake::{Mistake, Needs, mistake_in};
pub use read::command_of;
pub use subcommand::ROOM;
pub use topic::{help_text, version_text};
