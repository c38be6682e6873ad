//! The texts that the program contains: the pages of docs/ERRORS.md, and the files of lib/.
#![tactic(auto)]

mod errors;
mod library;
mod page;

pub use page::{error_page, library_file, library_list};
