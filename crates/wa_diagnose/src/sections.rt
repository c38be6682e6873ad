//! A module, section by section.

use crate::body::read_bodies;
use crate::entries::read_entry;
use crate::error::{FormatError, FormatErrorKind, ModulePart};
use crate::reader::Reader;

const CUSTOM: u8 = 0;

const FUNCTIONS: u8 = 3;

const START: u8 = 8;

const CODE: u8 = 10;

const LAST: u8 = 11;

/// The first position at which bytes stop being a module, and what is wrong there; nothing where no such position is found.
pub fn find_format_error(bytes: &[u8]) -> Option<FormatError> {
    read_module(&mut Reader::new(bytes)).err()
}

fn read_module(reader: &mut Reader<'_>) -> Result<(), FormatError> {
    reader.expect_all(b"\0asm", FormatErrorKind::Magic)?;
    reader.expect_all(&[1, 0, 0, 0], FormatErrorKind::Version)?;
    let mut sections = Sections {
        last: CUSTOM,
        functions: 0,
    };
    // A section takes a byte at least.
    for _ in 0..reader.left() {
        if reader.left() > 0 {
            sections.read_section(reader)?;
        }
    }
    if sections.wants_code() {
        return Err(reader.error(FormatErrorKind::Code));
    }
    Ok(())
}

/// The sections that were read.
#[derive(Drop)]
struct Sections {
    /// The id of the last section that isn't custom, or that of custom ones where there is none.
    last: u8,
    /// How many functions of the module's own there are.
    functions: u32,
}

impl Sections {
    /// Whether there are functions, and their codes weren't read.
    fn wants_code(&self) -> bool {
        self.functions > 0 && self.last < CODE
    }

    fn read_section(&mut self, reader: &mut Reader<'_>) -> Result<(), FormatError> {
        let start = reader.at();
        let section = reader.byte()?;
        if section > LAST {
            return Err(reader.error_at(start, FormatErrorKind::SectionNumber));
        }
        let place = ModulePart::Section(section);
        if section != CUSTOM {
            if section <= self.last {
                return Err(FormatError {
                    at: start,
                    place,
                    lack: FormatErrorKind::SectionOrder,
                });
            }
            if section > CODE && self.wants_code() {
                return Err(reader.error_at(start, FormatErrorKind::Code));
            }
            self.last = section;
        }
        let cut = FormatError {
            at: start,
            place,
            lack: FormatErrorKind::SectionEnd,
        };
        self.read_content(&mut reader.sized(place, cut)?, section)
    }

    /// The content of a section.
    fn read_content(&mut self, reader: &mut Reader<'_>, section: u8) -> Result<(), FormatError> {
        match section {
            CUSTOM => return reader.name(),
            START => {
                reader.number()?;
            }
            CODE => read_bodies(reader, self.functions)?,
            _ => {
                let count = reader.number()?;
                for _ in 0..count {
                    read_entry(reader, section)?;
                }
                if section == FUNCTIONS {
                    self.functions = count;
                }
            }
        }
        reader.end()
    }
}
