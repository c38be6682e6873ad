//! The entries of a module's sections, but for the codes of functions.

use crate::error::{FormatError, FormatErrorKind};
use crate::reader::Reader;
use wa_syntax::opcode::{END, GLOBAL_GET, I32_CONST, I64_CONST};

/// An entry of the section with this id, whose content is a vector of entries.
pub(crate) fn read_entry(reader: &mut Reader<'_>, section: u8) -> Result<(), FormatError> {
    match section {
        1 => read_function_type(reader),
        2 => read_import(reader),
        4 => read_table_type(reader),
        5 => read_limits(reader),
        6 => {
            read_global_type(reader)?;
            read_initial_value(reader)
        }
        7 => read_export(reader),
        9 => {
            reader.number()?;
            read_initial_value(reader)?;
            reader.numbers()
        }
        11 => {
            reader.number()?;
            read_initial_value(reader)?;
            reader.bytes()?;
            Ok(())
        }
        _ => {
            reader.number()?;
            Ok(())
        }
    }
}

fn read_function_type(reader: &mut Reader<'_>) -> Result<(), FormatError> {
    reader.expect(0x60, FormatErrorKind::FunctionType)?;
    read_value_types(reader)?;
    read_value_types(reader)
}

fn read_value_types(reader: &mut Reader<'_>) -> Result<(), FormatError> {
    let count = reader.number()?;
    for _ in 0..count {
        read_value_type(reader)?;
    }
    Ok(())
}

/// The type of a value.
pub(crate) fn read_value_type(reader: &mut Reader<'_>) -> Result<(), FormatError> {
    let at = reader.at();
    match reader.byte()? {
        0x7e | 0x7f => Ok(()),
        0x7c | 0x7d => Err(reader.error_at(at, FormatErrorKind::FloatingPoint)),
        _ => Err(reader.error_at(at, FormatErrorKind::ValueType)),
    }
}

fn read_import(reader: &mut Reader<'_>) -> Result<(), FormatError> {
    reader.name()?;
    reader.name()?;
    let at = reader.at();
    match reader.byte()? {
        0 => {
            reader.number()?;
            Ok(())
        }
        1 => read_table_type(reader),
        2 => read_limits(reader),
        3 => read_global_type(reader),
        _ => Err(reader.error_at(at, FormatErrorKind::Kind)),
    }
}

fn read_export(reader: &mut Reader<'_>) -> Result<(), FormatError> {
    reader.name()?;
    let at = reader.at();
    if reader.byte()? > 3 {
        return Err(reader.error_at(at, FormatErrorKind::Kind));
    }
    reader.number()?;
    Ok(())
}

fn read_limits(reader: &mut Reader<'_>) -> Result<(), FormatError> {
    let has_most = reader.flag()?;
    reader.number()?;
    if has_most {
        reader.number()?;
    }
    Ok(())
}

fn read_table_type(reader: &mut Reader<'_>) -> Result<(), FormatError> {
    reader.expect(0x70, FormatErrorKind::ElementType)?;
    read_limits(reader)
}

fn read_global_type(reader: &mut Reader<'_>) -> Result<(), FormatError> {
    read_value_type(reader)?;
    reader.flag()?;
    Ok(())
}

/// An initial value or an offset.
fn read_initial_value(reader: &mut Reader<'_>) -> Result<(), FormatError> {
    let at = reader.at();
    match reader.byte()? {
        I32_CONST => reader.signed_32()?,
        I64_CONST => reader.signed_64()?,
        GLOBAL_GET => {
            reader.number()?;
        }
        0x43 | 0x44 => return Err(reader.error_at(at, FormatErrorKind::FloatingPoint)),
        _ => return Err(reader.error_at(at, FormatErrorKind::Initial)),
    }
    reader.expect(END, FormatErrorKind::InitialEnd)
}
