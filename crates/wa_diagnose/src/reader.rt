//! A reader that goes through bytes from first to last.

use crate::error::{FormatError, FormatErrorKind, ModulePart};
use wa_syntax::{read_i32, read_i64, read_u32};

/// Bytes up to an end, of which those before `at` are read.
#[derive(Clone, Copy)]
pub(crate) struct Reader<'a> {
    bytes: &'a [u8],
    at: usize,
    place: ModulePart,
}

impl<'a> Reader<'a> {
    pub(crate) fn new(bytes: &'a [u8]) -> Reader<'a> {
        Reader {
            bytes,
            at: 0,
            place: ModulePart::File,
        }
    }

    /// The offset of the next byte.
    pub(crate) fn at(&self) -> usize {
        self.at
    }

    /// How many bytes are left.
    pub(crate) fn left(&self) -> usize {
        self.bytes.len().saturating_sub(self.at)
    }

    /// An error at the next byte.
    pub(crate) fn error(&self, lack: FormatErrorKind) -> FormatError {
        self.error_at(self.at, lack)
    }

    /// An error at a byte.
    pub(crate) fn error_at(&self, at: usize, lack: FormatErrorKind) -> FormatError {
        FormatError {
            at,
            place: self.place,
            lack,
        }
    }

    /// A byte.
    pub(crate) fn byte(&mut self) -> Result<u8, FormatError> {
        match self.bytes.get(self.at) {
            Some(byte) => {
                self.at = self.at.saturating_add(1);
                Ok(*byte)
            }
            None => Err(self.error(FormatErrorKind::UnexpectedEnd)),
        }
    }

    /// This byte and no other.
    pub(crate) fn expect(&mut self, wanted: u8, lack: FormatErrorKind) -> Result<(), FormatError> {
        let at = self.at;
        if self.byte()? == wanted {
            Ok(())
        } else {
            Err(self.error_at(at, lack))
        }
    }

    /// These bytes and no others.
    pub(crate) fn expect_all(
        &mut self,
        wanted: &[u8],
        lack: FormatErrorKind,
    ) -> Result<(), FormatError> {
        for byte in wanted {
            self.expect(*byte, lack)?;
        }
        Ok(())
    }

    /// A byte that is 0 or 1.
    pub(crate) fn flag(&mut self) -> Result<bool, FormatError> {
        let at = self.at;
        match self.byte()? {
            0 => Ok(false),
            1 => Ok(true),
            _ => Err(self.error_at(at, FormatErrorKind::Flag)),
        }
    }

    /// A number of 32 bits without a sign.
    pub(crate) fn number(&mut self) -> Result<u32, FormatError> {
        let (number, end) = self.read_number().ok_or(self.no_number())?;
        self.at = end as usize;
        Ok(number)
    }

    fn read_number(&self) -> Option<(u32, u32)> {
        if self.bytes.len() >= u32::MAX as usize {
            return None;
        }
        read_u32(self.bytes, u32::try_from(self.at).ok()?)
    }

    /// A number of 32 bits with a sign.
    pub(crate) fn signed_32(&mut self) -> Result<(), FormatError> {
        let (_number, end) = self.read_signed_32().ok_or(self.no_number())?;
        self.at = end as usize;
        Ok(())
    }

    fn read_signed_32(&self) -> Option<(i32, u32)> {
        if self.bytes.len() >= u32::MAX as usize {
            return None;
        }
        read_i32(self.bytes, u32::try_from(self.at).ok()?)
    }

    /// A number of 64 bits with a sign.
    pub(crate) fn signed_64(&mut self) -> Result<(), FormatError> {
        let (_number, end) = self.read_signed_64().ok_or(self.no_number())?;
        self.at = end as usize;
        Ok(())
    }

    fn read_signed_64(&self) -> Option<(i64, u32)> {
        if self.bytes.len() >= u32::MAX as usize {
            return None;
        }
        read_i64(self.bytes, u32::try_from(self.at).ok()?)
    }

    /// The error where no number is spelled.
    fn no_number(&self) -> FormatError {
        self.error(if self.left() == 0 {
            FormatErrorKind::UnexpectedEnd
        } else {
            FormatErrorKind::Number
        })
    }

    /// A vector of numbers.
    pub(crate) fn numbers(&mut self) -> Result<(), FormatError> {
        let count = self.number()?;
        for _ in 0..count {
            self.number()?;
        }
        Ok(())
    }

    /// Content after its size, which is a part of the module of its own. Where it goes on past the end, the error is at the
    /// byte that `cut` names.
    pub(crate) fn sized(
        &mut self,
        place: ModulePart,
        cut: FormatError,
    ) -> Result<Reader<'a>, FormatError> {
        let size = self.number()?;
        let end = self.at.saturating_add(size as usize);
        match self.bytes.get(..end) {
            Some(bytes) => {
                let inside = Reader {
                    bytes,
                    at: self.at,
                    place,
                };
                self.at = end;
                Ok(inside)
            }
            None => Err(cut),
        }
    }

    /// A vector of bytes.
    pub(crate) fn bytes(&mut self) -> Result<&'a [u8], FormatError> {
        let inside = self.sized(self.place, self.error(FormatErrorKind::PartEnd))?;
        match inside.bytes.get(inside.at..) {
            Some(bytes) => Ok(bytes),
            None => Err(inside.error(FormatErrorKind::UnexpectedEnd)),
        }
    }

    /// A name, in UTF-8.
    pub(crate) fn name(&mut self) -> Result<(), FormatError> {
        let at = self.at;
        let bytes = self.bytes()?;
        match str::from_utf8(bytes) {
            Ok(_text) => Ok(()),
            Err(_) => Err(self.error_at(at, FormatErrorKind::Utf8)),
        }
    }

    /// The end.
    pub(crate) fn end(&self) -> Result<(), FormatError> {
        if self.left() == 0 {
            Ok(())
        } else {
            Err(self.error(FormatErrorKind::TrailingBytes))
        }
    }
}
