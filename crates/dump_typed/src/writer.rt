//! Writes JSON: words, numbers, lists and records, with the commas between them.

use std::alloc::{AllocError, Global};
use std::fmt::Write;

/// A text that grows item by item.
#[derive(Drop)]
pub struct Writer {
    pub text: String,
    /// Whether the next item is the first of its list or record, or follows a key, so that no comma comes before it.
    is_first: bool,
}

impl Writer {
    pub fn new(alloc: Global) -> Writer {
        Writer {
            text: String::new(alloc),
            is_first: true,
        }
    }

    /// Begins an item.
    fn begin(&mut self) -> Result<(), AllocError> {
        if !self.is_first {
            self.text.push(',')?;
        }
        self.is_first = false;
        Ok(())
    }

    /// Opens a list or a record by its bracket.
    fn open_bracket(&mut self, bracket: char) -> Result<(), AllocError> {
        self.begin()?;
        self.text.push(bracket)?;
        self.is_first = true;
        Ok(())
    }

    /// Closes the innermost list or record by its bracket.
    fn close_bracket(&mut self, bracket: char) -> Result<(), AllocError> {
        self.text.push(bracket)?;
        self.is_first = false;
        Ok(())
    }

    pub fn open_list(&mut self) -> Result<(), AllocError> {
        self.open_bracket('[')
    }

    pub fn close_list(&mut self) -> Result<(), AllocError> {
        self.close_bracket(']')
    }

    /// Opens a record, on a line of its own.
    pub fn open_record(&mut self) -> Result<(), AllocError> {
        self.begin()?;
        if !self.text.is_empty() {
            self.text.push('\n')?;
        }
        self.text.push('{')?;
        self.is_first = true;
        Ok(())
    }

    pub fn close_record(&mut self) -> Result<(), AllocError> {
        self.close_bracket('}')
    }

    /// Opens a list whose first item is the name of a form.
    pub fn open(&mut self, form: &str) -> Result<(), AllocError> {
        self.open_list()?;
        self.word(form)
    }

    /// Begins an item of a record.
    pub fn key(&mut self, name: &str) -> Result<(), AllocError> {
        self.word(name)?;
        self.text.push(':')?;
        self.is_first = true;
        Ok(())
    }

    /// A word of letters.
    pub fn word(&mut self, word: &str) -> Result<(), AllocError> {
        self.begin()?;
        write!(self.text, "\"{word}\"")
    }

    pub fn nothing(&mut self) -> Result<(), AllocError> {
        self.begin()?;
        self.text.push_str("null")
    }

    pub fn truth(&mut self, value: bool) -> Result<(), AllocError> {
        self.begin()?;
        write!(self.text, "{value}")
    }

    pub fn number(&mut self, value: u32) -> Result<(), AllocError> {
        self.begin()?;
        write!(self.text, "{value}")
    }

    pub fn integer(&mut self, value: i32) -> Result<(), AllocError> {
        self.begin()?;
        write!(self.text, "{value}")
    }

    /// A number, or `null` for none.
    pub fn number_or_nothing(&mut self, value: Option<u32>) -> Result<(), AllocError> {
        match value {
            Some(value) => self.number(value),
            None => self.nothing(),
        }
    }

    pub fn numbers(&mut self, values: &[u32]) -> Result<(), AllocError> {
        self.open_list()?;
        for value in values {
            self.number(*value)?;
        }
        self.close_list()
    }

    /// Bytes as a string of the characters with these numbers.
    pub fn bytes(&mut self, bytes: &[u8]) -> Result<(), AllocError> {
        self.begin()?;
        self.text.push('"')?;
        for byte in bytes {
            self.byte(*byte)?;
        }
        self.text.push('"')
    }

    fn byte(&mut self, byte: u8) -> Result<(), AllocError> {
        if is_plain(byte) {
            return self.text.push(char::from(byte));
        }
        write!(self.text, "\\u{byte:04x}")
    }
}

/// Whether a byte represents itself in a string of JSON, and is written in ASCII.
fn is_plain(byte: u8) -> bool {
    byte >= b' ' && byte <= b'~' && byte != b'"' && byte != b'\\'
}
