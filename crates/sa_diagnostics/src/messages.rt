//! Messages and how they are put together: sentences of words, names between backquotes, and numbers; and the span that they are about.

use itoa::Buffer;
use std::alloc::{AllocError, Global};

/// How many bytes of a name or a literal are shown.
const LONGEST: usize = 40;

/// The hexadecimal digits by their values.
const HEX: &[u8] = b"0123456789abcdef";

/// The greatest number of hexadecimal digits of a number.
const DIGITS: u32 = 16;

/// The bytes from one position of a text up to another.
#[derive(Clone, Copy, Debug, PartialEq, Eq)]
pub struct Span {
    pub start: usize,
    pub end: usize,
}

/// A part of a sentence.
#[derive(Clone, Copy)]
pub enum MessagePart<'a> {
    Words(&'a str),
    /// Bytes of the source, between backquotes.
    Code(&'a [u8]),
    /// Bytes of the source, without backquotes.
    Plain(&'a [u8]),
    /// The name of a file, however long.
    File(&'a [u8]),
    Number(usize),
    /// A number as `0x` and its hexadecimal digits.
    Hex(usize),
    /// A byte by its two hexadecimal digits.
    Byte(u8),
    /// The number of arguments, with the word for them.
    Arguments(usize),
}

/// Sentences, each on its own line.
#[derive(Drop)]
pub struct Sentences {
    pub text: Vec<u8>,
}

impl Sentences {
    /// No sentence.
    pub fn new(alloc: Global) -> Sentences {
        Sentences {
            text: Vec::new(alloc),
        }
    }

    /// Adds a sentence of these parts.
    ///
    /// # Errors
    ///
    /// `AllocError` where memory runs out; a part of the sentence may be there then.
    pub fn say(&mut self, parts: &[MessagePart<'_>]) -> Result<(), AllocError> {
        for part in parts {
            self.put(*part)?;
        }
        self.text.push(b'\n')?;
        Ok(())
    }

    /// Adds a sentence of words alone.
    ///
    /// # Errors
    ///
    /// `AllocError` where memory runs out; a part of the sentence may be there then.
    pub fn say_words(&mut self, words: &str) -> Result<(), AllocError> {
        self.text.extend_from_slice(words.as_bytes())?;
        self.text.push(b'\n')?;
        Ok(())
    }

    fn put(&mut self, part: MessagePart<'_>) -> Result<(), AllocError> {
        match part {
            MessagePart::Words(words) => self.text.extend_from_slice(words.as_bytes()),
            MessagePart::Code(bytes) => self.put_code(bytes),
            MessagePart::Plain(bytes) => self.put_shown(bytes),
            MessagePart::File(name) => self.put_whole(name),
            MessagePart::Number(number) => self.put_number(number),
            MessagePart::Hex(number) => self.put_hex(number),
            MessagePart::Byte(byte) => self.put_byte(byte),
            MessagePart::Arguments(count) => self.put_arguments(count),
        }
    }

    fn put_number(&mut self, number: usize) -> Result<(), AllocError> {
        let mut buffer = Buffer::new();
        let digits = buffer.format(number as u64);
        self.text.extend_from_slice(digits.as_bytes())
    }

    fn put_hex(&mut self, number: usize) -> Result<(), AllocError> {
        self.text.extend_from_slice(b"0x")?;
        let mut begun = false;
        for back in 0..DIGITS {
            let digit = (number >> (4 * (DIGITS - 1 - back))) & 0xf;
            begun = begun || digit > 0 || back + 1 == DIGITS;
            if begun {
                self.put_digit(digit)?;
            }
        }
        Ok(())
    }

    fn put_byte(&mut self, byte: u8) -> Result<(), AllocError> {
        self.put_digit(usize::from(byte >> 4))?;
        self.put_digit(usize::from(byte & 0xf))
    }

    fn put_digit(&mut self, digit: usize) -> Result<(), AllocError> {
        self.text.push(HEX.get(digit).copied().unwrap_or(b'0'))?;
        Ok(())
    }

    fn put_arguments(&mut self, count: usize) -> Result<(), AllocError> {
        self.put_number(count)?;
        let noun = if count == 1 {
            " argument"
        } else {
            " arguments"
        };
        self.text.extend_from_slice(noun.as_bytes())
    }

    fn put_code(&mut self, bytes: &[u8]) -> Result<(), AllocError> {
        self.text.push(b'`')?;
        self.put_shown(bytes)?;
        self.text.push(b'`')?;
        Ok(())
    }

    /// Adds the first of some bytes, with a blank in place of each byte that moves the cursor.
    fn put_shown(&mut self, bytes: &[u8]) -> Result<(), AllocError> {
        for byte in bytes.iter().take(LONGEST) {
            self.text.push(shown(*byte))?;
        }
        if bytes.len() > LONGEST {
            self.text.extend_from_slice(b"..")?;
        }
        Ok(())
    }

    /// Adds bytes in the same way, all of them.
    fn put_whole(&mut self, bytes: &[u8]) -> Result<(), AllocError> {
        for byte in bytes {
            self.text.push(shown(*byte))?;
        }
        Ok(())
    }
}

/// The message on a position.
#[derive(Drop)]
pub struct Message {
    pub sentences: Sentences,
    pub mark: Span,
}

impl Message {
    /// A message without sentences, on these bytes of the source.
    pub fn new(alloc: Global, mark: Span) -> Message {
        Message {
            sentences: Sentences::new(alloc),
            mark,
        }
    }

    /// Whether the message has no sentence.
    pub fn is_silent(&self) -> bool {
        self.sentences.text.is_empty()
    }

    /// Adds a sentence of these parts.
    ///
    /// # Errors
    ///
    /// `AllocError` where memory runs out; a part of the sentence may be there then.
    pub fn say(&mut self, parts: &[MessagePart<'_>]) -> Result<(), AllocError> {
        self.sentences.say(parts)
    }

    /// Adds a sentence of words alone.
    ///
    /// # Errors
    ///
    /// `AllocError` where memory runs out; a part of the sentence may be there then.
    pub fn say_words(&mut self, words: &str) -> Result<(), AllocError> {
        self.sentences.say_words(words)
    }
}

/// The byte as it is shown.
pub(crate) fn shown(byte: u8) -> u8 {
    if byte < b' ' || byte == 0x7f {
        b' '
    } else {
        byte
    }
}
