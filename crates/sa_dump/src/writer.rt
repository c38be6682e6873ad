//! A text that grows by words, numbers and names, one line after the other. A line begins with two spaces for each level that it is
//! nested.

use sa_ast::{ClassKind, Mode, ModeTy, Ty};
use sqlite_items::Boxed;
use std::alloc::{AllocError, Global};
use std::fmt::Write;

/// A text that grows line by line.
#[derive(Drop)]
pub(crate) struct Writer {
    pub text: String,
    /// How deep the next line is nested.
    depth: u32,
}

impl Writer {
    pub fn new(alloc: Global) -> Writer {
        Writer {
            text: String::new(alloc),
            depth: 0,
        }
    }

    /// Begins a line with this word.
    pub fn begin(&mut self, word: &str) -> Result<(), AllocError> {
        for _ in 0..self.depth {
            self.text.push_str("  ")?;
        }
        self.text.push_str(word)
    }

    /// Ends a line.
    pub fn end(&mut self) -> Result<(), AllocError> {
        self.text.push('\n')
    }

    /// A line with this word alone.
    pub fn line(&mut self, word: &str) -> Result<(), AllocError> {
        self.begin(word)?;
        self.end()
    }

    /// The next lines are nested in the last one.
    pub fn deeper(&mut self) {
        self.depth = self.depth.saturating_add(1);
    }

    /// The next lines are nested as deep as before the last `deeper`.
    pub fn shallower(&mut self) {
        self.depth = self.depth.saturating_sub(1);
    }

    /// Words, as they are.
    pub fn put(&mut self, words: &str) -> Result<(), AllocError> {
        self.text.push_str(words)
    }

    pub fn number(&mut self, value: u32) -> Result<(), AllocError> {
        write!(self.text, "{value}")
    }

    /// The number of an entry of a list.
    pub fn place(&mut self, place: usize) -> Result<(), AllocError> {
        write!(self.text, "{place}")
    }

    pub fn integer(&mut self, value: i32) -> Result<(), AllocError> {
        write!(self.text, "{value}")
    }

    pub fn truth(&mut self, value: bool) -> Result<(), AllocError> {
        write!(self.text, "{value}")
    }

    /// A letter and the number of what it stands for, as `v1`.
    pub fn numbered(&mut self, letter: &str, number: u32) -> Result<(), AllocError> {
        self.put(letter)?;
        self.number(number)
    }

    /// A name, or the inside of a literal: bytes that aren't printed are escaped as a literal of the source escapes them.
    pub fn bytes(&mut self, bytes: &[u8]) -> Result<(), AllocError> {
        for byte in bytes {
            self.byte(*byte)?;
        }
        Ok(())
    }

    fn byte(&mut self, byte: u8) -> Result<(), AllocError> {
        match byte {
            b'\n' => self.put("\\n"),
            b'\t' => self.put("\\t"),
            b'"' => self.put("\\\""),
            b'\'' => self.put("\\'"),
            b'\\' => self.put("\\\\"),
            b' '..=b'~' => self.text.push(char::from(byte)),
            _ => write!(self.text, "\\{byte:03o}"),
        }
    }

    /// The literal of a text.
    pub fn text_literal(&mut self, bytes: &[u8]) -> Result<(), AllocError> {
        self.put("text \"")?;
        self.bytes(bytes)?;
        self.put("\"")
    }

    /// The literal of a character.
    pub fn char_literal(&mut self, byte: u8) -> Result<(), AllocError> {
        self.put("char '")?;
        self.byte(byte)?;
        self.put("'")
    }

    /// A mode, which the next word follows. `in` isn't written.
    pub fn mode(&mut self, mode: Mode) -> Result<(), AllocError> {
        self.put(match mode {
            Mode::In => "",
            Mode::Out => "out ",
            Mode::Inout => "inout ",
            Mode::Once => "once ",
        })
    }

    /// A mode after a space, which a part follows. `in` isn't written.
    pub fn mode_before(&mut self, mode: Mode) -> Result<(), AllocError> {
        self.put(match mode {
            Mode::In => "",
            Mode::Out => " out",
            Mode::Inout => " inout",
            Mode::Once => " once",
        })
    }

    /// What a class is, which its name follows.
    pub fn kind(&mut self, kind: ClassKind) -> Result<(), AllocError> {
        self.put(match kind {
            ClassKind::Reference => "class ",
            ClassKind::Immutable => "immutable class ",
            ClassKind::Abstract => "abstract class ",
            ClassKind::Partial => "partial class ",
        })
    }

    /// A type as a source writes it.
    #[cycle(write_type)]
    pub fn ty(&mut self, ty: &Ty) -> Result<(), AllocError> {
        match ty {
            Ty::Named(name, given, _) => {
                self.bytes(name.as_slice())?;
                self.parameters(given.as_slice())
            }
            Ty::Same(_) => self.put("SAME"),
            Ty::Rout(args, gives, _) => {
                self.put("ROUT")?;
                self.bound_args(args.as_slice())?;
                self.bound_result(gives)
            }
            Ty::Iter(args, gives, _) => {
                self.put("ITER")?;
                self.bound_args(args.as_slice())?;
                self.bound_result(gives)
            }
        }
    }

    #[cycle(write_type)]
    fn parameters(&mut self, types: &[Ty]) -> Result<(), AllocError> {
        let mut first = true;
        for ty in types {
            self.put(if first { "{" } else { "," })?;
            self.ty(ty)?;
            first = false;
        }
        self.put(if types.is_empty() { "" } else { "}" })
    }

    #[cycle(write_type)]
    fn bound_args(&mut self, args: &[ModeTy]) -> Result<(), AllocError> {
        let mut first = true;
        for arg in args {
            self.put(if first { "{" } else { "," })?;
            self.mode(arg.mode)?;
            self.ty(&arg.ty)?;
            first = false;
        }
        self.put(if args.is_empty() { "" } else { "}" })
    }

    #[cycle(write_type)]
    fn bound_result(&mut self, gives: &Option<Boxed<Ty>>) -> Result<(), AllocError> {
        match gives {
            Some(ty) => {
                self.put(":")?;
                self.ty(ty.get())
            }
            None => Ok(()),
        }
    }

    /// The type of what was named, where there is one.
    pub fn of_type(&mut self, ty: &Option<Ty>) -> Result<(), AllocError> {
        match ty {
            Some(ty) => {
                self.put(": ")?;
                self.ty(ty)
            }
            None => Ok(()),
        }
    }

    /// Opens what is a part of an expression, in parentheses where it has several words.
    pub fn open(&mut self, nesting: Nesting, words: Words) -> Result<(), AllocError> {
        match (nesting, words) {
            (Nesting::Whole, _) => Ok(()),
            (Nesting::Part, Words::One) => self.put(" "),
            (Nesting::Part, Words::Several) => self.put(" ("),
        }
    }

    /// Closes what was opened so.
    pub fn close(&mut self, nesting: Nesting, words: Words) -> Result<(), AllocError> {
        match (nesting, words) {
            (Nesting::Part, Words::Several) => self.put(")"),
            _ => Ok(()),
        }
    }
}

/// Whether an expression is a whole one, or a part of another, after a space.
#[derive(Clone, Copy, Debug, PartialEq, Eq)]
pub(crate) enum Nesting {
    Whole,
    Part,
}

/// How many words an expression is written in.
#[derive(Clone, Copy, Debug, PartialEq, Eq)]
pub(crate) enum Words {
    One,
    Several,
}
