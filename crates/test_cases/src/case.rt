//! A case as the table states it. The README describes the form.

use crate::text::{bytes_of, unescaped};
use anyhow::{Context, Result, bail};
use std::alloc::Global;

/// The one file of most cases.
const PROGRAM: &str = "f.sa";

/// A case: a call, and its expected result.
#[derive(Drop)]
pub struct Case {
    pub name: String,
    pub files: Vec<(String, Vec<u8>)>,
    pub words: Vec<String>,
    pub input: Vec<u8>,
    pub failing: FailingCalls,
    pub wanted: ExpectedResult,
}

/// The expected result of a call.
#[derive(Drop)]
pub struct ExpectedResult {
    pub output: Vec<u8>,
    /// Whether a prefix of the output is enough.
    pub output_may_be_cut: bool,
    pub lines: Vec<u8>,
    pub status: u64,
}

/// The calls of each device that fail, by their numbers, from 0.
#[derive(Drop)]
pub struct FailingCalls {
    pub store: Vec<u64>,
    pub input: Vec<u64>,
    pub output: Vec<u64>,
    pub lines: Vec<u64>,
}

impl Case {
    /// Reads a case from a text that begins with its name. Where it has no command of its own, it has these arguments. It fails where a
    /// line has none of the forms that the README describes.
    pub fn read(alloc: Global, words: &[String], text: &str) -> Result<Case> {
        let mut parts = text.split("\n--- ");
        let mut case = Case::reported(alloc, words, parts.next().unwrap_or(""))?;
        for part in parts {
            case.read_part(alloc, part)?;
        }
        Ok(case)
    }

    /// Reads the case of a program that has a file of its own: its head comment states the case. It fails where that is no case.
    pub fn of_program(alloc: Global, source: &str) -> Result<Case> {
        let head = head_comment(alloc, source)?;
        let text = head
            .as_str()
            .strip_prefix("=== ")
            .context("a program begins with its name")?;
        let mut case = Case::read(alloc, &[], text)?;
        case.push_file(alloc, PROGRAM, source.as_bytes())?;
        Ok(case)
    }

    /// The case that the lines before the parts state.
    fn reported(alloc: Global, words: &[String], text: &str) -> Result<Case> {
        let mut lines = text.lines();
        let mut case = Case {
            name: String::from_str(alloc, lines.next().unwrap_or(""))?,
            files: Vec::new(alloc),
            words: copied(alloc, words)?,
            input: Vec::new(alloc),
            failing: FailingCalls::none(alloc),
            wanted: ExpectedResult::nothing(alloc),
        };
        for line in lines {
            if !line.is_empty() && !line.starts_with('#') {
                case.read_line(alloc, line)?;
            }
        }
        Ok(case)
    }

    fn read_line(&mut self, alloc: Global, line: &str) -> Result<()> {
        let (word, rest) = line.split_once(' ').unwrap_or((line, ""));
        match word {
            "$" => self.words = arguments_of(alloc, rest)?,
            "input" => self.input = unescaped(alloc, rest)?,
            "fails" => self.failing.read(alloc, rest)?,
            _ => {
                if !self.wanted.read(alloc, word, rest)? {
                    self.read_file(alloc, line)?;
                }
            }
        }
        Ok(())
    }

    /// Reads a line that is a file: its name and its text.
    fn read_file(&mut self, alloc: Global, line: &str) -> Result<()> {
        let (name, text) = line.split_once(':').context("this is no line of a case")?;
        if !name.ends_with(".sa") {
            bail!("this is no line of a case: {line}");
        }
        self.push_file(
            alloc,
            name,
            text.strip_prefix(' ').unwrap_or(text).as_bytes(),
        )
    }

    /// Reads a part: its heading, and the text after it.
    fn read_part(&mut self, alloc: Global, part: &str) -> Result<()> {
        let (heading, text) = part.split_once('\n').unwrap_or((part, ""));
        let (name, form) = name_and_form(heading);
        let bytes = bytes_of(alloc, form, text)?;
        match name {
            "stdin" => self.input = bytes,
            "stdout" => self.wanted.output = bytes,
            "stderr" => self.wanted.lines = bytes,
            "front of stdout" => {
                self.wanted.output = bytes;
                self.wanted.output_may_be_cut = true;
            }
            _ => self.files.push((String::from_str(alloc, name)?, bytes))?,
        }
        Ok(())
    }

    fn push_file(&mut self, alloc: Global, name: &str, text: &[u8]) -> Result<()> {
        let name = String::from_str(alloc, name)?;
        let mut bytes = Vec::new(alloc);
        bytes.extend_from_slice(text)?;
        self.files.push((name, bytes))?;
        Ok(())
    }
}

impl ExpectedResult {
    fn nothing(alloc: Global) -> ExpectedResult {
        ExpectedResult {
            output: Vec::new(alloc),
            output_may_be_cut: false,
            lines: Vec::new(alloc),
            status: 0,
        }
    }

    /// Reads a line that states an expected result, by its first word. Gives false where this is no such word.
    fn read(&mut self, alloc: Global, word: &str, rest: &str) -> Result<bool> {
        match word {
            "accepted" => self.output = unescaped(alloc, "accepted\\n")?,
            "prints" => self.output = unescaped(alloc, rest)?,
            "may" => {
                let text = rest.strip_prefix("print ").context("a program may print")?;
                self.output = unescaped(alloc, text)?;
                self.output_may_be_cut = true;
            }
            "refused" => self.tell_of_program(alloc, rest, 120)?,
            "fault" => {
                let (line, kind) = rest.split_once(": ").context("a fault has a line")?;
                let rest = format!(in alloc; "{line}: fault: {kind}")?;
                self.tell_of_program(alloc, rest.as_str(), 121)?;
            }
            "err" => self.tell(rest)?,
            "status" => self.status = rest.parse::<u64>().context("a status is a number")?,
            _ => return Ok(false),
        }
        Ok(true)
    }

    /// Adds an expected line on err that begins with the program's name, and sets the expected status.
    fn tell_of_program(&mut self, alloc: Global, rest: &str, status: u64) -> Result<()> {
        let line = format!(in alloc; "{PROGRAM}:{rest}")?;
        self.tell(line.as_str())?;
        self.status = status;
        Ok(())
    }

    /// Adds an expected line on err.
    fn tell(&mut self, line: &str) -> Result<()> {
        self.lines.extend_from_slice(line.as_bytes())?;
        self.lines.push(b'\n')?;
        Ok(())
    }
}

impl FailingCalls {
    fn none(alloc: Global) -> FailingCalls {
        FailingCalls {
            store: Vec::new(alloc),
            input: Vec::new(alloc),
            output: Vec::new(alloc),
            lines: Vec::new(alloc),
        }
    }

    /// Reads the name of a device and the numbers of the calls of it that fail.
    fn read(&mut self, alloc: Global, rest: &str) -> Result<()> {
        let (device, calls) = rest.split_once(' ').context("a device fails at a call")?;
        let calls = numbers(alloc, calls)?;
        match device {
            "store" => self.store = calls,
            "stdin" => self.input = calls,
            "stdout" => self.output = calls,
            "stderr" => self.lines = calls,
            _ => bail!("no device has the name {device}"),
        }
        Ok(())
    }
}

/// The arguments of a command.
pub fn arguments_of(alloc: Global, text: &str) -> Result<Vec<String>> {
    let mut words = Vec::new(alloc);
    for word in text.split_ascii_whitespace() {
        words.push(String::from_utf8(unescaped(alloc, word)?)?)?;
    }
    Ok(words)
}

fn copied(alloc: Global, words: &[String]) -> Result<Vec<String>> {
    let mut copies = Vec::new(alloc);
    for word in words {
        copies.push(word.clone()?)?;
    }
    Ok(copies)
}

fn numbers(alloc: Global, text: &str) -> Result<Vec<u64>> {
    let mut numbers = Vec::new(alloc);
    for word in text.split_ascii_whitespace() {
        numbers.push(word.parse::<u64>().context("a number is whole")?)?;
    }
    Ok(numbers)
}

/// The name and the form that a heading contains, the form in parentheses.
fn name_and_form(heading: &str) -> (&str, Option<&str>) {
    match heading.strip_suffix(")") {
        Some(front) => match front.rsplit_once(" (") {
            Some((name, form)) => (name, Some(form)),
            None => (heading, None),
        },
        None => (heading, None),
    }
}

/// The lines of the comment at the head of a program.
fn head_comment(alloc: Global, source: &str) -> Result<String> {
    let mut head = String::new(alloc);
    for line in source.lines() {
        let Some(comment) = line.strip_prefix("--") else {
            break;
        };
        head.push_str(comment.strip_prefix(' ').unwrap_or(comment))?;
        head.push('\n')?;
    }
    Ok(head)
}
