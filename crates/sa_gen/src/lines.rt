//! The text of a generated program, line by line.

ghost use Rattle.std.specs.Prelude.{◌≡◌, ◌<◌, ◌++◌, decimal, IfOk, OnOk};
ghost use Rattle.sa_gen.specs.Generated.{call, generated, link, main};

use failure::NoMemory;
use itoa::Buffer;
use std::alloc::{AllocError, Global};

/// The line of the first class, C0, whose iter gives the numbers from 1 to its argument.
const FIRST: &[u8] = b"class C0 is it!(once n:INT):INT is loop yield 1.upto!(n); end; end; end;\n";

/// The text of the program of `n` classes, a line for each, and a line for MAIN, which adds what the last class's iter gives
/// for 3 and prints the sum: 6 + 3 (n - 1). A number of 0 gives the text of 1.
///
/// # Errors
///
/// `NoMemory` where the text finds no memory.
pub fn generate(alloc: Global, n: u32) -> Result<Vec<u8>, NoMemory>
    ensures { IfOk result (λ text. text.items ≡ generated n) }
{
    let last = n.saturating_sub(1);
    let mut text = Vec::from_slice(alloc, FIRST)?;
    for before in 0..last {
        add_link(&mut text, before)?;
    }
    add_main(&mut text, last)?;
    Ok(text)
}

/// Adds the line of the class after the one with this number, whose iter gives one more than that one's.
fn add_link(text: &mut Vec<u8>, before: u32) -> Result<(), NoMemory>
    requires { before < 4294967295 }
    ensures { OnOk result (text.new.items ≡ text.old.items ++ link before) }
{
    add_numbered(text, b"class C", (before + 1) as u64, b"")?;
    add_call(text, before)
}

/// Adds the text after the name of a class whose iter calls that of the class with this number.
fn add_call(text: &mut Vec<u8>, before: u32) -> Result<(), NoMemory>
    ensures { OnOk result (text.new.items ≡ text.old.items ++ call before) }
{
    add_numbered(
        text,
        b" is it!(once n:INT):INT is loop yield C",
        before as u64,
        b"::it!(n) + 1; end; end; end;\n",
    )?;
    Ok(())
}

/// Adds the line of MAIN, which calls the iter of the class with this number.
fn add_main(text: &mut Vec<u8>, last: u32) -> Result<(), NoMemory>
    ensures { OnOk result (text.new.items ≡ text.old.items ++ main last) }
{
    add_numbered(
        text,
        b"class MAIN is main is s ::= 0; loop s := s + C",
        last as u64,
        b"::it!(3); end; #OUT + s + \"\\n\"; end; end;\n",
    )?;
    Ok(())
}

/// Adds the decimal digits of a number between two pieces.
///
/// # Errors
///
/// `AllocError` where the text finds no memory.
pub fn add_numbered(
    text: &mut Vec<u8>,
    front: &[u8],
    number: u64,
    back: &[u8],
) -> Result<(), AllocError>
    ensures { OnOk result (text.new.items ≡ text.old.items ++ (front.now ++ decimal number ++ back.now)) }
{
    text.extend_from_slice(front)?;
    text.extend_from_slice(Buffer::new().format(number).as_bytes())?;
    text.extend_from_slice(back)?;
    Ok(())
}
