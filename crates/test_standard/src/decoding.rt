//! Which bytes spell a module (chapter 5).

use std::alloc::Global;
use std::test::Fail;
use wa_decode::{DecodeFault, decode};
use wa_syntax::ExportKind;

/// What a module begins with.
const PREAMBLE: &[u8] = &[0x00, 0x61, 0x73, 0x6d, 0x01, 0x00, 0x00, 0x00];

/// The types and functions of a module with one function, which has no argument and no result.
const ONE_FUNCTION: &[u8] = &[0x01, 0x04, 0x01, 0x60, 0x00, 0x00, 0x03, 0x02, 0x01, 0x00];

/// A label, some bytes, and whether they can be where they are put.
type Case = (&'static str, &'static [u8], bool);

/// Sections of a module. V8 says the same of each that isn't marked.
const SECTIONS: &[Case] = &[
    ("no section", &[], true),
    (
        "a count in two bytes",
        &[0x01, 0x05, 0x81, 0x00, 0x60, 0x00, 0x00],
        true,
    ),
    (
        "a count in six bytes",
        &[
            0x01, 0x09, 0x81, 0x80, 0x80, 0x80, 0x80, 0x00, 0x60, 0x00, 0x00,
        ],
        false,
    ),
    (
        "empty sections in order",
        &[0x01, 0x01, 0x00, 0x03, 0x01, 0x00],
        true,
    ),
    (
        "sections out of order",
        &[0x03, 0x01, 0x00, 0x01, 0x01, 0x00],
        false,
    ),
    (
        "a section twice",
        &[0x01, 0x01, 0x00, 0x01, 0x01, 0x00],
        false,
    ),
    ("a section of an unknown number", &[0x10, 0x01, 0x00], false),
    (
        "a section that is shorter than its size",
        &[0x01, 0x02, 0x00],
        false,
    ),
    (
        "a section that is longer than its content",
        &[0x01, 0x02, 0x00, 0x00],
        false,
    ),
    ("a custom section", &[0x00, 0x03, 0x01, 0x61, 0xff], true),
    ("a custom section without a name", &[0x00, 0x00], false),
    (
        "a name that is longer than its section",
        &[0x00, 0x02, 0x02, 0x61, 0x61],
        false,
    ),
    ("a name that is no UTF-8", &[0x00, 0x02, 0x01, 0xff], false),
    // V8 takes floats.
    (
        "the type of a float",
        &[0x01, 0x05, 0x01, 0x60, 0x01, 0x7d, 0x00],
        false,
    ),
    ("functions without code", ONE_FUNCTION, false),
    (
        "code without functions",
        &[0x0a, 0x04, 0x01, 0x02, 0x00, 0x0b],
        false,
    ),
    (
        "a global",
        &[0x06, 0x06, 0x01, 0x7f, 0x00, 0x41, 0x00, 0x0b],
        true,
    ),
    (
        "a global without an initial value",
        &[0x06, 0x04, 0x01, 0x7f, 0x00, 0x0b],
        false,
    ),
    (
        "limits of an unknown form",
        &[0x05, 0x03, 0x01, 0x02, 0x00],
        false,
    ),
];

/// Locals and bodies of the function. V8 says the same of each that isn't marked.
const CODES: &[Case] = &[
    ("an empty body", &[0x00, 0x0b], true),
    ("no end", &[0x00, 0x01], false),
    ("bytes behind the end", &[0x00, 0x0b, 0x01], false),
    ("an `else` without an `if`", &[0x00, 0x05, 0x0b], false),
    (
        "an `if` with an empty `else`",
        &[0x00, 0x41, 0x00, 0x04, 0x40, 0x05, 0x0b, 0x0b],
        true,
    ),
    // V8 and wabt take it.
    (
        "a block type in two bytes",
        &[0x00, 0x02, 0xc0, 0x7f, 0x0b, 0x0b],
        false,
    ),
    (
        "a reserved byte as a longer zero",
        &[0x00, 0x3f, 0x80, 0x00, 0x1a, 0x0b],
        false,
    ),
    // V8 takes floats.
    (
        "a constant that is a float",
        &[0x00, 0x43, 0x00, 0x00, 0x00, 0x00, 0x1a, 0x0b],
        false,
    ),
    (
        "bits that aren't copies of the sign",
        &[0x00, 0x41, 0xff, 0xff, 0xff, 0xff, 0x0f, 0x1a, 0x0b],
        false,
    ),
    // V8 takes 50,000 locals.
    (
        "a million locals",
        &[0x01, 0xc0, 0x84, 0x3d, 0x7f, 0x0b],
        true,
    ),
    (
        "a million and one locals",
        &[0x02, 0xc0, 0x84, 0x3d, 0x7f, 0x01, 0x7e, 0x0b],
        false,
    ),
];

/// What is wrong with a module that has these sections.
fn fault(alloc: Global, sections: &[u8]) -> Result<Option<DecodeFault>, Fail> {
    let mut bytes = Vec::from_slice(alloc, PREAMBLE)?;
    bytes.extend_from_slice(sections)?;
    if bytes.len() >= 1_000_000 {
        return Err(Fail::from("too long a case"));
    }
    Ok(decode(alloc, &bytes).err())
}

/// What is wrong with a module of one function with this code. The head is that of the section.
fn code_fault(alloc: Global, head: &[u8], code: &[u8]) -> Result<Option<DecodeFault>, Fail> {
    let mut sections = Vec::from_slice(alloc, ONE_FUNCTION)?;
    sections.extend_from_slice(head)?;
    sections.extend_from_slice(code)?;
    fault(alloc, &sections)
}

/// The fault of bytes that spell a module, or that spell none.
fn expected(spelled: bool) -> Option<DecodeFault> {
    if spelled {
        None
    } else {
        Some(DecodeFault::Malformed)
    }
}

#[test]
fn a_module_is_read_with_what_it_holds(rt: HostRuntime) -> Result<(), Fail> {
    let bytes = [
        0x00, 0x61, 0x73, 0x6d, 0x01, 0x00, 0x00, 0x00, 0x01, 0x04, 0x01, 0x60, 0x00, 0x00, 0x03,
        0x02, 0x01, 0x00, 0x07, 0x08, 0x01, 0x04, 0x6d, 0x61, 0x69, 0x6e, 0x00, 0x00, 0x0a, 0x04,
        0x01, 0x02, 0x00, 0x0b,
    ];
    let module = decode(rt.alloc(), &bytes)?;
    assert_eq!(rt; module.types.len(), 1);
    assert_eq!(rt; module.funcs.len(), 1);
    assert_eq!(rt; module.exports.len(), 1);
    let export = module.exports.get(0).ok_or("no export")?;
    assert_eq!(rt; export.name.as_slice(), b"main".as_slice());
    assert_eq!(rt; export.kind, ExportKind::Func(0));
    assert_eq!(rt; module.start, None);
    let cut = decode(rt.alloc(), &bytes[..33]).err();
    assert_eq!(rt; cut, Some(DecodeFault::Malformed), "without the last byte");
    Ok(())
}

#[test]
fn sections_are_read_as_the_standard_says(rt: HostRuntime) -> Result<(), Fail> {
    for (shown, sections, spelled) in SECTIONS {
        let found = fault(rt.alloc(), sections)?;
        assert_eq!(rt; found, expected(*spelled), "{shown}");
    }
    Ok(())
}

#[test]
fn code_is_read_as_the_standard_says(rt: HostRuntime) -> Result<(), Fail> {
    for (shown, code, spelled) in CODES {
        let size = u8::try_from(code.len())?;
        let head = [0x0a, size.saturating_add(2), 0x01, size];
        let found = code_fault(rt.alloc(), &head, code)?;
        assert_eq!(rt; found, expected(*spelled), "{shown}");
    }
    Ok(())
}

/// A body with so many nested blocks.
fn nested(alloc: Global, blocks: usize) -> Result<Vec<u8>, Fail> {
    let mut body = Vec::new(alloc);
    body.push(0x00)?;
    for _ in 0..blocks {
        body.extend_from_slice(&[0x02, 0x40])?;
    }
    for _ in 0..blocks {
        body.push(0x0b)?;
    }
    body.push(0x0b)?;
    Ok(body)
}

#[test]
fn a_thousand_blocks_may_be_open(rt: HostRuntime) -> Result<(), Fail> {
    // The head of the section of the codes, with the sizes of the section and of the body.
    let table = [
        (1000, [0x0a, 0xbd, 0x17, 0x01, 0xba, 0x17], true),
        (1001, [0x0a, 0xc0, 0x17, 0x01, 0xbd, 0x17], false),
    ];
    for (blocks, head, spelled) in table {
        let body = nested(rt.alloc(), blocks)?;
        let found = code_fault(rt.alloc(), &head, &body)?;
        assert_eq!(rt; found, expected(spelled), "{blocks} blocks");
    }
    Ok(())
}
