//! Small texts, each with its tokens as `shown` writes them, or with the rule that it breaks and the byte where.

ghost use Rattle.std.specs.Prelude.{◌<◌, length};

use sa_ast::Rejection;
use sa_lexer::{TokenKind, lex};
use std::alloc::{AllocError, Global};
use std::fmt::Write;
use std::process::Abort;
use std::test::*;

const GAPS: [(&[u8], &str); 12] = [
    (b"", ""),
    (b" \t\n\x0C\r", ""),
    (b"-- all of it", ""),
    (b"--", ""),
    (b"--\n-- two\r\n  -- three", ""),
    (b"a--b\nc", "lower 0..1, lower 5..6"),
    (
        b"a - -b",
        "lower 0..1, sign - 2..3, sign - 4..5, lower 5..6",
    ),
    (b"---\n-", "sign - 4..5"),
    (b"-- \xFF \"\n;", "sign ; 7..8"),
    (b"\"--\" --\"", "text [45, 45] 0..4"),
    (b"\x0B", "E01: bad byte at 0"),
    (b"a\x00", "E01: bad byte at 1"),
];

const NAMES: [(&[u8], &str); 20] = [
    (
        b"a A a1 A_1 aB_",
        "lower 0..1, class 2..3, lower 4..6, class 7..10, lower 11..14",
    ),
    (
        b"class Class CLASS",
        "word class 0..5, lower 6..11, class 12..17",
    ),
    (
        b"ITER ROUT SAME Same",
        "word ITER 0..4, word ROUT 5..9, word SAME 10..14, lower 15..19",
    ),
    (
        b"invariant abstract",
        "word invariant 0..9, word abstract 10..18",
    ),
    (
        b"external far farther",
        "word external 0..8, word far 9..12, lower 13..20",
    ),
    (
        b"if iff _if if_",
        "word if 0..2, lower 3..6, sign _ 7..8, word if 8..10, lower 11..14",
    ),
    (b"elt! loop! far!", "iter 0..4, iter 5..10, iter 11..15"),
    (b"a!! ", "E01: bad byte at 2"),
    (b"A!", "E01: bad byte at 1"),
    (b"ITER!", "E01: bad byte at 4"),
    (b"a !", "E01: bad byte at 2"),
    (b"a!=b", "iter 0..2, sign = 2..3, lower 3..4"),
    (
        b"$OB $A_1 $SAME",
        "abstract 0..3, abstract 4..8, abstract 9..14",
    ),
    (b"$", "E01: bad byte at 0"),
    (b"$ OB", "E01: bad byte at 0"),
    (b"$ob", "E01: bad byte at 0"),
    (b"x $Ob", "lower 0..1, abstract 2..4, lower 4..5"),
    (b"$1", "E01: bad byte at 0"),
    (b"$A!", "E01: bad byte at 2"),
    (b"caf\xC3\xA9", "E01: bad byte at 3"),
];

const NUMBERS: [(&[u8], &str); 25] = [
    (
        b"0 7 00 2147483647",
        "int 0 0..1, int 7 2..3, int 0 4..6, int 2147483647 7..17",
    ),
    (b"2147483648", "E03: number too large at 0"),
    (b"99999999999999999999999999", "E03: number too large at 0"),
    (b" 99999999999a", "E03: number too large at 1"),
    (b"0x7fffFFFF 0x80000000", "E03: number too large at 11"),
    (
        b"0xaF 0o17 0b101",
        "int 175 0..4, int 15 5..9, int 5 10..15",
    ),
    (
        b"1_000 1_ 1__2 0xF_f_",
        "int 1000 0..5, int 1 6..8, int 12 9..13, int 255 14..20",
    ),
    (b"_1", "sign _ 0..1, int 1 1..2"),
    (b"0x", "E04: number form not taken at 0"),
    (b"0xg", "E04: number form not taken at 0"),
    (b"0x_1", "E04: number form not taken at 0"),
    (b"0X1", "E04: number form not taken at 0"),
    (b"0b12", "E04: number form not taken at 0"),
    (b"0o8", "E04: number form not taken at 0"),
    (
        b"0b11111111111111111111111111111111112",
        "E03: number too large at 0",
    ),
    (b"a 12a", "E04: number form not taken at 2"),
    (b"1_a", "E04: number form not taken at 0"),
    (b"1.5", "E04: number form not taken at 0"),
    (b"0x1.5", "E04: number form not taken at 0"),
    (
        b"1.upto!(n)",
        "int 1 0..1, sign . 1..2, iter 2..7, sign ( 7..8, lower 8..9, sign ) 9..10",
    ),
    (b"1. 5", "int 1 0..1, sign . 1..2, int 5 3..4"),
    (b"1.x", "int 1 0..1, sign . 1..2, lower 2..3"),
    (b"1$A", "int 1 0..1, abstract 1..3"),
    (b"1--2", "int 1 0..1"),
    (b"-1", "sign - 0..1, int 1 1..2"),
];

const CHARACTERS: [(&[u8], &str); 18] = [
    (b"'a' ' ' '\"'", "char 97 0..3, char 32 4..7, char 34 8..11"),
    (
        b"'\\n' '\\'' '\\\\' '\\\"'",
        "char 10 0..4, char 39 5..9, char 92 10..14, char 34 15..19",
    ),
    (
        b"'\\a' '\\b' '\\f' '\\r' '\\t' '\\v'",
        "char 7 0..4, char 8 5..9, char 12 10..14, char 13 15..19, char 9 20..24, char 11 25..29",
    ),
    (
        b"'\\0' '\\12' '\\101' '\\377'",
        "char 0 0..4, char 10 5..10, char 65 11..17, char 255 18..24",
    ),
    (b"'\xFF'", "char 255 0..3"),
    (b"''", "E02: literal not ended at 0"),
    (b"'", "E02: literal not ended at 0"),
    (b"x 'ab'", "E02: literal not ended at 2"),
    (b"'\\1011'", "E02: literal not ended at 0"),
    (b"'\\18'", "E02: literal not ended at 0"),
    (b"'\\'", "E02: literal not ended at 0"),
    (b"'\n'", "E02: literal not ended at 0"),
    (b"'\\\n'", "E02: literal not ended at 0"),
    (b"'\\q'", "E05: unknown escape at 1"),
    (b"'\\qa'", "E02: literal not ended at 0"),
    (b"'\\400'", "E05: unknown escape at 1"),
    (b"'\\8'", "E05: unknown escape at 1"),
    (b"'\\A'", "E05: unknown escape at 1"),
];

const TEXTS: [(&[u8], &str); 14] = [
    (b"\"\"", "text [] 0..2"),
    (b"\"hi\" \"x\"", "text [104, 105] 0..4, text [120] 5..8"),
    (b"\"a\"\"b\"", "text [97] 0..3, text [98] 3..6"),
    (b"\"\\\"\\\\'\"", "text [34, 92, 39] 0..7"),
    (b"\"\\1\\12\\1234\"", "text [1, 10, 83, 52] 0..12"),
    (b"\"\\19\"", "text [1, 57] 0..5"),
    (b"\"\xC3\xA9\t\"", "text [195, 169, 9] 0..5"),
    (b"\"abc", "E02: literal not ended at 0"),
    (b"  \"abc\n\"", "E02: literal not ended at 2"),
    (b"\"\\q", "E02: literal not ended at 0"),
    (b"\"\\\"", "E02: literal not ended at 0"),
    (b"\"a\\q\\z\"", "E05: unknown escape at 2"),
    (b"x \"a\\777\"", "E05: unknown escape at 4"),
    (b"\"\\xFF\"", "E05: unknown escape at 1"),
];

const SIGN_TEXTS: [(&[u8], &str); 8] = [
    (
        b"()[]{},;",
        "sign ( 0..1, sign ) 1..2, sign [ 2..3, sign ] 3..4, sign { 4..5, sign } 5..6, sign , 6..7, sign ; 7..8",
    ),
    (
        b"::=:::=:: =:",
        "sign ::= 0..3, sign :: 3..5, sign := 5..7, sign :: 7..9, sign = 10..11, sign : 11..12",
    ),
    (
        b"/=/<=<>=>",
        "sign /= 0..2, sign / 2..3, sign <= 3..5, sign < 5..6, sign >= 6..8, sign > 8..9",
    ),
    (
        b"+-*%^~",
        "sign + 0..1, sign - 1..2, sign * 2..3, sign % 3..4, sign ^ 4..5, sign ~ 5..6",
    ),
    (
        b"#|_->.",
        "sign # 0..1, sign | 1..2, sign _ 2..3, sign -> 3..5, sign . 5..6",
    ),
    (b"<--=\n=", "sign < 0..1, sign = 5..6"),
    (b"a?", "E01: bad byte at 1"),
    (b"@", "E01: bad byte at 0"),
];

/// The kind of a token, and its value.
fn push_kind(line: &mut String, kind: &TokenKind) -> Result<(), AllocError> {
    match kind {
        TokenKind::Word(word) => write!(line, "word {word}"),
        TokenKind::ClassName => line.push_str("class"),
        TokenKind::AbstractName => line.push_str("abstract"),
        TokenKind::Lower => line.push_str("lower"),
        TokenKind::IterName => line.push_str("iter"),
        TokenKind::Int(value) => write!(line, "int {value}"),
        TokenKind::Char(byte) => write!(line, "char {byte}"),
        TokenKind::Text(name) => {
            let bytes = name.as_slice();
            write!(line, "text {bytes:?}")
        }
        TokenKind::Sign(sign) => write!(line, "sign {sign}"),
    }
}

/// A text's tokens, or the rule that it breaks and the byte where.
fn shown(alloc: Global, text: &[u8]) -> Result<String, AllocError>
    requires { length text.now < 1000 }
{
    let mut line = String::new(alloc);
    match lex(alloc, text, 1) {
        Ok(tokens) => {
            for (i, token) in tokens.iter().enumerate() {
                if i > 0 {
                    line.push_str(", ")?;
                }
                push_kind(&mut line, &token.kind)?;
                let start = token.start;
                let end = token.end;
                write!(line, " {start}..{end}")?;
            }
        }
        Err(Rejection::Refused(refusal)) => {
            let rule = refusal.rule;
            let at = refusal.pos.at;
            write!(line, "{rule} at {at}")?;
        }
        Err(Rejection::Failed(_)) => line.push_str("no memory")?,
    }
    Ok(line)
}

/// Each text has the tokens that are listed with it, or breaks the rule.
fn expect_all(rt: &impl Abort, alloc: Global, cases: &[(&[u8], &str)]) -> Result<(), Fail> {
    for (text, want) in cases {
        assert!(rt; text.len() < 1000);
        let got = shown(alloc, text)?;
        assert_eq!(rt; got.as_str(), *want);
    }
    Ok(())
}

#[test]
fn each_text_has_its_tokens(rt: HostRuntime) -> Result<(), Fail> {
    for cases in [
        GAPS.as_slice(),
        NAMES.as_slice(),
        NUMBERS.as_slice(),
        CHARACTERS.as_slice(),
        TEXTS.as_slice(),
        SIGN_TEXTS.as_slice(),
    ] {
        expect_all(&rt, rt.alloc(), cases)?;
    }
    Ok(())
}
