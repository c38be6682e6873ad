//! The classes of bytes.

ghost use Rattle.std.specs.Prelude.{◌≡◌};
ghost use Rattle.std.specs.Char.{digit_value, is_digit};
ghost use Rattle.sa_lexer.specs.Bytes.{is_blank, is_name_byte, begins_with};

pub(crate) fn is_blank(byte: u8) -> bool
    ensures { result ≡ is_blank byte }
{
    matches!(byte, b' ' | b'\t' | b'\n' | 0x0C | b'\r')
}

pub(crate) fn is_name_byte(byte: u8) -> bool
    ensures { result ≡ is_name_byte byte }
{
    byte.is_ascii_alphanumeric() || byte == b'_'
}

pub(crate) fn begins_with(byte: u8, bytes: &[u8]) -> bool
    ensures { result ≡ begins_with byte bytes.now }
{
    match bytes {
        [] => false,
        [first, ..] => *first == byte,
    }
}

/// The value of a digit or a letter, from 0 for `0` to 35 for `z` and `Z`, and 36 for another byte.
pub(crate) fn digit_value(byte: u8) -> u32
    ensures { result ≡ digit_value byte }
{
    char::from(byte).to_digit(36).unwrap_or(36)
}

/// A digit of the base, in either case.
pub(crate) fn is_digit(byte: u8, base: u32) -> bool
    ensures { result ≡ is_digit byte base }
{
    digit_value(byte) < base
}
