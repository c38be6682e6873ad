//! Numbers.

ghost use Rattle.std.specs.Prelude.{◌≡◌, ◌≤◌, ◌<◌, length, IsTrue};
ghost use Rattle.std.specs.List.{prefix_len};
ghost use Rattle.sa_lexer.specs.ScannedToken.{IsAmong};
ghost use Rattle.sa_lexer.specs.Number.{base_of, is_digit_or_underscore, value_of, goes_on, number_token, begins_with_digit};

use crate::byte::{digit_value, is_digit};
use crate::scan_result::{Fault, ScannedToken};
use crate::token::TokenKind;
use sa_ast::Rule;

/// The largest number.
const MAX: u64 = 2147483647;

/// The base, by the prefix.
fn base_of(bytes: &[u8]) -> u32
    ensures { result ≡ base_of bytes.now }
{
    match bytes {
        [b'0', b'x', ..] => 16,
        [b'0', b'o', ..] => 8,
        [b'0', b'b', ..] => 2,
        _ => 10,
    }
}

/// How many digits and `_` are at the front.
fn digits_len(base: u32, bytes: &[u8]) -> usize
    ensures run { result ≡ prefix_len (is_digit_or_underscore base) bytes.now }
    ensures within { result ≤ length bytes.now }
{
    bytes
        .iter()
        .take_while(|b| is_digit(**b, base) || **b == b'_')
        .count()
}

/// The value of the digits in the base, or any number greater than `MAX` where the value is greater. Other bytes count nothing.
pub(crate) fn value_of(base: u32, digits: &[u8]) -> u64
    requires { base ≤ 16 }
    ensures exact { result ≤ MAX → result ≡ value_of base digits.now }
    ensures above { MAX < result → MAX < value_of base digits.now }
{
    let mut value = 0;
    for &digit in digits {
        if is_digit(digit, base) && value <= MAX {
            value = value * u64::from(base) + u64::from(digit_value(digit));
        }
    }
    value
}

fn begins_with_digit(base: u32, bytes: &[u8]) -> bool
    ensures test { result ≡ begins_with_digit base bytes.now }
    ensures more { IsTrue result → 0 < prefix_len (is_digit_or_underscore base) bytes.now }
{
    match bytes {
        [] => false,
        [first, ..] => is_digit(*first, base),
    }
}

/// Whether a letter, a digit, or `.` and a digit are at the front.
fn goes_on(bytes: &[u8]) -> bool
    ensures { result ≡ goes_on bytes.now }
{
    match bytes {
        [] => false,
        [first, rest @ ..] => first.is_ascii_alphanumeric()
            || (*first == b'.' && begins_with_digit(10, rest)),
    }
}

/// The number at the front.
#[tactic(auto, unfolding(crate::specs::Number::number_token))]
pub(crate) fn number_token(bytes: &[u8]) -> Result<ScannedToken, Fault>
    requires { 0 < length bytes.now }
    ensures token { result ≡ number_token bytes.now }
    ensures among { IsAmong (length bytes.now) result }
{
    let base = base_of(bytes);
    let prefix = if base == 10 { 0 } else { 2 };
    let body = &bytes[prefix..];
    if !begins_with_digit(base, body) {
        return Err(Fault::at_front(Rule::NumberForm));
    }
    let (digits, rest) = body.split_at(digits_len(base, body));
    let value = value_of(base, digits);
    if value > MAX {
        return Err(Fault::at_front(Rule::NumberTooLarge));
    }
    if goes_on(rest) {
        return Err(Fault::at_front(Rule::NumberForm));
    }
    Ok(ScannedToken {
        kind: TokenKind::Int(value as u32),
        len: prefix + digits.len(),
    })
}
