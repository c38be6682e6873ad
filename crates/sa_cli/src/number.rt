//! Numbers in a command line: decimal digits alone, in a range.

ghost use Rattle.std.specs.Prelude.{◌≡◌, option_map};
ghost use Rattle.sa_cli.specs.Numbers.{is_numeral, number_in, number_or};

use std::str::FromStr;

/// The number that the text spells, if it is one from `least` to `most`.
pub(crate) fn number_in(text: &str, least: u64, most: u64) -> Option<u64>
    ensures { result ≡ number_in least most text.now }
{
    if !is_numeral(text) {
        return None;
    }
    let value = u64::from_str(text).ok()?;
    (least <= value && value <= most).then_some(value)
}

/// Whether the text is one digit or more, and nothing else.
fn is_numeral(text: &str) -> bool
    ensures { result ≡ is_numeral text.now }
{
    !text.is_empty() && text.as_bytes().iter().all(|byte| byte.is_ascii_digit())
}

/// The number that the text spells, if it is one from `least` to `most`, and `default` where there is no text.
pub(crate) fn number_or(default: u64, text: Option<&str>, least: u64, most: u64) -> Option<u64>
    ensures { result ≡ number_or default least most (option_map (λ t. t.now) text.entry) }
{
    match text {
        Some(text) => number_in(text, least, most),
        None => Some(default),
    }
}
