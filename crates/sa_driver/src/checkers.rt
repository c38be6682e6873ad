//! Which rules the checker decides.

ghost use Rattle.std.specs.Prelude.{◌≡◌};
ghost use Rattle.sa_driver.specs.Files.{is_of_checker};

use sa_ast::Rule;

/// Whether the checker decides this rule: whether it is none of tokens, of grammar or of the size of sources.
pub fn is_of_checker(rule: Rule) -> bool
    ensures { result ≡ is_of_checker rule }
{
    match rule {
        Rule::BadByte
        | Rule::LiteralNotEnded
        | Rule::NumberTooLarge
        | Rule::NumberForm
        | Rule::UnknownEscape
        | Rule::UnexpectedToken
        | Rule::NestedTooDeep
        | Rule::WordNotTaken
        | Rule::SourceTooLarge => false,
        _ => true,
    }
}
