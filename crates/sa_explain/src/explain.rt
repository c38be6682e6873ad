//! The explanation of a refusal or a fault.

ghost use Rattle.std.specs.Prelude.{◌↔◌, ◌<◌, All, IsTrue, length};

use crate::classes::{about_class, about_features};
use crate::faults::about_fault;
use crate::general::{Advice, of_rule};
use failure::Failure;
use sa_ast::{Class, FaultKind, Pos, Refusal, Rule, Sources};
use sa_diagnostics::{
    Declarations, Message, MessagePart, Sentences, SourceContext, Span, TokenView, about_body,
    about_bytes, line_in, open_blocks_before, put_marked, unexpected,
};
use sa_lexer::{Token, lex};
use sa_read::{ParsedFiles, parse_program};
use sa_typed::TypedProgram;
use sqlite_items::Items;
use std::alloc::Global;

/// The greatest number of bytes that a text may have to be explained.
const MOST_BYTES: usize = 4_294_967_294;

/// The greatest number of refusals after the first one that are explained. Each takes a walk over its text.
const MOST_FURTHER: usize = 199;

/// What the refusals of a program with these texts mean: for each the line of its position with the position marked, a sentence about
/// what is wrong there, and what to do. No bytes where the position is in none of the texts. Where there are further refusals after the
/// first, each explanation follows an empty line and one with the rule and the position, and where there are more than 200 the last ones
/// are only counted.
///
/// # Errors
///
/// `NoMemory` where memory runs out.
pub fn explain_refusals(
    alloc: Global,
    sources: &Sources,
    first: Refusal,
    further: &[Refusal],
) -> Result<Vec<u8>, Failure> {
    let classes = classes_of(alloc, sources)?;
    let table = Declarations {
        classes: classes.as_slice(),
        sources,
    };
    if further.is_empty() {
        return of_refusal(alloc, table, first);
    }
    let mut lines = below_head(alloc, table, first)?;
    for refusal in further.iter().take(MOST_FURTHER) {
        let explained = below_head(alloc, table, *refusal)?;
        lines.extend_from_slice(explained.as_slice())?;
    }
    let left = left_out(alloc, further.len().saturating_sub(MOST_FURTHER))?;
    lines.extend_from_slice(left.as_slice())?;
    Ok(lines)
}

/// What a refusal means, after an empty line and one with its rule and its position.
fn below_head(
    alloc: Global,
    table: Declarations<'_>,
    refusal: Refusal,
) -> Result<Vec<u8>, Failure> {
    let mut head = Sentences::new(alloc);
    head.say_words("")?;
    head.say(&[
        MessagePart::Words(refusal.rule.text()),
        MessagePart::Words(" in line "),
        MessagePart::Number(table.line(refusal.pos)),
        MessagePart::Words(" of "),
        MessagePart::File(table.file(refusal.pos)),
        MessagePart::Words(":"),
    ])?;
    let mut lines = head.text;
    let explained = of_refusal(alloc, table, refusal)?;
    lines.extend_from_slice(explained.as_slice())?;
    Ok(lines)
}

/// The sentence about so many refusals that aren't explained.
fn left_out(alloc: Global, count: usize) -> Result<Vec<u8>, Failure> {
    let mut said = Sentences::new(alloc);
    if count > 0 {
        said.say_words("")?;
        said.say(&[
            MessagePart::Number(count),
            MessagePart::Words(
                " more of these lines aren't explained: mend the first ones, and check again.",
            ),
        ])?;
    }
    Ok(said.text)
}

/// What a refusal means.
fn of_refusal(
    alloc: Global,
    table: Declarations<'_>,
    refusal: Refusal,
) -> Result<Vec<u8>, Failure> {
    let Some(text) = table.sources.texts.get(refusal.pos.file as usize) else {
        return Ok(Vec::new(alloc));
    };
    let text = text.as_slice();
    let said = said_of_refusal(alloc, table, text, refusal)?;
    shown(alloc, text, &said)
}

/// What a fault of this kind at a position means, in the same form. Where the position is in the prelude, the feature there is named.
/// Where the typed AST is given, the explanation has the lines from which that position can be reached, and the type of an uncaught
/// exception.
///
/// # Errors
///
/// `NoMemory` where memory runs out.
pub fn explain_fault(
    alloc: Global,
    sources: &Sources,
    core: Option<&TypedProgram>,
    kind: FaultKind,
    pos: Pos,
) -> Result<Vec<u8>, Failure> {
    let Some(text) = sources.texts.get(pos.file as usize) else {
        return Ok(Vec::new(alloc));
    };
    let text = text.as_slice();
    let tokens = tokens_of(alloc, text, pos.file)?;
    let classes = classes_of(alloc, sources)?;
    let table = Declarations {
        classes: classes.as_slice(),
        sources,
    };
    let scene = scene_of(alloc, text, tokens.as_slice(), pos, table)?;
    let mut said = Message::new(alloc, scene.span(scene.at));
    about_fault(scene, core, kind, &mut said)?;
    shown(alloc, text, &said)
}

/// The marked line, and after it the sentences of the message.
fn shown(alloc: Global, text: &[u8], said: &Message) -> Result<Vec<u8>, Failure> {
    let mut lines = Vec::new(alloc);
    put_marked(&mut lines, text, line_in(text, said.mark.start), said.mark)?;
    lines.extend_from_slice(said.sentences.text.as_slice())?;
    Ok(lines)
}

/// The message on a refusal at a position of this text.
fn said_of_refusal(
    alloc: Global,
    table: Declarations<'_>,
    text: &[u8],
    refusal: Refusal,
) -> Result<Message, Failure> {
    let mut said = match refusal.rule {
        Rule::BadByte
        | Rule::LiteralNotEnded
        | Rule::NumberTooLarge
        | Rule::NumberForm
        | Rule::UnknownEscape => of_bytes(alloc, text, refusal)?,
        Rule::SourceTooLarge => Message::new(alloc, one_byte(refusal.pos)),
        _ => of_tokens(alloc, table, text, refusal)?,
    };
    if said.is_silent() {
        let Advice { wrong, remedy } = of_rule(refusal.rule);
        said.say_words(wrong)?;
        said.say_words(remedy)?;
    }
    Ok(said)
}

/// The byte at a position.
fn one_byte(pos: Pos) -> Span {
    let start = pos.at as usize;
    Span {
        start,
        end: start.saturating_add(1),
    }
}

/// The message on bytes that begin no token.
fn of_bytes(alloc: Global, text: &[u8], refusal: Refusal) -> Result<Message, Failure> {
    let mut said = Message::new(alloc, one_byte(refusal.pos));
    about_bytes(text, refusal, &mut said)?;
    Ok(said)
}

/// The message on a refusal of a text that has tokens.
fn of_tokens(
    alloc: Global,
    table: Declarations<'_>,
    text: &[u8],
    refusal: Refusal,
) -> Result<Message, Failure> {
    let tokens = tokens_of(alloc, text, refusal.pos.file)?;
    let scene = scene_of(alloc, text, tokens.as_slice(), refusal.pos, table)?;
    let mut said = Message::new(alloc, scene.span(scene.at));
    about_rule(scene, refusal.rule, &mut said)?;
    Ok(said)
}

/// The context of a position in its text.
fn scene_of<'a>(
    alloc: Global,
    text: &'a [u8],
    list: &'a [Token],
    pos: Pos,
    table: Declarations<'a>,
) -> Result<SourceContext<'a>, Failure> {
    let tokens = TokenView { list, src: text };
    let at = tokens.number_at(pos.at as usize);
    let opened = open_blocks_before(alloc, tokens, at)?;
    let feature = match opened.feature(tokens) {
        Some(open) => open.named,
        None => at,
    };
    Ok(SourceContext {
        alloc,
        tokens,
        at,
        pos,
        feature,
        table,
    })
}

/// The tokens of a text, or none where it is too long or has a lexical error.
fn tokens_of(alloc: Global, text: &[u8], file: u32) -> Result<Vec<Token>, Failure> {
    if text.len() > MOST_BYTES {
        return Ok(Vec::new(alloc));
    }
    match lex(alloc, text, file) {
        Ok(tokens) => Ok(tokens),
        Err(_) => Ok(Vec::new(alloc)),
    }
}

/// The classes of a program, or none where its texts are too long or don't parse.
fn classes_of(alloc: Global, sources: &Sources) -> Result<Items<Class>, Failure> {
    let texts = sources.texts.as_slice();
    if !are_short(texts) || texts.len() > MOST_BYTES {
        return Ok(Items::new(alloc));
    }
    match parse_program(alloc, texts) {
        Ok(
            ParsedFiles {
                classes,
                contracts: _contracts,
            },
        ) => Ok(classes),
        Err(_) => Ok(Items::new(alloc)),
    }
}

/// Whether each text is short enough to be explained.
fn are_short(texts: &[Items<u8>]) -> bool
    ensures { IsTrue result ↔ All (λ text. length text < 4294967295) texts.now }
{
    texts.iter().all(|text| is_short(text))
}

/// Whether a text is short enough to be explained.
fn is_short(text: &Items<u8>) -> bool
    ensures { IsTrue result ↔ (length text.now < 4294967295) }
{
    text.len() <= MOST_BYTES
}

/// Says what is known about a rule that is broken at the position.
fn about_rule(scene: SourceContext<'_>, rule: Rule, said: &mut Message) -> Result<(), Failure> {
    match rule {
        Rule::UnexpectedToken => unexpected(scene, said),
        Rule::WordNotTaken
        | Rule::ClassDefinedTwice
        | Rule::ClassNotUsable
        | Rule::ParameterCount
        | Rule::SupertypeNotAbstract
        | Rule::NoMain => about_class(scene, rule, said),
        Rule::FeaturesConflict
        | Rule::NoSuchIncludedFeature
        | Rule::StubLeft
        | Rule::NoConformingFeature => about_features(scene, rule, said),
        _ => about_body(scene, rule, said),
    }
}
