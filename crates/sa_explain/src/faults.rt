//! Faults: what went wrong where a program stopped, and which feature of the prelude it was in.

use crate::general::{Advice, of_fault};
use crate::ways::tell_ways;
use crate::{lines_to, raised_type};
use failure::Failure;
use sa_ast::{FaultKind, Ty};
use sa_diagnostics::{Message, MessagePart, SourceContext, TokenView};
use sa_lexer::{Sign, TokenKind};
use sa_subst::is_abstract;
use sa_typed::TypedProgram;
use std::alloc::AllocError;

/// Says what a kind of fault means, and for a position in the prelude which feature it is in and, by the typed AST, which lines lead
/// there.
pub(crate) fn about_fault(
    scene: SourceContext<'_>,
    core: Option<&TypedProgram>,
    kind: FaultKind,
    said: &mut Message,
) -> Result<(), Failure> {
    let Advice { wrong, remedy } = of_fault(kind);
    said.say_words(wrong)?;
    if scene.pos.file == 0 {
        in_prelude(scene, said)?;
        ways_there(scene, core, said)?;
    } else {
        of_program(scene, core, kind, said)?;
    }
    said.say_words(remedy)?;
    Ok(())
}

/// Names the feature of the prelude that the position is in.
fn in_prelude(scene: SourceContext<'_>, said: &mut Message) -> Result<(), AllocError> {
    let Some((class, feature)) = scene.table.feature_at(scene.pos) else {
        return Ok(());
    };
    let name = feature.name.name.as_slice();
    said.say(&[
        MessagePart::Words("This is inside "),
        MessagePart::Code(name),
        MessagePart::Words(" of "),
        MessagePart::Plain(class.name.name.as_slice()),
        MessagePart::Words(written_as(name)),
        MessagePart::Words(": a feature of the prelude, which the program has called."),
    ])
}

/// Reports the lines from which the position in the prelude can be reached.
fn ways_there(
    scene: SourceContext<'_>,
    core: Option<&TypedProgram>,
    said: &mut Message,
) -> Result<(), Failure> {
    if let Some(core) = core {
        let lines = lines_to(scene.alloc, core, scene.pos)?;
        tell_ways(scene, lines.as_slice(), said)?;
    }
    Ok(())
}

/// The operator that calls a feature.
fn written_as(name: &[u8]) -> &'static str {
    match name {
        b"aget" => ", which `x[i]` calls",
        b"aset" => ", which `x[i] := y` calls",
        b"pow" => ", which `x ^ y` calls",
        b"plus" => ", which `x + y` calls",
        b"is_eq" => ", which `x = y` calls",
        b"is_lt" => ", which `x < y` calls",
        _ => "",
    }
}

/// Names the variable that is void, and the text that was raised, or the type of what was raised.
fn of_program(
    scene: SourceContext<'_>,
    core: Option<&TypedProgram>,
    kind: FaultKind,
    said: &mut Message,
) -> Result<(), Failure> {
    match kind {
        FaultKind::Void => {
            match void_variable(scene.tokens, scene.at) {
                Some(name) => said.say(&[
                    MessagePart::Code(scene.tokens.bytes(name)),
                    MessagePart::Words(" is void here."),
                ])?,
                None => in_create(scene, said)?,
            }
        }
        FaultKind::Uncaught => match text_raised(scene.tokens, scene.at) {
            Some(text) => said.say(&[
                MessagePart::Words("What was raised is the text "),
                MessagePart::Code(scene.tokens.bytes(text)),
                MessagePart::Words("."),
            ])?,
            None => value_raised(scene, core, said)?,
        },
        _ => {}
    }
    Ok(())
}

/// An attribute of self that is assigned in `create`, where there is no object yet.
fn in_create(scene: SourceContext<'_>, said: &mut Message) -> Result<(), AllocError> {
    let tokens = scene.tokens;
    let target = scene.at.saturating_sub(1);
    let is_own = tokens.is_sign(scene.at, Sign::Assign)
        && tokens.is_lower(target)
        && !tokens.is_sign_back(target, 1, Sign::Dot);
    let is_create = matches!(scene.feature_name(), Some(name) if name == b"create".as_slice());
    if !is_own || !is_create {
        return Ok(());
    }
    said.say_words(
        "`#C` calls `create` before there is an object: write `r ::= new;` there, then `r.x := ..;`, and return `r`.",
    )
}

/// The name before the `.` of a call, or of an assignment, at a token, where nothing is before the name.
fn void_variable(tokens: TokenView<'_>, at: usize) -> Option<usize> {
    let called = if tokens.is_sign(at, Sign::Assign) {
        at.checked_sub(1)?
    } else {
        at
    };
    let name = called.checked_sub(2)?;
    let is_plain = tokens.is_feature_name(called)
        && tokens.is_sign_back(called, 1, Sign::Dot)
        && tokens.is_lower(name)
        && !tokens.is_sign_back(name, 1, Sign::Dot)
        && !tokens.is_sign_back(name, 1, Sign::DoubleColon);
    is_plain.then_some(name)
}

/// The text after the `raise` at a token, where nothing is done with it.
fn text_raised(tokens: TokenView<'_>, at: usize) -> Option<usize> {
    let text = at.saturating_add(1);
    let is_text = matches!(tokens.kind(text), Some(TokenKind::Text(_)))
        && tokens.is_sign(text.saturating_add(1), Sign::Semicolon);
    is_text.then_some(text)
}

/// Reports the type of the value that is raised at the position.
fn value_raised(
    scene: SourceContext<'_>,
    core: Option<&TypedProgram>,
    said: &mut Message,
) -> Result<(), Failure> {
    let Some(core) = core else {
        return Ok(());
    };
    let Some(ty) = raised_type(scene.alloc, core, scene.pos)? else {
        return Ok(());
    };
    let mut parts = Vec::new(scene.alloc);
    parts.push(MessagePart::Words(if is_abstract(ty) {
        "What was raised is of a type below "
    } else {
        "What was raised is of type "
    }))?;
    put_type(&mut parts, ty)?;
    parts.push(MessagePart::Words(
        ", and its value is gone now: print it before the `raise` to see it.",
    ))?;
    said.say(parts.as_slice())?;
    Ok(())
}

/// Adds the name of a type, with its parameters.
#[cycle(put_type)]
fn put_type<'a>(parts: &mut Vec<MessagePart<'a>>, ty: &'a Ty) -> Result<(), AllocError> {
    match ty {
        Ty::Named(name, params, _) => {
            parts.push(MessagePart::Plain(name.as_slice()))?;
            put_parameters(parts, params.as_slice())?;
        }
        Ty::Same(_) => parts.push(MessagePart::Words("SAME"))?,
        Ty::Rout(_, _, _) => parts.push(MessagePart::Words("ROUT"))?,
        Ty::Iter(_, _, _) => parts.push(MessagePart::Words("ITER"))?,
    }
    Ok(())
}

/// Adds `{T, U}`, or nothing where there are none.
#[cycle(put_type)]
fn put_parameters<'a>(
    parts: &mut Vec<MessagePart<'a>>,
    params: &'a [Ty],
) -> Result<(), AllocError> {
    let mut before = "{";
    for param in params {
        parts.push(MessagePart::Words(before))?;
        put_type(parts, param)?;
        before = ", ";
    }
    if !params.is_empty() {
        parts.push(MessagePart::Words("}"))?;
    }
    Ok(())
}
