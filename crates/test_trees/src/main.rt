//! Prints the ASTs of small sources: an expression or a condition as a tree, a file as its classes with their features, and its contracts.
//! Each line of `expressions.txt`, `conditions.txt` and `files.txt` is a source. What is printed is compared with what the grammar says.
#![tactic(auto)]

ghost use Rattle.std.specs.Prelude.{◌<◌, All, IfOk, length, vec_len};
ghost use Rattle.sa_lexer.specs.Token.{IsWithin};

mod class;
mod contract;
mod expr;

use crate::expr::Printer;
use anyhow::{Context, Result};
use failure::Failure;
use sa_ast::{Expr, Rejection};
use sa_lexer::{Token, lex};
use sa_parser::{FileKind, parse};
use sa_parser_expr::{ConditionScope, condition, scan};
use std::alloc::{AllocError, Global};
use std::fmt::Write;
use std::fs::{self, Files};

/// Sources are shorter than this.
const LONGEST: usize = 1000;

fn main(rt: HostRuntime) -> Result<()> {
    let alloc = rt.alloc();
    let expressions = fs::read_to_string(&rt, "expressions.txt").context(
        "reading the expressions",
    )?;
    for line in expressions.lines() {
        let shown = answer(alloc, shown_expression(alloc, line.as_bytes()))?;
        println!(rt; "{line} =>{shown}")?;
    }
    let conditions = fs::read_to_string(&rt, "conditions.txt").context("reading the conditions")?;
    for line in conditions.lines() {
        let shown = answer(alloc, shown_condition(alloc, line.as_bytes()))?;
        println!(rt; "{line} =>{shown}")?;
    }
    let files = fs::read_to_string(&rt, "files.txt").context("reading the files")?;
    for line in files.lines() {
        let shown = answer(alloc, shown_file(alloc, line.as_bytes()))?;
        println!(rt; "{line} =>{shown}")?;
    }
    Ok(())
}

/// The text of the AST, or the rule that the source breaks and the byte where.
fn answer(alloc: Global, shown: Result<String, Rejection>) -> Result<String, AllocError> {
    match shown {
        Ok(text) => Ok(text),
        Err(Rejection::Refused(refusal)) => {
            let rule = refusal.rule;
            let at = refusal.pos.at;
            format!(in alloc; " {rule} at {at}")
        }
        Err(Rejection::Failed(_)) => Err(AllocError),
    }
}

/// The tokens of a source, which a parser may go over.
#[tactic(auto, using(sa_lexer::proofs::TokenLists::within))]
fn tokens_of(alloc: Global, src: &[u8]) -> Result<Vec<Token>, Rejection>
    ensures within { IfOk result (λ tokens. All (IsWithin src.now) tokens.items) }
    ensures few { IfOk result (λ tokens. vec_len tokens < LONGEST) }
    ensures short { IfOk result (λ _. length src.now < LONGEST) }
{
    if src.len() >= LONGEST {
        return Err(Rejection::Failed(Failure::NoMemory));
    }
    let tokens = lex(alloc, src, 1)?;
    if tokens.len() >= LONGEST {
        return Err(Rejection::Failed(Failure::NoMemory));
    }
    scan(alloc, tokens.as_slice(), 1)?;
    Ok(tokens)
}

/// A source's first expression, and the number of its tokens.
fn shown_expression(alloc: Global, src: &[u8]) -> Result<String, Rejection> {
    let tokens = tokens_of(alloc, src)?;
    let (e, next) = sa_parser_expr::expr(alloc, tokens.as_slice(), src, 1, 0)?;
    Ok(tree(alloc, &e, next)?)
}

/// A source's first condition of a `post`, and the number of its tokens.
fn shown_condition(alloc: Global, src: &[u8]) -> Result<String, Rejection> {
    let tokens = tokens_of(alloc, src)?;
    let (e, next) = condition(
        alloc,
        tokens.as_slice(),
        src,
        1,
        ConditionScope::PostClause,
        0,
    )?;
    Ok(tree(alloc, &e, next)?)
}

fn tree(alloc: Global, e: &Expr, next: u32) -> Result<String, AllocError> {
    let mut printer = Printer {
        text: String::new(alloc),
    };
    printer.text.push(' ')?;
    printer.expr(e)?;
    write!(printer.text, " / {next}")?;
    let Printer { text } = printer;
    Ok(text)
}

/// The classes of a source, each with its features, and their contracts.
fn shown_file(alloc: Global, src: &[u8]) -> Result<String, Rejection> {
    let tokens = tokens_of(alloc, src)?;
    let parsed = parse(alloc, tokens.as_slice(), src, 1, FileKind::Program, 0)?;
    let mut printer = Printer {
        text: String::new(alloc),
    };
    for one in parsed.classes.as_slice() {
        class::class(&mut printer.text, one)?;
    }
    for one in parsed.contracts.as_slice() {
        printer.contract(one)?;
    }
    let Printer { text } = printer;
    Ok(text)
}
