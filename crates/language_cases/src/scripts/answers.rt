// What is written of a script, and the faults of a text that is none.
ghost use Rattle.vtl_lexer.specs.Tokens.{AreOfText};

use crate::scripts::trees::tree;
use anyhow::{Result, bail};
use std::alloc::{AllocError, Global};
use vtl_lexer::{LexStop, tokens};
use vtl_parser::{ParseFault, ParseStop, parse};
use vtl_printer::show;
use vtl_syntax::Script;
use vtl_tokens::{Token, TokenKind};
use vtl_values::{Place, Value, Word, show_value};

/// The answer to the script of a section with this title.
pub fn answer(alloc: Global, title: &str, text: &[u8]) -> Result<String> {
    if text.len() > 100_000 {
        bail!("a long script");
    }
    match tokens(alloc, text) {
        Ok(list) if title.starts_with("tokens") => token_line(alloc, list.as_slice()),
        Ok(list) => parsed(alloc, title, list.as_slice()),
        Err(LexStop::Fault(fault, place)) => {
            let (line, column) = (place.line, place.column);
            Ok(format!(in alloc; "{line} {column} {fault:?}")?)
        }
        Err(LexStop::Memory) => bail!("out of memory"),
    }
}

fn parsed(alloc: Global, title: &str, tokens: &[Token]) -> Result<String>
    requires { AreOfText tokens.now }
{
    match parse(alloc, tokens) {
        Ok(script) if title.starts_with("tree") => tree(alloc, script.script()),
        Ok(script) if title.starts_with("count") => count(alloc, script.script()),
        Ok(script) => printed(alloc, script.script()),
        Err(ParseStop::Fault(fault, place)) => fault_line(alloc, fault, place),
        Err(ParseStop::Memory) => bail!("out of memory"),
    }
}

fn fault_line(alloc: Global, fault: ParseFault, place: Place) -> Result<String> {
    let (line, column) = (place.line, place.column);
    match fault {
        ParseFault::LeftOut(word) => {
            let word = word.text();
            Ok(format!(in alloc; "{line} {column} LeftOut {word}")?)
        }
        _ => Ok(format!(in alloc; "{line} {column} {fault:?}")?),
    }
}

// How many there are of what there is.
fn count(alloc: Global, script: &Script) -> Result<String> {
    let mut out = String::new(alloc);
    for (what, number) in [
        ("statements", script.statements.len()),
        ("rulesets", script.rulesets.len()),
        ("operators", script.operators.len()),
    ] {
        if number > 0 {
            let gap = if out.is_empty() { "" } else { " " };
            write!(out, "{gap}{what} {number}")?;
        }
    }
    Ok(out)
}

// The text that a printed script is printed as, where it is read as a script.
fn printed_again(alloc: Global, text: &Word) -> Result<Word> {
    let bytes = text.as_str().as_bytes();
    if bytes.len() > 1_000_000 {
        bail!("a long script");
    }
    let Ok(list) = tokens(alloc, bytes) else {
        bail!("no tokens");
    };
    match parse(alloc, list.as_slice()) {
        Ok(script) => Ok(show(alloc, script.script())?),
        Err(_) => bail!("no script"),
    }
}

fn printed(alloc: Global, script: &Script) -> Result<String> {
    let text = show(alloc, script)?;
    let again = printed_again(alloc, &text)?;
    let end = if again == text {
        "reads back"
    } else {
        "reads otherwise"
    };
    let text = text.as_str();
    Ok(format!(in alloc; "{text}{end}")?)
}

fn token_line(alloc: Global, tokens: &[Token]) -> Result<String> {
    let mut out = String::new(alloc);
    for token in tokens {
        if !out.is_empty() {
            out.push_str(" | ")?;
        }
        let (line, column) = (token.place.line, token.place.column);
        write!(out, "{line}:{column} ")?;
        push_kind(alloc, &mut out, &token.what)?;
    }
    Ok(out)
}

fn push_kind(alloc: Global, out: &mut String, kind: &TokenKind) -> Result<(), AllocError> {
    match kind {
        TokenKind::Name(name) => write!(out, "name {}", name.as_str()),
        TokenKind::Reserved(word) => write!(out, "word {}", word.text()),
        TokenKind::Text(text) => write!(out, "text {:?}", text.as_str()),
        TokenKind::Integer(integer) => write!(out, "integer {}", integer.value),
        TokenKind::Number(number) => {
            let shown = show_value(alloc, &Value::Number(*number))?;
            write!(out, "number {}", shown.as_str())
        }
        TokenKind::Sign(sign) => write!(out, "sign {}", sign.text()),
        TokenKind::End => write!(out, "end"),
    }
}
