// The stages of the script.
ghost use Rattle.std.specs.Prelude.{◌≡◌, ◌≤◌, ◌++◌, length, string_bytes, IfOk, IfErr, Ok};
ghost use Rattle.vtl_tokens.specs.Keywords.{word_of};
ghost use Rattle.vtl_parser.specs.Parses.{answered, fault_of};
ghost use Rattle.vtl_lexer.specs.Texts.{tokens_of};
ghost use Rattle.vtl_lexer.specs.Tokens.{AreOfText};
ghost use Rattle.commands.specs.Ends.{Gives, IsRefusal, Refuses};
ghost use Rattle.commands.specs.Scripts.{lex_line, fault_line, left_out, refused_at, refused_script, told_tokens, told_tree, script_of};

use crate::operators::written_out;
use crate::reading::SCRIPT_LIMIT;
use crate::stop::{Ending, Stop};
use crate::typing::structures_of;
use data_set_trees::checked::TypedScript;
use std::alloc::{AllocError, Global};
use vtl_lexer::{LexFault, LexStop, tokens};
use vtl_parser::{ParseFault, ParseStop, parse};
use vtl_syntax::Script;
use vtl_tokens::{Keyword, Token};
use vtl_values::{Place, Structures};

/// The script of a text with the structures of its statements, over inputs of these structures: its tokens are read, then
/// the tree that they are; its defined operators are written out; its statements have an order; nothing is wrong with its
/// rulesets; and then the structures are worked out.
pub fn typed_script(alloc: Global, structures: Structures, text: &[u8]) -> Result<TypedScript, Stop>
    requires { length text.now ≤ SCRIPT_LIMIT }
    ensures go { IfOk result (λ script. script_of structures text.now ≡ Ok script) }
    ensures inputs { IfOk result (λ script. script.inputs ≡ structures) }
    ensures end { IfErr result (λ stop. Refuses stop (script_of structures text.now)) }
    ensures kind { IfErr result IsRefusal }
{
    let tokens = read_tokens(alloc, text)?;
    let script = read_tree(alloc, tokens.as_slice())?;
    drop(tokens);
    let written = written_out(alloc, script)?;
    structures_of(alloc, written, structures)
}

/// The tokens of a text.
fn read_tokens(alloc: Global, text: &[u8]) -> Result<Vec<Token>, Stop>
    requires { length text.now ≤ SCRIPT_LIMIT }
    ensures go { IfOk result (λ tokens. tokens_of text.now ≡ Ok tokens.items) }
    ensures of_text { IfOk result (λ tokens. AreOfText tokens.items) }
    ensures end { IfErr result (λ stop. Refuses stop (told_tokens (tokens_of text.now))) }
    ensures kind { IfErr result IsRefusal }
{
    match tokens(alloc, text) {
        Ok(tokens) => Ok(tokens),
        Err(LexStop::Fault(fault, place)) => Err(refused(alloc, place, lex_line(fault))),
        Err(LexStop::Memory) => Err(Stop::Memory),
    }
}

/// The tree that the tokens of a text are.
fn read_tree(alloc: Global, tokens: &[Token]) -> Result<Script, Stop>
    requires { AreOfText tokens.now }
    ensures go { IfOk result (λ script. told_tree (answered tokens.now) ≡ Ok script) }
    ensures few { IfOk result (λ script. length script.statements ≤ 256) }
    ensures end { IfErr result (λ stop. Refuses stop (told_tree (answered tokens.now))) }
    ensures kind { IfErr result IsRefusal }
{
    match parse(alloc, tokens) {
        Ok(script) => Ok(script.into_script()),
        Err(ParseStop::Fault(fault, place)) => {
            let end = fault_line(alloc, fault)?;
            Err(refused(alloc, place, end.as_slice()))
        }
        Err(ParseStop::Memory) => Err(Stop::Memory),
    }
}

// The end with the line of a script that is refused.
pub(crate) fn refused(alloc: Global, place: Place, fault: &[u8]) -> Stop
    ensures gives { Gives result (refused_script place fault.now) }
    ensures kind { IsRefusal result }
{
    match refused_line(alloc, place, fault) {
        Ok(line) => Stop::Ended(Ending { status: 3, line }),
        Err(_) => Stop::Memory,
    }
}

fn refused_line(alloc: Global, place: Place, fault: &[u8]) -> Result<Vec<u8>, AllocError>
    ensures { IfOk result (λ text. text.items ≡ refused_at place ++ fault.now) }
{
    let mut text = refused_at(alloc, place)?.into_bytes();
    text.extend_from_slice(fault)?;
    Ok(text)
}

// The line up to the fault.
fn refused_at(alloc: Global, place: Place) -> Result<String, AllocError>
    ensures { IfOk result (λ text. string_bytes text ≡ refused_at place) }
{
    let (line, column) = (place.line, place.column);
    format!(in alloc; "script {line} {column} ")
}

fn lex_line(fault: LexFault) -> &'static [u8]
    ensures { result.now ≡ lex_line fault }
{
    match fault {
        LexFault::BadByte => b"BadByte\n",
        LexFault::OpenString => b"OpenString\n",
        LexFault::OpenComment => b"OpenComment\n",
        LexFault::NumberTooLong => b"NumberTooLong\n",
    }
}

fn fault_line(alloc: Global, fault: ParseFault) -> Result<Vec<u8>, AllocError>
    ensures { IfOk result (λ end. end.items ≡ fault_line (fault_of fault)) }
{
    match fault {
        ParseFault::Expected => b"Expected\n".to_vec(alloc),
        ParseFault::TooDeep => b"TooDeep\n".to_vec(alloc),
        ParseFault::LeftOut(word) => Ok(left_out(alloc, word)?.into_bytes()),
        ParseFault::TooMany => b"TooMany\n".to_vec(alloc),
    }
}

// The end of the line of a word that is left out.
fn left_out(alloc: Global, word: Keyword) -> Result<String, AllocError>
    ensures { IfOk result (λ end. string_bytes end ≡ left_out (word_of word)) }
{
    let word = word.text();
    format!(in alloc; "LeftOut {word}\n")
}
