// The words of the program.
ghost use Rattle.std.specs.Prelude.{◌≡◌, ◌≤◌, ◌^◌, ℕ, true, false, Some, None, chars, codes, bytes_eq, map, string_bytes, IfOk, IfErr, Ok};
ghost use Rattle.std.specs.Char.{is_ascii_digit};
ghost use Rattle.std.specs.List.{list_all};
ghost use Rattle.std.specs.Str.Parse.{digits_value};
ghost use Rattle.commands.specs.Ends.{Gives, Refuses, IsOfWords};
ghost use Rattle.commands.specs.Lines.{not_built, usage};
ghost use Rattle.commands.specs.Words.{is_name, is_plain_number, is_number, is_workers, is_readers, is_count, are_feeds, accepts_eval, accepts_check, accepts_session, accepts_produce, accepts_make, is_unbuilt, script_files, command_of};

use crate::stop::{Ending, Stop};
use std::alloc::{AllocError, Global};
use vtl_values::Word;

/// The names of a script and of its structure file.
#[derive(Drop)]
pub struct ScriptFiles {
    pub script: Word,
    pub structures: Word,
}

/// A command that is built, with the files that it reads.
#[derive(Drop)]
pub enum Command {
    /// `check SCRIPT STRUCT`
    Check(ScriptFiles),
    /// `eval SCRIPT STRUCT FEED`
    Eval(ScriptFiles, Word),
}

/// The command, where the words are one that is built.
pub fn command_of(alloc: Global, words: &Vec<String>) -> Result<Command, Stop>
    ensures go { IfOk result (λ command. command_of (map string_bytes words.now.items) ≡ Ok command) }
    ensures end { IfErr result (λ stop. Refuses stop (command_of (map string_bytes words.now.items))) }
    ensures words { IfErr result IsOfWords }
{
    match words.as_slice() {
        [word, script, structures, feed]
            if word.as_str() == "eval" && is_name(script) && is_name(structures) && is_name(feed) =>
            {
                let files = script_files(alloc, script, structures)?;
                Ok(Command::Eval(files, name(alloc, feed)?))
            }
        [word, script, structures]
            if word.as_str() == "check" && is_name(script) && is_name(structures) => {
            Ok(Command::Check(script_files(alloc, script, structures)?))
        }
        words => Err(not_run(alloc, words)),
    }
}

// The end of words that aren't a command that is built.
fn not_run(alloc: Global, words: &[String]) -> Stop
    requires eval { accepts_eval (map string_bytes words.now) ≡ false }
    requires check { accepts_check (map string_bytes words.now) ≡ false }
    ensures end { Refuses result (command_of (map string_bytes words.now)) }
    ensures words { IsOfWords result }
{
    if is_unbuilt(words) {
        not_built(alloc)
    } else {
        usage(alloc)
    }
}

/// The end with the line that says what isn't built yet.
pub fn not_built(alloc: Global) -> Stop
    ensures { Gives result not_built }
{
    match b"not built\n".to_vec(alloc) {
        Ok(line) => Stop::Ended(Ending { status: 4, line }),
        Err(_) => Stop::Memory,
    }
}

// The end of words that no command accepts.
fn usage(alloc: Global) -> Stop
    ensures { Gives result usage }
{
    match b"usage: vtlprod eval, check, session, produce or make\n".to_vec(alloc) {
        Ok(line) => Stop::Ended(Ending { status: 1, line }),
        Err(_) => Stop::Memory,
    }
}

fn script_files(
    alloc: Global,
    script: &String,
    structures: &String,
) -> Result<ScriptFiles, AllocError>
    ensures { IfOk result (λ files. files ≡ script_files (string_bytes script.now) (string_bytes structures.now)) }
{
    Ok(ScriptFiles {
        script: name(alloc, script)?,
        structures: name(alloc, structures)?,
    })
}

fn name(alloc: Global, word: &String) -> Result<Word, AllocError>
    ensures { IfOk result (λ name. name ≡ chars (string_bytes word.now)) }
{
    Word::from_str(alloc, word.as_str())
}

fn is_name(word: &String) -> bool
    ensures { result ≡ is_name (string_bytes word.now) }
{
    match word.as_bytes() {
        [] => false,
        [first, ..] => *first != b'-',
    }
}

// Whether the words are a command that isn't built yet.
fn is_unbuilt(words: &[String]) -> bool
    ensures { result ≡ is_unbuilt (map string_bytes words.now) }
{
    accepts_session(words) || accepts_produce(words) || accepts_make(words)
}

fn accepts_session(words: &[String]) -> bool
    ensures { result ≡ accepts_session (map string_bytes words.now) }
{
    match words {
        [word, script, structures, session, workers] => {
            word.as_str() == "session"
                && is_name(script)
                && is_name(structures)
                && is_name(session)
                && is_workers(workers)
        }
        _ => false,
    }
}

fn accepts_produce(words: &[String]) -> bool
    ensures { result ≡ accepts_produce (map string_bytes words.now) }
{
    match words {
        [word, script, structures, workers, readers, feeds @ ..] => {
            word.as_str() == "produce"
                && is_name(script)
                && is_name(structures)
                && is_workers(workers)
                && is_number(readers, 0, 64)
                && are_feeds(feeds)
        }
        _ => false,
    }
}

fn accepts_make(words: &[String]) -> bool
    ensures { result ≡ accepts_make (map string_bytes words.now) }
{
    match words {
        [word, seed, count, workers] => {
            word.as_str() == "make"
                && is_number(seed, 0, 999_999)
                && is_count(count)
                && is_workers(workers)
        }
        _ => false,
    }
}

fn are_feeds(feeds: &[String]) -> bool
    ensures { result ≡ are_feeds (map string_bytes feeds.now) }
{
    1 <= feeds.len() && feeds.len() <= 64 && are_names(feeds)
}

fn are_names(words: &[String]) -> bool
    ensures { result ≡ list_all (λ word. is_name (string_bytes word)) words.now }
{
    words.iter().all(|word| is_name(word))
}

fn is_workers(word: &String) -> bool
    ensures { result ≡ is_workers (string_bytes word.now) }
{
    is_number(word, 1, 64)
}

fn is_count(word: &String) -> bool
    ensures { result ≡ is_count (string_bytes word.now) }
{
    is_number(word, 20, 120_000) && number(word).unwrap_or(1) % 20 == 0
}

// A number between these two.
fn is_number(word: &String, low: u64, high: u64) -> bool
    ensures { result ≡ is_number low high (string_bytes word.now) }
{
    match number(word) {
        Some(number) => low <= number && number <= high,
        None => false,
    }
}

// The number that a word is, without a sign and without a zero before other digits.
fn number(word: &String) -> Option<u64>
    ensures some { (n : ℕ) → result ≡ Some n → (is_plain_number (string_bytes word.now) ≡ true) × (digits_value 10 (string_bytes word.now) ≡ n) }
    ensures none { result ≡ None → is_plain_number (string_bytes word.now) ≡ true → 2 ^ 64 ≤ digits_value 10 (string_bytes word.now) }
{
    if is_plain_number(word.as_bytes()) {
        word.as_str().parse::<u64>().ok()
    } else {
        None
    }
}

fn is_plain_number(word: &[u8]) -> bool
    ensures { result ≡ is_plain_number word.now }
{
    match word {
        [] => false,
        [first, rest @ ..] => are_digits(word) && (*first != b'0' || rest.is_empty()),
    }
}

fn are_digits(word: &[u8]) -> bool
    ensures { result ≡ list_all is_ascii_digit word.now }
{
    word.iter().all(|byte| byte.is_ascii_digit())
}
