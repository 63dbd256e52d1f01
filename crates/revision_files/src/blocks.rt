// Where blocks begin, and what the line says that starts one.
ghost use Rattle.std.specs.Prelude.{◌≡◌, ◌≤◌, [], length, drop, if◌then◌else◌, IfOk, IsUtf8};
ghost use Rattle.revision_files.specs.Blocks.{PLUS, begins_with, cut, cut_from, ends_line, is_blank, is_blank_text, first_line, after_line, without_leading, without_trailing, name_on, is_further, set_of};

use std::alloc::{AllocError, Global};
use vtl_values::Word;

// How many bytes stand before the first block. `fresh` says that the text begins a line.
fn block_start(text: &[u8], fresh: bool) -> usize
    ensures { result ≡ length (cut_from fresh text.now).before }
{
    let mut begins = fresh;
    for (at, byte) in text.iter().enumerate() {
        if begins && *byte == b'@' {
            return at;
        }
        begins = *byte == b'\n';
    }
    text.len()
}

/// What stands before the first block of a text, and the text from that block on. `fresh` says that the text begins a
/// line.
pub(crate) fn split_block(text: &[u8], fresh: bool) -> (&[u8], &[u8])
    ensures before { result.0.now ≡ (cut_from fresh text.now).before }
    ensures blocks { (cut result.1.now).blocks ≡ (cut_from fresh text.now).blocks }
    ensures starts { (cut result.1.now).before ≡ [] }
    ensures shorter { length result.1.now ≤ length text.now }
    ensures text_before { IsUtf8 text.now → IsUtf8 result.0.now }
    ensures text_after { IsUtf8 text.now → IsUtf8 result.1.now }
{
    text.split_at(block_start(text, fresh))
}

fn is_blank(byte: u8) -> bool
    ensures { result ≡ is_blank byte }
{
    byte == b' ' || byte == b'\t'
}

fn ends_line(text: &[u8]) -> bool
    ensures { result ≡ ends_line text.now }
{
    matches!(text, [b'\n', ..] | [b'\r', b'\n', ..])
}

/// Whether the text has blank lines alone.
pub(crate) fn is_blank_text(text: &[u8]) -> bool
    ensures { result ≡ is_blank_text text.now }
{
    let mut rest = text;
    while let [byte, after @ ..] = rest {
        if !is_blank(*byte) && !ends_line(rest) {
            return false;
        }
        rest = after;
    }
    true
}

// The first line, without its end.
fn first_line(text: &[u8]) -> &[u8]
    ensures line { result.now ≡ first_line text.now }
    ensures text { IsUtf8 text.now → IsUtf8 result.now }
{
    for at in 0..text.len() {
        if ends_line(&text[at..]) {
            return &text[..at];
        }
    }
    text
}

/// What stands after the first line.
pub(crate) fn after_line(text: &[u8]) -> &[u8]
    ensures rest { result.now ≡ after_line text.now }
    ensures text { IsUtf8 text.now → IsUtf8 result.now }
{
    match text.iter().position(|byte| *byte == b'\n') {
        Some(at) => &text[at + 1..],
        None => &[],
    }
}

fn without_leading(text: &[u8]) -> &[u8]
    ensures rest { result.now ≡ without_leading text.now }
    ensures text { IsUtf8 text.now → IsUtf8 result.now }
{
    let mut rest = text;
    while let [byte, after @ ..] = rest {
        if !is_blank(*byte) {
            return rest;
        }
        rest = after;
    }
    rest
}

fn without_trailing(text: &[u8]) -> &[u8]
    ensures front { result.now ≡ without_trailing text.now }
    ensures text { IsUtf8 text.now → IsUtf8 result.now }
{
    let mut front = text;
    while let [before @ .., byte] = front {
        if !is_blank(*byte) {
            return front;
        }
        front = before;
    }
    front
}

/// Whether a block is a further part of the revision before it.
pub(crate) fn is_further(block: &[u8]) -> bool
    ensures { result ≡ is_further block.now }
{
    matches!(first_line(block), [b'+', ..])
}

fn without_plus(line: &[u8]) -> &[u8]
    ensures rest { result.now ≡ (if begins_with PLUS line.now then drop 1 line.now else line.now) }
    ensures text { IsUtf8 line.now → IsUtf8 result.now }
{
    let [first, after @ ..] = line else {
        return line;
    };
    if *first == b'+' { after } else { line }
}

// The name on the line of a block, as it is written.
fn name_on(line: &[u8]) -> &[u8]
    ensures name { result.now ≡ name_on line.now }
    ensures text { IsUtf8 line.now → IsUtf8 result.now }
{
    without_trailing(without_leading(without_plus(line)))
}

/// The name of the data set of a block.
pub(crate) fn set_of(alloc: Global, block: &[u8]) -> Result<Word, AllocError>
    requires { IsUtf8 block.now }
    ensures { IfOk result (λ set. set ≡ set_of block.now) }
{
    match str::from_utf8(name_on(first_line(block))) {
        Ok(name) => Word::from_str(alloc, name),
        Err(_) => unreachable!(),
    }
}
