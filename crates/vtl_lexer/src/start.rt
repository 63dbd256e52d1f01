// What a piece begins with.
ghost use Rattle.std.specs.Prelude.{◌≡◌, ◌≤◌, ◌<◌, IsTrue, length, Option, None};
ghost use Rattle.std.specs.Char.{is_ascii_alphabetic, is_ascii_digit};
ghost use Rattle.std.specs.Option.{option_copied};
ghost use Rattle.vtl_lexer.specs.Starts.{is_blank, first_passes, slash_start, start_at, start_of, start_len};

/// What the first bytes of a text begin.
#[derive(Clone, Copy, Debug, PartialEq, Eq)]
pub enum Start {
    Blank,
    LineComment,
    BlockComment,
    QuotedName,
    Text,
    Literal,
    Word,
    /// A sign, or nothing.
    Other,
}

/// What a text begins with.
pub fn start_of(text: &[u8]) -> Start
    ensures start { result ≡ start_of text.now }
    ensures room { start_len result ≤ length text.now }
    ensures literal { result ≡ Start.Literal → IsTrue (first_passes is_ascii_digit text.now) }
    ensures word { result ≡ Start.Word → IsTrue (first_passes is_ascii_alphabetic text.now) }
{
    match text {
        [] => Start::Other,
        [first] => start_at(*first, None),
        [first, second, ..] => start_at(*first, Some(*second)),
    }
}

fn start_at(first: u8, second: Option<u8>) -> Start
    ensures start { result ≡ start_at first second }
    ensures two { second ≡ None → start_len result ≤ 1 }
    ensures most { start_len result ≤ 2 }
    ensures literal { result ≡ Start.Literal → IsTrue (is_ascii_digit first) }
    ensures word { result ≡ Start.Word → IsTrue (is_ascii_alphabetic first) }
{
    match first {
        b' ' | b'\t' | b'\n' => Start::Blank,
        b'/' => slash_start(second),
        b'\'' => Start::QuotedName,
        b'"' => Start::Text,
        b'0'..=b'9' => Start::Literal,
        b'A'..=b'Z' | b'a'..=b'z' => Start::Word,
        _ => Start::Other,
    }
}

fn slash_start(second: Option<u8>) -> Start
    ensures start { result ≡ slash_start second }
    ensures two { second ≡ None → start_len result ≤ 1 }
{
    match second {
        Some(b'/') => Start::LineComment,
        Some(b'*') => Start::BlockComment,
        _ => Start::Other,
    }
}
