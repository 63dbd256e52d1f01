// The real shelf and sink: files under their paths, and writers that take what they are given or nothing.
use anyhow::{Result, bail};
use case_files::lines::{integer_at, text_at};
use outside::{FolderShelf, Shelf, Sink, StdoutSink};
use serde_json::Value as Json;
use std::alloc::Global;
use std::io::{self, ErrorKind, Write};
use std::rt::Files;
use vtl_values::Word;

// What a read of the file under a path gives, and what the shelf tells then.
fn read_text<R: Files>(
    alloc: Global,
    shelf: &mut FolderShelf<R>,
    path: &str,
    limit: u64,
) -> Result<String> {
    let name = Word::from_str(alloc, path)?;
    let mut out = String::new(alloc);
    match shelf.read(alloc, &name, limit) {
        Ok(bytes) => write!(out, "{} bytes", bytes.len())?,
        Err(stop) => write!(out, "{stop}")?,
    }
    let (kept, faults, last) = (shelf.kept, shelf.faults, shelf.last.as_str());
    write!(out, " (kept {kept}, faults {faults}, last '{last}')")?;
    Ok(out)
}

/// Reads the files of a case one after the other, of at most so many bytes each.
pub fn files<R: Files>(rt: &R, alloc: Global, words: &[Json]) -> Result<String> {
    let mut shelf = FolderShelf {
        rt,
        faults: 0,
        last: Word::from_str(alloc, "")?,
        kept: 0,
    };
    let limit = u64::try_from(integer_at(words, 1)?)?;
    let mut out = String::new(alloc);
    for place in 2..words.len() {
        let text = read_text(alloc, &mut shelf, text_at(words, place)?, limit)?;
        if !out.is_empty() {
            out.push_str("; ")?;
        }
        out.push_str(text.as_str())?;
    }
    Ok(out)
}

// A writer whose other end is gone.
#[derive(Drop)]
struct Closed;

impl Write for Closed {
    fn write(&mut self, _: &[u8]) -> io::Result<usize> {
        Err(io::Error::from(ErrorKind::BrokenPipe))
    }

    fn flush(&mut self) -> io::Result<()> {
        Ok(())
    }
}

// Writes the pieces of a case, and tells what each write answers and how many faults were counted.
fn written<W: Write + Drop>(
    alloc: Global,
    sink: &mut StdoutSink<W>,
    words: &[Json],
) -> Result<String> {
    let mut out = String::new(alloc);
    for place in 2..words.len() {
        match sink.write(text_at(words, place)?.as_bytes()) {
            Ok(()) => out.push_str("taken; ")?,
            Err(stop) => write!(out, "{stop}; ")?,
        }
    }
    write!(out, "faults {}", sink.faults)?;
    Ok(out)
}

/// Writes the pieces of a case to a writer that is open or closed.
pub fn writes(alloc: Global, words: &[Json]) -> Result<String> {
    match text_at(words, 1)? {
        "open" => {
            let mut sink = StdoutSink {
                inner: Vec::new(alloc),
                faults: 0,
            };
            let mut out = written(alloc, &mut sink, words)?;
            write!(
                out,
                "; there stands '{}'",
                str::from_utf8(sink.inner.as_slice())?
            )?;
            Ok(out)
        }
        "closed" => {
            let mut sink = StdoutSink {
                inner: Closed,
                faults: 0,
            };
            written(alloc, &mut sink, words)
        }
        other => bail!("no writer {other}"),
    }
}
