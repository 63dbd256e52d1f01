// Files of cases in sections.
use anyhow::Result;
use std::alloc::Global;
use std::{mem, str};

/// A section: what stands after the mark, and the bytes of its lines.
#[derive(Drop)]
pub struct Section {
    pub title: String,
    pub open: bool,
    pub body: Vec<u8>,
}

// A section without lines.
fn begun(alloc: Global, title: &str) -> Result<Section> {
    let closed = title.strip_suffix(", open");
    Ok(Section {
        title: String::from_str(alloc, closed.unwrap_or(title))?,
        open: closed.is_some(),
        body: Vec::new(alloc),
    })
}

// Adds a text as many times as stands before it.
fn add_times(body: &mut Vec<u8>, repeated: &str) -> Result<()> {
    if let Some((times, text)) = repeated.split_once(" ") {
        for _ in 0..times.parse::<u32>()? {
            body.extend_from_slice(text.as_bytes())?;
        }
    }
    Ok(())
}

fn add_line(section: &mut Section, line: &[u8]) -> Result<()> {
    if section.open && !section.body.is_empty() {
        section.body.push(b'\n')?;
    }
    match line.strip_prefix(b"*") {
        Some(repeated) => add_times(&mut section.body, str::from_utf8(repeated)?)?,
        None => section.body.extend_from_slice(line)?,
    }
    if !section.open {
        section.body.push(b'\n')?;
    }
    Ok(())
}

/// The sections of a file. The first has no title, and has the lines before the others.
pub fn sections(alloc: Global, bytes: &[u8]) -> Result<Vec<Section>> {
    let mut sections = Vec::new(alloc);
    let mut section = begun(alloc, "")?;
    let lines = bytes.strip_suffix(b"\n").unwrap_or(bytes);
    for line in lines.split(|byte| *byte == b'\n') {
        match line.strip_prefix(b"==== ") {
            Some(title) => {
                let next = begun(alloc, str::from_utf8(title)?)?;
                sections.push(mem::replace(&mut section, next))?;
            }
            None => add_line(&mut section, line)?,
        }
    }
    sections.push(section)?;
    Ok(sections)
}
