// Cases of scripts, a section each. The first word of a title says what is written of its script, where it is one:
//
// - `tokens`: its tokens with their places;
// - `tree`: its forms with their places;
// - `script`: its printed text, and whether that is read back as a script of the same text;
// - `count`: how many statements, rulesets and operators it has, of which it has some.
mod answers;
mod endings;
mod fields;
mod forms;
mod own_words;
mod parts;
mod trees;

use crate::scripts::answers::answer;
use anyhow::Result;
use case_files::sections::{Section, sections};
use std::rt::Files;
use std::{fs, str};

/// Writes the rule of a file, and each of its scripts with what is said of it.
pub fn answer_scripts<R: AllocGlobal + Files + Print>(rt: &R, name: &str) -> Result<()> {
    let bytes = fs::read(rt, name)?;
    for section in &sections(rt.alloc(), bytes.as_slice())? {
        answer_section(rt, section)?;
    }
    Ok(())
}

fn answer_section(rt: &(impl AllocGlobal + Print), section: &Section) -> Result<()> {
    let (title, body) = (section.title.as_str(), section.body.as_slice());
    if title.is_empty() {
        let rule = str::from_utf8(body)?;
        print!(rt; "{rule}")?;
        return Ok(());
    }
    let answered = answer(rt.alloc(), title, body)?;
    println!(rt; "==== {title}\n{answered}")?;
    Ok(())
}
