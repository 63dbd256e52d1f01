// What a case is run on.
use anyhow::Result;
use case_files::sections::Section;
use std::alloc::Global;
use std::collections::BTreeMap;
use std::str;
use vtl_values::Word;

/// The title of a case, the words of the program, the files of the shelf, and the calls that fail.
#[derive(Drop)]
pub struct Setup {
    pub title: String,
    pub words: Vec<String>,
    pub files: BTreeMap<Word, Vec<u8>>,
    pub shelf_fails: Vec<u64>,
    pub sink_fails: Vec<u64>,
}

impl Setup {
    /// What the sections say, those of the case after the common ones.
    pub fn of(alloc: Global, common: &[Section], own: &[Section]) -> Result<Setup> {
        let mut setup = Setup {
            title: String::new(alloc),
            words: Vec::new(alloc),
            files: BTreeMap::new(alloc),
            shelf_fails: Vec::new(alloc),
            sink_fails: Vec::new(alloc),
        };
        for section in common {
            setup.take(alloc, section)?;
        }
        for section in own {
            setup.take(alloc, section)?;
        }
        Ok(setup)
    }

    fn take(&mut self, alloc: Global, section: &Section) -> Result<()> {
        let body = section.body.as_slice();
        match section.title.as_str() {
            "words" => self.words = lines(alloc, body)?,
            "shelf fails at" => self.shelf_fails = numbers(alloc, body)?,
            "sink fails at" => self.sink_fails = numbers(alloc, body)?,
            title => self.take_named(alloc, title, body)?,
        }
        Ok(())
    }

    fn take_named(&mut self, alloc: Global, title: &str, body: &[u8]) -> Result<()> {
        if let Some(title) = title.strip_prefix("case ") {
            self.title = String::from_str(alloc, title)?;
        }
        if let Some(name) = title.strip_prefix("file ") {
            self.files
                .insert(Word::from_str(alloc, name)?, body.to_vec(alloc)?)?;
        }
        Ok(())
    }
}

fn lines(alloc: Global, body: &[u8]) -> Result<Vec<String>> {
    let mut lines = Vec::new(alloc);
    for line in str::from_utf8(body)?.lines() {
        lines.push(String::from_str(alloc, line)?)?;
    }
    Ok(lines)
}

fn numbers(alloc: Global, body: &[u8]) -> Result<Vec<u64>> {
    let mut numbers = Vec::new(alloc);
    for line in str::from_utf8(body)?.lines() {
        numbers.push(line.parse::<u64>()?)?;
    }
    Ok(numbers)
}
