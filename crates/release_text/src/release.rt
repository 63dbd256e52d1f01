// Releases.
ghost use Rattle.std.specs.Prelude.{◌≡◌, ◌++◌, IfOk, OnOk, map};
ghost use Rattle.outside.specs.Sinks.{Extends};
ghost use Rattle.release_text.specs.Releases.{release, release_line, script_said};

use crate::pages::Pages;
use itoa::Buffer;
use outside::{Sink, SinkStop, put};
use sqlite_items::Items;
use std::alloc::{AllocError, Global};

/// A numbered release: the prefix of accepted revisions that it stands on, the number of its script, from 0, and the
/// pages of the script's persistent statements in their order.
#[derive(Drop)]
pub struct Release {
    pub number: u64,
    pub prefix: u64,
    pub script: u64,
    pub pages: Items<Pages>,
}

// Asks for a proof that threads may share the value.
fn share<T: Send + Sync>(_value: &T) {}

// Threads may share a release.
fn is_shared_by_threads(release: &Release) {
    share(release);
}

impl Release {
    /// An equal release, whose pages share what they hold, or want of memory.
    pub fn copy(&self, alloc: Global) -> Result<Release, AllocError>
        ensures { IfOk result (λ copied. copied ≡ self.now) }
    {
        Ok(Release {
            number: self.number,
            prefix: self.prefix,
            script: self.script,
            pages: copy_pages(alloc, self.pages.as_slice())?,
        })
    }

    /// Writes the line `release NUMBER prefix PREFIX`, for a script that replaced another with ` script SCRIPT` at its
    /// end, and the pages after what was written so far, unless that has stopped already. It wants memory only where the
    /// sink does. At a stop a prefix of the text is written.
    pub fn write_to<K: Sink>(
        &self,
        out: &mut K,
        so_far: Result<(), SinkStop>,
    ) -> Result<(), SinkStop>
        ensures { Extends (K.view out.old) (K.view out.new) so_far result (release self.now.number self.now.prefix self.now.script self.now.pages) }
    {
        let mut written = write_line(out, so_far, self.number, self.prefix, self.script);
        for page in self.pages.as_slice() {
            written = page.write_to(out, written);
        }
        written
    }
}

fn copy_pages(alloc: Global, pages: &[Pages]) -> Result<Items<Pages>, AllocError>
    ensures { IfOk result (λ copies. copies ≡ pages.now) }
{
    let mut copies = Vec::new(alloc);
    for page in pages {
        copies.push(page.copy()?)?;
    }
    Ok(Items::from_vec(copies))
}

// Writes the line of a release, its numbers from a buffer of fixed size.
fn write_line<K: Sink>(
    out: &mut K,
    so_far: Result<(), SinkStop>,
    number: u64,
    prefix: u64,
    script: u64,
) -> Result<(), SinkStop>
    ensures { Extends (K.view out.old) (K.view out.new) so_far result (release_line number prefix script) }
{
    let mut digits = Buffer::new();
    let written = put(out, so_far, b"release ");
    let written = put(out, written, digits.format(number).as_bytes());
    let written = put(out, written, b" prefix ");
    let written = put(out, written, digits.format(prefix).as_bytes());
    let written = write_script(out, written, script);
    put(out, written, b"\n")
}

// Writes the number of a release's script, unless it is the first one.
fn write_script<K: Sink>(
    out: &mut K,
    so_far: Result<(), SinkStop>,
    script: u64,
) -> Result<(), SinkStop>
    ensures { Extends (K.view out.old) (K.view out.new) so_far result (script_said script) }
{
    if script == 0 {
        return so_far;
    }
    let mut digits = Buffer::new();
    let written = put(out, so_far, b" script ");
    put(out, written, digits.format(script).as_bytes())
}
