// The real shelf and sink, a few lines each: the trusted edge. They tell nothing of what they hold.
use crate::shelf::{Shelf, ShelfStop};
use crate::sink::{Sink, SinkStop};
use std::alloc::Global;
use std::fs::OpenFile;
use std::io::{self, ErrorKind, Read, Write};
use std::rt::Files;
use std::{fs, rt};
use vtl_values::Word;

/// Files by their paths. A file that isn't there, or can't be read, is a counted fault.
#[derive(Drop)]
pub struct FolderShelf<'a, R: Files> {
    pub rt: &'a R,
    pub faults: u64,
    pub last: Word,
    pub kept: u64,
}

// The bytes of a file: no more than one past the limit, however long it is.
fn read_file<R: Files>(rt: &R, alloc: Global, path: &str, limit: u64) -> io::Result<Vec<u8>> {
    let file = fs::open(rt, path)?;
    let mut bytes = Vec::new(alloc);
    file.take(limit.saturating_add(1)).read_to_end(&mut bytes)?;
    Ok(bytes)
}

impl<'a, R: Files> Shelf for FolderShelf<'a, R> {
    ghost use Rattle.outside.specs.Real.{folder_view};

    ghost view = { folder_view };

    fn read(&mut self, alloc: Global, name: &Word, limit: u64) -> Result<Vec<u8>, ShelfStop> {
        self.kept = 0;
        let Ok(last) = name.copy() else {
            return Err(ShelfStop::Memory);
        };
        match read_file(self.rt, alloc, name.as_str(), limit) {
            Ok(bytes) => {
                let length = bytes.len() as u64;
                if length > limit {
                    self.kept = length;
                    return Err(ShelfStop::TooLong(length));
                }
                Ok(bytes)
            }
            Err(error) if error.kind() == ErrorKind::OutOfMemory => Err(ShelfStop::Memory),
            Err(_) => {
                self.faults = self.faults.saturating_add(1);
                self.last = last;
                Err(ShelfStop::Failed)
            }
        }
    }
}

/// Standard output, or another writer.
#[derive(Drop)]
pub struct StdoutSink<W: Write + Drop> {
    pub inner: W,
    pub faults: u64,
}

impl<W: Write + Drop> Sink for StdoutSink<W> {
    ghost use Rattle.outside.specs.Real.{stdout_view};

    ghost view = { stdout_view };

    fn write(&mut self, bytes: &[u8]) -> Result<(), SinkStop> {
        match self.inner.write_all(bytes) {
            Ok(()) => Ok(()),
            Err(error) if error.kind() == ErrorKind::OutOfMemory => Err(SinkStop::Memory),
            Err(_) => {
                self.faults = self.faults.saturating_add(1);
                Err(SinkStop::Failed)
            }
        }
    }
}
