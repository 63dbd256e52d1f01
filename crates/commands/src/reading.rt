// The stage of the files.
ghost use Rattle.std.specs.Prelude.{◌≡◌, ◌≢◌, ◌≤◌, [], ◌∷◌, ◌++◌, length, codes, decimal, encode_utf8_all, IfOk, IfErr};
ghost use Rattle.commands.specs.Ends.{Gives, Stands};
ghost use Rattle.round_runs.specs.Lines.{line};
ghost use Rattle.commands.specs.Lines.{unread, too_long};
ghost use Rattle.commands.specs.Reading as meant;
ghost use Rattle.commands.specs.Reading.{file};
ghost use Rattle.commands.specs.Views.{as_bytes, command_bytes, script_bytes, script_in, AreOfRun};
ghost use Rattle.commands.specs.Words.{named, with_script, within, IsRun};

use crate::stop::{Ending, Stop};
use crate::words::{Command, ScriptFiles};
use outside::{Shelf, ShelfStop};
use std::alloc::{AllocError, Global};
use vtl_values::Word;

/// The most bytes of a script, of a structure file and of a feed.
pub const SCRIPT_LIMIT: u64 = 1 << 20;

pub const STRUCTURES_LIMIT: u64 = 4 << 20;

pub const FEED_LIMIT: u64 = 64 << 20;

fn unread_line(alloc: Global, name: &Word) -> Stop
    ensures { Gives result (unread name.now) }
{
    let name = name.as_str();
    match format!(in alloc; "read {name}\n") {
        Ok(line) => Stop::Ended(Ending {
            status: 2,
            line: line.into_bytes(),
        }),
        Err(_) => Stop::Memory,
    }
}

fn too_long_line(alloc: Global, name: &Word, limit: u64) -> Stop
    ensures { Gives result (too_long name.now limit) }
{
    let name = name.as_str();
    match format!(in alloc; "too long {name} {limit}\n") {
        Ok(line) => Stop::Ended(Ending {
            status: 2,
            line: line.into_bytes(),
        }),
        Err(_) => Stop::Memory,
    }
}

/// Reads one file, of at most so many bytes.
pub fn read_file<S: Shelf>(
    alloc: Global,
    shelf: &mut S,
    name: &Word,
    limit: u64,
) -> Result<Vec<u8>, Stop>
    ensures stands { Stands as_bytes (within name.now limit ∷ []) (S.view shelf.old) (S.view shelf.new) result
        (λ files. file files name.now limit) }
    ensures within { IfOk result (λ bytes. length bytes.items ≤ limit) }
{
    match shelf.read(alloc, name, limit) {
        Ok(bytes) => Ok(bytes),
        Err(ShelfStop::Failed) => Err(unread_line(alloc, name)),
        Err(ShelfStop::TooLong(_)) => Err(too_long_line(alloc, name, limit)),
        Err(ShelfStop::Memory) => Err(Stop::Memory),
    }
}

/// The bytes of a script and of its structure file.
#[derive(Drop)]
pub struct ScriptBytes {
    pub script: Vec<u8>,
    pub structures: Vec<u8>,
}

/// A command, and the bytes of its files.
#[derive(Drop)]
pub enum CommandBytes {
    Check(ScriptBytes),
    Eval(ScriptBytes, Vec<u8>),
}

/// Reads the script, and then its structures.
fn read_script<S: Shelf>(
    alloc: Global,
    shelf: &mut S,
    files: &ScriptFiles,
) -> Result<ScriptBytes, Stop>
    ensures stands { Stands script_bytes (with_script files.now []) (S.view shelf.old) (S.view shelf.new) result
        (meant.script_bytes files.now) }
    ensures within { IfOk result (λ bytes. length bytes.script.items ≤ SCRIPT_LIMIT) }
{
    let script = read_file(alloc, shelf, &files.script, SCRIPT_LIMIT)?;
    let structures = read_file(alloc, shelf, &files.structures, STRUCTURES_LIMIT)?;
    Ok(ScriptBytes { script, structures })
}

/// Reads the files in the order of the words.
pub fn read_files<S: Shelf>(
    alloc: Global,
    shelf: &mut S,
    command: &Command,
) -> Result<CommandBytes, Stop>
    ensures stands { Stands command_bytes (named command.now) (S.view shelf.old) (S.view shelf.new) result
        (meant.files_of command.now) }
    ensures within { IfOk result (λ bytes. length (script_in bytes) ≤ SCRIPT_LIMIT) }
    ensures run { IfOk result (λ bytes. IsRun command.now → AreOfRun bytes) }
{
    match command {
        Command::Check(files) => Ok(CommandBytes::Check(read_script(alloc, shelf, files)?)),
        Command::Eval(files, feed) => {
            let bytes = read_script(alloc, shelf, files)?;
            let feed = read_file(alloc, shelf, feed, FEED_LIMIT)?;
            Ok(CommandBytes::Eval(bytes, feed))
        }
    }
}
