// Feeds.
ghost use Rattle.std.specs.Prelude.{◌≡◌, ◌≤◌, [], ◌∷◌, ◌++◌, Ok, IfOk, IfErr, IsUtf8};
ghost use Rattle.csv.specs.Reading.{strip_bom};
ghost use Rattle.revision_files.specs.Answers.{Refuses, one_by_one};
ghost use Rattle.revision_files.specs.Blocks.{cut};
ghost use Rattle.revision_files.specs.Feeds.{MOST_BLOCKS as BLOCK_LIMIT, IsFew, feed_of, next_block, no_blocks, with_part};
ghost use Rattle.revision_files.specs.Seen.{seen};

use crate::blocks::{after_line, is_blank_text, is_further, set_of, split_block};
use crate::stop::{FeedFault, FeedStop};
use crate::table::rows_in;
use point_sets::{Part, Revision};
use sqlite_items::Items;
use std::alloc::{AllocError, Global};
use vtl_values::Structures;

const MOST_BLOCKS: u64 = 100_000;

const BYTE_ORDER_MARK: &[u8] = b"\xef\xbb\xbf";

/// The revisions of a feed so far, and how many blocks and fields it had.
#[derive(Drop)]
pub struct FeedRead {
    pub revisions: Vec<Revision>,
    pub blocks: u64,
    pub fields: u64,
}

fn with_further(revision: Revision, part: Part) -> Result<Revision, AllocError>
    ensures { IfOk result (λ after. after ≡ record { parts = revision.parts ++ part ∷ [] }) }
{
    let Revision { mut parts } = revision;
    parts.push(part)?;
    Ok(Revision { parts })
}

fn revision_of(alloc: Global, part: Part) -> Result<Revision, AllocError>
    ensures { IfOk result (λ revision. revision ≡ record { parts = part ∷ [] }) }
{
    let mut parts = Items::new(alloc);
    parts.push(part)?;
    Ok(Revision { parts })
}

// The revisions with a part more, which begins one or is a further part of the last one.
fn with_part(
    alloc: Global,
    before: Vec<Revision>,
    further: bool,
    part: Part,
) -> Result<Vec<Revision>, AllocError>
    ensures { IfOk result (λ after. after.items ≡ with_part before.items further part) }
{
    let mut revisions = before;
    if further {
        let Some(last) = revisions.pop() else {
            return Ok(revisions);
        };
        revisions.push(with_further(last, part)?)?;
    } else {
        revisions.push(revision_of(alloc, part)?)?;
    }
    Ok(revisions)
}

// The feed with a further block.
fn with_block(
    alloc: Global,
    structures: &Structures,
    before: FeedRead,
    block: &[u8],
) -> Result<FeedRead, FeedStop>
    requires text { IsUtf8 block.now }
    requires few { before.blocks ≤ BLOCK_LIMIT }
    ensures ok { IfOk result (λ after. next_block structures.now (seen before) block.now ≡ Ok (seen after)) }
    ensures err { IfErr result (Refuses (next_block structures.now (seen before) block.now)) }
    ensures few { IfOk result (λ after. after.blocks ≤ BLOCK_LIMIT) }
{
    let number = before.blocks + 1;
    if number > MOST_BLOCKS {
        return Err(FeedStop::Refused(FeedFault::TooMany(number, 0)));
    }
    let further = is_further(block);
    if further && before.blocks == 0 {
        return Err(FeedStop::Refused(FeedFault::BadHeader(number)));
    }
    let set = set_of(alloc, block)?;
    let rows = rows_in(
        alloc,
        structures.get(&set),
        number,
        before.fields,
        after_line(block),
    )?;
    let part = Part {
        set,
        rows: rows.rows,
    };
    Ok(FeedRead {
        revisions: with_part(alloc, before.revisions, further, part)?,
        blocks: number,
        fields: rows.fields,
    })
}

// The blocks of a text that begins with one, or is empty.
fn all_blocks(alloc: Global, structures: &Structures, text: &[u8]) -> Result<FeedRead, FeedStop>
    requires text { IsUtf8 text.now }
    requires starts { (cut text.now).before ≡ [] }
    ensures ok { IfOk result (λ feed. one_by_one (next_block structures.now) no_blocks (cut text.now).blocks ≡ Ok (seen feed)) }
    ensures err { IfErr result (Refuses (one_by_one (next_block structures.now) no_blocks (cut text.now).blocks)) }
{
    let mut feed = FeedRead {
        revisions: Vec::new(alloc),
        blocks: 0,
        fields: 0,
    };
    let mut rest = text;
    while let [_, after @ ..] = rest {
        let (block, more) = split_block(after, false);
        feed = with_block(alloc, structures, feed, block)?;
        rest = more;
    }
    Ok(feed)
}

fn without_mark(bytes: &[u8]) -> &[u8]
    ensures rest { result.now ≡ strip_bom bytes.now }
    ensures text { IsUtf8 bytes.now → IsUtf8 result.now }
{
    match bytes.strip_prefix(BYTE_ORDER_MARK) {
        Some(rest) => rest,
        None => bytes,
    }
}

/// The revisions of a feed, or its first fault in the order of the text.
pub fn read_feed(
    alloc: Global,
    bytes: &[u8],
    structures: &Structures,
) -> Result<Vec<Revision>, FeedStop>
    ensures ok { IfOk result (λ revisions. feed_of structures.now bytes.now ≡ Ok revisions.items) }
    ensures few { IfOk result (λ revisions. IsFew revisions.items) }
    ensures err { IfErr result (Refuses (feed_of structures.now bytes.now)) }
{
    if str::from_utf8(bytes).is_err() {
        return Err(FeedStop::Refused(FeedFault::NotUtf8));
    }
    let (before, blocks) = split_block(without_mark(bytes), true);
    if !is_blank_text(before) {
        return Err(FeedStop::Refused(FeedFault::BadHeader(0)));
    }
    Ok(all_blocks(alloc, structures, blocks)?.revisions)
}
