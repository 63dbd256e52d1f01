// The stage of a feed.
ghost use Rattle.std.specs.Prelude.{◌≡◌, IfOk, IfErr, Ok, string_bytes};
ghost use Rattle.round_runs.specs.Runs.{IsFew};
ghost use Rattle.commands.specs.Ends.{Gives, IsRefusal, Refuses};
ghost use Rattle.commands.specs.Feeds.{feed_at, fault_at, feed_fault_end, refused_feed, revisions_in};

use crate::stop::{Ending, Stop};
use point_sets::Revision;
use revision_files::{FeedFault, FeedStop, read_feed};
use std::alloc::{AllocError, Global};
use vtl_values::Structures;

/// The revisions of a feed for data sets of these structures.
pub fn revisions_in(
    alloc: Global,
    structures: &Structures,
    bytes: &[u8],
) -> Result<Vec<Revision>, Stop>
    ensures go { IfOk result (λ revisions. revisions_in structures.now bytes.now ≡ Ok revisions.items) }
    ensures few { IfOk result (λ revisions. IsFew revisions.items) }
    ensures end { IfErr result (λ stop. Refuses stop (revisions_in structures.now bytes.now)) }
    ensures kind { IfErr result IsRefusal }
{
    match read_feed(alloc, bytes, structures) {
        Ok(revisions) => Ok(revisions),
        Err(FeedStop::Refused(fault)) => Err(refused(alloc, fault)),
        Err(FeedStop::Memory) => Err(Stop::Memory),
    }
}

// The end with the line of a feed that is refused.
fn refused(alloc: Global, fault: FeedFault) -> Stop
    ensures gives { Gives result (refused_feed fault) }
    ensures kind { IsRefusal result }
{
    match refused_line(alloc, fault) {
        Ok(line) => Stop::Ended(Ending { status: 4, line }),
        Err(_) => Stop::Memory,
    }
}

fn refused_line(alloc: Global, fault: FeedFault) -> Result<Vec<u8>, AllocError>
    ensures { IfOk result (λ line. line.items ≡ (refused_feed fault).text) }
{
    let mut line = fault_at(alloc, fault)?.into_bytes();
    line.extend_from_slice(fault_end(fault))?;
    Ok(line)
}

// The line up to the fault.
fn fault_at(alloc: Global, fault: FeedFault) -> Result<String, AllocError>
    ensures { IfOk result (λ text. string_bytes text ≡ fault_at fault) }
{
    match fault {
        FeedFault::NotUtf8 => feed_at(alloc, 0, 0),
        FeedFault::BadHeader(block) => feed_at(alloc, block, 0),
        FeedFault::FieldCount(block, row) => feed_at(alloc, block, row),
        FeedFault::BadAction(block, row) => feed_at(alloc, block, row),
        FeedFault::TooMany(block, row) => feed_at(alloc, block, row),
    }
}

fn feed_at(alloc: Global, block: u64, row: u64) -> Result<String, AllocError>
    ensures { IfOk result (λ text. string_bytes text ≡ feed_at block row) }
{
    format!(in alloc; "feed 1 block {block} row {row} ")
}

fn fault_end(fault: FeedFault) -> &'static [u8]
    ensures { result.now ≡ feed_fault_end fault }
{
    match fault {
        FeedFault::NotUtf8 => b"NotUtf8\n",
        FeedFault::BadHeader(_) => b"BadHeader\n",
        FeedFault::FieldCount(..) => b"FieldCount\n",
        FeedFault::BadAction(..) => b"BadAction\n",
        FeedFault::TooMany(..) => b"TooMany\n",
    }
}
