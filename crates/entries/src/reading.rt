// Reading an entry: where its mark stands, what the bytes behind that begin with, and where the entry ends.
ghost use Rattle.entries.specs.Promise.{ReadsEntry};

use crate::ReadEntry;
use crate::marks::{ends, next_mark};
use crate::saying::hear;
use blocks::BLOCK_LIMIT;
use words::{Place, Refusal};

// The entry of the least mark at the place or later, or 10 if it is bad, each with the place where it ends: else 7, 4, or 8 if there is
// no mark. The place may lie anywhere, in the middle of a group too. No mark stands among numbers that read, so that the end is looked for only
// where the entry is bad.
#[tactic(auto, using(crate::proofs::EntryReturns::block_too_long))]
pub fn read_entry(block: &[u8], place: Place) -> Result<ReadEntry, Refusal>
    ensures { ReadsEntry block.now place.0 result }
{
    let from = place.0;
    if BLOCK_LIMIT < block.len() {
        return Err(Refusal::TooLong);
    }
    if block.len() < from {
        return Err(Refusal::Place);
    }
    let Some(at) = next_mark(block, from) else {
        return Err(Refusal::NoStart);
    };
    let first = at + 2;
    if let Some((entry, count)) = hear(&block[first..]) {
        let end = first + count;
        if ends(block, end) {
            return Ok(ReadEntry::Good(entry, Place(end)));
        }
    }
    let end = next_mark(block, first).unwrap_or(block.len());
    Ok(ReadEntry::Bad(Refusal::Entry, Place(end)))
}
