// What an entry says: a number for each field, and the turn is not absurd.
ghost use Rattle.entries.specs.Inner.{Tells, Hears};
ghost use Rattle.entries.specs.Saying.{Absurd};

use crate::Entry;
use sleb128::read_i64;
use uleb128::read_u64;
use words::{Count, Place};

// Whether no entry may have this turn: 400 quarters either way are the most.
pub(crate) fn is_absurd(turn: i64) -> bool
    ensures { Tells (Absurd turn) result }
{
    turn < -400 || 400 < turn
}

// What these bytes, from behind a mark on, begin with: the numbers of an entry, and in how many bytes. None if one of them is missing or doesn't
// read, or is an absurd turn.
pub(crate) fn hear(bytes: &[u8]) -> Option<(Entry, usize)>
    ensures { Hears bytes.now result }
{
    let (segment, Count(first)) = read_u64(bytes, Place(0)).ok()?;
    let (sentence, Count(second)) = read_u64(bytes, Place(first)).ok()?;
    let two = first + second;
    let (turn, Count(third)) = read_i64(bytes, Place(two)).ok()?;
    if is_absurd(turn) {
        return None;
    }
    let entry = Entry {
        segment,
        sentence,
        turn,
    };
    Some((entry, two + third))
}
