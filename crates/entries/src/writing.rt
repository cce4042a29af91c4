// Writing an entry: the room is known before the first byte is stored.
ghost use Rattle.std.specs.Prelude.{◌+◌, ◌≤◌, length};
ghost use Rattle.words.specs.Inner.{Puts};
ghost use Rattle.words.specs.Lays.{Takes};
ghost use Rattle.uleb128.specs.Unsigned.{form as unsignedForm};
ghost use Rattle.blocks.specs.Promise.{means_value};
ghost use Rattle.entries.specs.Saying.{form_of};
ghost use Rattle.entries.specs.Standing.{mark};
ghost use Rattle.entries.specs.Promise.{entry_form, WritesEntry};

use crate::Entry;
use crate::saying::is_absurd;
use bits::take_low_7_bits;
use groups::{Value, store};
use sleb128::length_i64;
use uleb128::{ONE_BYTE, length_u64};
use words::{Count, Place, Refusal, has_room};

// How many bytes the entry takes, its mark among them.
fn entry_length(entry: Entry) -> Count
    ensures { Takes (entry_form entry) result }
{
    let segment = length_u64(entry.segment).0;
    let sentence = length_u64(entry.sentence).0;
    let turn = length_i64(entry.turn).0;
    Count(2 + segment + sentence + turn)
}

// These store bytes where there is room for them, and answer the place behind them.
fn put_mark(buffer: &mut [u8], at: usize) -> usize
    requires { at + 2 ≤ length buffer.old }
    ensures { Puts mark buffer.old at result buffer.new }
{
    buffer[at] = 128;
    buffer[at + 1] = 0;
    at + 2
}

fn put(number: Value, buffer: &mut [u8], at: usize) -> usize
    requires { at + length (form_of (means_value number)) ≤ length buffer.old }
    ensures { Puts (form_of (means_value number)) buffer.old at result buffer.new }
{
    let Count(n) = store(number, buffer, Place(at)).unwrap();
    at + n
}

// Most numbers take one byte, and that is tested first.
fn put_u64(v: u64, buffer: &mut [u8], at: usize) -> usize
    requires { at + length (unsignedForm v) ≤ length buffer.old }
    ensures { Puts (unsignedForm v) buffer.old at result buffer.new }
{
    if v < ONE_BYTE {
        buffer[at] = take_low_7_bits(v);
        return at + 1;
    }
    put(Value::Unsigned(v), buffer, at)
}

fn put_entry(entry: Entry, buffer: &mut [u8], at: usize) -> usize
    requires { at + length (entry_form entry) ≤ length buffer.old }
    ensures { Puts (entry_form entry) buffer.old at result buffer.new }
{
    let first = put_mark(buffer, at);
    let second = put_u64(entry.segment, buffer, first);
    let third = put_u64(entry.sentence, buffer, second);
    put(Value::Signed(entry.turn), buffer, third)
}

// Lays the entry down at the place, its mark first, and answers its count of bytes; else 10 for an absurd turn, then 5, and no byte is changed.
pub fn write_entry(entry: Entry, buffer: &mut [u8], place: Place) -> Result<Count, Refusal>
    ensures { WritesEntry entry buffer.old place.0 result buffer.new }
{
    if is_absurd(entry.turn) {
        return Err(Refusal::Entry);
    }
    let all = entry_length(entry);
    if !has_room(buffer.len(), place, all) {
        return Err(Refusal::NoRoom);
    }
    put_entry(entry, buffer, place.0);
    Ok(all)
}
