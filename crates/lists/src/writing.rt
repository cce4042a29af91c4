// Writing a list: the room is known before the first byte is stored.
ghost use Rattle.std.specs.Prelude.{◌+◌, ◌≤◌, length, Ok};
ghost use Rattle.words.specs.Inner.{Puts};
ghost use Rattle.words.specs.Lays.{Lays, Takes};
ghost use Rattle.words.specs.Promise.{HasRoom};
ghost use Rattle.uleb128.specs.Unsigned.{form};
ghost use Rattle.lists.specs.Lists.{forms, list_limit};
ghost use Rattle.lists.specs.Promise.{WritesList};

use bits::{set_high_8_bit, take_low_7_bits};
use groups::{Value, spelled_length};
use uleb128::ONE_BYTE;
use words::{Count, Place, Refusal, has_room};

// The most numbers of a list.
pub const LIST_LIMIT: usize = 16384;

// How many bytes the numbers' forms take in all.
fn total_length(numbers: &[u64]) -> Count
    requires { length numbers.now ≤ list_limit }
    ensures { Takes (forms numbers.now) result }
{
    let mut total: usize = 0;
    for &v in numbers {
        total += spelled_length(Value::Unsigned(v)).0;
    }
    Count(total)
}

// Whether the numbers' forms fit a buffer of this size at the place. Where ten bytes for each number do, no length is asked.
fn list_fits(numbers: &[u64], size: usize, place: Place) -> bool
    requires { length numbers.now ≤ list_limit }
    ensures { HasRoom size place.0 (length (forms numbers.now)) result }
{
    let most = 10 * numbers.len();
    has_room(size, place, Count(most)) || has_room(size, place, total_length(numbers))
}

// Lays a number's form down where there is room for it, and answers the place behind it. What is left of the number tells where its form
// ends, so that its length isn't asked again.
fn put(v: u64, buffer: &mut [u8], at: usize) -> usize
    requires { at + length (form v) ≤ length buffer.old }
    ensures { Puts (form v) buffer.old at result buffer.new }
{
    let mut rest = v;
    for i in 0..9 {
        let to = at + i;
        if rest < ONE_BYTE {
            buffer[to] = take_low_7_bits(rest);
            return to + 1;
        }
        buffer[to] = set_high_8_bit(take_low_7_bits(rest));
        rest /= 128;
    }
    let last = at + 9;
    buffer[last] = take_low_7_bits(rest);
    last + 1
}

// Lays the numbers' forms down at a place where there is room for them, and answers the count of bytes.
fn lay(numbers: &[u64], buffer: &mut [u8], at: usize) -> Count
    requires { at + length (forms numbers.now) ≤ length buffer.old }
    ensures { Lays (forms numbers.now) buffer.old at (Ok result) buffer.new }
{
    let mut to = at;
    for &v in numbers {
        to = put(v, buffer, to);
    }
    Count(to - at)
}

// Lays the numbers' forms down one after another at the place and answers the count of bytes: else 7 or 5, and no byte is changed.
pub fn write_list(numbers: &[u64], buffer: &mut [u8], place: Place) -> Result<Count, Refusal>
    ensures { WritesList numbers.now buffer.old place.0 result buffer.new }
{
    if LIST_LIMIT < numbers.len() {
        return Err(Refusal::TooLong);
    }
    if !list_fits(numbers, buffer.len(), place) {
        return Err(Refusal::NoRoom);
    }
    Ok(lay(numbers, buffer, place.0))
}
