// Writing by recursion: it goes on at v div 128, and the bytes still allowed fall at each call. It is a port of
// secure-foundations/vest, `leb128-rec.rs`, `exec_serialize_rec_helper` (NOTICE).
ghost use Rattle.uleb128_rec.specs.Promise.{WritesU64Rec};
ghost use Rattle.uleb128_rec.specs.Inner.{WritesRest, RestFits};

use bits::{set_high_8_bit, take_low_7_bits};
use uleb128::length_u64;
use words::{Count, Place, Refusal, has_room};

// Stores the number's form of at most left bytes, which fits, the last byte first, and answers how many bytes it has.
fn write_rest(v: u64, buffer: &mut [u8], at: usize, left: usize) -> usize
    requires { RestFits v buffer.old at left }
    ensures { WritesRest v buffer.old at result buffer.new }
{
    let low = take_low_7_bits(v);
    let up = v / 128;
    if up < 1 {
        buffer[at] = low;
        return 1;
    }
    let more = write_rest(up, buffer, at + 1, left - 1);
    buffer[at] = set_high_8_bit(low);
    more + 1
}

// The same answers as `write_u64`, and the same bytes.
pub fn write_u64_rec(v: u64, buffer: &mut [u8], place: Place) -> Result<Count, Refusal>
    ensures { WritesU64Rec v buffer.old place.0 result buffer.new }
{
    let needed = length_u64(v);
    if !has_room(buffer.len(), place, needed) {
        return Err(Refusal::NoRoom);
    }
    let at = place.0;
    let count = write_rest(v, buffer, at, needed.0);
    Ok(Count(count))
}
