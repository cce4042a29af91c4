// Reading by recursion: it goes on at the next place, and the bytes still allowed fall at each call. It is a port of
// secure-foundations/vest, `leb128-rec.rs`, `exec_parse_rec_helper` (NOTICE).
ghost use Rattle.std.specs.Prelude.{◌<◌, ◌≤◌, length};
ghost use Rattle.words.specs.Answer.{means_read};
ghost use Rattle.groups.specs.Width.{Due, Reads};
ghost use Rattle.uleb128.specs.Unsigned.{unsigned};
ghost use Rattle.uleb128_rec.specs.Promise.{ReadsU64Rec};
ghost use Rattle.uleb128_rec.specs.Inner.{Joins, byte_ahead};

use bits::{is_high_8_bit_set, take_low_7_bits};
use words::{Count, Fault, Place, Refusal};

// A byte of 128 or more, in front of what was read behind it, at the place next: no number is 0 behind another byte, and a 0 there
// is one byte.
fn behind(b: u8, read: Result<(u64, Count), Fault>, next: usize) -> Result<(u64, Count), Fault>
    requires { Joins (means_read read) }
    ensures { Due (byte_ahead b next (means_read read)) (means_read result) }
{
    let (v, count) = read?;
    if v < 1 {
        return Err(Fault(Refusal::NotShortest, Place(next)));
    }
    let low = take_low_7_bits(b as u64) as u64;
    let n = count.0;
    Ok((128 * v + low, Count(n + 1)))
}

// The number at the place, of at most left bytes.
fn read_rest(bytes: &[u8], at: usize, left: usize) -> Result<(u64, Count), Fault>
    requires { (at ≤ length bytes.now) × (0 < left) × (left ≤ 10) }
    ensures { Reads (unsigned left 1) bytes.now at (means_read result) }
{
    if bytes.len() <= at {
        return Err(Fault(Refusal::End, Place(bytes.len())));
    }
    let b = bytes[at];
    if !is_high_8_bit_set(b) {
        if left < 2 && 1 < b {
            return Err(Fault(Refusal::Overflow, Place(at)));
        }
        return Ok((b as u64, Count(1)));
    }
    if left < 2 {
        return Err(Fault(Refusal::Overflow, Place(at)));
    }
    let next = at + 1;
    behind(b, read_rest(bytes, next, left - 1), next)
}

// The same answers as `read_u64`.
pub fn read_u64_rec(bytes: &[u8], start: Place) -> Result<(u64, Count), Fault>
    ensures { ReadsU64Rec bytes.now start.0 result }
{
    let at = start.0;
    if bytes.len() < at {
        return Err(Fault(Refusal::Place, start));
    }
    read_rest(bytes, at, 10)
}
