// Reading a signed number. A group is read by its magnitude: m for v, or for -v-1 below zero, where the sum and the last byte are
// complemented. The last byte's bit of weight 64 tells the sign.
ghost use Rattle.std.specs.Prelude.{◌≡◌, [], ◌∷◌, ◌^◌, ◌≤◌, ◌<◌, ltb};
ghost use Rattle.words.specs.Answer.{both, means_read};
ghost use Rattle.groups.specs.Width.{Due};
ghost use Rattle.sleb128.specs.Signed.{signed as Signed-of, i64};
ghost use Rattle.sleb128.specs.Inner.{saying, closing, Closes};
ghost use Rattle.sleb128.specs.Promise.{ReadsI64};

use bits::is_high_8_bit_set;
use groups::{Walked, walk};
use words::{Count, Fault, Place, Refusal};

// m, or -m-1 below zero.
fn signed(m: u64, below: bool) -> i64
    requires { m < 2 ^ 63 }
    ensures { result ≡ Signed-of below m }
{
    let v = m as i64;
    if below { !v } else { v }
}

// The number of one byte below 128.
fn alone(b: u8) -> i64
    requires { b < 128 }
    ensures { result ≡ i64.value (b ∷ []) }
{
    let bits = b as u64;
    if bits < 64 {
        return signed(bits, false);
    }
    let m = 127 - bits;
    signed(m, true)
}

// What bytes say: as it is, or below zero its complement, where all bits together are up.
fn said(v: u64, up: u64, below: bool) -> u64
    requires { v ≤ up }
    ensures { result ≡ saying below up v }
{
    if below { up - v } else { v }
}

// Whether the number is too large: the tenth byte says more than 0.
fn too_large(high: usize, bits: u64) -> bool
    ensures { result ≡ both (ltb 8 high) (ltb 0 bits) }
{
    8 < high && 0 < bits
}

// The number of a group whose high bytes say low and whose last byte says bits: below zero, both are complements. Where it is
// refused, that byte decides it.
fn closed(
    low: u64,
    weight: u64,
    high: usize,
    bits: u64,
    below: bool,
    place: Place,
) -> Result<(i64, Count), Fault>
    requires { Closes low weight high bits }
    ensures { Due (closing below low weight high bits place.0) (means_read result) }
{
    if too_large(high, bits) {
        return Err(Fault(Refusal::Overflow, place));
    }
    let m = low + weight * bits;
    let twice = m * 2;
    if twice < weight {
        return Err(Fault(Refusal::NotShortest, place));
    }
    Ok((signed(m, below), Count(high + 1)))
}

// The number whose shortest form stands at the start, with its count of bytes; else 4, 1, 2 or 3, each with the place of the byte
// that decided it: the start asked, the end of the bytes, the byte at the greatest length, the last byte.
pub fn read_i64(bytes: &[u8], start: Place) -> Result<(i64, Count), Fault>
    ensures { ReadsI64 bytes.now start.0 result }
{
    let at = start.0;
    if at < bytes.len() && !is_high_8_bit_set(bytes[at]) {
        return Ok((alone(bytes[at]), Count(1)));
    }
    match walk(bytes, start) {
        Walked::Past => Err(Fault(Refusal::Place, start)),
        Walked::Open(_) => Err(Fault(Refusal::End, Place(bytes.len()))),
        Walked::Long => Err(Fault(Refusal::Overflow, Place(at + 9))),
        Walked::Closed {
            sum,
            weight,
            high: Count(high),
            last,
        } => {
            let ends = at + high;
            let below = 63 < last;
            let up = weight - 1;
            let low = said(sum, up, below);
            let bits = said(last as u64, 127, below);
            closed(low, weight, high, bits, below, Place(ends))
        }
    }
}
