// Walking a group once from a start: readers of every width stand on this loop.
ghost use Rattle.groups.specs.Promise.{Walks};

use crate::Walked;
use bits::{is_high_8_bit_set, take_low_7_bits};
use words::{Count, Place};

// The loop of the source's `parse`: from the start through the first byte below 128, or through ten bytes, or to the end. Which
// number that is, and whether it is refused, is for the width to say. Seven bits of the tenth byte's weight don't fit 64 bits, so it
// is asked behind the loop. How often that turns is unknown to the compiler: it stays a loop, small enough to become part of each
// reader (docs/SPEED.md).
pub fn walk(bytes: &[u8], start: Place) -> Walked
    ensures { Walks bytes.now start.0 result }
{
    if bytes.len() < start.0 {
        return Walked::Past;
    }
    let rest = &bytes[start.0..];
    let most = rest.len().min(9);
    let mut sum: u64 = 0;
    let mut weight: u64 = 1;
    for (high, &b) in rest[..most].iter().enumerate() {
        if !is_high_8_bit_set(b) {
            return Walked::Closed {
                sum,
                weight,
                high: Count(high),
                last: b,
            };
        }
        sum += weight * take_low_7_bits(b as u64) as u64;
        weight *= 128;
    }
    match rest.get(most) {
        None => Walked::Open(Count(most)),
        Some(&last) if is_high_8_bit_set(last) => Walked::Long,
        Some(&last) => Walked::Closed {
            sum,
            weight,
            high: Count(most),
            last,
        },
    }
}
