// The loop reader, over the width: 64 and 32 bits differ in the most bytes and in the last byte allowed at that length. It is a
// port of secure-foundations/vest, `leb128.rs`, `parse` (NOTICE).
ghost use Rattle.std.specs.Prelude.{◌≡◌, false, ◌+◌, ◌-◌, ◌*◌, ◌^◌, ◌<◌, ltb};
ghost use Rattle.words.specs.Answer.{pick, either, means_read};
ghost use Rattle.groups.specs.Width.{Reads};
ghost use Rattle.uleb128.specs.Unsigned.{unsigned};
ghost use Rattle.uleb128.specs.Inner.{Wide, NotOneByte};
ghost use Rattle.uleb128.specs.Promise.{ReadsU64, ReadsU32};

use bits::is_high_8_bit_set;
use groups::{Walked, walk};
use words::{Count, Fault, Place, Refusal};

// The number of a group: its high bytes sum to sum, and its last byte weighs weight.
fn number(sum: u64, weight: u64, high: usize, last: u8) -> (u64, Count)
    requires { (sum + weight * last < 2 ^ 64) × (high < 10) }
    ensures { result ≡ (sum + weight * last, record { 0 = high + 1 }) }
{
    let part = weight * (last as u64);
    (sum + part, Count(high + 1))
}

// A width: the most bytes of a number, and the largest last byte allowed at that length.
#[derive(Clone, Copy)]
struct Width {
    most: usize,
    top: u8,
    ghost wide: { Wide most top },
}

impl Width {
    const OF_64_BITS: Width = Width { most: 10, top: 1 };

    const OF_32_BITS: Width = Width { most: 5, top: 15 };

    // Too large for the width: the byte at the greatest length decides it.
    fn overflow(self, at: usize) -> Fault
        requires { at + self.most < 2 ^ 64 }
        ensures { result ≡ record { 0 = Refusal.Overflow; 1 = record { 0 = at + (self.most - 1) } } }
    {
        Fault(Refusal::Overflow, Place(at + (self.most - 1)))
    }

    // Whether n bytes that end in last are too large for the width.
    fn too_large(self, n: usize, last: u8) -> bool
        ensures { result ≡ pick (ltb n self.most) false (either (ltb self.most n) (ltb self.top last)) }
    {
        self.most <= n && (self.most < n || self.top < last)
    }

    // A number of at most most bytes, whose last byte at that length is at most top. One byte alone was read before.
    fn parse_several(self, bytes: &[u8], start: Place) -> Result<(u64, Count), Fault>
        requires { NotOneByte bytes.now start.0 }
        ensures { Reads (unsigned self.most self.top) bytes.now start.0 (means_read result) }
    {
        let at = start.0;
        match walk(bytes, start) {
            Walked::Past => Err(Fault(Refusal::Place, start)),
            Walked::Open(Count(high)) if high < self.most => {
                Err(Fault(Refusal::End, Place(bytes.len())))
            }
            Walked::Open(_) => Err(self.overflow(at)),
            Walked::Long => Err(self.overflow(at)),
            Walked::Closed {
                sum,
                weight,
                high: Count(high),
                last,
            } => {
                if self.too_large(high + 1, last) {
                    return Err(self.overflow(at));
                }
                if last < 1 {
                    return Err(Fault(Refusal::NotShortest, Place(at + high)));
                }
                Ok(number(sum, weight, high, last))
            }
        }
    }

    // The same of one byte, too, which is asked first: small, it becomes part of the two readers.
    fn parse(self, bytes: &[u8], start: Place) -> Result<(u64, Count), Fault>
        ensures { Reads (unsigned self.most self.top) bytes.now start.0 (means_read result) }
    {
        let at = start.0;
        if at < bytes.len() && !is_high_8_bit_set(bytes[at]) {
            return Ok((bytes[at] as u64, Count(1)));
        }
        self.parse_several(bytes, start)
    }
}

// The number whose shortest form stands at the start, with its count of bytes; else 4, 1, 2 or 3, each with the place of the byte
// that decided it: the start asked, the end of the bytes, the byte at the greatest length, the last byte.
pub fn read_u64(bytes: &[u8], start: Place) -> Result<(u64, Count), Fault>
    ensures { ReadsU64 bytes.now start.0 result }
{
    Width::OF_64_BITS.parse(bytes, start)
}

// The same for a number of 32 bits.
pub fn read_u32(bytes: &[u8], start: Place) -> Result<(u32, Count), Fault>
    ensures { ReadsU32 bytes.now start.0 result }
{
    let (v, n) = Width::OF_32_BITS.parse(bytes, start)?;
    Ok((v as u32, n))
}
