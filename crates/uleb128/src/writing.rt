// The length of a number's form, and the writer. A number's form is the same at 64 and at 32 bits. They are a port of
// secure-foundations/vest, `leb128.rs`, `length` and `serialize` (NOTICE), mended at zero.
ghost use Rattle.uleb128.specs.Promise.{LengthU64, LengthU32, WritesU64, WritesU32};

use crate::ONE_BYTE;
use groups::{Value, spelled_length, store};
use words::{Count, Place, Refusal};

// How many bytes the number takes: 1 to 10. Most numbers take one, and that is tested first.
pub fn length_u64(v: u64) -> Count
    ensures { LengthU64 v result }
{
    if v < ONE_BYTE {
        return Count(1);
    }
    spelled_length(Value::Unsigned(v))
}

// How many bytes the number takes: 1 to 5.
pub fn length_u32(v: u32) -> Count
    ensures { LengthU32 v result }
{
    length_u64(v as u64)
}

// Lays the number's form down at the place and answers its count of bytes; else 5, and no byte is changed.
pub fn write_u64(v: u64, buffer: &mut [u8], place: Place) -> Result<Count, Refusal>
    ensures { WritesU64 v buffer.old place.0 result buffer.new }
{
    store(Value::Unsigned(v), buffer, place)
}

// The same for a number of 32 bits.
pub fn write_u32(v: u32, buffer: &mut [u8], place: Place) -> Result<Count, Refusal>
    ensures { WritesU32 v buffer.old place.0 result buffer.new }
{
    write_u64(v as u64, buffer, place)
}
