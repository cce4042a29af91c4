// The length of a signed number's form, and the writer.
ghost use Rattle.sleb128.specs.Promise.{WritesI64, LengthI64};

use groups::{Value, spelled_length, store};
use words::{Count, Place, Refusal};

// How many bytes the number takes: 1 to 10.
pub fn length_i64(v: i64) -> Count
    ensures { LengthI64 v result }
{
    spelled_length(Value::Signed(v))
}

// Lays the number's form down at the place and answers its count of bytes; else 5, and no byte is changed.
pub fn write_i64(v: i64, buffer: &mut [u8], place: Place) -> Result<Count, Refusal>
    ensures { WritesI64 v buffer.old place.0 result buffer.new }
{
    store(Value::Signed(v), buffer, place)
}
