// How many bytes spell a number, looked up; and the loop of the source's `serialize`, for every kind, with the room known before the first
// byte is stored. With m for v, or for -v-1 below zero, the seven bits of each byte are those of m, or below zero 127 less those of m.
ghost use Rattle.std.specs.Prelude.{◌≡◌, false, ◌<◌};
ghost use Rattle.std.specs.Int.Signed.{mag};
ghost use Rattle.words.specs.Lays.{Lays, Takes};
ghost use Rattle.groups.specs.Form.{say, spell, below as is_below};
ghost use Rattle.groups.specs.Inner.{groups};
ghost use Rattle.groups.specs.Promise.{SpelledLength, Stores};

use crate::Value;
use bits::{set_high_8_bit, take_low_7_bits};
use words::{Count, Place, Refusal, has_room};

// The values at which a 64-bit number grows by a byte. A constant would be laid down anew wherever it is asked at a place known only
// at run time.
static GROWTH: [u64; 9] = [
    128,
    16384,
    2097152,
    268435456,
    34359738368,
    4398046511104,
    562949953421312,
    72057594037927936,
    9223372036854775808,
];

// v, or -v-1 below zero.
fn magnitude(v: i64) -> u64
    ensures { result ≡ mag v }
{
    if v < 0 { (!v) as u64 } else { v as u64 }
}

// How many bytes an unsigned number takes, looked up. With n for the eighths of its bits and one, it takes n bytes or one more, and the
// growth value between the two decides.
fn length_unsigned(v: u64) -> Count
    ensures { Takes (spell false 128 v) result }
{
    let n = (72 - v.leading_zeros() as usize) >> 3;
    let growth = GROWTH[n - 1];
    if growth <= v { Count(n + 1) } else { Count(n) }
}

// How many a signed one takes. It ends where what is left of m is below 64, so that the last byte's bit of weight 64 tells the sign: so
// it is as long as twice its magnitude is unsigned.
fn length_signed(v: i64) -> Count
    ensures { Takes (spell (is_below v) 64 (mag v)) result }
{
    length_unsigned(magnitude(v) * 2)
}

// How many bytes spell the number: 1 to 10.
pub fn spelled_length(number: Value) -> Count
    ensures { SpelledLength number result }
{
    match number {
        Value::Unsigned(v) => length_unsigned(v),
        Value::Signed(v) => length_signed(v),
    }
}

// Seven bits as they are, or below zero their complement.
fn said(bits: u8, below: bool) -> u8
    requires { bits < 128 }
    ensures { result ≡ say below bits }
{
    if below { 127 - bits } else { bits }
}

// Lays down count bytes, at least one, that spell m (below zero: that spell -m-1 in two's complement), or none if they don't fit.
fn lay(m: u64, below: bool, count: Count, buffer: &mut [u8], place: Place) -> Result<Count, Refusal>
    requires { 0 < count.0 }
    ensures { Lays (groups below count.0 m) buffer.old place.0 result buffer.new }
{
    if !has_room(buffer.len(), place, count) {
        return Err(Refusal::NoRoom);
    }
    let last = place.0 + (count.0 - 1);
    let mut rest = m;
    for byte in &mut buffer[place.0..last] {
        *byte = set_high_8_bit(said(take_low_7_bits(rest), below));
        rest /= 128;
    }
    buffer[last] = said(take_low_7_bits(rest), below);
    Ok(count)
}

// Lays down the bytes that spell the number and answers their count; else 5, and no byte is changed.
pub fn store(number: Value, buffer: &mut [u8], place: Place) -> Result<Count, Refusal>
    ensures { Stores number buffer.old place.0 result buffer.new }
{
    match number {
        Value::Unsigned(v) => lay(v, false, length_unsigned(v), buffer, place),
        Value::Signed(v) => lay(magnitude(v), v < 0, length_signed(v), buffer, place),
    }
}
