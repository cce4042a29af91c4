// A byte's seven bits of value and its high bit: the source's macros of the same names, as functions.
#![tactic(auto)]

ghost use Rattle.bits.specs.Promise.{TakesLow7Bits, IsHigh8BitSet, SetsHigh8Bit};

// The low seven bits of a byte, or of any number.
pub fn take_low_7_bits(v: u64) -> u8
    ensures { TakesLow7Bits v result }
{
    (v % 128) as u8
}

// Whether the byte is 128 or more, so that another follows.
pub fn is_high_8_bit_set(b: u8) -> bool
    ensures { IsHigh8BitSet b result }
{
    128 <= b
}

// The byte with its high bit set, whether or not it was.
pub fn set_high_8_bit(b: u8) -> u8
    ensures { SetsHigh8Bit b result }
{
    b % 128 + 128
}
