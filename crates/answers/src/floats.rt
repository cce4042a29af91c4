// Floats and their bits, with one not-a-number for all: the bits of any other stand for it.

const SIGN: u32 = 0x8000_0000;

// An infinity's bits without its sign; what is above it is a not-a-number.
const INFINITY: u32 = 0x7f80_0000;

#[tactic(auto, using(slips::proofs::GoodBits::infinite_number))]
pub(crate) fn float_of(bits: u32) -> f32 {
    if INFINITY < bits % SIGN {
        return f32::NAN;
    }
    f32::from_bits(bits)
}

pub(crate) fn bits_of(x: f32) -> u32 {
    if x.is_nan() { 0x7fc0_0000 } else { x.to_bits() }
}
