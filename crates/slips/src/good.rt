// Whether bits are those of a good setting. They are tested as numbers, since among floats minus zero is zero.
ghost use Rattle.std.specs.Prelude.{◌∷◌, [], ◌≡◌};
ghost use Rattle.slips.specs.Good.{torque, angle, good_word, good};

// Minus zero: the sign's bit alone.
const MINUS_ZERO: u32 = 0x8000_0000;

// An infinity without its sign; what is above it is a not-a-number.
const INFINITY: u32 = 0x7f80_0000;

// Whether these are a good angle's: neither minus zero nor, whatever the sign, an infinity's or above.
#[tactic(auto, using(crate::proofs::GoodBits::angle_good, crate::proofs::GoodBits::minus_zero_bad))]
pub(crate) fn good_angle(bits: u32) -> bool
    ensures { result ≡ good_word angle bits }
{
    bits != MINUS_ZERO && bits % MINUS_ZERO < INFINITY
}

// Whether these are a good torque's. One test does: with the sign's bit they are above an infinity's.
#[tactic(auto, using(crate::proofs::GoodBits::torque_good))]
pub(crate) fn good_torque(bits: u32) -> bool
    ensures { result ≡ good_word torque bits }
{
    bits < INFINITY
}

// Whether these are those of two good torques, the lowest not above the highest.
#[tactic(auto, using(crate::proofs::GoodBits::good_number, crate::proofs::GoodRange::range_ordered, crate::proofs::GoodRange::highest_bad))]
pub(crate) fn good_range(low: u32, high: u32) -> bool
    ensures { result ≡ good (torque ∷ torque ∷ []) (low ∷ high ∷ []) }
{
    good_torque(low) && good_torque(high) && f32::from_bits(low) <= f32::from_bits(high)
}
