// Setting slips: one byte of kind, then a body whose length the kind fixes. Kind 0 is nothing, 1 a torque in newton metres, 2 an angle in
// degrees, 3 a lowest and a highest torque; each is the four bytes of an f32's bits, lowest first.
#![tactic(auto)]

mod good;
mod reading;
mod writing;

ghost use Rattle.slips.specs.Promise.{LiesInRange};

pub use reading::read_setting;
pub use writing::write_setting;

// A lowest and a highest torque.
#[derive(Clone, Copy, Debug, PartialEq)]
pub struct Range {
    pub lowest: f32,
    pub highest: f32,
}

// What a workshop sets.
#[derive(Clone, Copy, Debug, PartialEq)]
pub enum Setting {
    Nothing,
    Torque(f32),
    Angle(f32),
    Range(Range),
}

// Whether the torque is neither under the lowest nor over the highest. A not-a-number among the three gets no; the range needn't be good.
#[tactic(auto, using(crate::proofs::Lies::lies_above, crate::proofs::Lies::lies_under))]
pub fn lies_in_range(torque: f32, range: Range) -> bool
    ensures { LiesInRange torque range result }
{
    range.lowest <= torque && torque <= range.highest
}
