// What a number of quarter turns means under a thread code: on a right-hand thread above zero tightens and below zero loosens,
// on a left-hand thread the two change places, and zero holds on both.
#![tactic(auto)]

ghost use Rattle.std.specs.Prelude.{◌≡◌, Some};
ghost use Rattle.turns.specs.Turns.{turn_of, swapped, name_of, Means};

use std::fmt;
use words::Refusal;

// The thread codes that there are.
pub const RIGHT: u8 = 0;

pub const LEFT: u8 = 1;

#[derive(Clone, Copy, Debug, PartialEq, Eq)]
pub enum Turn {
    Tighten,
    Loosen,
    Hold,
}

impl Turn {
    // What a number of quarter turns does on a right-hand thread.
    fn of(quarters: i64) -> Turn
        ensures { result ≡ turn_of quarters }
    {
        match quarters {
            1.. => Turn::Tighten,
            0 => Turn::Hold,
            ..0 => Turn::Loosen,
        }
    }

    // What this turn on a right-hand thread is on a left-hand one.
    fn swapped(self) -> Turn
        ensures { result ≡ swapped self }
    {
        match self {
            Turn::Tighten => Turn::Loosen,
            Turn::Loosen => Turn::Tighten,
            Turn::Hold => Turn::Hold,
        }
    }
}

// Its name.
impl fmt::Display for Turn {
    ghost output = { λ t. Some (name_of t) };

    fn fmt<W: fmt::Write>(&self, f: &mut fmt::Formatter<W>) -> fmt::Result {
        match self {
            Turn::Tighten => write!(f, "tighten"),
            Turn::Loosen => write!(f, "loosen"),
            Turn::Hold => write!(f, "hold"),
        }
    }
}

// What the turn means under the thread code. Refuses a code that is neither `RIGHT` nor `LEFT`, whatever the turn.
#[tactic(auto, unfolding(crate::specs::Turns::by_thread))]
pub fn means(quarters: i64, thread: u8) -> Result<Turn, Refusal>
    ensures { Means quarters thread result }
{
    let turn = Turn::of(quarters);
    match thread {
        RIGHT => Ok(turn),
        LEFT => Ok(turn.swapped()),
        _ => Err(Refusal::Thread),
    }
}
