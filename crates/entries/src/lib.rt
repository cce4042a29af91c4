// Entries: each is opened by a mark, the group 80 00, and runs to the next mark or to the block's end. Where an entry stands (module
// `marks`) and what it says (`saying`) are two things: each knows nothing of the other.
#![tactic(auto)]

mod marks;
mod reading;
mod saying;
mod writing;

pub use reading::read_entry;
use words::{Place, Refusal};
pub use writing::write_entry;

// What a good entry says.
#[derive(Clone, Copy, Debug, PartialEq, Eq)]
pub struct Entry {
    pub segment: u64,
    pub sentence: u64,
    pub turn: i64,
}

// The entry that was found: a good one, or 10 for a bad one, each with the place where it ends.
#[derive(Clone, Copy, Debug, PartialEq, Eq)]
pub enum ReadEntry {
    Good(Entry, Place),
    Bad(Refusal, Place),
}
