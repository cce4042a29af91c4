// Unsigned LEB128 of 64 bits by recursion: the same answers as `uleb128` gives by its loops.
#![tactic(auto)]

mod reading;
mod writing;

pub use reading::read_u64_rec;
pub use writing::write_u64_rec;
