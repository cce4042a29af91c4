// Signed LEB128 in its shortest form, as DWARF 5 has it: numbers of 64 bits in two's complement.
#![tactic(auto)]

mod reading;
mod writing;

pub use reading::read_i64;
pub use writing::{length_i64, write_i64};
