// Unsigned LEB128 in its shortest form: numbers of 64 and of 32 bits.
//
// A byte is seven bits of value, lowest first; a byte of 128 or more says that another follows. Zero takes one byte. So 128 is the
// bytes 80 01: `write_u64(128, buffer, place)` lays them down, and `read_u64(buffer, place)` gives 128 and its count, 2.
#![tactic(auto)]

mod reading;
mod writing;

pub use reading::{read_u32, read_u64};
pub use writing::{length_u32, length_u64, write_u32, write_u64};

// A number below this takes one byte.
pub const ONE_BYTE: u64 = 128;
