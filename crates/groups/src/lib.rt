// A group of seven-bit bytes, whatever the width of the number: bytes of 128 or more and then one below. One loop walks it and one
// lays it down, and readers and writers of every width stand on these two.
#![tactic(auto)]

mod reading;
mod writing;

pub use reading::walk;
use words::Count;
pub use writing::{spelled_length, store};

// A number and its kind, which decide the bytes that spell it.
#[derive(Clone, Copy, Debug, PartialEq, Eq)]
pub enum Value {
    Unsigned(u64),
    Signed(i64),
}

// How the bytes from a start go.
#[derive(Clone, Copy, Debug, PartialEq, Eq)]
pub enum Walked {
    // The start is past the end of the bytes.
    Past,
    // All the bytes, fewer than ten, are 128 or more.
    Open(Count),
    // Ten bytes of 128 or more.
    Long,
    // At most nine bytes of 128 or more and one below.
    Closed {
        // What the seven bits of those of 128 or more make.
        sum: u64,
        // What a bit of the last byte weighs.
        weight: u64,
        // How many are 128 or more.
        high: Count,
        last: u8,
    },
}
