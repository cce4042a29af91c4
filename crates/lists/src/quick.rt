// The quick way of strict reading. `sound` tells that every group of a block is a number without finding groups, and so how many there
// are: as many as bytes below 128. `halves` then stores them, with two streams at once, one from the front and one from the middle on, and
// `wide` takes a long number's eight bytes, or sixteen small numbers, at a time. It never finds a fault: that is the plain pass's.
//
// Each function has the form that it has for what LLVM makes of it, and its comment says which. What is called in one place only, or is small,
// becomes part of its caller (docs/SPEED.md); `rest` alone is kept out of its own by a word.
mod halves;
mod lows;
mod sound;
mod wide;

pub(crate) use halves::fill;
pub(crate) use lows::low_bytes;
pub(crate) use sound::clean;
