// The listing of a block: its text.
//
// A block's listing is a header and a line for each group and for the tail: `place what value`. The 3 bytes 80 01 05 have the
// lines `0 number 128` and `2 number 5`. `lay_listing(block, text)` puts it to the front of a buffer that holds every listing.
#![tactic(auto)]

mod rows;

use blocks::BLOCK_LIMIT;
pub use rows::lay_listing;

// A buffer of so many bytes holds every listing: the header has 17, and each byte of a block makes at most 28 of its lines.
pub const TEXT_ROOM: usize = 17 + 28 * BLOCK_LIMIT;
