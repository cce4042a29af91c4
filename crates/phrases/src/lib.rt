// Phrases inside phrases: a list of numbers is one item, a leaf or a branch of items. An even n is a leaf, sentence n/2; an odd n is a branch of
// the next (n - 1)/2 items.
#![tactic(auto)]

mod reading;

pub use reading::read_phrase;
