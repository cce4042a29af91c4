// Reading a phrase: its shape by recursion, then how many leaves there are, and then their sentences. The leaves of a good list are its even
// numbers, so only the shape needs the recursion.
//
// `items` is called in two places and `item` in one, so that `item` becomes part of it, and a leaf costs no call (docs/SPEED.md).
ghost use Rattle.std.specs.Prelude.{◌≤◌, ◌≡◌, length, count_by};
ghost use Rattle.phrases.specs.Inner.{OneAhead, SomeAhead, Passes, even, halves};
ghost use Rattle.phrases.specs.Promise.{ReadsPhrase};

use lists::{LIST_LIMIT, Numbers};
use words::Refusal;

// How deep branches nest.
const NESTING: u64 = 8;

// Passes the item that begins at the place, in which so many branches may nest: the place behind it, if there is one. An empty branch has a test of
// its own, so that it costs no call.
#[cycle(item_items)]
fn item(numbers: &[u64], at: usize, depth: u64) -> Option<usize>
    ensures { Passes (OneAhead depth) numbers.now at result }
{
    let Some(&n) = numbers.get(at) else {
        return None;
    };
    let next = at + 1;
    if n % 2 == 0 {
        return Some(next);
    }
    let inside = depth.checked_sub(1)?;
    let count = n / 2;
    if count == 0 {
        return Some(next);
    }
    items(numbers, next, inside, count)
}

// Passes so many items, one after another, the first of which begins at the place. However many are promised, they end with the list.
#[cycle(item_items)]
fn items(numbers: &[u64], first: usize, depth: u64, count: u64) -> Option<usize>
    requires { first ≤ length numbers.now }
    ensures { Passes (SomeAhead depth count) numbers.now first result }
{
    let mut at = first;
    for _ in 0..count {
        at = item(numbers, at, depth)?;
    }
    Some(at)
}

// How many leaves a list has. A loop, of which LLVM makes one without a branch: of `filter` and `count` it makes one that has to guess.
fn leaves(numbers: &[u64]) -> usize
    ensures { result ≡ count_by even numbers.now }
{
    let mut count = 0;
    for n in numbers {
        if *n % 2 == 0 {
            count += 1;
        }
    }
    count
}

// Stores the sentences of the leaves, for all of which the slice just has room. Half of a branch's number is stored too, where the next leaf's
// sentence then goes: so nothing has to be guessed.
fn fill(numbers: &[u64], sentences: &mut [u64])
    requires { length sentences.old ≡ count_by even numbers.now }
    ensures { sentences.new ≡ halves numbers.now }
{
    let mut filled = 0;
    for n in numbers {
        if filled == sentences.len() {
            return;
        }
        sentences[filled] = n / 2;
        filled += (1 - n % 2) as usize;
    }
}

// Fills the front of the slice with the sentences of the list's leaves, if it is one item and they fit: else 7 (above 16,384 numbers), 13 (not exactly
// one item, or branches nest too deep) or 5; then the slice is as it was.
pub fn read_phrase(numbers: &[u64], sentences: &mut [u64]) -> Result<Numbers, Refusal>
    ensures { ReadsPhrase numbers.now sentences.old result sentences.new }
{
    if LIST_LIMIT < numbers.len() {
        return Err(Refusal::TooLong);
    }
    if items(numbers, 0, NESTING, 1) != Some(numbers.len()) {
        return Err(Refusal::Tree);
    }
    let count = leaves(numbers);
    if sentences.len() < count {
        return Err(Refusal::NoRoom);
    }
    fill(numbers, &mut sentences[..count]);
    Ok(Numbers(count))
}
