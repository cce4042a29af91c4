// The text of a listing: a row for each step through the block, laid down one behind the other.
ghost use Rattle.std.specs.Prelude.{◌≤◌, ◌≡◌, length};
ghost use Rattle.words.specs.Answer.{because};
ghost use Rattle.texts.specs.Texts.{Lays};
ghost use Rattle.blocks.specs.Block.{block_limit};
ghost use Rattle.blocks.specs.GroupsAndTail.{cut};
ghost use Rattle.listing.specs.Listing.{fault, row as rowText, rows as rowsText};
ghost use Rattle.listing.specs.Inner.{word_of, spaced, SaysRow};
ghost use Rattle.listing.specs.Promise.{LaysListing};

use crate::TEXT_ROOM;
use blocks::{BLOCK_LIMIT, Cursor, Rule, Step};
use groups::Value;
use texts::Text;
use words::{Count, Fault, Place, Refusal};

// What stands at a place: a group that is a number, one with a fault, or the tail.
#[derive(Clone, Copy)]
enum What {
    Number,
    NotShortest,
    Overflow,
    Tail,
}

// The word for a group's fault, which is 2 or 3.
fn fault_of(refusal: Refusal) -> What
    ensures { word_of result ≡ fault (because refusal) }
{
    match refusal {
        Refusal::NotShortest => What::NotShortest,
        _ => What::Overflow,
    }
}

// The line of what stands at the place: what it is, its value, and how many bytes of the block it is of. None if the block is finished. From a
// start no step by the unsigned rule says a signed number, or refuses.
fn row_at(block: &[u8], at: usize) -> Option<(What, u64, Count)>
    ensures { SaysRow block.now at result }
{
    let cursor = Cursor { place: Place(at) };
    match cursor.step(block, Rule::Unsigned).ok()? {
        Step::Number(Value::Unsigned(v), count, _) => Some((What::Number, v, count)),
        Step::Gap(Fault(refusal, _), count, _) => Some((fault_of(refusal), count.0 as u64, count)),
        Step::Tail(count, _) => Some((What::Tail, count.0 as u64, count)),
        Step::Number(Value::Signed(_), _, _) => None,
        Step::Finished(_) => None,
    }
}

// The word for what stands there, between two spaces.
fn lay_word(what: What, text: &mut Text)
    ensures { Lays (spaced (word_of what)) text.old text.new }
{
    match what {
        What::Number => text.word(b" number "),
        What::NotShortest => text.word(b" not-shortest "),
        What::Overflow => text.word(b" overflow "),
        What::Tail => text.word(b" tail "),
    }
}

// The line `AT WHAT VALUE`.
fn lay_row(at: usize, what: What, value: u64, text: &mut Text)
    ensures { Lays (rowText at (word_of what) value) text.old text.new }
{
    text.decimal(at as u64);
    lay_word(what, text);
    text.decimal(value);
    text.word(b"\n");
}

// The rows of the whole block.
fn lay_rows(block: &[u8], text: &mut Text)
    requires { length block.now ≤ block_limit }
    ensures { Lays (rowsText 0 (cut block.now).groups (cut block.now).tail) text.old text.new }
{
    let mut at: usize = 0;
    while let Some((what, value, count)) = row_at(block, at) {
        lay_row(at, what, value, text);
        at += count.0;
    }
}

// Puts the listing of the block to the front of the buffer, and answers how many bytes it has. Above the limit it is the one line
// `refused 7`.
pub fn lay_listing(block: &[u8], text: &mut [u8; TEXT_ROOM]) -> Count
    ensures { LaysListing block.now text.old result.0 text.new }
{
    let mut text = Text {
        buffer: text,
        filled: Count(0),
    };
    if BLOCK_LIMIT < block.len() {
        text.word(b"refused 7\n");
        return text.filled;
    }
    text.word(b"place what value\n");
    lay_rows(block, &mut text);
    text.filled
}
