// The ops: what each asks of the desk, and what the desk answered. Any other op is unknown, and so is one that does not take the
// numbers of its frame.
use crate::frames::{Frame, MOST_BYTES};
use crate::fronts::{numbers_of, take_entry, take_listed, take_setting, torque_and_range};
use crate::said::{Filled, Hex, Say, Slip, Wrote};
use blocks::{Cursor, Rule};
use listing::TEXT_ROOM;
use lists::NotRead;
use std::io;
use std::io::Write;
use turns::Turn;
use words::{Count, Place, Refusal};

// The longest line is `text `, two digits for each byte of a listing, and its end.
pub(crate) const LINE: usize = 6 + 2 * TEXT_ROOM;

// The most numbers that the bytes of a frame hold.
const MOST_LISTED: usize = MOST_BYTES / 8;

// The most numbers of an answer slice. It is more than the bytes of a frame hold.
const MOST_NUMBERS: usize = 65536;

// What each number of an answer slice is before it is filled.
const UNFILLED: u64 = 7777777777777777777;

// What ops need beside a frame: room for a list, for an answer slice, and for a listing's text.
#[derive(Drop)]
pub(crate) struct Slices {
    list: [u64; MOST_LISTED],
    answer: [u64; MOST_NUMBERS],
    text: [u8; TEXT_ROOM],
}

impl Slices {
    pub(crate) fn new() -> Slices {
        Slices {
            list: [0; MOST_LISTED],
            answer: [0; MOST_NUMBERS],
            text: [0; TEXT_ROOM],
        }
    }
}

fn length_u32(v: u64) -> Option<Count> {
    let v = u32::try_from(v).ok()?;
    Some(uleb128::length_u32(v))
}

fn turn(quarters: u64, thread: u64) -> Option<Result<Turn, Refusal>> {
    let thread = u8::try_from(thread).ok()?;
    Some(turns::means(quarters.cast_signed(), thread))
}

fn lies_in_range(bytes: &mut [u8]) -> Option<bool> {
    let (torque, range) = torque_and_range(bytes)?;
    Some(slips::lies_in_range(torque, range))
}

fn write_u32(v: u64, lent: &mut [u8], place: Place) -> Option<Wrote<'_>> {
    let v = u32::try_from(v).ok()?;
    Some(Wrote(uleb128::write_u32(v, lent, place), lent))
}

fn write_setting(kind: u64, bytes: &mut [u8], place: Place) -> Option<Wrote<'_>> {
    let (setting, lent) = take_setting(kind, bytes)?;
    Some(Wrote(slips::write_setting(setting, lent, place), lent))
}

fn write_entry(bytes: &mut [u8], place: Place) -> Option<Wrote<'_>> {
    let (entry, lent) = take_entry(bytes)?;
    Some(Wrote(entries::write_entry(entry, lent, place), lent))
}

// Writes a list of so many numbers, which stand in front of the bytes that are lent.
fn write_list<'a>(
    count: u64,
    bytes: &'a mut [u8],
    place: Place,
    list: &mut [u64],
) -> Option<Wrote<'a>> {
    let (listed, lent) = take_listed(count, bytes)?;
    let numbers = numbers_of(listed, list)?;
    Some(Wrote(lists::write_list(numbers, lent, place), lent))
}

// The answer slice of so many numbers. It is unfilled only where the op is answered: to fill it takes longer than to refuse.
fn answer_slice(room: u64, answer: &mut [u64]) -> Option<&mut [u64]> {
    answer.get_mut(..room as usize)
}

// Reads a block into an answer slice of so many numbers.
fn read_strict<'a>(room: u64, block: &[u8], answer: &'a mut [u64]) -> Option<Filled<'a, NotRead>> {
    let slice = answer_slice(room, answer)?;
    slice.fill(UNFILLED);
    Some(Filled(lists::read_strict(block, slice), slice))
}

// Reads a phrase of so many numbers, which stand in front of the bytes, into an answer slice.
fn read_phrase<'a>(
    room: u64,
    count: u64,
    bytes: &mut [u8],
    list: &mut [u64],
    answer: &'a mut [u64],
) -> Option<Filled<'a, Refusal>> {
    let slice = answer_slice(room, answer)?;
    let (listed, _) = take_listed(count, bytes)?;
    let numbers = numbers_of(listed, list)?;
    slice.fill(UNFILLED);
    Some(Filled(phrases::read_phrase(numbers, slice), slice))
}

// Writes the line for a frame, without its end. The text of a listing goes by way of a buffer.
pub(crate) fn answer(
    frame: Frame<'_>,
    slices: &mut Slices,
    out: &mut impl Write,
) -> io::Result<()> {
    let Frame { op, a, b, bytes } = frame;
    let Slices { list, answer, text } = slices;
    let at_a = Place(a as usize);
    let at_b = Place(b as usize);
    let cursor = Cursor { place: at_a };
    match op {
        1 => uleb128::read_u64(bytes, at_a).say(out),
        2 => uleb128_rec::read_u64_rec(bytes, at_a).say(out),
        3 => uleb128::read_u32(bytes, at_a).say(out),
        4 => sleb128::read_i64(bytes, at_a).say(out),
        5 => Wrote(uleb128::write_u64(a, bytes, at_b), bytes).say(out),
        6 => Wrote(uleb128_rec::write_u64_rec(a, bytes, at_b), bytes).say(out),
        7 => write_u32(a, bytes, at_b).say(out),
        8 => Wrote(sleb128::write_i64(a.cast_signed(), bytes, at_b), bytes).say(out),
        9 => uleb128::length_u64(a).say(out),
        10 => length_u32(a).say(out),
        11 => sleb128::length_i64(a.cast_signed()).say(out),
        12 => cursor.step(bytes, Rule::Unsigned).say(out),
        13 => cursor.step(bytes, Rule::Signed).say(out),
        14 => blocks::set_down(bytes, at_a).say(out),
        15 => read_strict(a, bytes, answer).say(out),
        16 => write_list(b, bytes, at_a, list).say(out),
        17 => turn(a, b).say(out),
        18 => {
            let Count(n) = listing::lay_listing(bytes, text);
            write!(out, "text ")?;
            Hex(&text[..n]).say(out)
        }
        19 => slips::read_setting(bytes, at_a)
            .map(|(setting, count)| Slip(setting, count))
            .say(out),
        20 => write_setting(a, bytes, at_b).say(out),
        21 => lies_in_range(bytes).say(out),
        22 => read_phrase(a, b, bytes, list, answer).say(out),
        23 => entries::read_entry(bytes, at_a).say(out),
        24 => write_entry(bytes, at_a).say(out),
        _ => write!(out, "unknown"),
    }
}
