// The program `list`: it reads standard input, writes its listing on standard output, and says on standard error what failed.
//
// No contract can say what the system gives or takes. So every decision is a function that promises its answer, and the functions
// that call the system only pass on what it answers: tools/check_code lets no test and no number stand in them.
#![tactic(auto)]

ghost use Rattle.std.specs.Prelude.{◌+◌, ◌≤◌, ◌≡◌, length, take, is_ok, IfOk, IfSome};
ghost use Rattle.texts.specs.Texts.{Lays};
ghost use Rattle.listing.specs.Program.{input_room, following, text_of, note_of, limit_note};
ghost use Rattle.listing.specs.Promise.{Fronts};
ghost use Rattle.list.specs.Promise.{means_moved, means_input, means_next};

use blocks::BLOCK_LIMIT;
use listing::{TEXT_ROOM, lay_listing};
use std::io::{self, Print, Read};
use std::ops::ControlFlow;
use texts::Text;
use words::Count;

// So much of the input is asked for: a byte more than a block may have, by which an input above the limit is seen to be so.
const INPUT_ROOM: usize = BLOCK_LIMIT + 1;

// A buffer of so many bytes holds every note.
const NOTE_ROOM: usize = 128;

// What follows where a read behind the first bytes of the input has answered: another read, behind so many bytes; or so many are all of
// it, or all that was asked for. A read that moves no byte is the input's end.
fn after_read(there: Count, read: io::Result<usize>) -> io::Result<ControlFlow<Count, Count>>
    requires { IfOk read (λ n. there.0 + n ≤ input_room) }
    ensures { means_next result ≡ following there.0 (means_moved read) }
{
    let moved = read?;
    let now = there.0 + moved;
    if 0 < moved && now < INPUT_ROOM {
        Ok(ControlFlow::Continue(Count(now)))
    } else {
        Ok(ControlFlow::Break(Count(now)))
    }
}

// Reads the input to its end, or until a byte more is there than a block may have. Whatever pieces it comes in, the bytes at the front of
// the buffer are then the first that the reader had. (What standard input has is not known; of a reader in memory it is.)
fn take_in<R: Read>(from: &mut R, input: &mut [u8]) -> io::Result<Count>
    requires { length input.old ≡ input_room }
    ensures within { IfOk result (λ count. count.0 ≤ input_room) }
    ensures bytes { IfOk result (λ count. IfSome (R.remaining from.old) (λ xs. take count.0 input.new ≡ take (length input.old) xs)) }
{
    let mut there = Count(0);
    loop {
        let read = from.read(&mut input[there.0..]);
        match after_read(there, read)? {
            ControlFlow::Continue(count) => there = count,
            ControlFlow::Break(count) => return Ok(count),
        }
    }
}

// What is written for the input: its listing, or nothing where it can't be read.
fn lay_text(known: io::Result<Count>, input: &[u8], text: &mut [u8; TEXT_ROOM]) -> Count
    requires input_len { length input.now ≡ input_room }
    requires input_within { IfOk known (λ count. count.0 ≤ input_room) }
    ensures { Fronts (text_of (means_input known) input.now) text.old result.0 text.new }
{
    match known {
        Ok(Count(n)) => lay_listing(&input[..n], text),
        Err(_) => Count(0),
    }
}

// What is said of an input above the limit.
fn lay_limit(note: &mut Text)
    ensures { Lays limit_note note.old note.new }
{
    note.word(b"list: a block has at most ");
    note.decimal(BLOCK_LIMIT as u64);
    note.word(b" bytes, and the input has more\n");
}

// What is said on standard error: what failed, or that the input is above the limit, or nothing.
fn lay_note(known: io::Result<Count>, written: io::Result<()>, note: &mut [u8; NOTE_ROOM]) -> Count
    ensures { Fronts (note_of (means_input known) (is_ok written)) note.old result.0 note.new }
{
    let mut note = Text {
        buffer: note,
        filled: Count(0),
    };
    match known {
        Err(_) => note.word(b"list: the input can't be read\n"),
        Ok(_) if written.is_err() => note.word(b"list: the listing can't be written\n"),
        Ok(count) if BLOCK_LIMIT < count.0 => lay_limit(&mut note),
        Ok(_) => {}
    }
    note.filled
}

fn main(rt: HostRuntime) {
    let mut input = [0u8; INPUT_ROOM];
    let mut text = [0u8; TEXT_ROOM];
    let mut note = [0u8; NOTE_ROOM];
    let known = take_in(&mut rt.stdin(), &mut input);
    let listed = lay_text(known, &input, &mut text);
    let written = rt.stdout().write_all(&text[..listed.0]);
    let noted = lay_note(known, written, &mut note);
    // Where standard error can't be written, there is nowhere to say so.
    let _ = rt.stderr().write_all(&note[..noted.0]);
}
