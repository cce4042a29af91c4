// What the desk answered, as it is said in a line.
use crate::floats::bits_of;
use blocks::{Cursor, Step};
use entries::{Entry, ReadEntry};
use groups::Value;
use lists::{NotRead, Numbers};
use slips::{Range, Setting};
use std::fmt::Display;
use std::io::{self, Write};
use texts::Text;
use turns::Turn;
use words::{Count, Fault, Place, Refusal};

// So many numbers of an answer slice, or bytes in hexadecimal, are put together before they are written. A line may have thousands of either:
// by a format for each it takes up to eight times as long.
const NUMBERS: usize = 32;

const BYTES: usize = 64;

pub(crate) trait Say {
    fn say(self, out: &mut impl Write) -> io::Result<()>;
}

// None is for an op that does not take the numbers of its frame.
impl<T: Say> Say for Option<T> {
    fn say(self, out: &mut impl Write) -> io::Result<()> {
        match self {
            Some(answer) => answer.say(out),
            None => write!(out, "unknown"),
        }
    }
}

impl<T: Say, E: Say> Say for Result<T, E> {
    fn say(self, out: &mut impl Write) -> io::Result<()> {
        match self {
            Ok(answer) => answer.say(out),
            Err(error) => error.say(out),
        }
    }
}

impl Say for Refusal {
    fn say(self, out: &mut impl Write) -> io::Result<()> {
        write!(out, "refused {self}")
    }
}

impl Say for Fault {
    fn say(self, out: &mut impl Write) -> io::Result<()> {
        let Fault(refusal, Place(at)) = self;
        write!(out, "refused {refusal} {at}")
    }
}

impl Say for NotRead {
    fn say(self, out: &mut impl Write) -> io::Result<()> {
        match self {
            NotRead::Faulty(fault) => fault.say(out),
            NotRead::Refused(refusal) => refusal.say(out),
        }
    }
}

impl Say for bool {
    fn say(self, out: &mut impl Write) -> io::Result<()> {
        write!(out, "{}", if self { "yes" } else { "no" })
    }
}

// A count, whatever it counts.
fn say_count(n: usize, out: &mut impl Write) -> io::Result<()> {
    write!(out, "count {n}")
}

impl Say for Count {
    fn say(self, out: &mut impl Write) -> io::Result<()> {
        say_count(self.0, out)
    }
}

impl Say for Numbers {
    fn say(self, out: &mut impl Write) -> io::Result<()> {
        say_count(self.0, out)
    }
}

impl Say for Cursor {
    fn say(self, out: &mut impl Write) -> io::Result<()> {
        write!(out, "start {}", self.place.0)
    }
}

// A number that was read, and how many bytes it has.
impl<V: Display + Drop> Say for (V, Count) {
    fn say(self, out: &mut impl Write) -> io::Result<()> {
        let (v, Count(n)) = self;
        write!(out, "number {v} {n}")
    }
}

impl Say for Step {
    fn say(self, out: &mut impl Write) -> io::Result<()> {
        match self {
            Step::Number(value, count, next) => {
                match value {
                    Value::Unsigned(v) => (v, count).say(out)?,
                    Value::Signed(v) => (v, count).say(out)?,
                }
                write!(out, " {}", next.place.0)
            }
            Step::Gap(Fault(reason, Place(at)), Count(n), next) => {
                write!(out, "gap {reason} {n} {} {at}", next.place.0)
            }
            Step::Tail(Count(n), next) => write!(out, "tail {n} {}", next.place.0),
            Step::Finished(next) => write!(out, "finished {}", next.place.0),
        }
    }
}

impl Say for Turn {
    fn say(self, out: &mut impl Write) -> io::Result<()> {
        write!(out, "{self}")
    }
}

impl Say for ReadEntry {
    fn say(self, out: &mut impl Write) -> io::Result<()> {
        match self {
            ReadEntry::Good(
                Entry {
                    segment,
                    sentence,
                    turn,
                },
                Place(end),
            ) => { write!(out, "entry {segment} {sentence} {turn} {end}") }
            ReadEntry::Bad(refusal, Place(end)) => write!(out, "refused {refusal} {end}"),
        }
    }
}

// A setting that was read, and how many bytes it has.
#[derive(Clone, Copy)]
pub(crate) struct Slip(pub(crate) Setting, pub(crate) Count);

impl Say for Slip {
    fn say(self, out: &mut impl Write) -> io::Result<()> {
        let Slip(setting, Count(n)) = self;
        match setting {
            Setting::Nothing => write!(out, "nothing {n}"),
            Setting::Torque(torque) => write!(out, "torque {} {n}", bits_of(torque)),
            Setting::Angle(angle) => write!(out, "angle {} {n}", bits_of(angle)),
            Setting::Range(Range { lowest, highest }) => {
                write!(out, "range {} {} {n}", bits_of(lowest), bits_of(highest))
            }
        }
    }
}

// What a writer answered, and the bytes that it was lent.
#[derive(Clone, Copy)]
pub(crate) struct Wrote<'a>(pub(crate) Result<Count, Refusal>, pub(crate) &'a [u8]);

impl Say for Wrote<'_> {
    fn say(self, out: &mut impl Write) -> io::Result<()> {
        let Wrote(answer, lent) = self;
        answer.say(out)?;
        out.write_all(b" ")?;
        Hex(lent).say(out)
    }
}

// What was answered, and the whole answer slice.
pub(crate) struct Filled<'a, E>(pub(crate) Result<Numbers, E>, pub(crate) &'a [u64]);

impl<E: Say> Say for Filled<'_, E> {
    fn say(self, out: &mut impl Write) -> io::Result<()> {
        let Filled(answer, slice) = self;
        answer.say(out)?;
        for part in slice.chunks(NUMBERS) {
            let mut room = [0; 21 * NUMBERS];
            let mut text = Text {
                buffer: &mut room,
                filled: Count(0),
            };
            for v in part {
                text.word(b" ");
                text.decimal(*v);
            }
            // All of them, since none has more than twenty digits: the lesser is what needs no proof.
            let n = text.filled.0.min(room.len());
            out.write_all(&room[..n])?;
        }
        Ok(())
    }
}

static DIGITS: [u8; 16] = *b"0123456789abcdef";

// Bytes in hexadecimal, or `-` if there are none.
#[derive(Clone, Copy)]
pub(crate) struct Hex<'a>(pub(crate) &'a [u8]);

impl Say for Hex<'_> {
    fn say(self, out: &mut impl Write) -> io::Result<()> {
        if self.0.is_empty() {
            return out.write_all(b"-");
        }
        for part in self.0.chunks(BYTES) {
            let mut digits = [0; 2 * BYTES];
            let (pairs, _) = digits.as_chunks_mut::<2>();
            for (pair, b) in pairs.iter_mut().zip(part) {
                *pair = [DIGITS[usize::from(b / 16)], DIGITS[usize::from(b % 16)]];
            }
            // A part has no more bytes than that; the lesser likewise.
            let n = (2 * part.len()).min(digits.len());
            out.write_all(&digits[..n])?;
        }
        Ok(())
    }
}
