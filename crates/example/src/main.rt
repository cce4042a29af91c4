// How the number code is used from a crate of one's own: writing, reading, what a turn means, stepping, set-down, strict
// reading, the settings of tools, phrases, and entries. Every answer is taken apart by a `match` and becomes a line of standard output.
// README.md shows parts of this file.
#![tactic(auto)]

use blocks::{Cursor, Rule, Step};
use entries::{Entry, ReadEntry};
use groups::Value;
use lists::{NotRead, Numbers};
use slips::{Range, Setting};
use std::fmt::Display;
use std::io::{self, Print};
use words::{Count, Fault, Place, Refusal};

// Says what a writer answered. The next number, setting or entry goes count bytes behind it; a refused write has changed no byte.
fn say_written(out: &impl Print, written: Result<Count, Refusal>) -> io::Result<()> {
    match written {
        Ok(Count(count)) => println!(out; "count {count}"),
        Err(refusal) => println!(out; "refused {refusal}"),
    }
}

fn show_writing(out: &impl Print, buffer: &mut [u8]) -> io::Result<()> {
    say_written(out, uleb128::write_u64(12857, buffer, Place(3)))?;
    say_written(out, sleb128::write_i64(-2, buffer, Place(5)))?;
    say_written(out, sleb128::write_i64(128, buffer, Place(7)))
}

// Says a refusal, and the place of the byte that decided it.
fn say_fault(out: &impl Print, Fault(refusal, byte): Fault) -> io::Result<()> {
    println!(out; "refused {refusal}")?;
    println!(out; "at {}", byte.0)
}

// Reads an unsigned number at a place. The next one is count bytes behind it.
fn read_number(out: &impl Print, bytes: &[u8], place: Place) -> io::Result<()> {
    match uleb128::read_u64(bytes, place) {
        Ok((number, Count(count))) => {
            println!(out; "number {number}")?;
            println!(out; "count {count}")
        }
        Err(fault) => say_fault(out, fault),
    }
}

// Reads a signed number at a place, as quarter turns on an adapter with this thread.
fn read_turn(out: &impl Print, bytes: &[u8], place: Place, thread: u8) -> io::Result<()> {
    match sleb128::read_i64(bytes, place) {
        Ok((quarters, _)) => say_meaning(out, quarters, thread),
        Err(fault) => say_fault(out, fault),
    }
}

fn say_meaning(out: &impl Print, quarters: i64, thread: u8) -> io::Result<()> {
    match turns::means(quarters, thread) {
        Ok(turn) => println!(out; "{turn}"),
        Err(refusal) => println!(out; "refused {refusal}"),
    }
}

// A step by the unsigned rule has an unsigned value, one by the signed rule a signed one.
fn say_value(out: &impl Print, value: Value) -> io::Result<()> {
    match value {
        Value::Unsigned(number) => println!(out; "number {number}"),
        Value::Signed(quarters) => say_meaning(out, quarters, turns::RIGHT),
    }
}

// Steps through a block. Where it is damaged there is a gap, and the groups behind it are read as ever. A block of n bytes has
// at most n groups, so n + 1 steps come to its end.
fn step_through(out: &impl Print, block: &[u8], from: Cursor) -> io::Result<()> {
    let mut cursor = from;
    for _ in 0..=block.len() {
        cursor = match cursor.step(block, Rule::Unsigned) {
            Ok(Step::Number(value, _, next)) => {
                say_value(out, value)?;
                next
            }
            Ok(Step::Gap(Fault(reason, byte), _, next)) => {
                println!(out; "gap {reason}")?;
                println!(out; "at {}", byte.0)?;
                next
            }
            Ok(Step::Tail(Count(count), _)) => return println!(out; "tail {count}"),
            Ok(Step::Finished(_)) => return Ok(()),
            Err(refusal) => return println!(out; "refused {refusal}"),
        };
    }
    Ok(())
}

// The same from any place on, be it in the middle of a group: set-down finds the next start.
fn step_from(out: &impl Print, block: &[u8], place: Place) -> io::Result<()> {
    match blocks::set_down(block, place) {
        Ok(cursor) => step_through(out, block, cursor),
        Err(refusal) => println!(out; "refused {refusal}"),
    }
}

// Reads all numbers of a block into a slice, or none of them if anything in the block is damaged.
fn read_all(out: &impl Print, block: &[u8], numbers: &mut [u64]) -> io::Result<()> {
    match lists::read_strict(block, numbers) {
        Ok(Numbers(count)) => println!(out; "numbers {count}"),
        Err(NotRead::Faulty(fault)) => say_fault(out, fault),
        Err(NotRead::Refused(refusal)) => println!(out; "refused {refusal}"),
    }
}

// Reads the setting at a place, for a tool that is set to this torque.
fn read_setting(out: &impl Print, bytes: &[u8], place: Place, torque: f32) -> io::Result<()> {
    match slips::read_setting(bytes, place) {
        Ok((setting, _)) => say_setting(out, setting, torque),
        Err(refusal) => println!(out; "refused {refusal}"),
    }
}

fn say_setting(out: &impl Print, setting: Setting, torque: f32) -> io::Result<()> {
    match setting {
        Setting::Nothing => println!(out; "nothing"),
        Setting::Torque(_) => println!(out; "torque"),
        Setting::Angle(_) => println!(out; "angle"),
        Setting::Range(range) if slips::lies_in_range(torque, range) => println!(out; "in range"),
        Setting::Range(_) => println!(out; "out of range"),
    }
}

// Reads the sentences of a phrase into a slice, or none of them if the list is anything but one item.
fn read_phrase(out: &impl Print, numbers: &[u64], sentences: &mut [u64]) -> io::Result<()> {
    match phrases::read_phrase(numbers, sentences) {
        Ok(Numbers(count)) => println!(out; "sentences {count}"),
        Err(refusal) => println!(out; "refused {refusal}"),
    }
}

// Reads the entries of a block one after another. Where one is damaged it is bad, and those behind it keep their columns. A block
// of n bytes has fewer than n entries, so n readings come to the last.
fn read_entries(out: &impl Print, block: &[u8]) -> io::Result<()> {
    let mut place = Place(0);
    for _ in 0..block.len() {
        place = match entries::read_entry(block, place) {
            Ok(ReadEntry::Good(entry, end)) => {
                say_entry(out, entry)?;
                end
            }
            Ok(ReadEntry::Bad(refusal, end)) => {
                println!(out; "refused {refusal}")?;
                println!(out; "end {}", end.0)?;
                end
            }
            Err(_) => break,
        };
    }
    Ok(())
}

fn say_entry(out: &impl Print, entry: Entry) -> io::Result<()> {
    println!(out; "segment {}", entry.segment)?;
    println!(out; "sentence {}", entry.sentence)?;
    say_meaning(out, entry.turn, turns::RIGHT)
}

fn show_reading(out: &impl Print, bytes: &[u8]) -> io::Result<()> {
    read_number(out, bytes, Place(3))?;
    read_turn(out, bytes, Place(5), turns::RIGHT)?;
    read_turn(out, bytes, Place(5), turns::LEFT)?;
    read_turn(out, bytes, Place(5), 2)?;
    read_number(out, bytes, Place(6))?;
    read_number(out, bytes, Place(9))
}

fn show_numbers(out: &impl Print) -> io::Result<()> {
    let mut buffer = [0u8; 8];
    show_writing(out, &mut buffer)?;
    show_reading(out, &buffer)
}

fn show_block(out: &impl Print, block: &[u8]) -> io::Result<()> {
    let mut numbers = [0u64; 4];
    step_through(out, block, Cursor { place: Place(0) })?;
    step_from(out, block, Place(2))?;
    read_all(out, block, &mut numbers)
}

fn show_settings(out: &impl Print) -> io::Result<()> {
    let mut buffer = [0u8; 10];
    let range = Setting::Range(Range {
        lowest: 20.0,
        highest: 40.0,
    });
    let torque = Setting::Torque(-1.0);
    let angle = Setting::Angle(-90.0);
    say_written(out, slips::write_setting(range, &mut buffer, Place(0)))?;
    say_written(out, slips::write_setting(torque, &mut buffer, Place(0)))?;
    say_written(out, slips::write_setting(angle, &mut buffer, Place(9)))?;
    read_setting(out, &buffer, Place(0), 40.0)?;
    read_setting(out, &buffer, Place(0), 40.5)?;
    read_setting(out, &buffer, Place(9), 40.0)
}

// A branch of two items: sentence 7, and a branch of one item, sentence 3. Without its last number it is no item.
fn show_phrases(out: &impl Print) -> io::Result<()> {
    let phrase = [5u64, 14, 3, 6];
    let mut sentences = [0u64; 3];
    read_phrase(out, &phrase, &mut sentences)?;
    println!(out; "number {}", sentences[0])?;
    println!(out; "number {}", sentences[1])?;
    read_phrase(out, &phrase[..3], &mut sentences)
}

// An entry is written behind two others, the second of which has lost a number.
fn show_entries(out: &impl Print) -> io::Result<()> {
    let mut block = *b"\x80\x00\x07\x01\x02\x80\x00\x07\x02\x00\x00\x00\x00\x00";
    let entry = Entry {
        segment: 7,
        sentence: 3,
        turn: -1,
    };
    say_written(out, entries::write_entry(entry, &mut block, Place(9)))?;
    read_entries(out, &block)
}

fn show(out: &impl Print) -> io::Result<()> {
    show_numbers(out)?;
    show_block(out, b"\x05\x80\x00\x80\x01\x83")?;
    show_block(out, b"\x05\x80\x01")?;
    show_settings(out)?;
    show_phrases(out)?;
    show_entries(out)
}

// Where a line can't be written, there is nowhere to say so: the next one is tried.
#[derive(Clone, Copy)]
struct Onward<'a, P: Print>(&'a P);

impl<P: Print> Print for Onward<'_, P> {
    fn print<D: Display + Drop>(&self, value: D) -> io::Result<()> {
        let _ = self.0.print(value);
        Ok(())
    }

    fn println<D: Display + Drop>(&self, value: D) -> io::Result<()> {
        let _ = self.0.println(value);
        Ok(())
    }

    fn write_all(&self, bytes: &[u8]) -> io::Result<()> {
        let _ = self.0.write_all(bytes);
        Ok(())
    }
}

fn main(rt: HostRuntime) {
    let _ = show(&Onward(&rt));
}
