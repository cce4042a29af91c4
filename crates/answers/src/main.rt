// Reads frames from standard input until it ends, and writes a line for each: what the desk answers to it.
#![tactic(auto)]

mod floats;
mod frames;
mod fronts;
mod ops;
mod said;

use frames::MOST_BYTES;
use ops::Slices;
use std::io;
use std::io::{Print, Write};

// A proved loop has to end, and nothing says that the input does. So 2^64 - 1 frames are answered at most: no input has so many.
// A line is put together in a buffer, and is out before the next frame is read.
fn answer_all(
    rt: HostRuntime,
    input: &mut [u8; MOST_BYTES],
    slices: &mut Slices,
    line: &mut [u8; ops::LINE],
) -> io::Result<()> {
    for _ in 0..u64::MAX {
        let Ok(coming) = frames::next_frame(&mut rt.stdin(), input) else {
            return rt.stdout().write_all(b"cut\n");
        };
        let Some(frame) = coming else {
            return Ok(());
        };
        let mut rest = &mut line[..];
        ops::answer(frame, slices, &mut rest)?;
        writeln!(rest)?;
        let n = ops::LINE.saturating_sub(rest.len());
        rt.stdout().write_all(&line[..n])?;
    }
    Ok(())
}

// The arrays are made once, and not for each frame that needs one: to fill it takes longer than most ops do. Output that fails ends the run
// without a word.
fn main(rt: HostRuntime) {
    let mut input = [0u8; MOST_BYTES];
    let mut slices = Slices::new();
    let mut line = [0u8; ops::LINE];
    let _ = answer_all(rt, &mut input, &mut slices, &mut line);
}
