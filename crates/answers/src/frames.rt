// Frames on standard input.
//
// A frame has an op of one byte, the numbers a and b of eight and n of four, low byte first, and then n bytes.
use std::io;
use std::io::{ErrorKind, Read};

// The most bytes that a frame has behind its numbers.
pub(crate) const MOST_BYTES: usize = 300000;

pub(crate) struct Frame<'a> {
    pub(crate) op: u8,
    pub(crate) a: u64,
    pub(crate) b: u64,
    pub(crate) bytes: &'a mut [u8],
}

// The next frame, whose n bytes go into the buffer; none where the input has ended, or the first read fails. A frame that is cut
// short, or whose n is too large for the buffer, is an error.
pub(crate) fn next_frame<'a>(
    input: &mut impl Read,
    buffer: &'a mut [u8],
) -> io::Result<Option<Frame<'a>>> {
    let mut header = [0; 21];
    let got = input.read(&mut header).unwrap_or(0);
    if got == 0 {
        return Ok(None);
    }
    input.read_exact(&mut header[got..])?;
    let op = header[0];
    let a = u64::from_le_bytes(*header[1..9].as_array().unwrap());
    let b = u64::from_le_bytes(*header[9..17].as_array().unwrap());
    let n = u32::from_le_bytes(*header[17..].as_array().unwrap());
    let bytes = buffer.get_mut(..n as usize).ok_or(ErrorKind::InvalidData)?;
    input.read_exact(bytes)?;
    Ok(Some(Frame { op, a, b, bytes }))
}
