// What stands in front of a frame's bytes, low byte first. Each comes with the bytes behind it, or there are too few for it.
use crate::floats::float_of;
use entries::Entry;
use slips::{Range, Setting};

fn take_u64(bytes: &mut [u8]) -> Option<(u64, &mut [u8])> {
    let (front, behind) = bytes.split_first_chunk_mut()?;
    Some((u64::from_le_bytes(*front), behind))
}

// A float by its bits.
fn take_float(bytes: &mut [u8]) -> Option<(f32, &mut [u8])> {
    let (front, behind) = bytes.split_first_chunk_mut()?;
    Some((float_of(u32::from_le_bytes(*front)), behind))
}

fn take_range(bytes: &mut [u8]) -> Option<(Range, &mut [u8])> {
    let (lowest, behind) = take_float(bytes)?;
    let (highest, behind) = take_float(behind)?;
    Some((Range { lowest, highest }, behind))
}

// A setting of the kind, if there is such a kind.
pub(crate) fn take_setting(kind: u64, bytes: &mut [u8]) -> Option<(Setting, &mut [u8])> {
    match kind {
        0 => Some((Setting::Nothing, bytes)),
        1 => take_float(bytes).map(|(torque, behind)| (Setting::Torque(torque), behind)),
        2 => take_float(bytes).map(|(angle, behind)| (Setting::Angle(angle), behind)),
        3 => take_range(bytes).map(|(range, behind)| (Setting::Range(range), behind)),
        _ => None,
    }
}

// A torque and a range, behind which there is nothing.
pub(crate) fn torque_and_range(bytes: &mut [u8]) -> Option<(f32, Range)> {
    let (torque, behind) = take_float(bytes)?;
    let (range, behind) = take_range(behind)?;
    behind.is_empty().then_some((torque, range))
}

// An entry: segment, sentence, eight bytes that are not looked at, and the turn.
pub(crate) fn take_entry(bytes: &mut [u8]) -> Option<(Entry, &mut [u8])> {
    let (segment, behind) = take_u64(bytes)?;
    let (sentence, behind) = take_u64(behind)?;
    let (_, behind) = take_u64(behind)?;
    let (turn, behind) = take_u64(behind)?;
    let entry = Entry {
        segment,
        sentence,
        turn: turn.cast_signed(),
    };
    Some((entry, behind))
}

// The bytes of so many numbers.
pub(crate) fn take_listed(count: u64, bytes: &mut [u8]) -> Option<(&mut [u8], &mut [u8])> {
    bytes.split_at_mut_checked((count as usize).checked_mul(8)?)
}

// The numbers that have these bytes, put to the front of a slice that holds so many.
pub(crate) fn numbers_of<'a>(listed: &[u8], room: &'a mut [u64]) -> Option<&'a [u64]> {
    let (chunks, _) = listed.as_chunks();
    let numbers = room.get_mut(..chunks.len())?;
    for (number, chunk) in numbers.iter_mut().zip(chunks) {
        *number = u64::from_le_bytes(*chunk);
    }
    Some(numbers)
}
