// Writing a slip: whether the setting is good, then whether there is room, and only then a byte.
ghost use Rattle.std.specs.Prelude.{◌≡◌};
ghost use Rattle.std.specs.Float.{binary32};
ghost use Rattle.std.specs.Float.Ieee.{to_bits};
ghost use Rattle.slips.specs.Inner.{WritesWords};
ghost use Rattle.slips.specs.Promise.{WritesSetting};

use crate::good::{good_angle, good_range, good_torque};
use crate::{Range, Setting};
use words::{Count, Place, Refusal, has_room};

// The bits of a float; those of one not-a-number stand for all.
#[tactic(auto, using(crate::proofs::GoodBits::nan_bits_of))]
fn bits_of(x: f32) -> u32
    ensures { result ≡ to_bits binary32 x }
{
    if x.is_nan() { 0x7fc0_0000 } else { x.to_bits() }
}

// Writes a setting of this kind and these words, if it is good; else 11. Where there is no room, 5, and no byte is changed.
#[tactic(auto, using(crate::proofs::Stored::fitting))]
fn write(
    kind: u8,
    words: &[u32],
    good: bool,
    buffer: &mut [u8],
    place: Place,
) -> Result<Count, Refusal>
    ensures { WritesWords kind words.now good buffer.old place.0 result buffer.new }
{
    if !good {
        return Err(Refusal::Slip);
    }
    let count = Count(1 + 4 * words.len());
    if !has_room(buffer.len(), place, count) {
        return Err(Refusal::NoRoom);
    }
    let mut at = place.0;
    buffer[at] = kind;
    at += 1;
    for word in words {
        buffer[at..at + 4].copy_from_slice(&word.to_le_bytes());
        at += 4;
    }
    Ok(count)
}

// Writes the setting's slip at the place and answers its count of bytes; else 11 (a setting that is not good) or 5, and no byte is changed.
#[tactic(auto, using(crate::proofs::Stored::settings))]
pub fn write_setting(setting: Setting, buffer: &mut [u8], place: Place) -> Result<Count, Refusal>
    ensures { WritesSetting setting buffer.old place.0 result buffer.new }
{
    match setting {
        Setting::Nothing => write(0, &[], true, buffer, place),
        Setting::Torque(torque) => {
            let bits = bits_of(torque);
            write(1, &[bits], good_torque(bits), buffer, place)
        }
        Setting::Angle(angle) => {
            let bits = bits_of(angle);
            write(2, &[bits], good_angle(bits), buffer, place)
        }
        Setting::Range(Range { lowest, highest }) => {
            let low = bits_of(lowest);
            let high = bits_of(highest);
            write(3, &[low, high], good_range(low, high), buffer, place)
        }
    }
}
