// Reading a slip: its kind, whether the body is there, and then whether its bits are good.
ghost use Rattle.std.specs.Prelude.{◌<◌, ◌∷◌, ◌≡◌, true, false, length, MatchResult};
ghost use Rattle.std.specs.Float.{binary32, NotNanBits};
ghost use Rattle.std.specs.Float.Ieee.{of_bits};
ghost use Rattle.words.specs.declared.Refusal.TheVariants.{End, Slip};
ghost use Rattle.slips.specs.Inner.{HasWord, AnswersSlip};
ghost use Rattle.slips.specs.Promise.{ReadsSetting};

use crate::good::{good_angle, good_range, good_torque};
use crate::{Range, Setting};
use words::{Count, Place, Refusal};

// The word at the front of a body and what stands behind it; 1 where the body ends before.
#[tactic(auto, using(crate::proofs::WordRead::word_little))]
fn word(body: &[u8]) -> Result<(u32, &[u8]), Refusal>
    ensures { MatchResult result (λ p. HasWord body.now p.0 p.1.now) (λ why. (why ≡ End) × (length body.now < 4)) }
{
    let (bytes, behind) = body.split_first_chunk::<4>().ok_or(Refusal::End)?;
    Ok((u32::from_le_bytes(*bytes), behind))
}

// The float of these bits, if they are good; else 11.
fn float(bits: u32, good: bool) -> Result<f32, Refusal>
    requires { good ≡ true → NotNanBits binary32 bits }
    ensures { MatchResult result (λ x. (good ≡ true) × (x ≡ of_bits binary32 bits)) (λ why. (why ≡ Slip) × (good ≡ false)) }
{
    if good {
        Ok(f32::from_bits(bits))
    } else {
        Err(Refusal::Slip)
    }
}

// The setting of this kind and its slip's count of bytes; else 1 (a short body) or 11 (an unknown kind, or a setting that is not good).
#[tactic(auto, using(crate::proofs::Judged::refusals, crate::proofs::GoodRange::numbers))]
fn read_body(kind: u8, body: &[u8]) -> Result<(Setting, Count), Refusal>
    ensures { AnswersSlip (kind ∷ body.now) result }
{
    match kind {
        0 => Ok((Setting::Nothing, Count(1))),
        1 => {
            let (bits, _) = word(body)?;
            let torque = float(bits, good_torque(bits))?;
            Ok((Setting::Torque(torque), Count(5)))
        }
        2 => {
            let (bits, _) = word(body)?;
            let angle = float(bits, good_angle(bits))?;
            Ok((Setting::Angle(angle), Count(5)))
        }
        3 => {
            let (low, behind) = word(body)?;
            let (high, _) = word(behind)?;
            let good = good_range(low, high);
            let lowest = float(low, good)?;
            let highest = float(high, good)?;
            Ok((Setting::Range(Range { lowest, highest }), Count(9)))
        }
        4..=255 => Err(Refusal::Slip),
    }
}

// Reads the setting at the place; else 4 (past the end), 1 (no byte, or a short body) or 11 (an unknown kind, or a setting that is not good).
#[tactic(auto, using(crate::proofs::Judged::slip_past, crate::proofs::Judged::slip_none))]
pub fn read_setting(bytes: &[u8], place: Place) -> Result<(Setting, Count), Refusal>
    ensures { ReadsSetting bytes.now place.0 result }
{
    let Some(slip) = bytes.get(place.0..) else {
        return Err(Refusal::Place);
    };
    let Some((kind, body)) = slip.split_first() else {
        return Err(Refusal::End);
    };
    read_body(*kind, body)
}
