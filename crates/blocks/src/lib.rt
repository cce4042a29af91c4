// Blocks: a run of groups and a tail. A cursor steps through it, a group at a time; set-down finds where to begin.
#![tactic(auto)]

ghost use Rattle.std.specs.Prelude.{◌≡◌, ◌-◌, ◌<◌, ◌≤◌, [], ◌∷◌, length, Ok};
ghost use Rattle.std.specs.List.{take_while};
ghost use Rattle.words.specs.Answer.{gives, because_of};
ghost use Rattle.bits.specs.Macros.{is_high_8_bit_set_lem};
ghost use Rattle.blocks.specs.Block.{is_start_lem, read_by};
ghost use Rattle.blocks.specs.Inner.{InRun, missing, standing};
ghost use Rattle.blocks.specs.Promise.{means_value, means_step, Steps, SetsDown};

use bits::is_high_8_bit_set;
use groups::Value;
use sleb128::read_i64;
use uleb128::read_u64;
use words::{Count, Fault, Place, Refusal};

// The most bytes of a block.
pub const BLOCK_LIMIT: usize = 65536;

// The rule by which a group's bytes are read.
#[derive(Clone, Copy, Debug, PartialEq, Eq)]
pub enum Rule {
    Unsigned,
    Signed,
}

// A reader's place in a block.
#[derive(Clone, Copy, Debug, PartialEq, Eq)]
pub struct Cursor {
    pub place: Place,
}

// What a step says. Each hands the cursor back: moved past one group by Number and Gap, as it was by Tail and Finished.
#[derive(Clone, Copy, Debug, PartialEq, Eq)]
pub enum Step {
    Number(Value, Count, Cursor),
    Gap(Fault, Count, Cursor),
    Tail(Count, Cursor),
    Finished(Cursor),
}

// Whether a group, a tail or the end can begin at the place.
fn is_start(block: &[u8], at: usize) -> bool
    requires { at ≤ length block.now }
    ensures { result ≡ is_start_lem block.now at }
{
    at < 1 || !is_high_8_bit_set(block[at - 1])
}

// How many bytes of 128 or more stand at the front.
fn high_run(bytes: &[u8]) -> usize
    ensures { result ≡ length (take_while is_high_8_bit_set_lem bytes.now) }
{
    bytes.iter().take_while(|b| is_high_8_bit_set(**b)).count()
}

// The number of one byte below 128, by the rule.
fn alone(rule: Rule, b: u8) -> Value
    requires { b < 128 }
    ensures { gives (means_value result) ≡ read_by rule (b ∷ []) }
{
    match rule {
        Rule::Unsigned => Value::Unsigned(b as u64),
        Rule::Signed => {
            let v = b as i64;
            if b < 64 {
                Value::Signed(v)
            } else {
                Value::Signed(v - 128)
            }
        }
    }
}

// How many bytes stand from a place up to another.
fn between(from: usize, to: usize) -> usize
    requires { from ≤ to }
    ensures { result ≡ to - from }
{
    to - from
}

// What a step says where the reading is refused: a gap over the whole group, or a tail. All bytes before the one that decided it are
// 128 or more, so the search for the group's end goes on from there.
fn unread(block: &[u8], at: usize, fault: Fault) -> Step
    requires { InRun block.now at fault.1.0 }
    ensures { means_step (Ok result) ≡ missing block.now at (because_of fault) }
{
    let decided = fault.1.0;
    let last = decided + high_run(&block[decided..]);
    let high = between(at, last);
    if block.len() <= last {
        return Step::Tail(Count(high), Cursor::at(at));
    }
    let count = high + 1;
    Step::Gap(fault, Count(count), Cursor::at(at + count))
}

// What a step says at a start before the block's end, in full: for groups of more than one byte, gaps and tails. It and the step are part
// of each caller, where the rule is known for the most part (docs/SPEED.md).
#[inline(always)]
fn long(block: &[u8], at: usize, rule: Rule) -> Step
    requires { at < length block.now }
    ensures { means_step (Ok result) ≡ standing rule block.now at }
{
    match rule {
        Rule::Unsigned => match read_u64(block, Place(at)) {
            Ok((v, count)) => { Step::Number(Value::Unsigned(v), count, Cursor::at(at + count.0)) }
            Err(fault) => unread(block, at, fault),
        },
        Rule::Signed => match read_i64(block, Place(at)) {
            Ok((v, count)) => { Step::Number(Value::Signed(v), count, Cursor::at(at + count.0)) }
            Err(gap) => unread(block, at, gap),
        },
    }
}

impl Cursor {
    fn at(place: usize) -> Cursor
        ensures { result.place.0 ≡ place }
    {
        Cursor {
            place: Place(place),
        }
    }

    // One step: 7, 4 or 6; the end; a tail; or what the group at the place says by the rule.
    #[inline(always)]
    pub fn step(self, block: &[u8], rule: Rule) -> Result<Step, Refusal>
        ensures { Steps rule block.now self.place.0 result }
    {
        let at = self.place.0;
        if BLOCK_LIMIT < block.len() {
            return Err(Refusal::TooLong);
        }
        if block.len() < at {
            return Err(Refusal::Place);
        }
        if block.len() <= at {
            return Ok(Step::Finished(self));
        }
        if !is_start(block, at) {
            return Err(Refusal::NotAStart);
        }
        let b = block[at];
        if !is_high_8_bit_set(b) {
            return Ok(Step::Number(alone(rule, b), Count(1), Cursor::at(at + 1)));
        }
        Ok(long(block, at, rule))
    }
}

// The least start at or after the place: 7, 4, or 8 if there is none.
pub fn set_down(block: &[u8], place: Place) -> Result<Cursor, Refusal>
    ensures { SetsDown block.now place.0 result }
{
    let at = place.0;
    if BLOCK_LIMIT < block.len() {
        return Err(Refusal::TooLong);
    }
    if block.len() < at {
        return Err(Refusal::Place);
    }
    if at < 1 {
        return Ok(Cursor { place });
    }
    let last = at - 1 + high_run(&block[at - 1..]);
    if last < block.len() {
        return Ok(Cursor::at(last + 1));
    }
    Err(Refusal::NoStart)
}
