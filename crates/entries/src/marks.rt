// Where entries begin and end: the search for the next mark, by its two bytes and the one before them.
ghost use Rattle.std.specs.Prelude.{◌<◌, ◌≤◌, length};
ghost use Rattle.blocks.specs.GroupsAndTail.{GroupAt};
ghost use Rattle.entries.specs.Inner.{Tells, FirstMark};
ghost use Rattle.entries.specs.Standing.{mark, EndsAt};

use bits::is_high_8_bit_set;

// Whether a mark stands at the place. The byte before it tells whether a group can begin there.
#[tactic(auto, using(crate::proofs::NextMarks::mark_in_front, crate::proofs::NextMarks::mark_told))]
fn is_mark(block: &[u8], at: usize) -> bool
    requires { at < length block.now }
    ensures { Tells (GroupAt block.now at mark) result }
{
    match &block[at..] {
        [128, 0, ..] if at < 1 => true,
        [128, 0, ..] => !is_high_8_bit_set(block[at - 1]),
        _ => false,
    }
}

// Whether an entry ends at the place: at a mark, or with the block.
pub(crate) fn ends(block: &[u8], at: usize) -> bool
    requires { at ≤ length block.now }
    ensures { Tells (EndsAt block.now at) result }
{
    at == block.len() || is_mark(block, at)
}

// The place of the least mark at the place or later.
pub(crate) fn next_mark(block: &[u8], from: usize) -> Option<usize>
    ensures { FirstMark block.now from result }
{
    (from..block.len()).find(|at| is_mark(block, *at))
}
