// How many bytes of a block are below 128: how many groups end there.
ghost use Rattle.std.specs.Prelude.{◌≡◌, ◌≤◌, length, count_by};
ghost use Rattle.lists.specs.InnerLeft.{ends};

use bits::is_high_8_bit_set;

// How many of at most 128, counted in a byte, so that LLVM counts sixteen at once.
fn few(part: &[u8]) -> u8
    requires { length part.now ≤ 128 }
    ensures { result ≡ count_by ends part.now }
{
    let mut count = 0;
    for b in part {
        if !is_high_8_bit_set(*b) {
            count += 1;
        }
    }
    count
}

// How many of any: the parts' counts, added up.
pub(crate) fn low_bytes(s: &[u8]) -> usize
    ensures { result ≡ count_by ends s.now }
{
    let mut n = 0;
    for part in s.chunks(128) {
        n += usize::from(few(part));
    }
    n
}
