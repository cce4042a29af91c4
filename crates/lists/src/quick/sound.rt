// The sound scan: each byte is marked by itself and the nine before it, and no group is found. In a mark only the bit of weight 128 says
// something. All is `&` and `|` of bytes, so that LLVM marks sixteen at once.
ghost use Rattle.std.specs.Prelude.{◌≡◌, true, ◌+◌, ◌≤◌, ◌<◌, length};
ghost use Rattle.lists.specs.InnerSound.{High9, Unmarked, UnmarkedEarly, Clean};

use bits::is_high_8_bit_set;

// Marked if the byte is above 1. A comparison and a choice of two numbers is one operation on sixteen bytes.
fn over(b: u8) -> u8
    ensures { 1 < b → 128 ≤ result }
{
    if 1 < b { 128 } else { 0 }
}

// Marked if the byte is 0: likewise.
fn zero(b: u8) -> u8
    ensures { b ≡ 0 → 128 ≤ result }
{
    if b == 0 { 128 } else { 0 }
}

// Marked if the byte is 0 behind a byte of 128 or more, or above 1 behind nine bytes all of which have the bits of `nine`, that of 128 too.
fn mark(nine: u8, before: u8, b: u8) -> u8
    ensures { (128 ≤ nine → 1 < b → 128 ≤ result) × (128 ≤ before → b ≡ 0 → 128 ≤ result) }
{
    let large = nine & over(b);
    let spare = before & zero(b);
    large | spare
}

// The bits that nine bytes share. Without a loop: LLVM makes nine loads of sixteen bytes of it, one for each place.
fn shared(s: &[u8], k: usize) -> u8
    requires { k + 9 ≤ length s.now }
    ensures { High9 s.now k → 128 ≤ result }
{
    let a = s[k] & s[k + 1] & s[k + 2];
    let b = s[k + 3] & s[k + 4] & s[k + 5];
    let c = s[k + 6] & s[k + 7] & s[k + 8];
    a & b & c
}

// The marks of all bytes behind the first nine, joined. One loop that stores nothing and leaves nowhere early: LLVM takes sixteen places in a turn.
// Over `array_windows` it takes them too, but of a short block fewer: a block of forty bytes then takes half as long again.
fn later(s: &[u8]) -> u8
    ensures { result < 128 → Unmarked s.now }
{
    let mut marks = 0;
    for k in 9..s.len() {
        marks |= mark(shared(s, k - 9), s[k - 1], s[k]);
    }
    marks
}

// The marks of the first nine bytes, which have no nine before them: none is too large. Eight turns at most, apart from the long loop.
fn early(s: &[u8]) -> u8
    ensures { result < 128 → UnmarkedEarly s.now }
{
    let mut marks = 0;
    for k in 1..s.len().min(9) {
        marks |= s[k - 1] & zero(s[k]);
    }
    marks
}

// Whether no byte is marked and there is no tail: then every group is a number. That it says so of every such block isn't promised: the plain
// pass decides where it doesn't. The last byte is asked first, so that a tail costs no scan.
pub(crate) fn clean(s: &[u8]) -> bool
    ensures { result ≡ true → Clean s.now }
{
    let Some(last) = s.last() else {
        return true;
    };
    !is_high_8_bit_set(*last) && !is_high_8_bit_set(later(s) | early(s))
}
