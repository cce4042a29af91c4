// The second pass: the numbers of a block without a fault, stored in two streams.
ghost use Rattle.std.specs.Prelude.{◌≤◌, length};
ghost use Rattle.blocks.specs.GroupsAndTail.{Start};
ghost use Rattle.lists.specs.InnerHalves.{Smalls, RestFits, RestStored, HalvesFit, HalvesStored, AllFit, AllStored};

use crate::quick::lows::low_bytes;
use crate::quick::wide::{at_once, store16};
use bits::is_high_8_bit_set;
use uleb128::read_u64;
use words::Place;

// Takes up to sixteen small numbers from the front, if the first is one, and says how many. Apart from `at_once`: together they would be too large to
// become part of the loop twice.
fn small(s: &[u8], numbers: &mut [u64]) -> usize
    requires { (16 ≤ length s.now) × (16 ≤ length numbers.old) }
    ensures few { result ≤ 16 }
    ensures stored { Smalls s.now numbers.old result numbers.new }
{
    if is_high_8_bit_set(s[0]) {
        return 0;
    }
    store16(s, numbers)
}

// Stores the numbers that stand from a place on, one by one, until the slice is full: the last few of each half, where sixteen bytes or sixteen
// stores would be too many. Not part of its caller, whose loop LLVM lays out worse where it is.
#[inline(never)]
fn rest(s: &[u8], from: usize, numbers: &mut [u64])
    requires { RestFits s.now from (length numbers.old) }
    ensures { RestStored s.now from numbers.new }
{
    let mut at = from;
    for number in numbers {
        match read_u64(s, Place(at)) {
            Ok((v, count)) => {
                *number = v;
                at += count.0;
            }
            Err(_) => return,
        }
    }
}

// From 0 to mid, whose numbers end at half, and from mid to the end, whose numbers end at count. Where the next number of a stream begins is
// known only when the last was taken: meanwhile the processor works on the other stream. A turn takes up to 17 numbers of each, a long one
// and then up to sixteen small ones: while both streams have so many left, so many bytes, and room for so many, are left too.
fn fill_halves(s: &[u8], numbers: &mut [u64], mid: usize, half: usize, count: usize)
    requires { HalvesFit s.now mid half count (length numbers.old) }
    ensures { HalvesStored s.now mid half count numbers.old numbers.new }
{
    let most = half.saturating_sub(16);
    let most2 = count.saturating_sub(16);
    let (mut at, mut n) = (0, 0);
    let (mut at2, mut n2) = (mid, half);
    while n < most && n2 < most2 {
        let (v, taken) = at_once(&s[at..]);
        let (v2, taken2) = at_once(&s[at2..]);
        numbers[n] = v;
        numbers[n2] = v2;
        at += taken;
        at2 += taken2;
        n += 1;
        n2 += 1;
        let k = small(&s[at..], &mut numbers[n..]);
        at += k;
        n += k;
        let k2 = small(&s[at2..], &mut numbers[n2..]);
        at2 += k2;
        n2 += k2;
    }
    rest(s, at, &mut numbers[n..half]);
    rest(s, at2, &mut numbers[n2..count]);
}

// The greatest start at or before a place: in a block of numbers it is less than ten bytes away.
fn start_before(s: &[u8], place: usize) -> usize
    requires { place ≤ length s.now }
    ensures { Start s.now result }
{
    s[..place]
        .iter()
        .rposition(|b| !is_high_8_bit_set(*b))
        .map_or(0, |last| last + 1)
}

// The numbers of a block without a fault, so many of them, from the front of the slice on. The halves are equal in bytes, since their start is
// then found at once.
pub(crate) fn fill(s: &[u8], numbers: &mut [u64], count: usize)
    requires { AllFit s.now count (length numbers.old) }
    ensures { AllStored s.now numbers.old numbers.new }
{
    let mid = start_before(s, s.len() / 2);
    let half = low_bytes(&s[..mid]);
    fill_halves(s, numbers, mid, half, count);
}
