// Eight bytes at once: a long number, and small ones.
ghost use Rattle.std.specs.Prelude.{◌≡◌, ◌+◌, ◌≤◌, ◌<◌, length, take};
ghost use Rattle.words.specs.Answer.{gives};
ghost use Rattle.groups.specs.Group.{run, digits};
ghost use Rattle.groups.specs.Width.{reading};
ghost use Rattle.uleb128.specs.Unsigned.{u64};
ghost use Rattle.lists.specs.InnerWord.{little, spread, each, low, top, mark, zeros, smalls, Below, Flags};
ghost use Rattle.lists.specs.InnerWide.{Accepts, Found, Longest, Stores};

use bits::{is_high_8_bit_set, take_low_7_bits};

// The eight bytes at the front as one number, low byte first: one load.
fn word(s: &[u8]) -> u64
    requires { 8 ≤ length s.now }
    ensures { result ≡ little (take 8 s.now) }
{
    u64::from_le_bytes(*s[..8].as_array().unwrap())
}

// The high bits of the eight bytes: one `&`.
fn highs(w: u64) -> u64
    ensures { result ≡ little (each top (spread 8 w)) }
{
    w & 0x8080808080808080
}

// The same, turned over: the bytes below 128. One subtraction, in which no byte borrows from the next.
fn marks(w: u64) -> u64
    ensures { result ≡ little (each mark (spread 8 w)) }
{
    0x8080808080808080 - highs(w)
}

// The seven bits of each of the eight bytes, still in its byte: one `&`.
fn low_digits(w: u64) -> u64
    ensures { result ≡ little (each low (spread 8 w)) }
{
    w & 0x7f7f7f7f7f7f7f7f
}

// How many bytes stand before the first that isn't 0, where each is 0 or 128: 8 if none. One instruction and a shift.
fn first(h: u64) -> usize
    requires { Flags (spread 8 h) }
    ensures { result ≡ zeros (spread 8 h) }
{
    (h.trailing_zeros() / 8) as usize
}

// Eight digits put together, by pairs (256 becomes 128), by fours (65,536 becomes 16,384) and by eights (2^32 becomes 2^28), each by taking
// the difference off: three steps where one digit after another would be eight, each waiting for the one before.
fn join(w: u64) -> u64
    requires { Below 128 (spread 8 w) }
    ensures { result ≡ digits (spread 8 w) }
{
    let a = (w / 256) & 0x007f007f007f007f;
    let x = w - 128 * a;
    let b = (x / 65536) & 0x00003fff00003fff;
    let y = x - 49152 * b;
    let c = y / 4294967296;
    y - 4026531840 * c
}

// The number that the seven bits of eight bytes make: no branch for how many of them count.
fn joined(w: u64) -> u64
    ensures { result ≡ digits (spread 8 w) }
{
    join(low_digits(w))
}

// A number of nine or ten bytes, and how many: w has eight of them, b is the ninth, whose digit weighs 2^56; a tenth can only be 1, and weighs 2^63.
// Each length has a way of its own: without the branch, the next number of a block of such numbers would wait for the ninth byte.
fn longest(w: u64, b: u8) -> (u64, usize)
    ensures { Longest (spread 8 w) b result.0 result.1 }
{
    let sum = joined(w);
    if !is_high_8_bit_set(b) {
        let part = 72057594037927936 * u64::from(b);
        return (sum + part, 9);
    }
    let digit = u64::from(take_low_7_bits(u64::from(b)));
    let part = 72057594037927936 * digit;
    (sum + part + 9223372036854775808, 10)
}

// A number of one to eight bytes, and how many: m has the bits of the bytes of w that are below 128. The remainder by a power of two is a mask, so
// that numbers of all these lengths go one way, without a branch.
fn short(w: u64, m: u64) -> (u64, usize)
    requires { (m ≡ little (each mark (spread 8 w))) × (run (spread 8 w) < 8) }
    ensures { Found (spread 8 w) result.0 result.1 }
{
    let n = first(m) + 1;
    let weight: u64 = 1 << (7 * n);
    (joined(w) % weight, n)
}

// A number of two bytes, without waiting for where the first byte below 128 is.
fn two(w: u64) -> (u64, usize)
    requires { run (spread 8 w) ≡ 1 }
    ensures { Found (spread 8 w) result.0 result.1 }
{
    let lower = u64::from(take_low_7_bits(w));
    let upper = u64::from(take_low_7_bits(w / 256));
    let part = 128 * upper;
    (lower + part, 2)
}

// The number at the front, and how many bytes it takes, where the block has ten from there on. Two bytes have a test of their own: without it a block
// of such numbers takes two and a half times as long, since each waits for the count of the one before.
pub(crate) fn at_once(s: &[u8]) -> (u64, usize)
    requires { Accepts s.now }
    ensures { reading u64 s.now ≡ gives (result.0, result.1) }
{
    let w = word(s);
    if w & 0x8080 == 0x0080 {
        return two(w);
    }
    let m = marks(w);
    if m == 0 {
        return longest(w, s[8]);
    }
    short(w, m)
}

// How many of the eight bytes at the front, from there on, are below 128.
fn small_of_eight(s: &[u8]) -> usize
    requires { 8 ≤ length s.now }
    ensures { (result ≡ smalls (take 8 s.now)) × (result ≤ 8) }
{
    first(highs(word(s)))
}

// Stores sixteen bytes as numbers, and says how many of them, from the front, are below 128: what was stored behind those is overwritten later. They
// are stored before it is known whether all of the first eight are below 128, since a branch there would be guessed wrong too often; and from a copy
// of their own, which no store can change, so that LLVM stores two numbers at once.
pub(crate) fn store16(s: &[u8], numbers: &mut [u64]) -> usize
    requires { (16 ≤ length s.now) × (16 ≤ length numbers.old) }
    ensures { Stores s.now numbers.old result numbers.new }
{
    let bytes: [u8; 16] = *s[..16].as_array().unwrap();
    for k in 0..16 {
        numbers[k] = u64::from(bytes[k]);
    }
    let c = small_of_eight(s);
    let d = small_of_eight(&s[8..]);
    if c < 8 {
        return c;
    }
    8 + d
}
