// Steps through octets: a character, or some ASCII octets at once.
ghost use Rattle.std.specs.Prelude.{◌≡◌, true, ◌+◌, ◌*◌, ◌<◌, ◌≤◌, length, drop};
ghost use Rattle.utf8.specs.Utf8.{size, well_formed};
ghost use Rattle.utf8.specs.StepLaws.{Step, Ascii, Low, Walking};
ghost use Rattle.utf8.specs.PlainLaws.{Plain, AtMost};

use crate::characters::size_at;

// Whether the highest bit of each of a number's eight octets is 0.
fn is_low(w: u64) -> bool
    ensures { result ≡ true → Low w }
{
    w & 0x8080808080808080 == 0
}

// Whether eight octets are ASCII.
fn is_ascii(s: &[u8], p: usize) -> bool
    requires { p + 8 ≤ length s.now }
    ensures { result ≡ true → Ascii s.now p 8 }
{
    is_low(octets::long(s, p))
}

// Eight ASCII octets at a place, or one, or none.
#[tactic(auto, using(crate::proofs::Laws::plain_steps))]
fn plain_step(s: &[u8], p: usize) -> usize
    requires { p < length s.now }
    ensures { Ascii s.now p result × (p + result ≤ length s.now) × (result ≤ 8) }
{
    if !s[p].is_ascii() {
        return 0;
    }
    if 8 <= s.len() - p && is_ascii(s, p) {
        return 8;
    }
    1
}

// Some ASCII octets, or the octets of the character at a place, or 0.
fn step(s: &[u8], p: usize) -> usize
    requires { p < length s.now }
    ensures { Step s.now p result }
{
    let k = plain_step(s, p);
    if 0 < k { k } else { size_at(s, p) }
}

// The place that whole characters lead to: the first at or past another, or one at which none stands. No range counts its steps: each has its own length.
pub fn walk(s: &[u8], from: usize, to: usize) -> usize
    requires { (from ≤ length s.now) × (to ≤ length s.now) }
    ensures { Walking s.now from result × (result < to → size (drop result s.now) ≡ 0) }
{
    let mut p = from;
    while p < to {
        let k = step(s, p);
        if k == 0 {
            return p;
        }
        p += k;
    }
    p
}

// Whether a text is well-formed.
pub fn is_well_formed(s: &[u8]) -> bool
    ensures { result ≡ well_formed s.now }
{
    walk(s, 0, s.len()) == s.len()
}

// The highest of some octets. A compiler makes few steps of it.
fn highest(s: &[u8]) -> u8
    ensures { AtMost s.now 0 (length s.now) result }
{
    let mut high = 0;
    for x in s {
        high = high.max(*x);
    }
    high
}

// Whether 64 octets are ASCII, those of a block.
fn is_plain_block(s: &[u8], k: usize) -> bool
    requires { 64 * k + 64 ≤ length s.now }
    ensures { result ≡ true → AtMost s.now (64 * k) (64 * k + 64) 127 }
{
    highest(&s[64 * k..64 * k + 64]).is_ascii()
}

// How many octets are ASCII before one is not, as far as blocks go; those past the most that table 7 may have are not counted.
fn plain_blocks(s: &[u8]) -> usize
    ensures { Plain s.now result }
{
    let blocks = (s.len() / 64).min(16385);
    64 * octets::first(0..blocks, |k| !is_plain_block(s, k))
}

// And then by steps, each with its own length, which no range counts.
pub fn plain_end(s: &[u8]) -> usize
    ensures { Plain s.now result }
{
    let mut n = plain_blocks(s);
    while n < s.len() {
        if 1048576 < n {
            return n;
        }
        let k = plain_step(s, n);
        if k == 0 {
            return n;
        }
        n += k;
    }
    n
}
