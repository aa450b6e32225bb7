// The mix of a key, from which its place among the heads of an index and its print are taken. Each half of a number has a multiplier of its own.
ghost use Rattle.std.specs.Prelude.{◌≡◌, ◌+◌, ◌*◌, ◌<◌, ◌≤◌, get_or, length};
ghost use Rattle.octets.specs.Numbers.{signed};
ghost use Rattle.octets.specs.Texts.{spell};
ghost use Rattle.index.specs.Hashes.{half_range, lower, upper, joined, sum_of, stirred, words_onto, word_count, words_mix, name_mix, in_block, key_mix};
ghost use Rattle.index.specs.Work.{mix_range};
ghost use Rattle.index.specs.Keys.{meaning};

use crate::Key;
use octets::Name;

// Half a pattern is below this.
const HALF_RANGE: u64 = 4294967296;

// How many columns, rows and levels a block has.
const SIDE: u64 = 16;

// The octet at any place, 0 past the end.
fn octet_at(s: &[u8], at: usize) -> u64
    ensures { (result ≡ get_or s.now at 0) × (result < 256) }
{
    if at < s.len() {
        return s[at] as u64;
    }
    0
}

// The lower half of a pattern, and the upper one.
fn low(x: u64) -> u64
    ensures { (result ≡ lower x) × (result < half_range) }
{
    x % HALF_RANGE
}

fn high(x: u64) -> u64
    ensures { (result ≡ upper x) × (result < half_range) }
{
    x / HALF_RANGE
}

// A pattern put to what is mixed already.
#[tactic(auto, unfolding(crate::specs::Hashes::joined))]
fn join(h: u64, x: u64) -> u64
    ensures { result ≡ joined h x }
{
    let both = h ^ x;
    low(both) * 1266295873 + high(both) * 1126869067
}

#[tactic(auto, unfolding(crate::specs::Hashes::sum_of))]
fn sum(zoom: u64, column: u64, row: u64) -> u64
    ensures { result ≡ sum_of zoom column row }
{
    low(zoom) * 688268543
        + high(zoom) * 675917051
        + low(column) * 726027349
        + high(column) * 598323107
        + low(row) * 659491247
        + high(row) * 619448981
}

#[tactic(auto, unfolding(crate::specs::Hashes::stirred))]
fn stir(x: u64) -> u64
    ensures { (result ≡ stirred x) × (result < mix_range) }
{
    low(x) * (x / 8589934592 + 2147483648) / 65536 % HALF_RANGE
}

// The words of eight octets from a place, put to h one after the other.
#[tactic(auto, unfolding(crate::specs::Hashes::words_onto))]
fn words_onto(s: &[u8], h: u64, at: usize, count: usize) -> u64
    requires { at + 8 * count ≤ length s.now }
    ensures { result ≡ words_onto s.now h at count }
{
    let mut mixed = h;
    for k in 0..count {
        mixed = join(mixed, octets::long(s, at + 8 * k));
    }
    mixed
}

// How many words are mixed of a name of n octets. They are bounded: a listing may have a name of a million octets in every row.
#[tactic(auto, unfolding(crate::specs::Hashes::word_count))]
fn word_count(n: usize) -> usize
    ensures { (result ≡ word_count n) × (8 * result ≤ n + 7) }
{
    if n < 128 {
        return (n + 7) / 8;
    }
    16
}

#[tactic(auto, unfolding(crate::specs::Hashes::words_mix))]
fn words_mix(s: &[u8], words: usize) -> u64
    requires { (8 ≤ length s.now) × (8 * words ≤ length s.now + 7) }
    ensures { result ≡ words_mix s.now words }
{
    let front = words / 2;
    let back = words - front;
    let first = words_onto(s, s.len() as u64, 0, front);
    words_onto(s, first, s.len() - 8 * back, back)
}

#[tactic(auto, unfolding(crate::specs::Hashes::name_mix))]
fn name_mix(s: &[u8]) -> u64
    ensures { result ≡ name_mix s.now }
{
    let n = s.len();
    if 8 <= n {
        return words_mix(s, word_count(n));
    }
    if 4 <= n {
        return join(
            n as u64,
            octets::word(s, 0) as u64 + HALF_RANGE * (octets::word(s, n - 4) as u64),
        );
    }
    join(
        n as u64,
        octet_at(s, 0) + 256 * octet_at(s, 1) + 65536 * octet_at(s, 2),
    )
}

// Where an address stands in its block.
#[tactic(auto, unfolding(crate::specs::Hashes::in_block))]
fn in_block(zoom: u64, column: u64, row: u64) -> u64
    ensures { (result ≡ in_block zoom column row) × (result < mix_range) }
{
    ((zoom % SIDE * SIDE + row % SIDE) * SIDE + column % SIDE) * 65537
}

// The mix of a name, lent as its octets, and three numbers, given by their patterns. Not as one value: that goes through memory,
// and a report runs 2 to 3 hundredths more instructions.
#[tactic(auto, unfolding(crate::specs::Hashes::mixed, crate::specs::Hashes::key_mix))]
pub fn mix_by(named: &[u8], zoom: u64, column: u64, row: u64) -> usize
    ensures { (result ≡ key_mix (named.now, signed zoom, signed column, signed row)) × (result < mix_range) }
{
    let block = stir(name_mix(named) ^ sum(zoom / SIDE, column / SIDE, row / SIDE));
    ((block + in_block(zoom, column, row)) % HALF_RANGE) as usize
}

// The mix of a name among names, and three numbers.
pub fn mix_of(names: &[u8], name: Name, zoom: u64, column: u64, row: u64) -> usize
    ensures { (result ≡ key_mix (spell names.now name, signed zoom, signed column, signed row)) × (result < mix_range) }
{
    mix_by(octets::spelled(names, name), zoom, column, row)
}

// The mix of a key.
pub fn mix(names: &[u8], key: Key) -> usize
    ensures { (result ≡ key_mix (meaning names.now key)) × (result < mix_range) }
{
    match key {
        Key::Level { name, zoom } => mix_of(names, name, zoom, 0, 0),
        Key::MatrixName(x) | Key::TilesName(x) | Key::ContentName(x) | Key::SetName(x) => {
            mix_of(names, x, 0, 0, 0)
        }
    }
}
