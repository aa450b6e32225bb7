// Numbers and texts in octets.
#![tactic(auto)]

ghost use Rattle.std.specs.Prelude.{◌≡◌, ℕ, map, ◌+◌, ◌≤◌, ◌<◌, length};
ghost use Rattle.std.proofs.lemmas.List.Edits.{sets};
ghost use Rattle.std.proofs.Math.IntN.{suc_ℤ};
ghost use Rattle.std.specs.Int.Signed.{lt_z};
ghost use Rattle.octets.specs.Octets.{le32, le64, part, word};
ghost use Rattle.octets.specs.Slices.{nth};
ghost use Rattle.octets.specs.Numbers.{signed, eq_z, biased};
ghost use Rattle.octets.specs.Texts.{same, text_of, text_at, outside, name_at, spell};
ghost use Rattle.octets.specs.TextLaws.{Alike};
ghost use Rattle.octets.specs.Search.{Sought, SoughtAny};

use std::ops::Range;

// A text that is never NULL: where it starts in the names, and how long it is.
#[derive(Clone, Copy, Default)]
pub struct Name {
    pub start: u32,
    pub len: u32,
}

// A text that may be NULL: it is octets, or it is NULL.
pub type Text = Option<Name>;

// ---- numbers in octets

// The u32 at a place that is there.
pub fn word(s: &[u8], at: usize) -> u32
    requires { at + 4 ≤ length s.now }
    ensures { result ≡ le32 s.now at }
{
    u32::from_le_bytes([s[at], s[at + 1], s[at + 2], s[at + 3]])
}

// The u64 at a place that is there: two words, of which a compiler makes one load; `from_le_bytes` of eight octets named one by one is no plainer.
pub fn long(s: &[u8], at: usize) -> u64
    requires { at + 8 ≤ length s.now }
    ensures { result ≡ le64 s.now at }
{
    u64::from(word(s, at)) + 4294967296 * u64::from(word(s, at + 4))
}

// A number's lowest four octets put at a place that is there, the lowest first. By divisions: a cast to u32 wants a number that fits, and this is given any.
pub fn put_word(w: &mut [u8], at: usize, x: usize)
    requires { at + 4 ≤ length w.old }
    ensures { w.new ≡ sets w.old at (word x) }
{
    w[at] = (x % 256) as u8;
    w[at + 1] = (x / 256 % 256) as u8;
    w[at + 2] = (x / 65536 % 256) as u8;
    w[at + 3] = (x / 16777216 % 256) as u8;
}

// Octets put at a place that is there, one after the other: by `copy_from_slice` the library would need memmove of whoever links it.
pub fn put_octets(out: &mut [u8], at: usize, octets: &[u8])
    requires { at + length octets.now ≤ length out.old }
    ensures { out.new ≡ sets out.old at octets.now }
{
    for i in 0..octets.len() {
        out[at + i] = octets[i];
    }
}

// The u32 at any place, 0 past the end.
pub fn u32_at(s: &[u8], at: usize) -> u32
    ensures { result ≡ le32 s.now at }
{
    if s.len() < 4 {
        return 0;
    }
    if s.len() - 4 < at {
        return 0;
    }
    word(s, at)
}

// The len octets from start; none where they run past the end.
pub fn part_of(s: &[u8], start: usize, len: usize) -> &[u8]
    ensures { result.now ≡ part s.now start len }
{
    if s.len() < start {
        return &s[..0];
    }
    if s.len() - start < len {
        return &s[..0];
    }
    &s[start..start + len]
}

// The octets in a place of some slices.
pub fn slice_of<'a>(slices: &[&'a [u8]], k: usize) -> &'a [u8]
    requires { k < length slices.now }
    ensures { result.now ≡ nth (map (λ x. x.now) slices.now) k }
{
    slices[k]
}

// ---- texts

// From so many octets on the library's `==` is the quicker way to compare; below, it takes up to twice as long as words of eight octets.
const LONG: usize = 32;

// Whether two runs of octets are the same, by the library. No part of `equal`, which is to be small enough to stand in a search's loop.
#[inline(never)]
fn long_equal(a: &[u8], b: &[u8]) -> bool
    ensures { result ≡ same a.now b.now }
{
    a == b
}

// Whether two runs of octets, the same before start, are the same.
fn equal_from(a: &[u8], b: &[u8], start: usize) -> bool
    requires { Alike a.now b.now start }
    ensures { result ≡ same a.now b.now }
{
    for i in start..a.len() {
        if a[i] != b[i] {
            return false;
        }
    }
    true
}

// Whether two runs of octets are the same. Most names are short: of such, eight octets are one test.
pub fn equal(a: &[u8], b: &[u8]) -> bool
    ensures { result ≡ same a.now b.now }
{
    if a.len() != b.len() {
        return false;
    }
    if LONG <= a.len() {
        return long_equal(a, b);
    }
    let mut i = 0;
    while i + 8 <= a.len() {
        if long(a, i) != long(b, i) {
            return false;
        }
        i += 8;
    }
    equal_from(a, b, i)
}

// What stands in the place of the start of a NULL text.
const NULL_START: u32 = 4294967295;

// The one place where a text is made of its two numbers.
pub fn text_of(start: u32, len: u32) -> Text
    ensures { result ≡ text_of start len }
{
    if start == NULL_START {
        if len == 0 {
            return None;
        }
    }
    Some(Name { start, len })
}

// The text whose two numbers stand at a place.
pub fn text_at(s: &[u8], at: usize) -> Text
    requires { at + 8 ≤ length s.now }
    ensures { result ≡ text_at s.now at }
{
    text_of(word(s, at), word(s, at + 4))
}

// Whether a text ends past the names, or is NULL where that is not allowed.
pub fn is_outside(names: usize, nullable: bool, t: Text) -> bool
    ensures { result ≡ outside names nullable t }
{
    let Some(name) = t else {
        return !nullable;
    };
    names < (name.start as usize) + (name.len as usize)
}

// The name whose two numbers stand at a place.
pub fn name_at(s: &[u8], at: usize) -> Name
    requires { at + 8 ≤ length s.now }
    ensures { result ≡ name_at s.now at }
{
    Name {
        start: word(s, at),
        len: word(s, at + 4),
    }
}

// The octets of a name.
pub fn spelled(names: &[u8], n: Name) -> &[u8]
    ensures { result.now ≡ spell names.now n }
{
    part_of(names, n.start as usize, n.len as usize)
}

// Whether two names have the same octets. One place has one text, told by its two numbers: what a derived `==` says of them would be taken apart again.
pub fn same_name(names: &[u8], a: Name, b: Name) -> bool
    ensures { result ≡ same (spell names.now a) (spell names.now b) }
{
    if a.start == b.start {
        if a.len == b.len {
            return true;
        }
    }
    equal(spelled(names, a), spelled(names, b))
}

// Whether a name is the given octets.
pub fn is_name(names: &[u8], n: Name, octets: &[u8]) -> bool
    ensures { result ≡ same (spell names.now n) octets.now }
{
    equal(spelled(names, n), octets)
}

// ---- searches

// The lowest number of a range of which a test says yes, or the range's end: a number and no None, since that is what `first` of specs/Search answers, of which the theorems speak.
pub fn first<F: Fn(usize) -> bool>(range: Range<usize>, test: F) -> usize
    requires { (k : ℕ) → range.start ≤ k → k < range.end → F.pre test k }
    ensures { Sought (F.post test) range.start range.end result }
{
    for k in range.start..range.end {
        if test(k) {
            return k;
        }
    }
    range.end
}

// Whether a test says yes of some number of a range.
pub fn any<F: Fn(usize) -> bool>(range: Range<usize>, test: F) -> bool
    requires { (k : ℕ) → range.start ≤ k → k < range.end → F.pre test k }
    ensures { SoughtAny (F.post test) range.start range.end result }
{
    let end = range.end;
    first(range, test) < end
}

// ---- numbers with a sign, by their patterns

// The i64 of pattern a is below that of pattern b.
pub fn is_less(a: u64, b: u64) -> bool
    ensures { result ≡ lt_z (signed a) (signed b) }
{
    a.cast_signed() < b.cast_signed()
}

// The i64s of two patterns are equal: named, since callers cite `eq_z` of the signed numbers and no pattern.
pub fn is_equal(a: u64, b: u64) -> bool
    ensures { result ≡ eq_z (signed a) (signed b) }
{
    a == b
}

// The i64 of pattern b is one more than that of pattern a.
pub fn is_next(a: u64, b: u64) -> bool
    ensures { result ≡ eq_z (suc_ℤ (signed a)) (signed b) }
{
    a.cast_signed().checked_add(1) == Some(b.cast_signed())
}
