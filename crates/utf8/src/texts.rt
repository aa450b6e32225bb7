// Texts in octets that have been marked: what the marks show needs no look at every octet.
ghost use Rattle.std.specs.Prelude.{◌≡◌, true, not, ◌+◌, ◌*◌, ◌<◌, ◌≤◌, leb, length, get_or};
ghost use Rattle.octets.specs.Octets.{part};
ghost use Rattle.utf8.specs.Utf8.{well_formed};
ghost use Rattle.utf8.specs.CharacterLaws.{continuation};
ghost use Rattle.utf8.specs.CoverLaws.{Stretch};
ghost use Rattle.utf8.specs.PlainLaws.{Plain};
ghost use Rattle.utf8.specs.MarkLaws.{Border, Marks, Head, Between, Clear, bit, Front, Back};
ghost use Rattle.utf8.specs.MarkedLaws.{Marks-prop, Head-prop};

use crate::MARK_COUNT;
use crate::characters::is_continuation;
use crate::marks::mark;
use crate::steps::{is_well_formed, walk};
use octets::Name;

// Whether the octet at a place is a continuation octet.
fn continues(s: &[u8], p: usize) -> bool
    requires { p < length s.now }
    ensures { result ≡ continuation (get_or s.now p 0) }
{
    is_continuation(s[p])
}

// The same of any place: past the end there is none.
#[tactic(auto, using(crate::proofs::Laws::inner_past))]
fn is_inner(s: &[u8], p: usize) -> bool
    ensures { result ≡ continuation (get_or s.now p 0) }
{
    p < s.len() && continues(s, p)
}

// Whether a part of a stretch begins and ends between characters.
#[tactic(auto, using(crate::proofs::Laws::betweens))]
fn is_between(s: &[u8], stretch_end: usize, from: usize, end: usize) -> bool
    requires { Border s.now stretch_end }
    ensures { result ≡ true → Between s.now from end }
{
    !is_inner(s, from) && (end == stretch_end || !is_inner(s, end))
}

fn has_cell(w: u32, j: u32) -> bool
    requires { j < 32 }
    ensures { result ≡ true → bit w j ≡ 1 }
{
    (w >> j) % 2 == 1
}

// The last place that is no continuation octet, at or before another.
fn lead_before(s: &[u8], at: usize) -> usize
    ensures { result ≤ at }
{
    for q in (1..=at).rev() {
        if !is_inner(s, q) {
            return q;
        }
    }
    0
}

// Whether the octets up to an end are well-formed from the last first octet before a border on.
#[tactic(auto, using(crate::specs::MarkLaws::back_by))]
fn is_back(s: &[u8], from: usize, at: usize, end: usize) -> bool
    requires { (at ≤ end) × (end ≤ length s.now) }
    ensures { result ≡ true → Back s.now from at end }
{
    let q = lead_before(s, at);
    from <= q && !is_inner(s, q) && is_well_formed(octets::part_of(s, q, end - q))
}

// Octets with marks that are true of them. The words are lent, so that they stand in memory once.
#[derive(Clone, Copy)]
pub struct Marked<'a> {
    pub octets: &'a [u8],
    pub marks: &'a [u32; MARK_COUNT],
    // Where the stretch ends that the octets begin with, or 0.
    pub head: usize,
    ghost marked: { Marks octets.now marks.now } by { Marks-prop octets.now marks.now },
    ghost begun: { Head octets.now head } by { Head-prop octets.now head },
}

impl<'a> Marked<'a> {
    // Marks some octets, in words that say nothing yet.
    pub fn of(octets: &'a [u8], marks: &'a mut [u32; MARK_COUNT]) -> Marked<'a>
        requires { Marks octets.now marks.old }
        ensures { result.octets.now ≡ octets.now }
    {
        mark(octets, marks);
        let head = head_of(octets, marks);
        Marked {
            octets,
            marks,
            head,
        }
    }

    // How many octets are ASCII before one is not.
    pub fn plain(&self) -> u32
        ensures { (result ≡ get_or self.now.marks.now 0 0) × Plain self.now.octets.now result }
    {
        self.marks[0]
    }

    // Whether a text is ASCII by its place.
    #[tactic(auto, using(crate::specs::MarkLaws::clear_plain))]
    pub fn is_plain(&self, text: Name) -> bool
        ensures value { result ≡ leb (text.start + text.len) (get_or self.now.marks.now 0 0) }
        ensures clear { result ≡ true → Clear self.now.octets.now text.start text.len }
    {
        (text.start as usize) + (text.len as usize) <= self.plain() as usize
    }

    // Whether a text that ends in the stretch that the octets begin with begins and ends between characters. One that ends with the stretch is left to its block. Without such a stretch that is one test.
    #[tactic(auto, using(crate::specs::MarkLaws::clear_head))]
    pub fn is_in_head(&self, text: Name) -> bool
        ensures { result ≡ true → Clear self.now.octets.now text.start text.len }
    {
        let head = self.head;
        if head == 0 {
            return false;
        }
        let from = text.start as usize;
        let end = from + (text.len as usize);
        if head <= end {
            return false;
        }
        !continues(self.octets, from) && !continues(self.octets, end)
    }

    // Whether the stretch of its block shows a text to be clear. A place past the last block asks another one: what that shows is true as well.
    #[tactic(auto, using(crate::specs::MarkLaws::clear_known))]
    pub fn is_known(&self, text: Name) -> bool
        ensures { result ≡ true → Clear self.now.octets.now text.start text.len }
    {
        let from = text.start as usize;
        let end = from + (text.len as usize);
        let i = from / 256 % 4096;
        let v = self.marks[2 * i + 1] as usize;
        256 * i + v % 256 <= from && end <= v / 256 && is_between(self.octets, v / 256, from, end)
    }

    // Whether a cell is marked.
    fn is_cell(&self, c: usize) -> bool
        ensures { result ≡ true → Stretch self.now.octets.now (8 * c) (8 * c + 8) }
    {
        let i = c / 32;
        i < 4096 && has_cell(self.marks[2 * i + 2], (c % 32) as u32)
    }

    // Whether all of some cells are.
    fn are_cells(&self, first: usize, last: usize) -> bool
        requires { first ≤ last }
        ensures { result ≡ true → Stretch self.now.octets.now (8 * first) (8 * last) }
    {
        !octets::any(first..last, |c| !self.is_cell(c))
    }

    // Whether every place from one on, up to the border of a cell, lies in a character: by the octets before the first cell, and by the cells.
    #[tactic(auto, using(crate::specs::MarkLaws::front_by))]
    fn is_front(&self, from: usize, last: usize) -> bool
        requires { (8 * last ≤ length self.now.octets.now) × (from ≤ length self.now.octets.now) }
        ensures { result ≡ true → Front self.now.octets.now from (8 * last) }
    {
        let first = from.div_ceil(8);
        first < last
            && !is_inner(self.octets, from)
            && 8 * first <= walk(self.octets, from, 8 * first)
            && self.are_cells(first, last)
    }

    // Whether the cells show it, with the octets before the first of them and behind the last.
    fn is_filled(&self, text: Name) -> bool
        ensures { result ≡ true → well_formed (part self.now.octets.now text.start text.len) ≡ true }
    {
        let from = text.start as usize;
        let end = from + (text.len as usize);
        let last = end / 8;
        end <= self.octets.len()
            && self.is_front(from, last)
            && is_back(self.octets, from, 8 * last, end)
    }

    // Whether a text is not well-formed, octet by octet.
    fn is_read_ill(&self, text: Name) -> bool
        ensures { result ≡ not (well_formed (part self.now.octets.now text.start text.len)) }
    {
        !is_well_formed(octets::spelled(self.octets, text))
    }

    // Whether a text is not well-formed. One shorter than a cell is read sooner than it is shown.
    pub fn is_ill(&self, text: Name) -> bool
        ensures { result ≡ not (well_formed (part self.now.octets.now text.start text.len)) }
    {
        let shown = 8 <= text.len
            && (self.is_plain(text) || self.is_known(text) || self.is_filled(text));
        !shown && self.is_read_ill(text)
    }
}

// Where the stretch ends that the octets begin with, or 0.
#[tactic(auto, using(crate::proofs::Laws::heads))]
pub fn head_of(s: &[u8], marks: &[u32; MARK_COUNT]) -> usize
    requires { Marks s.now marks.now }
    ensures { Head s.now result }
{
    let v = marks[1] as usize;
    if v % 256 == 0 { v / 256 } else { 0 }
}
