// Marks of the stretches of some octets in which every place lies in a character, made once for all texts.
ghost use Rattle.std.specs.Prelude.{◌+◌, ◌<◌, ◌≤◌};
ghost use Rattle.utf8.specs.CoverLaws.{Stretch};
ghost use Rattle.utf8.specs.MarkLaws.{Border, Marks, Picked, Added, Filled};

use crate::MARK_COUNT;
use crate::steps::{plain_end, walk};

// How many octets an entry speaks of, from its block on. Marks are words of two numbers in fixed memory: the project has no heap.
fn span(v: usize, base: usize) -> usize
    requires { base < 2097152 }
{
    (v / 256).saturating_sub(base + v % 256)
}

// The entry of block i, or that of another stretch where that is longer.
fn pick(old: u32, i: usize, from: usize, z: usize) -> u32
    requires { i < 4096 }
    ensures { Picked from z i old result }
{
    if 16777215 < z {
        return old;
    }
    let base = 256 * i;
    let off = from.saturating_sub(base);
    if 255 < off {
        return old;
    }
    let new = 256 * z + off;
    if span(new, base) <= span(old as usize, base) {
        return old;
    }
    new as u32
}

// A cell more.
fn with_cell(w: u32, j: u32) -> u32
    requires { j < 32 }
    ensures { Added w j result }
{
    w | 1 << j
}

// The cells of block i, and those of a stretch.
fn fill(old: u32, i: usize, from: usize, z: usize) -> u32
    requires { i < 4096 }
    ensures { Filled from z i old result }
{
    let base = 256 * i;
    let off = from.saturating_sub(base);
    let mut w = old;
    for j in off.div_ceil(8)..32 {
        if z < base + 8 * j + 8 {
            return w;
        }
        w = with_cell(w, j as u32);
    }
    w
}

// Keeps a stretch that has room for a cell: a text in a shorter one is soon read.
fn keep(s: &[u8], marks: &mut [u32; MARK_COUNT], from: usize, z: usize)
    requires { Marks s.now marks.old × Stretch s.now from z × Border s.now z }
    ensures { Marks s.now marks.new }
{
    if z.saturating_sub(from) < 8 {
        return;
    }
    for i in from / 256..z.div_ceil(256).min(4096) {
        marks[2 * i + 1] = pick(marks[2 * i + 1], i, from, z);
        marks[2 * i + 2] = fill(marks[2 * i + 2], i, from, z);
    }
}

// Keeps the stretches of some octets. No range counts them: each begins behind the last.
fn keep_all(s: &[u8], marks: &mut [u32; MARK_COUNT])
    requires { Marks s.now marks.old }
    ensures { Marks s.now marks.new }
{
    let mut p = 0;
    while p < s.len() {
        let z = walk(s, p, s.len());
        keep(s, marks, p, z);
        p = z + 1;
    }
}

// Marks some octets. Where all are ASCII, that is all there is to know.
pub fn mark(s: &[u8], marks: &mut [u32; MARK_COUNT])
    requires { Marks s.now marks.old }
    ensures { Marks s.now marks.new }
{
    let plain = plain_end(s);
    marks[0] = plain as u32;
    if plain < s.len() {
        keep_all(s, marks);
    }
}
