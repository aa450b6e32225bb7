// The entries of the first column: whether each spells a text in the names that is well-formed.
ghost use Rattle.std.specs.Prelude.{◌≡◌, ℕ, ◌+◌, ◌*◌, ◌<◌, ◌≤◌, length};
ghost use Rattle.octets.specs.Counts.{Counted};
ghost use Rattle.octets.specs.Search.{first};
ghost use Rattle.octets.specs.SkipLaws.{Skipped};
ghost use Rattle.listing.specs.Refusals.{checked};
ghost use Rattle.listing.specs.FaultLaws.{asked};
ghost use Rattle.columns.specs.Refusals.{faulty_entry, entry_reasons};
ghost use Rattle.columns.specs.Entries.{is_past, is_other, Within, Cleared, Blocks};

use listing::{Cursor, Refusal, Shape, TextFault, TextOrder, TileTable, Why};
use utf8::{MARK_COUNT, Marked};

// How many entries are passed at a time.
const BLOCK: usize = 64;

// How many are looked at one by one before a block is tried again.
const STRETCH: usize = 128;

// An entry is a row with one text, to the reader of rows.
const ENTRY: Shape = Shape {
    row: 8,
    most: TileTable::MOST,
    base: 0,
    texts: 1,
    null_from: 0,
    null_end: 0,
};

// A place past which no text of some entries ends: where the latest starts, and how long the longest is. A compiler makes few steps of it.
fn reach(firsts: &[u8], start: usize, end: usize) -> u64
    requires { (start ≤ end) × (8 * end ≤ length firsts.now) }
    ensures { Within firsts.now start end result }
{
    let mut latest: u32 = 0;
    let mut longest: u32 = 0;
    for i in start..end {
        latest = latest.max(octets::word(firsts, 8 * i + 4));
        longest = longest.max(octets::word(firsts, 8 * i));
    }
    u64::from(latest) + u64::from(longest)
}

// A place from start on, at most n, before which a test says of no block that something stands in it: it is asked where each begins.
fn skip_blocks<F: Fn(usize) -> bool>(start: usize, n: usize, test: F) -> usize
    requires low { start ≤ n }
    requires asked { (i : ℕ) → start ≤ i → i + 64 ≤ n → F.pre test i }
    ensures { Blocks (F.post test) start n result }
{
    let blocks = (n - start) / BLOCK;
    start + BLOCK * octets::first(0..blocks, |k| test(start + BLOCK * k))
}

// A place from start on, at most n, before which every entry spells a text of ASCII octets.
fn skip_plain(firsts: &[u8], plain: u64, start: usize, n: usize) -> usize
    requires { (start ≤ n) × (8 * n ≤ length firsts.now) }
    ensures { Skipped (is_past firsts.now plain) start n result }
{
    skip_blocks(start, n, |i| plain < reach(firsts, i, i + BLOCK))
}

// How many entries are another number: a sum without a branch, of which a compiler makes few steps.
fn count_others(firsts: &[u8], v: u64, start: usize, end: usize) -> u64
    requires { (start ≤ end) × (8 * end ≤ length firsts.now) }
    ensures { Counted (is_other firsts.now v) start end result }
{
    let mut count = 0;
    for i in start..end {
        count += u64::from(octets::long(firsts, 8 * i) != v);
    }
    count
}

// A place from start on, at most n, before which every entry is one number.
fn skip_alike(firsts: &[u8], v: u64, start: usize, n: usize) -> usize
    requires { (start ≤ n) × (8 * n ≤ length firsts.now) }
    ensures { Skipped (is_other firsts.now v) start n result }
{
    skip_blocks(start, n, |i| count_others(firsts, v, i, i + BLOCK) != 0)
}

// A place from start on, at most n, before which no entry is at fault: past texts of ASCII octets, past some that are clear, and past repetitions of the last of these, as sorted tiles have them.
fn skip_clear(firsts: &[u8], names: &Marked, start: usize, n: usize) -> usize
    requires { (length names.now.octets.now ≤ 1048576) × (start ≤ n) × (8 * n ≤ length firsts.now) }
    ensures { Cleared names.now.octets.now firsts.now start n result }
{
    let i = skip_plain(firsts, u64::from(names.plain()), start, n);
    let from = Cursor {
        row: i,
        end: n.min(i + STRETCH),
    };
    let j = listing::skip_clear(
        TextOrder::LengthFirst,
        ENTRY.row as usize,
        ENTRY.base as usize,
        ENTRY.texts as usize,
        firsts,
        names,
        from,
    )
    .row;
    if j <= i {
        return j;
    }
    skip_alike(firsts, octets::long(firsts, 8 * (j - 1)), j, n)
}

fn is_faulty(fault: TextFault, names: &Marked, firsts: &[u8], i: usize) -> bool
    requires { (length names.now.octets.now ≤ 1048576) × (8 * i + 8 ≤ length firsts.now) }
    ensures { result ≡ faulty_entry (asked fault names.now.octets.now) firsts.now i }
{
    let start = octets::word(firsts, 8 * i + 4);
    let len = octets::word(firsts, 8 * i);
    listing::is_faulty(fault, names, false, octets::text_of(start, len))
}

// The lowest of the first n entries that is at fault, or n. No range counts them: each is looked at behind those that are passed.
fn first_faulty(fault: TextFault, firsts: &[u8], names: &Marked, n: usize) -> usize
    requires { (8 * n ≤ length firsts.now) × (length names.now.octets.now ≤ 1048576) }
    ensures { result ≡ first (faulty_entry (asked fault names.now.octets.now) firsts.now) n }
{
    let mut i = skip_clear(firsts, names, 0, n);
    while i < n {
        if is_faulty(fault, names, firsts, i) {
            return i;
        }
        i = skip_clear(firsts, names, i + 1, n);
    }
    n
}

// 7 and 13 of the entries. Each is looked at once for both; where one is at fault, a search for 7 alone says which it is.
pub fn check_entries(firsts: &[u8], names: &[u8], n: usize) -> Result<(), Refusal>
    requires { (8 * n ≤ length firsts.now) × (length names.now ≤ 1048576) × (n ≤ 262144) }
    ensures { result ≡ checked (entry_reasons names.now firsts.now n) }
{
    let mut marks = [0; MARK_COUNT];
    let marked = Marked::of(names, &mut marks);
    let either = first_faulty(TextFault::Either, firsts, &marked, n);
    if n <= either {
        return Ok(());
    }
    let outside = first_faulty(TextFault::Outside, firsts, &marked, n);
    if outside < n {
        Err(Refusal::new(Why::Outside, 5, outside as u32))
    } else {
        Err(Refusal::new(Why::IllFormed, 5, either as u32))
    }
}
