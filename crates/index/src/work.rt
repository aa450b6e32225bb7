// The words of an index in lent octets. No map: the project has no heap, so rows and links are words in fixed memory that a caller lends.
ghost use Rattle.std.specs.Prelude.{◌≡◌, ℕ, ◌+◌, ◌*◌, ◌/◌, ◌<◌, ◌≤◌, length};
ghost use Rattle.index.specs.Chains.{print_range};
ghost use Rattle.index.specs.Work.{mix_range, word_at, put_word, place_of, print_of, pushed, settled, heads_for, Ready};

// A word of the index is a row and one, which is below ROW_RANGE, and above it the print of the row's key, of 13 bits. 0 is none.
pub const ROW_RANGE: usize = 524288;

const PRINT_RANGE: usize = 8192;

// A mix is a u32.
const MIX_RANGE: usize = 4294967296;

// How many heads an index has more than rows, where there is room: the chains of a small table are short.
const SPARE_HEADS: usize = 16384;

#[tactic(auto, unfolding(crate::specs::Work::word_at))]
pub fn word_at(w: &[u8], j: usize) -> usize
    requires { 4 * j + 4 ≤ length w.now }
    ensures { result ≡ word_at w.now j }
{
    octets::word(w, 4 * j) as usize
}

#[tactic(auto, unfolding(crate::specs::Work::put_word))]
fn put_word(w: &mut [u8], j: usize, x: usize)
    requires { 4 * j + 4 ≤ length w.old }
    ensures { w.new ≡ put_word w.old j x }
{
    octets::put_word(w, 4 * j, x);
}

// The place of a mix among so many heads.
#[tactic(auto, unfolding(crate::specs::Work::place_of))]
pub fn place(heads: usize, mix: usize) -> usize
    requires { (0 < heads) × (heads < mix_range) × (mix < mix_range) }
    ensures { (result ≡ place_of heads mix) × (result < heads) }
{
    mix * heads / MIX_RANGE
}

// The print of a mix.
#[tactic(auto, unfolding(crate::specs::Work::print_of))]
pub fn print(mix: usize) -> usize
    ensures { (result ≡ print_of mix) × (result < print_range) }
{
    mix % PRINT_RANGE
}

// Puts row i, of which the mix is given, before the rows on the chain of hash h.
#[tactic(auto, unfolding(crate::specs::Work::pushed))]
fn push(w: &mut [u8], heads: usize, h: usize, mix: usize, i: usize)
    requires { (h < heads) × (4 * (heads + i) + 4 ≤ length w.old) }
    ensures { w.new ≡ pushed w.old heads h mix i }
{
    let head = word_at(w, h);
    put_word(w, heads + i, head);
    put_word(w, h, i + 1 + ROW_RANGE * print(mix));
}

// Puts row i, of which the mix is given, on its chain, unless the walk for its key has found a row r before it.
#[tactic(auto, unfolding(crate::specs::Work::settled))]
pub fn settle(w: &mut [u8], heads: usize, mix: usize, i: usize, r: usize)
    requires { (0 < heads) × (heads < mix_range) × (mix < mix_range) × (4 * (heads + i) + 4 ≤ length w.old) }
    ensures { w.new ≡ settled w.old heads (place_of heads mix) mix i r }
{
    if r < i {
        return;
    }
    push(w, heads, place(heads, mix), mix, i);
}

// Makes the heads 0: there is no row yet.
fn clear(w: &mut [u8], heads: usize)
    requires { 4 * heads ≤ length w.old }
    ensures { (h : ℕ) → h < heads → word_at w.new h ≡ 0 }
{
    w[..4 * heads].fill(0);
}

#[tactic(auto, using(std::proofs::lemmas::Bool::Decides::nat_tests), unfolding(crate::specs::Work::heads_for))]
fn heads_for(words: usize, rows: usize) -> usize
    ensures { result ≡ heads_for words rows }
{
    if rows < ROW_RANGE - 1 && rows < words {
        (words - rows).min(rows + SPARE_HEADS)
    } else {
        0
    }
}

// Makes the octets ready for an index of that many rows, and answers how many heads it has: none where there is no room.
pub fn start(w: &mut [u8], rows: usize) -> usize
    ensures { (result ≡ heads_for (length w.old / 4) rows) × Ready w.new result rows }
{
    let heads = heads_for(w.len() / 4, rows);
    if heads == 0 {
        return 0;
    }
    clear(w, heads);
    heads
}
