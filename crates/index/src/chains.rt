// The walks along a chain of an index, each proved once, whatever is asked of its rows. A row whose print is not that of the key is passed unasked.
ghost use Rattle.std.specs.Prelude.{◌≡◌, ℕ, Bool};
ghost use Rattle.octets.specs.Search.{first};
ghost use Rattle.index.specs.Work.{LeadsBy, HoldsBy};

use crate::work;

// Rows of which something is asked. A trait and no closure: `LeadsBy` is said of what passes, and of a closure only what it answered is known.
pub trait Asked {
    ghost passes: { Self → ℕ → Bool };

    fn does_pass(&self, k: usize) -> bool
        ensures { result ≡ passes self.now k };
}

// The plain search, where there is no index.
pub fn first<R: Asked>(rows: &R, n: usize) -> usize
    ensures { result ≡ first (R.passes rows.now) n }
{
    octets::first(0..n, |k| rows.does_pass(k))
}

// Lent octets with an index: the heads stand first, and behind them a link for each row. With no head there is no index.
// Which rows it has, and by which key, each method asks: to have that of the type would take a struct for each kind of key.
#[derive(Clone, Copy)]
pub struct Index<'a> {
    pub work: &'a [u8],
    pub heads: usize,
}

impl Index<'_> {
    // The lowest of the first n rows that passes, or n, where those rows are indexed and only those with the key of a mix pass. It follows links, which no range counts.
    pub(crate) fn walk<R: Asked>(self, rows: &R, mix: usize, n: usize) -> usize
        requires { LeadsBy (R.passes rows.now) self.work.now self.heads mix n }
        ensures { result ≡ first (R.passes rows.now) n }
    {
        let print = work::print(mix);
        let mut x = work::word_at(self.work, work::place(self.heads, mix));
        while x != 0 {
            let k = x % work::ROW_RANGE - 1;
            if x / work::ROW_RANGE == print && rows.does_pass(k) {
                return k;
            }
            x = work::word_at(self.work, self.heads + k);
        }
        n
    }

    // The same where every row is on the chain of its key, and not the lowest of each key alone: the last that passes is the lowest.
    pub(crate) fn walk_all<R: Asked>(self, rows: &R, mix: usize, n: usize) -> usize
        requires { HoldsBy (R.passes rows.now) self.work.now self.heads mix n }
        ensures { result ≡ first (R.passes rows.now) n }
    {
        let print = work::print(mix);
        let mut best = n;
        let mut x = work::word_at(self.work, work::place(self.heads, mix));
        while x != 0 {
            let k = x % work::ROW_RANGE - 1;
            if x / work::ROW_RANGE == print && rows.does_pass(k) {
                best = k;
            }
            x = work::word_at(self.work, self.heads + k);
        }
        best
    }
}
