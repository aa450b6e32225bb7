// The index of rows by their keys, of which only the lowest row of each key is entered: many equal rows stay cheap.
ghost use Rattle.std.specs.Prelude.{◌≡◌, ◌<◌, length};
ghost use Rattle.octets.specs.Search.{first};
ghost use Rattle.index.specs.Keys.{row_count, answers_to, kind_of, Indexes, IndexesAll, Enters};

use crate::chains::{Asked, Index};
use crate::{Key, Kind, chains, hashes, keys, work};

// Rows of any table, of which a key is asked.
#[derive(Clone, Copy)]
struct ByKey<'a> {
    rows: &'a [u8],
    names: &'a [u8],
    key: Key,
}

impl Asked for ByKey<'_> {
    ghost passes = { λ s. answers_to s.rows.now s.names.now s.key };

    fn does_pass(&self, k: usize) -> bool {
        keys::does_answer(self.rows, self.names, self.key, k)
    }
}

// The lowest of the first n rows that answers to a key, or n: the plain way, where there is no index.
pub fn first_answer(rows: &[u8], names: &[u8], key: Key, n: usize) -> usize
    ensures { result ≡ first (answers_to rows.now names.now key) n }
{
    chains::first(&ByKey { rows, names, key }, n)
}

// Enters row i, and answers the lowest row below it that answers to its key, or i. The octets and their heads are no Index yet: it lends them to be read alone.
fn enter(rows: &[u8], names: &[u8], work: &mut [u8], heads: usize, kind: Kind, i: usize) -> usize
    requires { Indexes kind rows.now names.now work.old heads i × (i < row_count kind rows.now) }
    ensures { Enters kind rows.now names.now work.new heads i result }
{
    let key = keys::key_at(rows, names, kind, i);
    if heads == 0 {
        return first_answer(rows, names, key, i);
    }
    let mix = hashes::mix(names, key);
    let asked = ByKey { rows, names, key };
    let r = Index { work, heads }.walk(&asked, mix, i);
    if keys::answers_itself(rows, names, key, i) {
        work::settle(work, heads, mix, i, r);
    }
    r
}

// Indexes all rows, and answers how many heads the index has.
pub fn index_all(rows: &[u8], names: &[u8], work: &mut [u8], kind: Kind) -> usize
    ensures { IndexesAll kind rows.now names.now (length work.old) work.new result }
{
    let n = keys::count(rows, kind);
    let heads = work::start(work, n);
    if heads == 0 {
        return heads;
    }
    for i in 0..n {
        enter(rows, names, work, heads, kind, i);
    }
    heads
}

impl Index<'_> {
    // The lowest row that answers to a key, or the count, where all rows are indexed.
    pub fn find(self, rows: &[u8], names: &[u8], key: Key) -> usize
        requires { Indexes (kind_of key) rows.now names.now self.work.now self.heads (row_count (kind_of key) rows.now) }
        ensures { result ≡ first (answers_to rows.now names.now key) (row_count (kind_of key) rows.now) }
    {
        let n = keys::count(rows, keys::kind_of(key));
        if self.heads == 0 {
            return first_answer(rows, names, key, n);
        }
        let asked = ByKey { rows, names, key };
        self.walk(&asked, hashes::mix(names, key), n)
    }
}
