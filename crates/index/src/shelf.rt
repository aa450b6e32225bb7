// Every matrix row on a chain with those of its key: a rule that wants the lowest of them that fails meets them all, and no other.
ghost use Rattle.std.specs.Prelude.{◌≡◌};
ghost use Rattle.octets.specs.Search.{first};
ghost use Rattle.index.specs.declared.Kind.TheVariants.{MatrixName};
ghost use Rattle.index.specs.Keys.{row_count, kind_of, passing, Shelves, KeyConfines};

use crate::chains::{Asked, Index};
use crate::{Key, Kind, hashes, keys, work};
use listing::MatrixTable;
use seek::MatrixTest;

// Puts every row on the chain of its key, and answers how many heads there are.
pub fn shelve(matrices: &[u8], names: &[u8], work: &mut [u8], kind: Kind) -> usize
    ensures { Shelves kind matrices.now names.now work.new result (row_count MatrixName matrices.now) }
{
    let n = matrices.len() / (MatrixTable::ROW as usize);
    let heads = work::start(work, n);
    if heads == 0 {
        return heads;
    }
    for i in 0..n {
        let mix = hashes::mix(names, keys::key_at(matrices, names, kind, i));
        work::settle(work, heads, mix, i, i);
    }
    heads
}

// Matrix rows, of which a test is asked.
#[derive(Clone, Copy)]
struct Passing<'a> {
    matrices: &'a [u8],
    names: &'a [u8],
    test: MatrixTest,
}

impl Asked for Passing<'_> {
    ghost passes = { λ s. passing s.matrices.now s.names.now s.test };

    fn does_pass(&self, k: usize) -> bool {
        seek::matrix_passes(self.names, self.test, pack::matrix_at(self.matrices, k))
    }
}

impl Index<'_> {
    // The lowest row that passes, or the count: only rows with the key do.
    pub fn lowest(self, matrices: &[u8], names: &[u8], key: Key, test: MatrixTest) -> usize
        requires shelves { Shelves (kind_of key) matrices.now names.now self.work.now self.heads (row_count MatrixName matrices.now) }
        requires key_confines { KeyConfines matrices.now names.now key test }
        ensures { result ≡ first (passing matrices.now names.now test) (row_count MatrixName matrices.now) }
    {
        let n = matrices.len() / (MatrixTable::ROW as usize);
        if self.heads == 0 {
            return seek::first_matrix(matrices, names, test, n);
        }
        let rows = Passing {
            matrices,
            names,
            test,
        };
        self.walk_all(&rows, hashes::mix(names, key), n)
    }
}
