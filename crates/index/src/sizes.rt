// The lowest row that breaks 531 with a row: what `lowest` does for a test that is known, since 531 meets every two matrices of a name.
ghost use Rattle.std.specs.Prelude.{◌≡◌};
ghost use Rattle.octets.specs.Search.{first};
ghost use Rattle.index.specs.declared.Kind.TheVariants.{MatrixName};
ghost use Rattle.index.specs.Keys.{row_count, breaking531, Shelves};

use crate::chains::{Asked, Index};
use crate::{chains, hashes};
use listing::MatrixTable;
use pack::MatrixRow;

// Matrix rows, of which it is asked whether they break 531 with a row.
#[derive(Clone, Copy)]
struct Breaking531<'a> {
    matrices: &'a [u8],
    names: &'a [u8],
    q: MatrixRow,
}

impl Asked for Breaking531<'_> {
    ghost passes = { λ s. breaking531 s.matrices.now s.names.now s.q };

    // Both searches have it in their loops, as a call for every two matrices of a name takes a report twice the time.
    #[inline(always)]
    fn does_pass(&self, k: usize) -> bool {
        seek::breaks_531(self.names, self.q, pack::matrix_at(self.matrices, k))
    }
}

impl Index<'_> {
    // Where the middle row has the name, most rows may: then they are met one after the other, which is quicker than along a chain.
    pub fn lowest_531(self, matrices: &[u8], names: &[u8], q: MatrixRow) -> usize
        requires { Shelves MatrixName matrices.now names.now self.work.now self.heads (row_count MatrixName matrices.now) }
        ensures { result ≡ first (breaking531 matrices.now names.now q) (row_count MatrixName matrices.now) }
    {
        let n = matrices.len() / (MatrixTable::ROW as usize);
        let rows = Breaking531 { matrices, names, q };
        if self.heads == 0 || pack::matrix_at(matrices, n / 2).name.start == q.name.start {
            return chains::first(&rows, n);
        }
        let mix = hashes::mix_of(names, q.name, 0, 0, 0);
        self.walk_all(&rows, mix, n)
    }
}
