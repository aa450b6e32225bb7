// Matrix rows found by their levels: what `find` does for a kind of key that is known, since a report does it for every tile.
ghost use Rattle.std.specs.Prelude.{◌≡◌};
ghost use Rattle.octets.specs.Search.{first};
ghost use Rattle.index.specs.declared.Kind.TheVariants.{Level};
ghost use Rattle.index.specs.Keys.{row_count, leveled, Indexes};

use crate::chains::{Asked, Index};
use crate::{chains, hashes};
use listing::MatrixTable;
use octets::Name;

// Matrix rows, of which a level is asked.
#[derive(Clone, Copy)]
struct AtLevel<'a> {
    matrices: &'a [u8],
    names: &'a [u8],
    name: Name,
    zoom: u64,
}

impl Asked for AtLevel<'_> {
    ghost passes = { λ s. leveled s.matrices.now s.names.now s.name s.zoom };

    fn does_pass(&self, k: usize) -> bool {
        let q = pack::matrix_at(self.matrices, k);
        seek::at_level(self.names, self.name, self.zoom, q)
    }
}

impl Index<'_> {
    // The lowest row with the level, or the count, where all rows are indexed.
    pub fn find_level(self, matrices: &[u8], names: &[u8], name: Name, zoom: u64) -> usize
        requires { Indexes Level matrices.now names.now self.work.now self.heads (row_count Level matrices.now) }
        ensures { result ≡ first (leveled matrices.now names.now name zoom) (row_count Level matrices.now) }
    {
        let n = matrices.len() / (MatrixTable::ROW as usize);
        let rows = AtLevel {
            matrices,
            names,
            name,
            zoom,
        };
        if self.heads == 0 {
            return chains::first(&rows, n);
        }
        let mix = hashes::mix_of(names, name, zoom, 0, 0);
        self.walk(&rows, mix, n)
    }
}
