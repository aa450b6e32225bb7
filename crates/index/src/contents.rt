// Contents rows found by a name that is lent as octets: what `find` does for a name of the same listing. The octets may stand in another.
ghost use Rattle.std.specs.Prelude.{◌≡◌};
ghost use Rattle.octets.specs.Search.{first};
ghost use Rattle.index.specs.declared.Kind.TheVariants.{ContentName};
ghost use Rattle.index.specs.Keys.{row_count, content_spelled, Indexes};

use crate::chains::{Asked, Index};
use crate::{chains, hashes};
use listing::ContentsTable;

// Contents rows, of which a name is asked.
#[derive(Clone, Copy)]
struct Spelled<'a> {
    contents: &'a [u8],
    names: &'a [u8],
    x: &'a [u8],
}

impl Asked for Spelled<'_> {
    ghost passes = { λ s. content_spelled s.contents.now s.names.now s.x.now };

    #[tactic(auto, unfolding(pack::specs::Tables::content_of, rules::specs::Contents::content_named))]
    fn does_pass(&self, k: usize) -> bool {
        let name = pack::contents_at(self.contents, k).name;
        let own = octets::spelled(self.names, name);
        octets::equal(self.x, own)
    }
}

impl Index<'_> {
    // The lowest row whose table_name is the given octets, or the count, where all rows are indexed.
    pub fn find_content(self, contents: &[u8], names: &[u8], x: &[u8]) -> usize
        requires { Indexes ContentName contents.now names.now self.work.now self.heads (row_count ContentName contents.now) }
        ensures { result ≡ first (content_spelled contents.now names.now x.now) (row_count ContentName contents.now) }
    {
        let n = contents.len() / (ContentsTable::ROW as usize);
        let rows = Spelled { contents, names, x };
        if self.heads == 0 {
            return chains::first(&rows, n);
        }
        self.walk(&rows, hashes::mix_by(x, 0, 0, 0), n)
    }
}
