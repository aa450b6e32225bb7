// The tables with an index of the contents by name, which 975 asks. Without room, the index is the plain search.
ghost use Rattle.std.specs.Prelude.{◌≡◌, map};
ghost use Rattle.metadata.specs.Prepared.{Prepared};
ghost use Rattle.metadata.specs.PreparedLaws.{Prepared-prop};

use crate::{CONTENTS, NAMES, Notebook};
use index::{Index, Kind};

// Makes the index in lent octets, and answers how many heads it has.
pub fn prepare(tables: Notebook, work: &mut [u8]) -> usize
    ensures { Prepared (map (λ x. x.now) tables.entry.slices) work.new result }
{
    let contents = tables.slice_of(CONTENTS);
    let names = tables.slice_of(NAMES);
    index::index_all(contents, names, work, Kind::ContentName)
}

#[derive(Clone, Copy)]
pub struct Ready<'a> {
    pub tables: Notebook<'a>,
    pub index: Index<'a>,
    ghost prepared: { Prepared (map (λ x. x.now) tables.slices) index.work.now index.heads } by { Prepared-prop (map (λ x. x.now) tables.slices) index.work.now index.heads },
}

impl<'a> Ready<'a> {
    // Makes the index in lent octets.
    pub fn of(tables: Notebook<'a>, work: &'a mut [u8]) -> Ready<'a>
        ensures { map (λ x. x.now) result.tables.slices ≡ map (λ x. x.now) tables.entry.slices }
    {
        let heads = prepare(tables, work);
        Ready {
            tables,
            index: Index { work, heads },
        }
    }
}
