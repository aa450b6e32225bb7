// The metadata tables of a sibling listing: its rows by value, whether it is accepted beside a tile listing, and what the rules of 2026-05 say of a row.
#![tactic(auto)]

ghost use Rattle.std.specs.Prelude.{◌≡◌, map, cond, eqb, ltb, ◌%◌};
ghost use Rattle.metadata.specs.Tables.{note_row, link_row, notebook_in};
ghost use Rattle.metadata.specs.Codes.{judged};

use octets::{Name, Text};
use rules::Judgment;

mod codes;
mod judging;
mod read;
mod ready;
mod scopes;
mod tables;

pub use codes::{CODE_COUNT, code_at, table_at};
pub use ready::{Ready, prepare};
pub use tables::{CONTENTS, LINKS, NAMES, NOTE_NAMES, NOTES, Notebook, SLICE_COUNT, accept, cut};

// 11, gpkg_metadata: a note.
#[derive(Clone, Copy, Default)]
pub struct NoteRow {
    pub id: u64,
    pub scope: Name,
}

// 12, gpkg_metadata_reference: a link from a note to what it is about.
#[derive(Clone, Copy, Default)]
pub struct LinkRow {
    pub scope: Name,
    pub table: Text,
    pub column: Text,
    pub timestamp: Name,
    pub row_id: u64,
    pub file_id: u64,
    pub parent_id: u64,
    pub flags: u32,
}

// Flags say whether the row id (1) and the parent (2) are present. Methods, since the row has all three numbers as they stand, whatever its flags say.
impl LinkRow {
    #[tactic(auto, using(crate::proofs::Laws::unless_flag))]
    pub fn present_row_id(self) -> Option<u64>
        ensures { result ≡ cond (eqb (self.flags % 2) 0) None (Some self.row_id) }
    {
        (self.flags % 2 != 0).then_some(self.row_id)
    }

    #[tactic(auto, using(crate::proofs::Laws::from_two))]
    pub fn present_parent_id(self) -> Option<u64>
        ensures { result ≡ cond (ltb self.flags 2) None (Some self.parent_id) }
    {
        (2 <= self.flags).then_some(self.parent_id)
    }
}

// What a link is about.
#[derive(Clone, Copy)]
pub enum Scope {
    Geopackage,
    Table,
    Column,
    Row,
    RowColumn,
    Other,
}

// ---- row i of a table; past the last, a blank. One for each table, since `note_row` and `link_row` are what clauses cite; `pack::row_at` has the body.

#[tactic(auto, unfolding(crate::specs::Tables::note_row))]
pub fn note_at(notes: &[u8], i: usize) -> NoteRow
    ensures { result ≡ note_row notes.now i }
{
    pack::row_at(notes, i)
}

#[tactic(auto, unfolding(crate::specs::Tables::link_row))]
pub fn link_at(links: &[u8], i: usize) -> LinkRow
    ensures { result ≡ link_row links.now i }
{
    pack::row_at(links, i)
}

// ---- the rule of a code

// What the rule of a code says of row i of the code's table. Codes are numbers: what C gives, and what `judged` takes.
#[tactic(auto, unfolding(crate::specs::Codes::judged))]
pub fn judge(ready: Ready, code: u32, i: usize) -> Judgment
    ensures { result ≡ judged (notebook_in (map (λ x. x.now) ready.entry.tables.slices)) code i }
{
    let tables = ready.tables;
    let notes = tables.slice_of(NOTES);
    let links = tables.slice_of(LINKS);
    let others = tables.slice_of(NOTE_NAMES);
    let contents = tables.slice_of(CONTENTS);
    let names = tables.slice_of(NAMES);
    match code {
        945 => judging::of_945(others, note_at(notes, i)),
        965 => judging::of_965(others, link_at(links, i)),
        975 => judging::of_975(contents, names, ready.index, others, link_at(links, i)),
        985 => judging::of_985(others, link_at(links, i)),
        995 => judging::of_995(others, link_at(links, i)),
        1005 => judging::of_1005(others, link_at(links, i)),
        1015 => judging::of_1015(notes, others, link_at(links, i)),
        1025 => judging::of_1025(notes, others, link_at(links, i)),
        _ => None,
    }
}
