// The five tables that metadata are judged by, as one value; and whether a tile listing with its sibling is accepted.
ghost use Rattle.std.specs.Prelude.{◌≡◌, map, ◌<◌};
ghost use Rattle.octets.specs.Slices.{nth};
ghost use Rattle.metadata.specs.Rows.{rows_of};
ghost use Rattle.metadata.specs.Tables.{tables_for, notebook_in};
ghost use Rattle.metadata.specs.Refusals.{metadata_outcome};

use listing::{Format, Layout, LinkTable, NoteTable, Refusal};

pub const SLICE_COUNT: usize = 5;

// The place of each in the array. The first two are the tile listing's, the names at the end those of its sibling.
pub const CONTENTS: usize = 0;

pub const NAMES: usize = 1;

pub const NOTES: usize = 2;

pub const LINKS: usize = 3;

pub const NOTE_NAMES: usize = 4;

// The tables, each in its place: an array and not a field for each, since `notebook_in` and `Prepared`, of which contracts speak, take the list of them.
#[derive(Clone, Copy)]
pub struct Notebook<'a> {
    pub slices: [&'a [u8]; SLICE_COUNT],
}

impl<'a> Notebook<'a> {
    // The octets in a place.
    pub fn slice_of(self, place: usize) -> &'a [u8]
        requires { place < 5 }
        ensures { result.now ≡ nth (map (λ x. x.now) self.entry.slices) place }
    {
        octets::slice_of(&self.slices, place)
    }

    // How many rows the table with a number has; 0 where it is neither 11 nor 12. Numbers, as `rows_of` has them.
    pub fn rows_in(self, table: u32) -> usize
        ensures { result ≡ rows_of (notebook_in (map (λ x. x.now) self.entry.slices)) table }
    {
        match table {
            11 => self.slice_of(NOTES).len() / (NoteTable::ROW as usize),
            12 => self.slice_of(LINKS).len() / (LinkTable::ROW as usize),
            _ => 0,
        }
    }
}

// The tables of a tile listing and its sibling.
pub fn cut<'a>(listing: &'a [u8], metadata: &'a [u8]) -> Notebook<'a>
    ensures { map (λ x. x.now) result.slices ≡ tables_for listing.now metadata.now }
{
    Notebook {
        slices: [
            listing::table_of(listing, 2),
            listing::table_of(listing, 7),
            listing::table_in(Format::Metadata, metadata, 1),
            listing::table_in(Format::Metadata, metadata, 2),
            listing::table_in(Format::Metadata, metadata, 3),
        ],
    }
}

// Whether a tile listing and its sibling are accepted, or why not.
pub fn accept(listing: &[u8], metadata: &[u8]) -> Result<Layout, Refusal>
    ensures { result ≡ metadata_outcome listing.now metadata.now }
{
    let layout = listing::accept(listing)?;
    listing::check(Format::Metadata, metadata)?;
    Ok(layout)
}
