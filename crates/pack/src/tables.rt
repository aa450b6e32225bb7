// What a pack stands in, as one value: the place of each table, and its rows.
ghost use Rattle.std.specs.Prelude.{◌≡◌, map, ◌<◌};
ghost use Rattle.octets.specs.Slices.{nth};
ghost use Rattle.pack.specs.Rows.{rows_in};
ghost use Rattle.pack.specs.Tables.{with_tiles, pack_in, pack_of};

use crate::Form;
use listing::{ContentsTable, ExtensionTable, MatrixTable, ReferenceTable, SetTable, TABLE_COUNT};

// The seven tables, and the places of three columns more: where tiles stand in columns, the first is in the place of table 5.
pub const SLICE_COUNT: usize = 10;

// The place of each in the array. Numbers, since a pack is an array of slices: `with_tiles`, `tile_count` and `pack_in` go by places of a list.
pub const REFERENCES: usize = 0;

pub const CONTENTS: usize = 1;

pub const SETS: usize = 2;

pub const MATRICES: usize = 3;

pub const TILES: usize = 4;

pub const EXTENSIONS: usize = 5;

pub const NAMES: usize = 6;

pub const ZOOMS: usize = 7;

pub const TILE_COLUMNS: usize = 8;

pub const TILE_ROWS: usize = 9;

// The tables of a pack, each in its place, and where its tiles stand.
#[derive(Clone, Copy)]
pub struct Tables<'a> {
    pub form: Form,
    pub slices: [&'a [u8]; SLICE_COUNT],
}

impl<'a> Tables<'a> {
    // The octets in a place: `octets::slice_of` of the array inside.
    pub fn slice_of(self, place: usize) -> &'a [u8]
        requires { place < 10 }
        ensures { result.now ≡ nth (map (λ x. x.now) self.entry.slices) place }
    {
        octets::slice_of(&self.slices, place)
    }

    // How many rows the table with a number has; 0 where no table with rows has it. Numbers, as `rows_in` and `table_of` have them.
    pub fn rows_in(self, table: u32) -> usize
        ensures { result ≡ rows_in (pack_in self.entry.form (map (λ x. x.now) self.entry.slices)) table }
    {
        match table {
            1 => self.slice_of(REFERENCES).len() / (ReferenceTable::ROW as usize),
            2 => self.slice_of(CONTENTS).len() / (ContentsTable::ROW as usize),
            3 => self.slice_of(SETS).len() / (SetTable::ROW as usize),
            4 => self.slice_of(MATRICES).len() / (MatrixTable::ROW as usize),
            5 => self.tile_count(),
            6 => self.slice_of(EXTENSIONS).len() / (ExtensionTable::ROW as usize),
            _ => 0,
        }
    }
}

// The tables of a listing, with tiles that stand in four slices.
pub fn with_tiles<'a>(
    form: Form,
    tables: [&'a [u8]; TABLE_COUNT],
    tiles: [&'a [u8]; 4],
) -> Tables<'a>
    ensures form { result.form ≡ form }
    ensures slices { map (λ x. x.now) result.slices ≡ with_tiles (map (λ x. x.now) tables.entry) (nth (map (λ x. x.now) tiles.entry) 0) (nth (map (λ x. x.now) tiles.entry) 1) (nth (map (λ x. x.now) tiles.entry) 2) (nth (map (λ x. x.now) tiles.entry) 3) }
{
    Tables {
        form,
        slices: [
            octets::slice_of(&tables, REFERENCES),
            octets::slice_of(&tables, CONTENTS),
            octets::slice_of(&tables, SETS),
            octets::slice_of(&tables, MATRICES),
            octets::slice_of(&tiles, 0),
            octets::slice_of(&tables, EXTENSIONS),
            octets::slice_of(&tables, NAMES),
            octets::slice_of(&tiles, 1),
            octets::slice_of(&tiles, 2),
            octets::slice_of(&tiles, 3),
        ],
    }
}

// The tables of a listing, with the tiles in its own rows: what stands in the last three places is not read.
pub fn cut<'a>(listing: &'a [u8]) -> Tables<'a>
    ensures form { result.form ≡ Form.Rows }
    ensures pack { pack_in Form.Rows (map (λ x. x.now) result.slices) ≡ pack_of listing.now }
{
    let tables = listing::cut(listing);
    let tiles = tables[TILES];
    with_tiles(Form::Rows, tables, [tiles, tiles, tiles, tiles])
}
