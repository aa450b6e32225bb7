// The one place where a tile is read, whatever the form in which tiles stand.
ghost use Rattle.std.specs.Prelude.{◌≡◌, ℕ, map};
ghost use Rattle.pack.specs.Tables.{tile_row, entry_row, tile_count, tile_in};
ghost use Rattle.pack.specs.Columns.{entry_count};

use crate::rows::{Row, row_at};
use crate::tables::{TILE_COLUMNS, TILE_ROWS, TILES, Tables, ZOOMS};
use crate::{Form, TileRow, read};
use listing::TileTable;

// The octets of an entry of a column.
const ENTRY: usize = 8;

// Tiles in four columns.
#[derive(Clone, Copy)]
struct Columns<'a> {
    firsts: &'a [u8],
    zooms: &'a [u8],
    columns: &'a [u8],
    rows: &'a [u8],
}

impl<'a> Columns<'a> {
    fn of(tables: Tables<'a>) -> Self
        ensures count { entry_count result.firsts.now result.zooms.now result.columns.now result.rows.now ≡ tile_count Form.Columns (map (λ x. x.now) tables.entry.slices) }
        ensures tile { (i : ℕ) → entry_row result.firsts.now result.zooms.now result.columns.now result.rows.now i ≡ tile_in Form.Columns (map (λ x. x.now) tables.entry.slices) i }
    {
        Self {
            firsts: tables.slice_of(TILES),
            zooms: tables.slice_of(ZOOMS),
            columns: tables.slice_of(TILE_COLUMNS),
            rows: tables.slice_of(TILE_ROWS),
        }
    }

    // How many tiles they have.
    fn count(self) -> usize
        ensures { result ≡ entry_count self.entry.firsts.now self.entry.zooms.now self.entry.columns.now self.entry.rows.now }
    {
        let left = (self.firsts.len() / ENTRY).min(self.zooms.len() / ENTRY);
        let right = (self.columns.len() / ENTRY).min(self.rows.len() / ENTRY);
        left.min(right)
    }

    fn tile_at(self, i: usize) -> TileRow
        ensures { result ≡ entry_row self.entry.firsts.now self.entry.zooms.now self.entry.columns.now self.entry.rows.now i }
    {
        if i < self.count() {
            read::tile_entry(self.firsts, self.zooms, self.columns, self.rows, ENTRY * i)
        } else {
            TileRow::blank()
        }
    }
}

fn row_of(tiles: &[u8], i: usize) -> TileRow
    ensures { result ≡ tile_row tiles.now i }
{
    row_at(tiles, i)
}

impl<'a> Tables<'a> {
    // Tile i; past the last, a blank.
    pub fn tile_at(self, i: usize) -> TileRow
        ensures { result ≡ tile_in self.entry.form (map (λ x. x.now) self.entry.slices) i }
    {
        match self.form {
            Form::Rows => row_of(self.slice_of(TILES), i),
            Form::Columns => Columns::of(self).tile_at(i),
        }
    }

    // How many tiles there are.
    pub fn tile_count(self) -> usize
        ensures { result ≡ tile_count self.entry.form (map (λ x. x.now) self.entry.slices) }
    {
        match self.form {
            Form::Rows => self.slice_of(TILES).len() / (TileTable::ROW as usize),
            Form::Columns => Columns::of(self).count(),
        }
    }
}
