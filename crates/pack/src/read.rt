// The row whose octets stand at a place, field by field. Whoever calls knows that it is there: nothing is tested.
ghost use Rattle.std.specs.Prelude.{◌≡◌, refl, ◌+◌, ◌≤◌, length};
ghost use Rattle.pack.specs.Tables.{double_at, reference_at, contents_at, extent_at, set_at, matrix_at, tile_at, extension_at, no_reference, no_contents, no_set, no_matrix, no_tile, no_extension};
ghost use Rattle.pack.specs.Columns.{name_of, entry_at};

use crate::rows::Row;
use crate::{ContentsRow, ExtensionRow, MatrixRow, ReferenceRow, SetRow, TileRow};
use doubles::Extent;
use listing::{ContentsTable, ExtensionTable, MatrixTable, ReferenceTable, SetTable, TileTable};
use octets::Name;

fn double_at(s: &[u8], at: usize) -> f64
    requires { at + 8 ≤ length s.now }
    ensures { result ≡ double_at s.now at }
{
    doubles::double_of(octets::long(s, at))
}

impl Row for ReferenceRow {
    ghost size = { 32 };

    ghost read_as = { reference_at };

    ghost blank = { no_reference };

    ghost some = { refl };

    fn size() -> usize {
        ReferenceTable::ROW as usize
    }

    fn blank() -> Self {
        Self::default()
    }

    fn read(s: &[u8], at: usize) -> Self {
        ReferenceRow {
            srs_id: octets::long(s, at),
            coordsys_id: octets::long(s, at + 8),
            organization: octets::name_at(s, at + 16),
            definition: octets::name_at(s, at + 24),
        }
    }
}

impl Row for ContentsRow {
    ghost size = { 40 };

    ghost read_as = { contents_at };

    ghost blank = { no_contents };

    ghost some = { refl };

    fn size() -> usize {
        ContentsTable::ROW as usize
    }

    fn blank() -> Self {
        Self::default()
    }

    fn read(s: &[u8], at: usize) -> Self {
        ContentsRow {
            name: octets::name_at(s, at),
            data_type: octets::name_at(s, at + 8),
            last_change: octets::name_at(s, at + 16),
            srs_id: octets::long(s, at + 24),
            flag: octets::word(s, at + 32),
        }
    }
}

fn extent_at(s: &[u8], at: usize) -> Extent
    requires { at + 32 ≤ length s.now }
    ensures { result ≡ extent_at s.now at }
{
    Extent {
        min_x: double_at(s, at),
        min_y: double_at(s, at + 8),
        max_x: double_at(s, at + 16),
        max_y: double_at(s, at + 24),
    }
}

impl Row for SetRow {
    ghost size = { 48 };

    ghost read_as = { set_at };

    ghost blank = { no_set };

    ghost some = { refl };

    fn size() -> usize {
        SetTable::ROW as usize
    }

    fn blank() -> Self {
        Self::default()
    }

    fn read(s: &[u8], at: usize) -> Self {
        SetRow {
            name: octets::name_at(s, at),
            srs_id: octets::long(s, at + 8),
            extent: extent_at(s, at + 16),
        }
    }
}

impl Row for MatrixRow {
    ghost size = { 64 };

    ghost read_as = { matrix_at };

    ghost blank = { no_matrix };

    ghost some = { refl };

    fn size() -> usize {
        MatrixTable::ROW as usize
    }

    fn blank() -> Self {
        Self::default()
    }

    fn read(s: &[u8], at: usize) -> Self {
        MatrixRow {
            name: octets::name_at(s, at),
            zoom: octets::long(s, at + 8),
            width: octets::long(s, at + 16),
            height: octets::long(s, at + 24),
            tile_width: octets::long(s, at + 32),
            tile_height: octets::long(s, at + 40),
            pixel_x: double_at(s, at + 48),
            pixel_y: double_at(s, at + 56),
        }
    }
}

impl Row for TileRow {
    ghost size = { 32 };

    ghost read_as = { tile_at };

    ghost blank = { no_tile };

    ghost some = { refl };

    fn size() -> usize {
        TileTable::ROW as usize
    }

    fn blank() -> Self {
        Self::default()
    }

    fn read(s: &[u8], at: usize) -> Self {
        TileRow {
            name: octets::name_at(s, at),
            zoom: octets::long(s, at + 8),
            column: octets::long(s, at + 16),
            row: octets::long(s, at + 24),
        }
    }
}

// The name that an entry of the first column spells: its start times 2^32, and its length.
fn name_of(first: u64) -> Name
    ensures { result ≡ name_of first }
{
    Name {
        start: (first / 4294967296) as u32,
        len: (first % 4294967296) as u32,
    }
}

// The tile whose four numbers stand at one place of four columns. Four slices, since `entry_at` is defined of them; `Columns` has them as one value.
pub fn tile_entry(firsts: &[u8], zooms: &[u8], columns: &[u8], rows: &[u8], at: usize) -> TileRow
    requires first_there { at + 8 ≤ length firsts.now }
    requires zoom_there { at + 8 ≤ length zooms.now }
    requires column_there { at + 8 ≤ length columns.now }
    requires row_there { at + 8 ≤ length rows.now }
    ensures { result ≡ entry_at firsts.now zooms.now columns.now rows.now at }
{
    TileRow {
        name: name_of(octets::long(firsts, at)),
        zoom: octets::long(zooms, at),
        column: octets::long(columns, at),
        row: octets::long(rows, at),
    }
}

impl Row for ExtensionRow {
    ghost size = { 32 };

    ghost read_as = { extension_at };

    ghost blank = { no_extension };

    ghost some = { refl };

    fn size() -> usize {
        ExtensionTable::ROW as usize
    }

    fn blank() -> Self {
        Self::default()
    }

    fn read(s: &[u8], at: usize) -> Self {
        ExtensionRow {
            table: octets::text_at(s, at),
            column: octets::text_at(s, at + 8),
            name: octets::text_at(s, at + 16),
            scope: octets::text_at(s, at + 24),
        }
    }
}
