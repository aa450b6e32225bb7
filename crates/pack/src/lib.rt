// The rows of the tables, by value. A number keeps its 64-bit pattern; what a row means is in specs/.
#![tactic(auto)]

ghost use Rattle.std.specs.Prelude.{◌≡◌, cond, eqb};
ghost use Rattle.pack.specs.Tables.{reference_row, contents_row, set_row, matrix_row, extension_row};

use doubles::Extent;
use octets::{Name, Text};

mod read;
mod rows;
mod tables;
mod texts;
mod tiles;

pub use rows::{Row, row_at};
pub use tables::{
    CONTENTS, EXTENSIONS, MATRICES, NAMES, REFERENCES, SETS, SLICE_COUNT, TILE_COLUMNS, TILE_ROWS,
    TILES, Tables, cut, with_tiles,
};
pub use texts::{same_text, text_octets};

#[derive(Clone, Copy, Default)]
pub struct ReferenceRow {
    pub srs_id: u64,
    pub coordsys_id: u64,
    pub organization: Name,
    pub definition: Name,
}

#[derive(Clone, Copy, Default)]
pub struct ContentsRow {
    pub name: Name,
    pub data_type: Name,
    pub last_change: Name,
    pub srs_id: u64,
    pub flag: u32,
}

impl ContentsRow {
    // The srs_id, unless it is NULL. A method, since the row has both numbers as they stand, whatever the flag says.
    pub fn present_srs_id(self) -> Option<u64>
        ensures { result ≡ cond (eqb self.flag 1) (Some self.srs_id) None }
    {
        (self.flag == 1).then_some(self.srs_id)
    }
}

#[derive(Clone, Copy, Default)]
pub struct SetRow {
    pub name: Name,
    pub srs_id: u64,
    pub extent: Extent,
}

#[derive(Clone, Copy, Default)]
pub struct MatrixRow {
    pub name: Name,
    pub zoom: u64,
    pub width: u64,
    pub height: u64,
    pub tile_width: u64,
    pub tile_height: u64,
    pub pixel_x: f64,
    pub pixel_y: f64,
}

#[derive(Clone, Copy, Default)]
pub struct TileRow {
    pub name: Name,
    pub zoom: u64,
    pub column: u64,
    pub row: u64,
}

#[derive(Clone, Copy, Default)]
pub struct ExtensionRow {
    pub table: Text,
    pub column: Text,
    pub name: Text,
    pub scope: Text,
}

// Where tiles stand: in the rows of table 5, or in four columns of signed 64-bit numbers. An enum, since `tile_in` and `pack_in` take it.
#[derive(Clone, Copy)]
pub enum Form {
    Rows,
    Columns,
}

// ---- row i of a table; past the last, a blank. One for each table, since `reference_row` to `extension_row` are what clauses above cite; `row_at` has the body.

pub fn reference_at(references: &[u8], i: usize) -> ReferenceRow
    ensures { result ≡ reference_row references.now i }
{
    row_at(references, i)
}

pub fn contents_at(contents: &[u8], i: usize) -> ContentsRow
    ensures { result ≡ contents_row contents.now i }
{
    row_at(contents, i)
}

pub fn set_at(sets: &[u8], i: usize) -> SetRow
    ensures { result ≡ set_row sets.now i }
{
    row_at(sets, i)
}

pub fn matrix_at(matrices: &[u8], i: usize) -> MatrixRow
    ensures { result ≡ matrix_row matrices.now i }
{
    row_at(matrices, i)
}

pub fn extension_at(extensions: &[u8], i: usize) -> ExtensionRow
    ensures { result ≡ extension_row extensions.now i }
{
    row_at(extensions, i)
}
