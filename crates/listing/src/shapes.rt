// What the tables of a listing are like, by its format and their numbers.
ghost use Rattle.std.specs.Prelude.{◌≡◌, ◌≤◌};
ghost use Rattle.listing.specs.Formats.{ShapeOf};
ghost use Rattle.listing.specs.Listing.{row, most};

use crate::{
    ContentsTable, ExtensionTable, Format, LinkTable, MatrixTable, NameTable, NoteTable,
    ReferenceTable, SetTable, Shape, TileTable,
};

// Tables are numbered from 1: there is no table 0, nor one past the last.
const NONE: Shape = Shape {
    row: 0,
    most: 0,
    base: 0,
    texts: 0,
    null_from: 0,
    null_end: 0,
};

const EDITION1: [Shape; 8] = [
    NONE,
    Shape {
        row: ReferenceTable::ROW,
        most: ReferenceTable::MOST,
        base: 16,
        texts: 2,
        null_from: 0,
        null_end: 0,
    },
    Shape {
        row: ContentsTable::ROW,
        most: ContentsTable::MOST,
        base: 0,
        texts: 3,
        null_from: 0,
        null_end: 0,
    },
    Shape {
        row: SetTable::ROW,
        most: SetTable::MOST,
        base: 0,
        texts: 1,
        null_from: 0,
        null_end: 0,
    },
    Shape {
        row: MatrixTable::ROW,
        most: MatrixTable::MOST,
        base: 0,
        texts: 1,
        null_from: 0,
        null_end: 0,
    },
    Shape {
        row: TileTable::ROW,
        most: TileTable::MOST,
        base: 0,
        texts: 1,
        null_from: 0,
        null_end: 0,
    },
    Shape {
        row: ExtensionTable::ROW,
        most: ExtensionTable::MOST,
        base: 0,
        texts: 4,
        null_from: 0,
        null_end: 2,
    },
    Shape {
        row: NameTable::ROW,
        most: NameTable::MOST,
        base: 0,
        texts: 0,
        null_from: 0,
        null_end: 0,
    },
];

const METADATA: [Shape; 8] = [
    NONE,
    Shape {
        row: NoteTable::ROW,
        most: NoteTable::MOST,
        base: 8,
        texts: 1,
        null_from: 0,
        null_end: 0,
    },
    Shape {
        row: LinkTable::ROW,
        most: LinkTable::MOST,
        base: 0,
        texts: 4,
        null_from: 1,
        null_end: 3,
    },
    Shape {
        row: NameTable::ROW,
        most: NameTable::MOST,
        base: 0,
        texts: 0,
        null_from: 0,
        null_end: 0,
    },
    NONE,
    NONE,
    NONE,
    NONE,
];

// The shape of a table.
pub fn shape_of(f: Format, k: usize) -> Shape
    requires { k ≤ 7 }
    ensures { ShapeOf f k result }
{
    match f {
        Format::Edition1 => EDITION1[k],
        Format::Metadata => METADATA[k],
    }
}

// The octets of a row of edition 1, and a table's most rows.
pub fn row_of(k: usize) -> u8
    requires { k ≤ 7 }
    ensures { result ≡ row k }
{
    shape_of(Format::Edition1, k).row
}

pub fn most_of(k: usize) -> u32
    requires { k ≤ 7 }
    ensures { result ≡ most k }
{
    shape_of(Format::Edition1, k).most
}
