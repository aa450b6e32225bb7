// The reader of a listing: refused under one reason, or its tables. And what a writer needs of it: the check of rows, the header.
#![tactic(auto)]

ghost use Rattle.std.specs.Prelude.{◌≡◌, ◌+◌, ◌<◌};
ghost use Rattle.listing.specs.Listing.{stated};
ghost use Rattle.listing.specs.Refusals.{number, refusal};

mod header;
mod put;
mod refusals;
mod rows;
mod shapes;
mod tables;

pub use header::{table_in, table_of};
pub use put::{put_header, start_by};
pub use refusals::{accept, check, check_rows};
pub use rows::{is_faulty, rows_of, skip_clear};
pub use shapes::{most_of, row_of};
pub use tables::{TABLE_COUNT, cut, cut_in, slice_of, table_at};

// Which listing it is: that of a pack, or its sibling for the metadata. Tables are counted from 1 in each; a refusal names those of the metadata 11 to 13.
#[derive(Clone, Copy)]
pub enum Format {
    Edition1,
    Metadata,
}

// What the rows of a table are like: their octets, and the most of them; where the texts of each stand, how many there are, and which of them may be NULL: from one on, and before another.
#[derive(Clone, Copy)]
pub struct Shape {
    pub row: u8,
    pub most: u32,
    pub base: u8,
    pub texts: u8,
    pub null_from: u8,
    pub null_end: u8,
}

// A table by its number, as a refusal names it. What the header says of it: how many rows, and where.
#[derive(Clone, Copy)]
pub struct Table<const K: u8> {
    pub count: u32,
    pub offset: u32,
}

impl<const K: u8> Table<K> {
    pub fn new(count: u32, offset: u32) -> Self
        ensures { (result.count ≡ count) × (result.offset ≡ offset) }
    {
        Self { count, offset }
    }

    // What the header says of this table.
    #[tactic(auto, unfolding(crate::specs::Listing::count, crate::specs::Listing::offset))]
    pub fn read(s: &[u8]) -> Self
        ensures { result ≡ stated K s.now }
    {
        let at = 8 * (K as usize);
        Self::new(octets::u32_at(s, at), octets::u32_at(s, at + 4))
    }
}

// Each knows the octets of its row and its most rows.
pub type ReferenceTable = Table<1>;

impl Table<1> {
    pub const ROW: u8 = 32;

    pub const MOST: u32 = 256;
}

pub type ContentsTable = Table<2>;

impl Table<2> {
    pub const ROW: u8 = 40;

    pub const MOST: u32 = 256;
}

pub type SetTable = Table<3>;

impl Table<3> {
    pub const ROW: u8 = 48;

    pub const MOST: u32 = 256;
}

pub type MatrixTable = Table<4>;

impl Table<4> {
    pub const ROW: u8 = 64;

    pub const MOST: u32 = 4096;
}

pub type TileTable = Table<5>;

impl Table<5> {
    pub const ROW: u8 = 32;

    pub const MOST: u32 = 262144;
}

pub type ExtensionTable = Table<6>;

impl Table<6> {
    pub const ROW: u8 = 32;

    pub const MOST: u32 = 1024;
}

pub type NameTable = Table<7>;

impl Table<7> {
    pub const ROW: u8 = 1;

    pub const MOST: u32 = 1048576;
}

// Of the metadata: 11, gpkg_metadata, here notes, and 12, gpkg_metadata_reference, here links from a note to what it is about. The names, 13, are as above.
pub type NoteTable = Table<11>;

impl Table<11> {
    pub const ROW: u8 = 16;

    pub const MOST: u32 = 256;
}

pub type LinkTable = Table<12>;

impl Table<12> {
    pub const ROW: u8 = 64;

    pub const MOST: u32 = 4096;
}

#[derive(Clone, Copy)]
pub struct Layout {
    pub references: ReferenceTable,
    pub contents: ContentsTable,
    pub sets: SetTable,
    pub matrices: MatrixTable,
    pub tiles: TileTable,
    pub extensions: ExtensionTable,
    pub names: NameTable,
}

// What is asked of a text: whether it is outside the names, or NULL where that is not allowed; or whether it is that or not well-formed. No closure asks it: the theorems on faults (FaultLaws, `asked`) speak of these two.
#[derive(Clone, Copy)]
pub enum TextFault {
    Outside,
    Either,
}

// How the two numbers of a text stand: the start before the length, as in rows, or behind it, as in a column of little-endian numbers. The theorems on rows that need no look (FaultLaws, `Passed`) speak of these two.
#[derive(Clone, Copy)]
pub enum TextOrder {
    StartFirst,
    LengthFirst,
}

// Why a listing, parts or a question is turned away, by the number of each reason.
#[derive(Clone, Copy, PartialEq, Eq)]
pub enum Why {
    Short = 1,
    Long = 2,
    Version = 3,
    Total = 4,
    Count = 5,
    Offset = 6,
    Outside = 7,
    Flags = 8,
    Code = 9,
    NoTiles = 10,
    Ragged = 11,
    Room = 12,
    IllFormed = 13,
    Columns = 14,
}

impl From<Why> for u32 {
    ghost from_gives = { λ w n. n ≡ number w };

    fn from(why: Why) -> Self {
        why as u32
    }
}

// A reason and its place, a table by its number and a row.
#[derive(Clone, Copy, PartialEq, Eq)]
pub struct Refusal {
    pub why: Why,
    pub table: u32,
    pub row: u32,
}

impl Refusal {
    pub fn new(why: Why, table: u32, row: u32) -> Self
        ensures { result ≡ refusal why table row }
    {
        Self { why, table, row }
    }
}

// The rows of a table, one after the other: the row it stands at, and the end. It moves forward by handing back its next position.
#[derive(Clone, Copy)]
pub struct Cursor {
    pub row: usize,
    pub end: usize,
}

impl Cursor {
    pub fn new(end: usize) -> Self
        ensures { (result.row ≡ 0) × (result.end ≡ end) }
    {
        Self { row: 0, end }
    }

    pub fn next(self) -> Self
        requires { self.row < self.end }
        ensures { (result.row ≡ self.row + 1) × (result.end ≡ self.end) }
    {
        Self {
            row: self.row + 1,
            end: self.end,
        }
    }
}
