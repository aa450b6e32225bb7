// Whether columns go with a listing: its own reasons, 14, then 7 and 13 of the entries; and the tables with the tiles in columns.
ghost use Rattle.std.specs.Prelude.{◌≡◌, map, ◌||◌, ◌/◌, ◌<◌, ◌≤◌, ltb, length};
ghost use Rattle.octets.specs.Octets.{part};
ghost use Rattle.octets.specs.Slices.{nth};
ghost use Rattle.listing.specs.Listing.{rows};
ghost use Rattle.listing.specs.Refusals.{checked, outcome};
ghost use Rattle.columns.specs.Refusals.{column_reasons, column_outcome};
ghost use Rattle.columns.specs.Tiles.{column_tables};

use crate::COLUMN_COUNT;
use crate::entries::check_entries;
use listing::{Layout, Refusal, Why, rows_of, table_of};
use octets::slice_of;
use pack::{Form, Tables};

// Whether one of four columns, by their octets, has fewer than n entries. It is given lengths, since columns that are filled are not lent to it.
pub fn is_short(n: usize, firsts: usize, zooms: usize, columns: usize, rows: usize) -> bool
    ensures { result ≡ (ltb (firsts / 8) n || (ltb (zooms / 8) n || (ltb (columns / 8) n || ltb (rows / 8) n))) }
{
    firsts / 8 < n || zooms / 8 < n || columns / 8 < n || rows / 8 < n
}

// What the columns say, beside tile rows and names. A call of its own, as that of the listing is.
#[inline(never)]
fn check(tiles: &[u8], names: &[u8], columns: [&[u8]; COLUMN_COUNT]) -> Result<(), Refusal>
    requires { (length names.now ≤ 1048576) × (rows 5 tiles.now ≤ 262144) }
    ensures { result ≡ checked (column_reasons tiles.now names.now (map (λ x. x.now) columns.entry)) }
{
    let n = rows_of(5, tiles);
    let firsts = slice_of(&columns, 0);
    let zooms = slice_of(&columns, 1);
    let places = slice_of(&columns, 2);
    let rows = slice_of(&columns, 3);
    if is_short(n, firsts.len(), zooms.len(), places.len(), rows.len()) {
        return Err(Refusal::new(Why::Columns, 5, 0));
    }
    check_entries(firsts, names, n)
}

// Whether the listing is accepted. A call of its own: the marks of its names take half of the stack that is promised, and are gone before the entries' stand there.
#[inline(never)]
fn accept_listing(listing: &[u8]) -> Result<Layout, Refusal>
    ensures { result ≡ outcome listing.now }
{
    listing::accept(listing)
}

// Whether a listing and columns are accepted, or why not.
pub fn accept<'a>(listing: &'a [u8], columns: [&'a [u8]; COLUMN_COUNT]) -> Result<Layout, Refusal>
    ensures { result ≡ column_outcome listing.now (map (λ x. x.now) columns.entry) }
{
    let layout = accept_listing(listing)?;
    check(table_of(listing, 5), table_of(listing, 7), columns)?;
    Ok(layout)
}

// The first octets of a column.
fn front_of<'a>(columns: [&'a [u8]; COLUMN_COUNT], k: usize, octets: usize) -> &'a [u8]
    requires { k < 4 }
    ensures { result.now ≡ part (nth (map (λ x. x.now) columns.entry) k) 0 octets }
{
    octets::part_of(slice_of(&columns, k), 0, octets)
}

// The tables of a listing with its tiles in columns: of each, as many entries as there are tile rows.
pub fn cut<'a>(listing: &'a [u8], columns: [&'a [u8]; COLUMN_COUNT]) -> Tables<'a>
    ensures form { result.form ≡ Form.Columns }
    ensures slices { map (λ x. x.now) result.slices ≡ column_tables listing.now (map (λ x. x.now) columns.entry) }
{
    let tables = listing::cut(listing);
    let octets = 8 * rows_of(5, listing::table_at(tables, 5));
    pack::with_tiles(
        Form::Columns,
        tables,
        [
            front_of(columns, 0, octets),
            front_of(columns, 1, octets),
            front_of(columns, 2, octets),
            front_of(columns, 3, octets),
        ],
    )
}
