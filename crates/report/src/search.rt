// The lookup: the lowest tile row of a contents row's name at an address.
ghost use Rattle.std.specs.Prelude.{◌≡◌, map};
ghost use Rattle.octets.specs.Numbers.{signed};
ghost use Rattle.octets.specs.Texts.{spell};
ghost use Rattle.pack.specs.Tables.{contents_of, tiles_in, pack_in};
ghost use Rattle.findings.specs.Answers.{can_look, tile_at, looked_up, lookup_of};
ghost use Rattle.findings.specs.ColumnAnswers.{column_lookup};

use columns::COLUMN_COUNT;
use findings::Located;
use listing::{ContentsTable, Refusal, Why};
use octets::Name;
use pack::{CONTENTS, NAMES, Tables, TileRow};

// Whether a contents row is there and of tiles.
fn can_look(contents: &[u8], names: &[u8], k: usize) -> bool
    ensures { result ≡ can_look (contents_of contents.now names.now) k }
{
    if k < contents.len() / (ContentsTable::ROW as usize) {
        let c = pack::contents_at(contents, k);
        return octets::is_name(names, c.data_type, b"tiles");
    }
    false
}

fn tile_of(tables: Tables, names: &[u8], name: Name, zoom: u64, column: u64, row: u64) -> Located
    ensures { result ≡ tile_at (tiles_in tables.entry.form (map (λ x. x.now) tables.entry.slices) names.now) (spell names.now name) (signed zoom) (signed column) (signed row) }
{
    let n = tables.tile_count();
    let address = TileRow {
        name,
        zoom,
        column,
        row,
    };
    let k = seek::first_at(tables, names, address, n);
    Ok((k < n).then_some(k))
}

fn look(tables: Tables, k: usize, zoom: u64, column: u64, row: u64) -> Located
    ensures { result ≡ looked_up (pack_in tables.entry.form (map (λ x. x.now) tables.entry.slices)) k (signed zoom) (signed column) (signed row) }
{
    let contents = tables.slice_of(CONTENTS);
    let names = tables.slice_of(NAMES);
    if can_look(contents, names, k) {
        let c = pack::contents_at(contents, k);
        return tile_of(tables, names, c.name, zoom, column, row);
    }
    Err(Refusal::new(Why::NoTiles, 0, 0))
}

// The tile row, none, or a refusal: the reader's, or 10. The address is three i64 by their patterns, as C gives them and `lookup_of` takes them; with the name of the contents row they become the address of a tile.
pub fn lookup(listing: &[u8], contents_row: usize, zoom: u64, column: u64, row: u64) -> Located
    ensures { result ≡ lookup_of listing.now contents_row (signed zoom) (signed column) (signed row) }
{
    listing::accept(listing)?;
    look(pack::cut(listing), contents_row, zoom, column, row)
}

// The same, of tiles in columns.
pub fn lookup_columns<'a>(
    listing: &'a [u8],
    columns: [&'a [u8]; COLUMN_COUNT],
    contents_row: usize,
    zoom: u64,
    column: u64,
    row: u64,
) -> Located
    ensures { result ≡ column_lookup listing.now (map (λ x. x.now) columns.entry) contents_row (signed zoom) (signed column) (signed row) }
{
    columns::accept(listing, columns)?;
    look(
        columns::cut(listing, columns),
        contents_row,
        zoom,
        column,
        row,
    )
}
