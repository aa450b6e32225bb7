// Tiles, wherever they stand: what the rules ask of one, and the search for the lowest that fits. Numbers are asked before names.
ghost use Rattle.std.specs.Prelude.{◌≡◌, map};
ghost use Rattle.octets.specs.Search.{first};
ghost use Rattle.octets.specs.Texts.{spell};
ghost use Rattle.octets.specs.Numbers.{signed};
ghost use Rattle.pack.specs.Tables.{tile_of, tiles_in};
ghost use Rattle.rules.specs.Matrices.{tile_named};
ghost use Rattle.rules.specs.Tiles.{at_address};

use crate::scan::{Place, skip_to_place};
use octets::Name;
use pack::{Tables, TileRow};

#[tactic(auto, unfolding(rules::specs::Matrices::tile_named, pack::specs::Tables::tile_of))]
pub fn tile_named(names: &[u8], x: Name, q: TileRow) -> bool
    ensures { result ≡ tile_named (spell names.now x) (tile_of names.now q) }
{
    octets::same_name(names, x, q.name)
}

// A tile has the address of another: its name, zoom, column and row.
#[tactic(auto, unfolding(rules::specs::Tiles::at_address, pack::specs::Tables::tile_of))]
pub fn at_address(names: &[u8], a: TileRow, q: TileRow) -> bool
    ensures { result ≡ at_address (spell names.now a.name) (signed a.zoom) (signed a.column) (signed a.row) (tile_of names.now q) }
{
    octets::is_equal(a.zoom, q.zoom)
        && octets::is_equal(a.column, q.column)
        && octets::is_equal(a.row, q.row)
        && octets::same_name(names, a.name, q.name)
}

// The lowest of the first n tiles with a name, or n.
pub fn first_of_name(tables: Tables, names: &[u8], x: Name, n: usize) -> usize
    ensures { result ≡ first (λ j. tile_named (spell names.now x) ((tiles_in tables.entry.form (map (λ x. x.now) tables.entry.slices) names.now).row j)) n }
{
    octets::first(0..n, |j| tile_named(names, x, tables.tile_at(j)))
}

// The lowest of the first n tiles at the address of a, or n. Most tiles are passed by column and row alone.
pub fn first_at(tables: Tables, names: &[u8], a: TileRow, n: usize) -> usize
    ensures { result ≡ first (λ j. at_address (spell names.now a.name) (signed a.zoom) (signed a.column) (signed a.row) ((tiles_in tables.entry.form (map (λ x. x.now) tables.entry.slices) names.now).row j)) n }
{
    // Not a `for` or `octets::first`: each step goes as far as the pass by column and row does.
    let place = Place {
        column: a.column,
        row: a.row,
    };
    let mut i = skip_to_place(tables, place, 0, n);
    while i < n {
        if at_address(names, a, tables.tile_at(i)) {
            return i;
        }
        i = skip_to_place(tables, place, i + 1, n);
    }
    n
}
