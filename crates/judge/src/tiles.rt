// The rules on tiles: 441, 541, 551, 561, 571 (341 goes by tiles names).
ghost use Rattle.std.specs.Prelude.{◌≡◌, map, ◌/◌, pos, length};
ghost use Rattle.octets.specs.Numbers.{signed};
ghost use Rattle.octets.specs.Search.{any};
ghost use Rattle.octets.specs.Texts.{spell};
ghost use Rattle.pack.specs.Tables.{matrix_of, matrices_of, tile_of, tiles_in, pack_in};
ghost use Rattle.rules.specs.Tiles.{of441, of541, of551, off_grid, placed};
ghost use Rattle.rules.specs.Codes.{table_of, judged};
ghost use Rattle.seek.specs.Tests.{matrix_passes};
ghost use Rattle.index.specs.declared.Kind.TheVariants.{Level, MatrixName};
ghost use Rattle.index.specs.Keys.{Indexes, Shelves, Confines};
ghost use Rattle.judge.specs.Axes.{off_along, of_placed};

use crate::contents::unless_tiles_name;
use crate::judgments::{fault_if, partner_of, unless_found};
use crate::matrices::first_level;
use crate::{Axis, Ready};
use index::{Index, Key};
use listing::MatrixTable;
use octets::Name;
use pack::{CONTENTS, MATRICES, MatrixRow, NAMES, Tables, TileRow};
use rules::Judgment;
use seek::MatrixTest;

pub fn of_441(matrices: &[u8], names: &[u8], index: Index, t: TileRow) -> Judgment
    requires { Indexes Level matrices.now names.now index.work.now index.heads (length matrices.now / 64) }
    ensures { result ≡ of441 (matrices_of matrices.now names.now) (tile_of names.now t) }
{
    let n = matrices.len() / (MatrixTable::ROW as usize);
    unless_found(first_level(matrices, names, index, t.name, t.zoom), n)
}

#[tactic(auto, unfolding(rules::specs::Tiles::of541, pack::specs::Tables::tile_of))]
pub fn of_541(tables: Tables, names: &[u8], t: TileRow, i: usize) -> Judgment
    ensures { result ≡ of541 (tiles_in tables.entry.form (map (λ x. x.now) tables.entry.slices) names.now) (tile_of names.now t) i }
{
    partner_of(seek::first_at(tables, names, t, i), i)
}

// Whether a matrix row passes a test for its name.
fn has_level(matrices: &[u8], names: &[u8], index: Index, x: Name, test: MatrixTest) -> bool
    requires shelves { Shelves MatrixName matrices.now names.now index.work.now index.heads (length matrices.now / 64) }
    requires confines { Confines MatrixName matrices.now names.now (spell names.now x, pos 0, pos 0, pos 0) (λ k. matrix_passes names.now test ((matrices_of matrices.now names.now).row k)) }
    ensures { result ≡ any (λ k. matrix_passes names.now test ((matrices_of matrices.now names.now).row k)) (length matrices.now / 64) }
{
    let n = matrices.len() / (MatrixTable::ROW as usize);
    let key = Key::MatrixName(x);
    index.lowest(matrices, names, key, test) < n
}

// 551 of a tile whose level has no row: its zoom is outside those of its name's matrix rows.
fn of_range(matrices: &[u8], names: &[u8], index: Index, t: TileRow) -> Judgment
    requires { Shelves MatrixName matrices.now names.now index.work.now index.heads (length matrices.now / 64) }
    ensures { result ≡ of551 (matrices_of matrices.now names.now) (tile_of names.now t) }
{
    let name = t.name;
    fault_if(
        has_level(matrices, names, index, name, MatrixTest::Named(name))
            && !(has_level(matrices, names, index, name, MatrixTest::AtMost(t))
                && has_level(matrices, names, index, name, MatrixTest::AtLeast(t))),
    )
}

// A tile whose name and zoom have a matrix row is inside, so the range is looked for only where there is none.
pub fn of_551(matrices: &[u8], names: &[u8], levels: Index, shelf: Index, t: TileRow) -> Judgment
    requires indexes { Indexes Level matrices.now names.now levels.work.now levels.heads (length matrices.now / 64) }
    requires shelves { Shelves MatrixName matrices.now names.now shelf.work.now shelf.heads (length matrices.now / 64) }
    ensures { result ≡ of551 (matrices_of matrices.now names.now) (tile_of names.now t) }
{
    let n = matrices.len() / (MatrixTable::ROW as usize);
    if first_level(matrices, names, levels, t.name, t.zoom) < n {
        return None;
    }
    of_range(matrices, names, shelf, t)
}

// ---- 561, 571: k is the first matrix row of the tile's name and zoom

#[tactic(auto, unfolding(rules::specs::Tiles::off_grid))]
fn is_off(place: u64, size: u64) -> bool
    ensures { result ≡ off_grid (signed place) (signed size) }
{
    octets::is_less(place, 0) || !octets::is_less(place, size)
}

#[tactic(auto, unfolding(pack::specs::Tables::matrix_of, rules::specs::Tiles::off561, rules::specs::Tiles::off571, pack::specs::Tables::tile_of))]
fn is_off_along(names: &[u8], along: Axis, t: TileRow, q: MatrixRow) -> bool
    ensures { result ≡ off_along along (tile_of names.now t) (matrix_of names.now q) }
{
    match along {
        Axis::X => is_off(t.column, q.width),
        Axis::Y => is_off(t.row, q.height),
    }
}

pub fn placed(matrices: &[u8], names: &[u8], along: Axis, t: TileRow, k: usize) -> Judgment
    ensures { result ≡ placed (off_along along) (matrices_of matrices.now names.now) (tile_of names.now t) k }
{
    let n = matrices.len() / (MatrixTable::ROW as usize);
    fault_if(k < n && is_off_along(names, along, t, pack::matrix_at(matrices, k)))
}

#[tactic(auto, unfolding(pack::specs::Tables::tile_of))]
pub fn of_placed(matrices: &[u8], names: &[u8], index: Index, along: Axis, t: TileRow) -> Judgment
    requires { Indexes Level matrices.now names.now index.work.now index.heads (length matrices.now / 64) }
    ensures { result ≡ of_placed along (matrices_of matrices.now names.now) (tile_of names.now t) }
{
    let k = first_level(matrices, names, index, t.name, t.zoom);
    placed(matrices, names, along, t, k)
}

// What the rule of a code says of a tile.
#[tactic(auto, unfolding(rules::specs::Codes::judged, crate::specs::Plans::plan_of, rules::specs::Tiles::of341, rules::specs::Tiles::of561, rules::specs::Tiles::of571, pack::specs::Tables::tile_of))]
pub fn judge_tile(ready: Ready, i: usize) -> Judgment
    requires { table_of ready.code ≡ 5 }
    ensures { result ≡ judged (pack_in ready.entry.tables.form (map (λ x. x.now) ready.entry.tables.slices)) ready.entry.code i }
{
    let tables = ready.tables;
    let index = ready.first;
    let matrices = tables.slice_of(MATRICES);
    let names = tables.slice_of(NAMES);
    let t = tables.tile_at(i);
    match ready.code {
        341 => unless_tiles_name(tables.slice_of(CONTENTS), names, index, t.name),
        441 => of_441(matrices, names, index, t),
        541 => of_541(tables, names, t, i),
        551 => of_551(matrices, names, index, ready.second, t),
        561 => of_placed(matrices, names, index, Axis::X, t),
        571 => of_placed(matrices, names, index, Axis::Y, t),
        _ => None,
    }
}
