// Matrix rows: what the rules ask of one, and the search for the lowest that passes a test. Numbers are asked before names.
ghost use Rattle.std.specs.Prelude.{◌≡◌};
ghost use Rattle.octets.specs.Search.{first};
ghost use Rattle.octets.specs.Texts.{spell};
ghost use Rattle.octets.specs.Numbers.{signed};
ghost use Rattle.doubles.specs.Doubles.{near, twice};
ghost use Rattle.pack.specs.Tables.{matrix_of, tile_of, matrices_of};
ghost use Rattle.rules.specs.Matrices.{matrix_named, at_level, near_twice, breaks351, finer, breaks531};
ghost use Rattle.rules.specs.Tiles.{at_most, at_least};
ghost use Rattle.seek.specs.Tests.{matrix_passes};

use crate::MatrixTest;
use octets::Name;
use pack::{MatrixRow, TileRow};

#[tactic(auto, unfolding(rules::specs::Matrices::matrix_named, pack::specs::Tables::matrix_of))]
pub fn matrix_named(names: &[u8], x: Name, q: MatrixRow) -> bool
    ensures { result ≡ matrix_named (spell names.now x) (matrix_of names.now q) }
{
    octets::same_name(names, x, q.name)
}

#[tactic(auto, unfolding(rules::specs::Matrices::at_level, pack::specs::Tables::matrix_of))]
pub fn at_level(names: &[u8], x: Name, zoom: u64, q: MatrixRow) -> bool
    ensures { result ≡ at_level (spell names.now x) (signed zoom) (matrix_of names.now q) }
{
    octets::is_equal(zoom, q.zoom) && matrix_named(names, x, q)
}

// ---- 551

#[tactic(auto, unfolding(rules::specs::Tiles::at_most, pack::specs::Tables::matrix_of, pack::specs::Tables::tile_of))]
fn at_most(names: &[u8], t: TileRow, q: MatrixRow) -> bool
    ensures { result ≡ at_most (tile_of names.now t) (matrix_of names.now q) }
{
    !octets::is_less(t.zoom, q.zoom) && matrix_named(names, t.name, q)
}

#[tactic(auto, unfolding(rules::specs::Tiles::at_least, pack::specs::Tables::matrix_of, pack::specs::Tables::tile_of))]
fn at_least(names: &[u8], t: TileRow, q: MatrixRow) -> bool
    ensures { result ≡ at_least (tile_of names.now t) (matrix_of names.now q) }
{
    !octets::is_less(q.zoom, t.zoom) && matrix_named(names, t.name, q)
}

// ---- 351

fn is_near_twice(a: f64, b: f64) -> bool
    ensures { result ≡ near a (twice b) }
{
    doubles::is_near(a, doubles::doubled(b))
}

#[tactic(auto, unfolding(rules::specs::Matrices::near_twice, pack::specs::Tables::matrix_of))]
fn near_twice(names: &[u8], m: MatrixRow, q: MatrixRow) -> bool
    ensures { result ≡ near_twice (matrix_of names.now m) (matrix_of names.now q) }
{
    is_near_twice(q.pixel_x, m.pixel_x) && is_near_twice(q.pixel_y, m.pixel_y)
}

#[tactic(auto, unfolding(rules::specs::Matrices::breaks351, pack::specs::Tables::matrix_of))]
fn breaks_351(names: &[u8], m: MatrixRow, q: MatrixRow) -> bool
    ensures { result ≡ breaks351 (matrix_of names.now m) (matrix_of names.now q) }
{
    octets::is_next(q.zoom, m.zoom) && !near_twice(names, m, q) && matrix_named(names, m.name, q)
}

// ---- 531

#[tactic(auto, unfolding(rules::specs::Matrices::finer, pack::specs::Tables::matrix_of))]
fn is_finer(names: &[u8], m: MatrixRow, q: MatrixRow) -> bool
    ensures { result ≡ finer (matrix_of names.now m) (matrix_of names.now q) }
{
    doubles::is_finer(m.pixel_x, q.pixel_x) && doubles::is_finer(m.pixel_y, q.pixel_y)
}

// A search has it in its loop: as a call for every two matrices of a name it takes twice the time, since each row goes through memory.
#[inline(always)]
#[tactic(auto, unfolding(rules::specs::Matrices::breaks531, pack::specs::Tables::matrix_of))]
pub fn breaks_531(names: &[u8], m: MatrixRow, q: MatrixRow) -> bool
    ensures { result ≡ breaks531 (matrix_of names.now m) (matrix_of names.now q) }
{
    octets::is_less(q.zoom, m.zoom) && !is_finer(names, m, q) && matrix_named(names, m.name, q)
}

pub fn matrix_passes(names: &[u8], test: MatrixTest, q: MatrixRow) -> bool
    ensures { result ≡ matrix_passes names.now test (matrix_of names.now q) }
{
    match test {
        MatrixTest::Named(x) => matrix_named(names, x, q),
        MatrixTest::Level { name, zoom } => at_level(names, name, zoom, q),
        MatrixTest::AtMost(t) => at_most(names, t, q),
        MatrixTest::AtLeast(t) => at_least(names, t, q),
        MatrixTest::Breaks351(m) => breaks_351(names, m, q),
        MatrixTest::Breaks531(m) => breaks_531(names, m, q),
    }
}

// The lowest of the first n matrix rows that passes, or n.
pub fn first_matrix(matrices: &[u8], names: &[u8], test: MatrixTest, n: usize) -> usize
    ensures { result ≡ first (λ j. matrix_passes names.now test ((matrices_of matrices.now names.now).row j)) n }
{
    octets::first(
        0..n,
        |j| matrix_passes(names, test, pack::matrix_at(matrices, j)),
    )
}
