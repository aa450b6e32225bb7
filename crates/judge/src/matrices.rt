// The rules on matrices: 351, 432, 451, 452, 461, 471, 481, 491, 501, 511, 521, 531 (431 goes by tiles names).
ghost use Rattle.std.specs.Prelude.{◌≡◌, map, ℕ, ◌/◌, true, not, length};
ghost use Rattle.std.proofs.Math.IntN.{suc_ℤ};
ghost use Rattle.std.specs.Int.Signed.{lt_z};
ghost use Rattle.octets.specs.Numbers.{signed, eq_z};
ghost use Rattle.octets.specs.Search.{first};
ghost use Rattle.octets.specs.Slices.{nth};
ghost use Rattle.octets.specs.Texts.{spell};
ghost use Rattle.doubles.specs.Doubles.{positive};
ghost use Rattle.pack.specs.Tables.{matrix_of, matrices_of, sets_of, tile_count, tiles_in, extensions_of, pack_in};
ghost use Rattle.rules.specs.Judgments.{fault_if, some};
ghost use Rattle.rules.specs.Matrices.{at_level, tile_named, frees, breaks351, of432, measured, of531};
ghost use Rattle.rules.specs.Codes.{table_of, judged};
ghost use Rattle.index.specs.declared.Kind.TheVariants.{Level, MatrixName, SetName};
ghost use Rattle.index.specs.Keys.{Indexes, Shelves};
ghost use Rattle.index.specs.TileKeys.{TileNames};
ghost use Rattle.judge.specs.Axes.{fits_along, of_measured};
ghost use Rattle.judge.specs.Plans.{Prepared, PreparedMore, stepped};
ghost use Rattle.judge.specs.declared.Plan.TheVariants.{Steps};

use crate::contents::unless_tiles_name;
use crate::judgments::{fault_if, partner_of, with_earlier};
use crate::sets::first_named;
use crate::{Axis, Ready};
use doubles::Extent;
use index::{Index, Key};
use listing::{ExtensionTable, MatrixTable, SetTable};
use octets::Name;
use pack::{CONTENTS, EXTENSIONS, MATRICES, MatrixRow, NAMES, SETS, Tables};
use rules::Judgment;
use seek::MatrixTest;

// ---- 351

fn has_tile(tables: Tables, names: &[u8], index: Index, x: Name) -> bool
    requires { TileNames (tiles_in tables.form (map (λ x. x.now) tables.slices) names.now) index.work.now index.heads (tile_count tables.form (map (λ x. x.now) tables.slices)) }
    ensures { result ≡ some (tile_named (spell names.now x)) (tiles_in tables.entry.form (map (λ x. x.now) tables.entry.slices) names.now) }
{
    index.find_name(tables, names, x) < tables.tile_count()
}

// An extension row frees the name from the rule.
fn is_free(extensions: &[u8], names: &[u8], x: Name) -> bool
    ensures { result ≡ some (frees (spell names.now x)) (extensions_of extensions.now names.now) }
{
    let n = extensions.len() / (ExtensionTable::ROW as usize);
    seek::first_free(extensions, names, x, n) < n
}

// The pattern of what is one below p: whatever is one below p is that.
fn one_less(p: u64) -> u64
    ensures { (a : ℕ) → eq_z (suc_ℤ (signed a)) (signed p) ≡ true → signed a ≡ signed result }
{
    p.wrapping_sub(1)
}

// The lowest matrix row that breaks 351 with a row, or the count: it is one level lower.
pub fn first_step(matrices: &[u8], names: &[u8], index: Index, q: MatrixRow) -> usize
    requires { Shelves Level matrices.now names.now index.work.now index.heads (length matrices.now / 64) }
    ensures { result ≡ first (λ j. breaks351 (matrix_of names.now q) ((matrices_of matrices.now names.now).row j)) (length matrices.now / 64) }
{
    let key = Key::Level {
        name: q.name,
        zoom: one_less(q.zoom),
    };
    let test = MatrixTest::Breaks351(q);
    index.lowest(matrices, names, key, test)
}

// Most rows break nothing, so that is asked first; and the three questions are asked one by one, since with `&&` the proof has more joins and the code is no plainer.
pub fn of_351(tables: Tables, steps: Index, tile_names: Index, q: MatrixRow) -> Judgment
    requires prepared { Prepared Steps (map (λ x. x.now) tables.slices) steps.work.now steps.heads }
    requires prepared_more { PreparedMore Steps tables.form (map (λ x. x.now) tables.slices) tile_names.work.now tile_names.heads }
    ensures { result ≡ stepped (pack_in tables.entry.form (map (λ x. x.now) tables.entry.slices)) (matrix_of (nth (map (λ x. x.now) tables.entry.slices) 6) q) }
{
    let matrices = tables.slice_of(MATRICES);
    let names = tables.slice_of(NAMES);
    let n = matrices.len() / (MatrixTable::ROW as usize);
    let k = first_step(matrices, names, steps, q);
    if n <= k {
        return None;
    }
    if is_free(tables.slice_of(EXTENSIONS), names, q.name) {
        return None;
    }
    if has_tile(tables, names, tile_names, q.name) {
        return Some(k);
    }
    None
}

// ---- 432

// The first matrix row with the name and the zoom level, or the count.
pub fn first_level(matrices: &[u8], names: &[u8], index: Index, x: Name, zoom: u64) -> usize
    requires { Indexes Level matrices.now names.now index.work.now index.heads (length matrices.now / 64) }
    ensures { result ≡ first (λ j. at_level (spell names.now x) (signed zoom) ((matrices_of matrices.now names.now).row j)) (length matrices.now / 64) }
{
    index.find_level(matrices, names, x, zoom)
}

#[tactic(auto, unfolding(pack::specs::Tables::matrix_of, rules::specs::Matrices::of432))]
pub fn of_432(matrices: &[u8], names: &[u8], index: Index, q: MatrixRow, i: usize) -> Judgment
    requires { Indexes Level matrices.now names.now index.work.now index.heads (length matrices.now / 64) }
    ensures { result ≡ of432 (matrices_of matrices.now names.now) (matrix_of names.now q) i }
{
    let key = Key::Level {
        name: q.name,
        zoom: q.zoom,
    };
    with_earlier(matrices, names, index, key, i)
}

// ---- 451, 452: k is the first set row of the matrix's name

// The names stand in what a row means; the test does not ask for them.
#[tactic(auto, unfolding(rules::specs::Matrices::fits451, rules::specs::Matrices::fits452, pack::specs::Tables::matrix_of))]
fn does_fit(names: &[u8], along: Axis, m: MatrixRow, e: Extent) -> bool
    ensures { result ≡ fits_along along (matrix_of names.now m) e }
{
    match along {
        Axis::X => doubles::spans_x(e, m.width, m.tile_width, m.pixel_x),
        Axis::Y => doubles::spans_y(e, m.height, m.tile_height, m.pixel_y),
    }
}

fn measured(sets: &[u8], names: &[u8], along: Axis, m: MatrixRow, k: usize) -> Judgment
    ensures { result ≡ measured (fits_along along) (sets_of sets.now names.now) (matrix_of names.now m) k }
{
    let n = sets.len() / (SetTable::ROW as usize);
    fault_if(k < n && !does_fit(names, along, m, pack::set_at(sets, k).extent))
}

#[tactic(auto, unfolding(pack::specs::Tables::matrix_of))]
pub fn of_measured(sets: &[u8], names: &[u8], index: Index, along: Axis, q: MatrixRow) -> Judgment
    requires { Indexes SetName sets.now names.now index.work.now index.heads (length sets.now / 48) }
    ensures { result ≡ of_measured along (sets_of sets.now names.now) (matrix_of names.now q) }
{
    let k = first_named(sets, names, index, q.name);
    measured(sets, names, along, q, k)
}

// ---- 461, 471, 481, 491, 501: by the number, and the least that it may be

pub fn if_below(least: u64, number: u64) -> Judgment
    ensures { result ≡ fault_if (lt_z (signed number) (signed least)) }
{
    fault_if(octets::is_less(number, least))
}

// ---- 511, 521: by the pixel size

pub fn unless_positive(size: f64) -> Judgment
    ensures { result ≡ fault_if (not (positive size)) }
{
    fault_if(!doubles::is_positive(size))
}

// ---- 531

#[tactic(auto, unfolding(rules::specs::Matrices::of531))]
pub fn of_531(matrices: &[u8], names: &[u8], index: Index, q: MatrixRow) -> Judgment
    requires { Shelves MatrixName matrices.now names.now index.work.now index.heads (length matrices.now / 64) }
    ensures { result ≡ of531 (matrices_of matrices.now names.now) (matrix_of names.now q) }
{
    let n = matrices.len() / (MatrixTable::ROW as usize);
    partner_of(index.lowest_531(matrices, names, q), n)
}

// What the rule of a code says of a matrix.
#[tactic(auto, unfolding(rules::specs::Codes::judged, crate::specs::Plans::plan_of, rules::specs::Matrices::of431, rules::specs::Matrices::of451, rules::specs::Matrices::of452, rules::specs::Matrices::of461, rules::specs::Matrices::of471, rules::specs::Matrices::of481, rules::specs::Matrices::of491, rules::specs::Matrices::of501, rules::specs::Matrices::of511, rules::specs::Matrices::of521, pack::specs::Tables::matrix_of))]
pub fn judge_matrix(ready: Ready, i: usize) -> Judgment
    requires { table_of ready.code ≡ 4 }
    ensures { result ≡ judged (pack_in ready.entry.tables.form (map (λ x. x.now) ready.entry.tables.slices)) ready.entry.code i }
{
    let tables = ready.tables;
    let index = ready.first;
    let sets = tables.slice_of(SETS);
    let matrices = tables.slice_of(MATRICES);
    let names = tables.slice_of(NAMES);
    let q = pack::matrix_at(matrices, i);
    match ready.code {
        351 => of_351(tables, index, ready.second, q),
        431 => unless_tiles_name(tables.slice_of(CONTENTS), names, index, q.name),
        432 => of_432(matrices, names, index, q, i),
        451 => of_measured(sets, names, index, Axis::X, q),
        452 => of_measured(sets, names, index, Axis::Y, q),
        461 => if_below(0, q.zoom),
        471 => if_below(1, q.width),
        481 => if_below(1, q.height),
        491 => if_below(1, q.tile_width),
        501 => if_below(1, q.tile_height),
        511 => unless_positive(q.pixel_x),
        521 => unless_positive(q.pixel_y),
        531 => of_531(matrices, names, index, q),
        _ => None,
    }
}
