// A look over a pack before its report: of which codes there is no finding.
#![tactic(auto)]

ghost use Rattle.std.specs.Prelude.{◌≡◌, map, ◌/◌, length};
ghost use Rattle.pack.specs.Rows.{Pack};
ghost use Rattle.pack.specs.Tables.{contents_of, matrices_of, tile_count, tiles_in, pack_in};
ghost use Rattle.rules.specs.Tiles.{off561, off571};
ghost use Rattle.survey.specs.Surveys.{step_at, named_at, level_at, placed_at, Quiet, Surveyed, quiet_tile, quiet_matrix, quiet_by};

use index::{Index, Kind};
use judge::Axis;
use listing::MatrixTable;
use pack::{CONTENTS, MATRICES, NAMES, Tables};

// Whether a finding was seen: 351 but for its gates, 431, 441, 561, 571.
#[derive(Clone, Copy)]
pub struct Survey {
    pub steps: bool,
    pub names: bool,
    pub levels: bool,
    pub columns: bool,
    pub rows: bool,
}

// What is seen of the tiles.
#[derive(Clone, Copy)]
struct Places {
    pub levels: bool,
    pub columns: bool,
    pub rows: bool,
}

fn see_steps(matrices: &[u8], names: &[u8], work: &mut [u8]) -> bool
    ensures { Quiet (step_at (matrices_of matrices.now names.now)) (length matrices.now / 64) result }
{
    let n = matrices.len() / (MatrixTable::ROW as usize);
    let heads = index::shelve(matrices, names, work, Kind::Level);
    let index = Index { work, heads };
    octets::any(0..n, |i| {
        let q = pack::matrix_at(matrices, i);
        let k = judge::first_step(matrices, names, index, q);
        judge::partner_of(k, n).is_some()
    })
}

fn see_names(contents: &[u8], matrices: &[u8], names: &[u8], work: &mut [u8]) -> bool
    ensures { Quiet (named_at (contents_of contents.now names.now) (matrices_of matrices.now names.now)) (length matrices.now / 64) result }
{
    let n = matrices.len() / (MatrixTable::ROW as usize);
    let heads = index::index_all(contents, names, work, Kind::TilesName);
    let index = Index { work, heads };
    octets::any(0..n, |i| {
        let q = pack::matrix_at(matrices, i);
        judge::unless_tiles_name(contents, names, index, q.name).is_some()
    })
}

fn see_tiles(tables: Tables, matrices: &[u8], names: &[u8], work: &mut [u8]) -> Places
    ensures levels_quiet { Quiet (level_at (matrices_of matrices.now names.now) (tiles_in tables.entry.form (map (λ x. x.now) tables.entry.slices) names.now)) (tile_count tables.entry.form (map (λ x. x.now) tables.entry.slices)) result.levels }
    ensures columns_quiet { Quiet (placed_at off561 (matrices_of matrices.now names.now) (tiles_in tables.entry.form (map (λ x. x.now) tables.entry.slices) names.now)) (tile_count tables.entry.form (map (λ x. x.now) tables.entry.slices)) result.columns }
    ensures rows_quiet { Quiet (placed_at off571 (matrices_of matrices.now names.now) (tiles_in tables.entry.form (map (λ x. x.now) tables.entry.slices) names.now)) (tile_count tables.entry.form (map (λ x. x.now) tables.entry.slices)) result.rows }
{
    let heads = index::index_all(matrices, names, work, Kind::Level);
    let index = Index { work, heads };
    let mut levels = false;
    let mut columns = false;
    let mut rows = false;
    for i in 0..tables.tile_count() {
        let t = tables.tile_at(i);
        let k = index.find_level(matrices, names, t.name, t.zoom);
        levels |= judge::unless_found(k, matrices.len() / (MatrixTable::ROW as usize)).is_some();
        columns |= judge::placed(matrices, names, Axis::X, t, k).is_some();
        rows |= judge::placed(matrices, names, Axis::Y, t, k).is_some();
    }
    Places {
        levels,
        columns,
        rows,
    }
}

// Looks over the pack.
pub fn look(tables: Tables, work: &mut [u8]) -> Survey
    ensures { Surveyed (pack_in tables.entry.form (map (λ x. x.now) tables.entry.slices)) result }
{
    let contents = tables.slice_of(CONTENTS);
    let matrices = tables.slice_of(MATRICES);
    let names = tables.slice_of(NAMES);
    let steps = see_steps(matrices, names, work);
    let named = see_names(contents, matrices, names, work);
    let places = see_tiles(tables, matrices, names, work);
    Survey {
        steps,
        names: named,
        levels: places.levels,
        columns: places.columns,
        rows: places.rows,
    }
}

// Nothing is known: for whoever asks for one code, and needs no look over the pack.
pub fn unknown() -> Survey
    ensures { (p : Pack) → Surveyed p result }
{
    Survey {
        steps: true,
        names: true,
        levels: true,
        columns: true,
        rows: true,
    }
}

#[tactic(auto, unfolding(crate::specs::Surveys::quiet_tile))]
fn is_quiet_tile(s: Survey, code: u32) -> bool
    ensures { result ≡ quiet_tile s code }
{
    match code {
        341 => !s.names && !s.levels,
        441 | 551 => !s.levels,
        561 => !s.columns,
        571 => !s.rows,
        _ => false,
    }
}

#[tactic(auto, unfolding(crate::specs::Surveys::quiet_matrix))]
fn is_quiet_matrix(s: Survey, code: u32) -> bool
    ensures { result ≡ quiet_matrix s code }
{
    match code {
        351 => !s.steps,
        431 => !s.names,
        _ => false,
    }
}

// Whether a code of a table has no finding on a row, as far as the survey tells. Codes and tables are numbers, as `quiet_by` has them.
#[tactic(auto, unfolding(crate::specs::Surveys::quiet_by))]
pub fn is_quiet(s: Survey, code: u32, table: u32) -> bool
    ensures { result ≡ quiet_by s code table }
{
    match table {
        5 => is_quiet_tile(s, code),
        4 => is_quiet_matrix(s, code),
        _ => false,
    }
}
