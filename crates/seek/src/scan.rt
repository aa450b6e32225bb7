// Tiles passed by their places alone: column and row of each are read, and of tiles in columns those of eight at a time.
ghost use Rattle.std.specs.Prelude.{◌≡◌, map, ◌&&◌, ◌+◌, ◌*◌, ◌≤◌, ◌<◌, length};
ghost use Rattle.octets.specs.Counts.{one_if, Counted};
ghost use Rattle.octets.specs.Numbers.{signed, eq_z};
ghost use Rattle.octets.specs.SkipLaws.{Skipped};
ghost use Rattle.pack.specs.Tables.{tile_count};
ghost use Rattle.seek.specs.Scans.{is_entry, is_row, is_place};

use pack::{Form, TILE_COLUMNS, TILE_ROWS, TILES, Tables};

// A column and a row.
#[derive(Clone, Copy)]
pub struct Place {
    pub column: u64,
    pub row: u64,
}

// 1 where two places are the same, 0 where not.
#[tactic(auto, unfolding(octets::specs::Counts::one_if))]
fn one_if(a: Place, b: Place) -> u64
    ensures { (result ≡ one_if (eq_z (signed a.column) (signed b.column) && eq_z (signed a.row) (signed b.row))) × (result ≤ 1) }
{
    u64::from(octets::is_equal(a.column, b.column) && octets::is_equal(a.row, b.row))
}

// ---- tiles in columns

// The columns of tiles that hold their places, with n entries each.
#[derive(Clone, Copy)]
struct Entries<'a> {
    columns: &'a [u8],
    rows: &'a [u8],
    n: usize,
    ghost columns_there: { 8 * n ≤ length columns.now },
    ghost rows_there: { 8 * n ≤ length rows.now },
}

impl<'a> Entries<'a> {
    // 1 where entry i has a place, 0 where not.
    #[tactic(auto, unfolding(crate::specs::Scans::is_entry))]
    fn one(self, at: Place, i: usize) -> u64
        requires { i < self.n }
        ensures { (result ≡ one_if (is_entry self.entry.columns.now self.entry.rows.now at.column at.row i)) × (result ≤ 1) }
    {
        let place = Place {
            column: octets::long(self.columns, 8 * i),
            row: octets::long(self.rows, 8 * i),
        };
        one_if(at, place)
    }

    // How many entries have it: a sum without a branch, of which a compiler makes few steps.
    fn count(self, at: Place, start: usize, end: usize) -> u64
        requires { (start ≤ end) × (end ≤ self.n) }
        ensures { Counted (is_entry self.entry.columns.now self.entry.rows.now at.column at.row) start end result }
    {
        let mut count = 0;
        for i in start..end {
            count += self.one(at, i);
        }
        count
    }

    // An entry from start on, or n, before which none has the place: as far as eight at a time go.
    fn skip_eights(self, at: Place, start: usize) -> usize
        requires { start ≤ self.n }
        ensures { Skipped (is_entry self.entry.columns.now self.entry.rows.now at.column at.row) start self.entry.n result }
    {
        let eights = octets::first(0..(self.n - start) / 8, |e| {
            let i = start + 8 * e;
            self.count(at, i, i + 8) != 0
        });
        start + 8 * eights
    }

    // And then one by one to the entry itself, so that no other one is looked at.
    fn skip(self, at: Place, start: usize) -> usize
        requires { start ≤ self.n }
        ensures { Skipped (is_entry self.entry.columns.now self.entry.rows.now at.column at.row) start self.entry.n result }
    {
        let i = self.skip_eights(at, start);
        octets::first(i..self.n, |k| self.one(at, k) != 0)
    }
}

// ---- tiles in rows

// 1 where tile row i has a place, 0 where not. No generic function with `Entries::one`: what they share is `one_if`, and each reads elsewhere.
#[tactic(auto, unfolding(crate::specs::Scans::is_row))]
fn one_row(tiles: &[u8], at: Place, i: usize) -> u64
    requires { 32 * i + 32 ≤ length tiles.now }
    ensures { (result ≡ one_if (is_row tiles.now at.column at.row i)) × (result ≤ 1) }
{
    let place = Place {
        column: octets::long(tiles, 32 * i + 16),
        row: octets::long(tiles, 32 * i + 24),
    };
    one_if(at, place)
}

fn skip_rows(tiles: &[u8], at: Place, start: usize, n: usize) -> usize
    requires { (start ≤ n) × (32 * n ≤ length tiles.now) }
    ensures { Skipped (is_row tiles.now at.column at.row) start n result }
{
    octets::first(start..n, |i| one_row(tiles, at, i) != 0)
}

// ---- wherever tiles stand

// A tile from start on, or n, before which none has the place; n tiles are there.
fn skip_there(tables: Tables, at: Place, start: usize, n: usize) -> usize
    requires { (start ≤ n) × (n ≤ tile_count tables.form (map (λ x. x.now) tables.slices)) }
    ensures { Skipped (is_place tables.entry.form (map (λ x. x.now) tables.entry.slices) at.column at.row) start n result }
{
    match tables.form {
        Form::Rows => skip_rows(tables.slice_of(TILES), at, start, n),
        Form::Columns => {
            let columns = tables.slice_of(TILE_COLUMNS);
            let rows = tables.slice_of(TILE_ROWS);
            Entries { columns, rows, n }.skip(at, start)
        }
    }
}

// The same, whether n tiles are there or not.
pub fn skip_to_place(tables: Tables, at: Place, start: usize, n: usize) -> usize
    requires { start ≤ n }
    ensures { Skipped (is_place tables.entry.form (map (λ x. x.now) tables.entry.slices) at.column at.row) start n result }
{
    let there = n.min(tables.tile_count());
    if there < start {
        return start;
    }
    skip_there(tables, at, start, there)
}
