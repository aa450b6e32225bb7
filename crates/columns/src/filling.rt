// Columns filled from the tile rows of an accepted listing.
ghost use Rattle.std.specs.Prelude.{◌≡◌, [], ◌∷◌, ◌++◌, ◌+◌, ◌*◌, ◌≤◌, length};
ghost use Rattle.std.proofs.lemmas.List.Edits.{sets};
ghost use Rattle.octets.specs.Octets.{le32, word, filled};
ghost use Rattle.columns.specs.Tiles.{entry, column, FillOf};
ghost use Rattle.columns.specs.FillLaws.{Room, FilledAs};

use crate::check::is_short;
use listing::{Refusal, TileTable, Why, rows_of};

// An entry, by the lower and the upper half of its number.
fn put_entry(column: &mut [u8], i: usize, low: u32, high: u32)
    requires { 8 * i + 8 ≤ length column.old }
    ensures { column.new ≡ sets column.old (8 * i) (word low ++ word high) }
{
    octets::put_word(column, 8 * i, low as usize);
    octets::put_word(column, 8 * i + 4, high as usize);
}

// Entry i of one column, whose number stands in row i, its lower half at one place and its upper half at another.
fn copy_entry(tiles: &[u8], i: usize, low_at: usize, high_at: usize, column: &mut [u8])
    requires { (32 * i + 32 ≤ length tiles.now) × (low_at ≤ 28) × (high_at ≤ 28) × (8 * i + 8 ≤ length column.old) }
    ensures { column.new ≡ sets column.old (8 * i) (entry (le32 tiles.now (32 * i + low_at) + 4294967296 * le32 tiles.now (32 * i + high_at))) }
{
    let at = (TileTable::ROW as usize) * i;
    put_entry(
        column,
        i,
        octets::word(tiles, at + low_at),
        octets::word(tiles, at + high_at),
    );
}

// The entries of all rows. Four buffers, since they are C's, and lent to be written. The length of a name stands behind its start in a row, and before it in an entry.
fn fill_entries(
    tiles: &[u8],
    n: usize,
    firsts: &mut [u8],
    zooms: &mut [u8],
    columns: &mut [u8],
    rows: &mut [u8],
)
    requires { Room tiles.now n (length firsts.old) (length zooms.old) (length columns.old) (length rows.old) }
    ensures firsts_after { firsts.new ≡ filled (column tiles.now 0) firsts.old }
    ensures zooms_after { zooms.new ≡ filled (column tiles.now 1) zooms.old }
    ensures columns_after { columns.new ≡ filled (column tiles.now 2) columns.old }
    ensures rows_after { rows.new ≡ filled (column tiles.now 3) rows.old }
{
    for i in 0..n {
        copy_entry(tiles, i, 4, 0, firsts);
        copy_entry(tiles, i, 8, 12, zooms);
        copy_entry(tiles, i, 16, 20, columns);
        copy_entry(tiles, i, 24, 28, rows);
    }
}

fn fill_columns(
    tiles: &[u8],
    firsts: &mut [u8],
    zooms: &mut [u8],
    columns: &mut [u8],
    rows: &mut [u8],
) -> Result<(), Refusal>
    ensures { FilledAs tiles.now (firsts.old ∷ zooms.old ∷ columns.old ∷ rows.old ∷ []) result (firsts.new ∷ zooms.new ∷ columns.new ∷ rows.new ∷ []) }
{
    let n = rows_of(5, tiles);
    if is_short(n, firsts.len(), zooms.len(), columns.len(), rows.len()) {
        return Err(Refusal::new(Why::Columns, 5, 0));
    }
    fill_entries(tiles, n, firsts, zooms, columns, rows);
    Ok(())
}

// Fills the columns, or says why not.
pub fn fill(
    listing: &[u8],
    firsts: &mut [u8],
    zooms: &mut [u8],
    columns: &mut [u8],
    rows: &mut [u8],
) -> Result<(), Refusal>
    ensures { FillOf listing.now (firsts.old ∷ zooms.old ∷ columns.old ∷ rows.old ∷ []) result (firsts.new ∷ zooms.new ∷ columns.new ∷ rows.new ∷ []) }
{
    listing::accept(listing)?;
    fill_columns(listing::table_of(listing, 5), firsts, zooms, columns, rows)
}
