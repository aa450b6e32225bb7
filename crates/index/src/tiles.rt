// Tiles by their addresses and by their names, wherever they stand: what `enter` and `find` do for rows of octets.
ghost use Rattle.std.specs.Prelude.{◌≡◌, map, ◌+◌, ◌<◌};
ghost use Rattle.octets.specs.Search.{first};
ghost use Rattle.pack.specs.Tables.{tiles_in};
ghost use Rattle.index.specs.TileKeys.{addressed, named, Addresses, AddressEntered, TileNames};

use crate::chains::{Asked, Index};
use crate::{hashes, work};
use octets::Name;
use pack::{Tables, TileRow};

// ---- addresses

// Tiles, of which the address of one is asked.
#[derive(Clone, Copy)]
struct AtAddress<'t, 'n> {
    tables: Tables<'t>,
    names: &'n [u8],
    a: TileRow,
}

impl Asked for AtAddress<'_, '_> {
    ghost passes = { λ s. addressed (tiles_in s.tables.form (map (λ x. x.now) s.tables.slices) s.names.now) s.names.now s.a };

    fn does_pass(&self, k: usize) -> bool {
        seek::at_address(self.names, self.a, self.tables.tile_at(k))
    }
}

// Enters tile i, and answers the lowest tile below it with its address, or i. As in `enter`, the octets are no Index yet.
pub fn enter_address(tables: Tables, names: &[u8], work: &mut [u8], heads: usize, i: usize) -> usize
    requires { Addresses (tiles_in tables.form (map (λ x. x.now) tables.slices) names.now) work.old heads i × (i < (tiles_in tables.form (map (λ x. x.now) tables.slices) names.now).count) }
    ensures { AddressEntered (tiles_in tables.entry.form (map (λ x. x.now) tables.entry.slices) names.now) work.new heads i result }
{
    let a = tables.tile_at(i);
    if heads == 0 {
        return seek::first_at(tables, names, a, i);
    }
    let mix = hashes::mix_of(names, a.name, a.zoom, a.column, a.row);
    let rows = AtAddress { tables, names, a };
    let r = Index { work, heads }.walk(&rows, mix, i);
    work::settle(work, heads, mix, i, r);
    r
}

// ---- names

// Tiles, of which a name is asked.
#[derive(Clone, Copy)]
struct OfName<'t, 'n> {
    tables: Tables<'t>,
    names: &'n [u8],
    x: Name,
}

impl Asked for OfName<'_, '_> {
    ghost passes = { λ s. named (tiles_in s.tables.form (map (λ x. x.now) s.tables.slices) s.names.now) s.names.now s.x };

    fn does_pass(&self, k: usize) -> bool {
        seek::tile_named(self.names, self.x, self.tables.tile_at(k))
    }
}

// Enters tile i, where there is an index. As in `enter`, the octets are no Index yet; beside `enter_address`, since a name's index keeps other facts.
fn enter_name(tables: Tables, names: &[u8], work: &mut [u8], heads: usize, i: usize)
    requires { (0 < heads) × TileNames (tiles_in tables.form (map (λ x. x.now) tables.slices) names.now) work.old heads i × (i < (tiles_in tables.form (map (λ x. x.now) tables.slices) names.now).count) }
    ensures { TileNames (tiles_in tables.entry.form (map (λ x. x.now) tables.entry.slices) names.now) work.new heads (i + 1) }
{
    let x = tables.tile_at(i).name;
    let mix = hashes::mix_of(names, x, 0, 0, 0);
    let rows = OfName { tables, names, x };
    let r = Index { work, heads }.walk(&rows, mix, i);
    work::settle(work, heads, mix, i, r);
}

// Indexes all tiles by their names, and answers how many heads the index has, 0 for none: a number, since `heads_for` is one. What it shares with `index_all` is a `for`.
pub fn index_names(tables: Tables, names: &[u8], work: &mut [u8]) -> usize
    ensures { TileNames (tiles_in tables.entry.form (map (λ x. x.now) tables.entry.slices) names.now) work.new result (tiles_in tables.entry.form (map (λ x. x.now) tables.entry.slices) names.now).count }
{
    let n = tables.tile_count();
    let heads = work::start(work, n);
    if heads == 0 {
        return heads;
    }
    for i in 0..n {
        enter_name(tables, names, work, heads, i);
    }
    heads
}

impl Index<'_> {
    // The lowest tile with a name, or the count, where all tiles are indexed by their names.
    pub fn find_name(self, tables: Tables, names: &[u8], x: Name) -> usize
        requires { TileNames (tiles_in tables.form (map (λ x. x.now) tables.slices) names.now) self.work.now self.heads (tiles_in tables.form (map (λ x. x.now) tables.slices) names.now).count }
        ensures { result ≡ first (named (tiles_in tables.entry.form (map (λ x. x.now) tables.entry.slices) names.now) names.now x) (tiles_in tables.entry.form (map (λ x. x.now) tables.entry.slices) names.now).count }
    {
        let n = tables.tile_count();
        if self.heads == 0 {
            return seek::first_of_name(tables, names, x, n);
        }
        let mix = hashes::mix_of(names, x, 0, 0, 0);
        self.walk(&OfName { tables, names, x }, mix, n)
    }
}
