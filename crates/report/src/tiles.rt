// 541, which goes by an index of the tiles themselves in the lent octets. Where they have no room, the index is the plain search.
ghost use Rattle.std.specs.Prelude.{map, ◌+◌, ◌<◌, ◌^◌};
ghost use Rattle.octets.specs.Gather.{gather};
ghost use Rattle.pack.specs.Tables.{tile_count, tiles_in};
ghost use Rattle.report.specs.Buffers.{Added};
ghost use Rattle.report.specs.Walks.{at541};

use crate::Tally;
use crate::buffer::add;
use pack::Tables;

// Each row is entered in its turn, and finds the lowest row below it with its address.
// A loop of its own beside `add_rows`: the rule changes the index that the next row asks, and a contract over such a closure's states is longer than the loop.
pub fn add_541(tables: Tables, names: &[u8], out: &mut [u8], work: &mut [u8], t: Tally) -> Tally
    requires { t.total + tile_count tables.form (map (λ x. x.now) tables.slices) < 2 ^ 64 }
    ensures { Added (gather (tile_count tables.entry.form (map (λ x. x.now) tables.entry.slices)) (at541 (tiles_in tables.entry.form (map (λ x. x.now) tables.entry.slices) names.now))) out.old t out.new result }
{
    let n = tables.tile_count();
    let heads = index::start(work, n);
    let mut tally = t;
    for i in 0..n {
        let k = index::enter_address(tables, names, work, heads, i);
        tally = add(out, tally, 541, i, judge::partner_of(k, i));
    }
    tally
}
