// The rules on matrix sets: 392 (391 goes by tiles names, 411 by ids); and the search for a set of a name.
ghost use Rattle.std.specs.Prelude.{◌≡◌, map, ◌/◌, length};
ghost use Rattle.octets.specs.Search.{first};
ghost use Rattle.octets.specs.Texts.{spell};
ghost use Rattle.pack.specs.Tables.{set_of, sets_of, pack_in};
ghost use Rattle.rules.specs.Contents.{set_named};
ghost use Rattle.rules.specs.Sets.{of392};
ghost use Rattle.rules.specs.Codes.{table_of, judged};
ghost use Rattle.index.specs.declared.Kind.TheVariants.{SetName};
ghost use Rattle.index.specs.Keys.{Indexes};

use crate::Ready;
use crate::contents::unless_tiles_name;
use crate::judgments::with_earlier;
use crate::references::lacks_id;
use index::{Index, Key};
use octets::Name;
use pack::{CONTENTS, NAMES, REFERENCES, SETS, SetRow};
use rules::Judgment;

// The first set row with the name, or the count.
pub fn first_named(sets: &[u8], names: &[u8], index: Index, x: Name) -> usize
    requires { Indexes SetName sets.now names.now index.work.now index.heads (length sets.now / 48) }
    ensures { result ≡ first (λ j. set_named (spell names.now x) ((sets_of sets.now names.now).row j)) (length sets.now / 48) }
{
    index.find(sets, names, Key::SetName(x))
}

#[tactic(auto, unfolding(rules::specs::Sets::of392, pack::specs::Tables::set_of))]
pub fn of_392(sets: &[u8], names: &[u8], index: Index, q: SetRow, i: usize) -> Judgment
    requires { Indexes SetName sets.now names.now index.work.now index.heads (length sets.now / 48) }
    ensures { result ≡ of392 (sets_of sets.now names.now) (set_of names.now q) i }
{
    with_earlier(sets, names, index, Key::SetName(q.name), i)
}

// What the rule of a code says of a matrix set.
#[tactic(auto, unfolding(rules::specs::Codes::judged, crate::specs::Plans::plan_of, rules::specs::Sets::of391, rules::specs::Sets::of411, rules::specs::References::lacks_id, pack::specs::Tables::set_of))]
pub fn judge_set(ready: Ready, i: usize) -> Judgment
    requires { table_of ready.code ≡ 3 }
    ensures { result ≡ judged (pack_in ready.entry.tables.form (map (λ x. x.now) ready.entry.tables.slices)) ready.entry.code i }
{
    let tables = ready.tables;
    let sets = tables.slice_of(SETS);
    let names = tables.slice_of(NAMES);
    let q = pack::set_at(sets, i);
    match ready.code {
        391 => unless_tiles_name(tables.slice_of(CONTENTS), names, ready.first, q.name),
        392 => of_392(sets, names, ready.first, q, i),
        411 => lacks_id(tables.slice_of(REFERENCES), names, q.srs_id),
        _ => None,
    }
}
