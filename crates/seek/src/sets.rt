// Set rows: what the rules ask of one.
ghost use Rattle.std.specs.Prelude.{◌≡◌};
ghost use Rattle.octets.specs.Texts.{spell};
ghost use Rattle.octets.specs.Numbers.{signed};
ghost use Rattle.pack.specs.Tables.{content_of, set_of};
ghost use Rattle.rules.specs.Contents.{is_id, set_named, breaks162};

use octets::Name;
use pack::{ContentsRow, SetRow};

#[tactic(auto, unfolding(rules::specs::Contents::set_named, pack::specs::Tables::set_of))]
pub fn set_named(names: &[u8], x: Name, q: SetRow) -> bool
    ensures { result ≡ set_named (spell names.now x) (set_of names.now q) }
{
    octets::same_name(names, x, q.name)
}

// The srs_id of a contents row is there, and is this one.
#[tactic(auto, unfolding(pack::specs::Tables::content_of))]
fn is_id(names: &[u8], c: ContentsRow, id: u64) -> bool
    ensures { result ≡ is_id (content_of names.now c).srs_id (signed id) }
{
    c.present_srs_id()
        .is_some_and(|own| octets::is_equal(own, id))
}

#[tactic(auto, unfolding(rules::specs::Contents::breaks162, pack::specs::Tables::set_of, pack::specs::Tables::content_of))]
pub fn breaks_162(names: &[u8], c: ContentsRow, q: SetRow) -> bool
    ensures { result ≡ breaks162 (content_of names.now c) (set_of names.now q) }
{
    !is_id(names, c, q.srs_id) && set_named(names, c.name, q)
}
