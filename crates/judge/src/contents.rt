// The rules on contents: 131, 151, 161, 162, 171, 401; and tiles names: 341, 391, 431.
ghost use Rattle.std.specs.Prelude.{◌≡◌, map, not, ◌/◌, length};
ghost use Rattle.octets.specs.Texts.{spell};
ghost use Rattle.pack.specs.Tables.{content_of, contents_of, references_of, sets_of, pack_in};
ghost use Rattle.rules.specs.Judgments.{fault_if};
ghost use Rattle.rules.specs.Contents.{is_tiles_name, of131, of151, of161, of162, none171, of401};
ghost use Rattle.rules.specs.Codes.{table_of, judged};
ghost use Rattle.index.specs.declared.Kind.TheVariants.{TilesName, SetName};
ghost use Rattle.index.specs.Keys.{Indexes};

use crate::Ready;
use crate::judgments::{fault_if, partner_of, unless_found};
use crate::references::lacks_id;
use crate::sets::first_named;
use index::{Index, Key};
use listing::{ContentsTable, SetTable};
use octets::Name;
use pack::{CONTENTS, ContentsRow, NAMES, REFERENCES, SETS};
use rules::Judgment;

#[tactic(auto, unfolding(pack::specs::Tables::content_of, rules::specs::Contents::of131))]
pub fn of_131(contents: &[u8], names: &[u8], c: ContentsRow, i: usize) -> Judgment
    ensures { result ≡ of131 (contents_of contents.now names.now) (content_of names.now c) i }
{
    partner_of(seek::first_content_named(contents, names, c.name, i), i)
}

#[tactic(auto, unfolding(pack::specs::Tables::content_of, rules::specs::Contents::of151))]
pub fn of_151(names: &[u8], c: ContentsRow) -> Judgment
    ensures { result ≡ of151 (content_of names.now c) }
{
    fault_if(!spelling::dates::is_date(octets::spelled(names, c.last_change)))
}

#[tactic(auto, unfolding(pack::specs::Tables::content_of, rules::specs::References::lacks_id, rules::specs::Contents::of161))]
pub fn of_161(references: &[u8], names: &[u8], c: ContentsRow) -> Judgment
    ensures { result ≡ of161 (references_of references.now names.now) (content_of names.now c) }
{
    lacks_id(references, names, c.present_srs_id()?)
}

// Every row of both tables is met.
pub fn of_162(sets: &[u8], names: &[u8], c: ContentsRow) -> Judgment
    ensures { result ≡ of162 (sets_of sets.now names.now) (content_of names.now c) }
{
    if !seek::is_of_type(names, b"tiles", c) {
        return None;
    }
    let n = sets.len() / (SetTable::ROW as usize);
    let first = octets::first(0..n, |k| seek::breaks_162(names, c, pack::set_at(sets, k)));
    partner_of(first, n)
}

pub fn none_171(contents: &[u8], names: &[u8]) -> Judgment
    ensures { result ≡ none171 (contents_of contents.now names.now) }
{
    let n = contents.len() / (ContentsTable::ROW as usize);
    unless_found(seek::first_map(contents, names, n), n)
}

pub fn of_401(sets: &[u8], names: &[u8], index: Index, c: ContentsRow) -> Judgment
    requires { Indexes SetName sets.now names.now index.work.now index.heads (length sets.now / 48) }
    ensures { result ≡ of401 (sets_of sets.now names.now) (content_of names.now c) }
{
    if !seek::is_of_type(names, b"tiles", c) {
        return None;
    }
    let n = sets.len() / (SetTable::ROW as usize);
    unless_found(first_named(sets, names, index, c.name), n)
}

// ---- tiles names

fn is_tiles_name(contents: &[u8], names: &[u8], index: Index, x: Name) -> bool
    requires { Indexes TilesName contents.now names.now index.work.now index.heads (length contents.now / 40) }
    ensures { result ≡ is_tiles_name (contents_of contents.now names.now) (spell names.now x) }
{
    let n = contents.len() / (ContentsTable::ROW as usize);
    index.find(contents, names, Key::TilesName(x)) < n
}

// 341, 391, 431: by the name of the row.
pub fn unless_tiles_name(contents: &[u8], names: &[u8], index: Index, x: Name) -> Judgment
    requires { Indexes TilesName contents.now names.now index.work.now index.heads (length contents.now / 40) }
    ensures { result ≡ fault_if (not (is_tiles_name (contents_of contents.now names.now) (spell names.now x))) }
{
    fault_if(!is_tiles_name(contents, names, index, x))
}

// What the rule of a code says of a contents row: 171 nothing, since its finding has no row.
#[tactic(auto, unfolding(rules::specs::Codes::judged, crate::specs::Plans::plan_of))]
pub fn judge_contents(ready: Ready, i: usize) -> Judgment
    requires { table_of ready.code ≡ 2 }
    ensures { result ≡ judged (pack_in ready.entry.tables.form (map (λ x. x.now) ready.entry.tables.slices)) ready.entry.code i }
{
    let tables = ready.tables;
    let contents = tables.slice_of(CONTENTS);
    let names = tables.slice_of(NAMES);
    let c = pack::contents_at(contents, i);
    match ready.code {
        131 => of_131(contents, names, c, i),
        151 => of_151(names, c),
        161 => of_161(tables.slice_of(REFERENCES), names, c),
        162 => of_162(tables.slice_of(SETS), names, c),
        171 => None,
        401 => of_401(tables.slice_of(SETS), names, ready.first, c),
        _ => None,
    }
}
