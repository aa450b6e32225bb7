// The rules on reference systems: 101, 111, 112, 113.
ghost use Rattle.std.specs.Prelude.{◌≡◌, map};
ghost use Rattle.octets.specs.Numbers.{signed};
ghost use Rattle.spelling.specs.LetterCase.{in_any_case};
ghost use Rattle.pack.specs.Tables.{reference_of, references_of, pack_in};
ghost use Rattle.rules.specs.Judgments.{fault_if};
ghost use Rattle.rules.specs.References.{of101, wrong111, of111, wrong_undefined, lacks_id};
ghost use Rattle.rules.specs.Codes.{table_of, judged};

use crate::Ready;
use crate::judgments::{fault_if, partner_of, unless_found};
use listing::ReferenceTable;
use pack::{NAMES, REFERENCES, ReferenceRow};
use rules::Judgment;

// The pattern of -1.
pub const MINUS_ONE: u64 = u64::MAX;

#[tactic(auto, unfolding(rules::specs::References::of101, pack::specs::Tables::reference_of))]
pub fn of_101(references: &[u8], names: &[u8], r: ReferenceRow, i: usize) -> Judgment
    ensures { result ≡ of101 (references_of references.now names.now) (reference_of names.now r) i }
{
    partner_of(seek::first_id(references, names, r.srs_id, i), i)
}

// ---- 111, 112, 113

// The organization is the word, given in capitals, in any letter case.
#[tactic(auto, unfolding(pack::specs::Tables::reference_of))]
fn is_organization(names: &[u8], r: ReferenceRow, word: &[u8]) -> bool
    ensures { result ≡ in_any_case (reference_of names.now r).organization word.now }
{
    spelling::case::is_in_any_case(octets::spelled(names, r.organization), word)
}

fn is_wrong_111(names: &[u8], r: ReferenceRow) -> bool
    ensures { result ≡ wrong111 (reference_of names.now r) }
{
    octets::is_equal(4326, r.srs_id)
        && !(octets::is_equal(4326, r.coordsys_id) && is_organization(names, r, b"EPSG"))
}

#[tactic(auto, unfolding(rules::specs::References::of111))]
pub fn of_111(names: &[u8], r: ReferenceRow) -> Judgment
    ensures { result ≡ of111 (reference_of names.now r) }
{
    fault_if(is_wrong_111(names, r))
}

fn is_wrong_undefined(names: &[u8], id: u64, r: ReferenceRow) -> bool
    ensures { result ≡ wrong_undefined (signed id) (reference_of names.now r) }
{
    octets::is_equal(id, r.srs_id)
        && !(octets::is_equal(id, r.coordsys_id)
            && octets::is_name(names, r.definition, b"undefined")
            && is_organization(names, r, b"NONE"))
}

// 112, 113: by the id of the undefined system.
pub fn of_undefined(names: &[u8], id: u64, r: ReferenceRow) -> Judgment
    ensures { result ≡ fault_if (wrong_undefined (signed id) (reference_of names.now r)) }
{
    fault_if(is_wrong_undefined(names, id, r))
}

// 161, 411, and 111, 112, 113 without a row: no reference row has the id.
pub fn lacks_id(references: &[u8], names: &[u8], id: u64) -> Judgment
    ensures { result ≡ lacks_id (signed id) (references_of references.now names.now) }
{
    let n = references.len() / (ReferenceTable::ROW as usize);
    unless_found(seek::first_id(references, names, id, n), n)
}

// What the rule of a code says of a reference row.
#[tactic(auto, unfolding(rules::specs::Codes::judged, rules::specs::References::of112, rules::specs::References::of113))]
pub fn judge_reference(ready: Ready, i: usize) -> Judgment
    requires { table_of ready.code ≡ 1 }
    ensures { result ≡ judged (pack_in ready.entry.tables.form (map (λ x. x.now) ready.entry.tables.slices)) ready.entry.code i }
{
    let references = ready.tables.slice_of(REFERENCES);
    let names = ready.tables.slice_of(NAMES);
    let r = pack::reference_at(references, i);
    match ready.code {
        101 => of_101(references, names, r, i),
        111 => of_111(names, r),
        112 => of_undefined(names, MINUS_ONE, r),
        113 => of_undefined(names, 0, r),
        _ => None,
    }
}
