// The rules on notes and links as the code reads them. The names stand in what a row means also where a rule does not ask for them.
ghost use Rattle.std.specs.Prelude.{◌≡◌, ◌/◌, length};
ghost use Rattle.octets.specs.Numbers.{signed};
ghost use Rattle.octets.specs.Texts.{reads};
ghost use Rattle.rules.specs.Judgments.{unless_some};
ghost use Rattle.pack.specs.Tables.{contents_of};
ghost use Rattle.index.specs.declared.Kind.TheVariants.{ContentName};
ghost use Rattle.index.specs.Keys.{Indexes};
ghost use Rattle.metadata.specs.Tables.{note_of, link_of, notes_of};
ghost use Rattle.metadata.specs.Rules.{of945, of965, of975, of985, of995, of1005, of1015, of1025, has_id, scope_of, in_contents};

use crate::{LinkRow, NoteRow, Scope, note_at, scopes};
use index::Index;
use judge::{fault_if, unless_found};
use listing::{ContentsTable, NoteTable};
use octets::Text;
use rules::{Judgment, NONE};

#[tactic(auto, unfolding(crate::specs::Tables::note_of, crate::specs::Rules::of945))]
pub fn of_945(names: &[u8], n: NoteRow) -> Judgment
    ensures { result ≡ of945 (note_of names.now n) }
{
    fault_if(!scopes::has_note_scope(octets::spelled(names, n.scope)))
}

// What a link is about.
#[tactic(auto, unfolding(crate::specs::Tables::link_of))]
fn scope_of(names: &[u8], l: LinkRow) -> Scope
    ensures { result ≡ scope_of (link_of names.now l).scope }
{
    Scope::from(octets::spelled(names, l.scope))
}

#[tactic(auto, unfolding(crate::specs::Rules::of965))]
pub fn of_965(names: &[u8], l: LinkRow) -> Judgment
    ensures { result ≡ of965 (link_of names.now l) }
{
    fault_if(scope_of(names, l).is_other())
}

// A finding where the column is NULL and is not to be, or the other way round.
pub fn of_985(names: &[u8], l: LinkRow) -> Judgment
    ensures { result ≡ of985 (link_of names.now l) }
{
    fault_if(scope_of(names, l).wants_no_column() != l.column.is_none())
}

// A finding where no contents row has the name; NULL names none.
fn in_contents(contents: &[u8], names: &[u8], index: Index, others: &[u8], t: Text) -> Judgment
    requires { Indexes ContentName contents.now names.now index.work.now index.heads (length contents.now / 40) }
    ensures { result ≡ in_contents (contents_of contents.now names.now) (reads others.now t) }
{
    let Some(name) = t else {
        return fault_if(true);
    };
    let x = octets::spelled(others, name);
    let n = contents.len() / (ContentsTable::ROW as usize);
    let k = index.find_content(contents, names, x);
    unless_found(k, n)
}

// The lent octets hold an index of the contents by name. A link that is about the whole pack names no table.
pub fn of_975(contents: &[u8], names: &[u8], index: Index, others: &[u8], l: LinkRow) -> Judgment
    requires { Indexes ContentName contents.now names.now index.work.now index.heads (length contents.now / 40) }
    ensures { result ≡ of975 (contents_of contents.now names.now) (link_of others.now l) }
{
    if scope_of(others, l).wants_no_table() {
        fault_if(l.table.is_some())
    } else {
        in_contents(contents, names, index, others, l.table)
    }
}

pub fn of_995(names: &[u8], l: LinkRow) -> Judgment
    ensures { result ≡ of995 (link_of names.now l) }
{
    fault_if(scope_of(names, l).wants_no_row() != l.present_row_id().is_none())
}

#[tactic(auto, unfolding(crate::specs::Tables::link_of, crate::specs::Rules::of1005))]
pub fn of_1005(names: &[u8], l: LinkRow) -> Judgment
    ensures { result ≡ of1005 (link_of names.now l) }
{
    fault_if(!spelling::dates::is_date(octets::spelled(names, l.timestamp)))
}

// A finding where no note has the id.
fn unless_id(notes: &[u8], names: &[u8], id: u64) -> Judgment
    ensures { result ≡ unless_some (has_id (signed id)) (notes_of notes.now names.now) }
{
    let n = notes.len() / (NoteTable::ROW as usize);
    let first = octets::first(0..n, |k| octets::is_equal(id, note_at(notes, k).id));
    unless_found(first, n)
}

#[tactic(auto, unfolding(crate::specs::Tables::link_of, crate::specs::Rules::of1015))]
pub fn of_1015(notes: &[u8], names: &[u8], l: LinkRow) -> Judgment
    ensures { result ≡ of1015 (notes_of notes.now names.now) (link_of names.now l) }
{
    unless_id(notes, names, l.file_id)
}

#[tactic(auto, unfolding(crate::specs::Tables::link_of, crate::specs::Rules::of1025))]
pub fn of_1025(notes: &[u8], names: &[u8], l: LinkRow) -> Judgment
    ensures { result ≡ of1025 (notes_of notes.now names.now) (link_of names.now l) }
{
    let parent = l.present_parent_id()?;
    if octets::is_equal(parent, l.file_id) {
        return Some(NONE);
    }
    unless_id(notes, names, parent)
}
