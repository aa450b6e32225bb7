// The rules on extensions: 601, 621, 622, 641. A text is taken apart where NULL matters: it is octets, or it is NULL.
ghost use Rattle.std.specs.Prelude.{◌≡◌, map, ◌||◌};
ghost use Rattle.octets.specs.Texts.{same, octets_of};
ghost use Rattle.spelling.specs.ExtensionNames.{is_extension_name};
ghost use Rattle.spelling.specs.Words.{read_write, write_only};
ghost use Rattle.pack.specs.Tables.{extension_of, extensions_of, pack_in};
ghost use Rattle.rules.specs.Extensions.{of601, of621, of622, of641};
ghost use Rattle.rules.specs.Codes.{table_of, judged};

use crate::Ready;
use crate::judgments::{fault_if, partner_of};
use octets::Text;
use pack::{EXTENSIONS, ExtensionRow, NAMES};
use rules::Judgment;

// The names stand in what a row means; the rule does not ask for them.
#[tactic(auto, unfolding(pack::specs::Tables::extension_of, rules::specs::Extensions::of601))]
pub fn of_601(names: &[u8], e: ExtensionRow) -> Judgment
    ensures { result ≡ of601 (extension_of names.now e) }
{
    let Some(_) = e.column else {
        return None;
    };
    let Some(_) = e.table else {
        return fault_if(true);
    };
    None
}

// NULL is no name.
fn is_extension_name(names: &[u8], t: Text) -> bool
    ensures { result ≡ is_extension_name (octets_of names.now t) }
{
    let Some(name) = t else {
        return false;
    };
    spelling::names::is_extension_name(octets::spelled(names, name))
}

#[tactic(auto, unfolding(pack::specs::Tables::extension_of, rules::specs::Extensions::of621))]
pub fn of_621(names: &[u8], e: ExtensionRow) -> Judgment
    ensures { result ≡ of621 (extension_of names.now e) }
{
    fault_if(!is_extension_name(names, e.name))
}

#[tactic(auto, unfolding(rules::specs::Extensions::of622))]
pub fn of_622(extensions: &[u8], names: &[u8], e: ExtensionRow, i: usize) -> Judgment
    ensures { result ≡ of622 (extensions_of extensions.now names.now) (extension_of names.now e) i }
{
    partner_of(seek::first_equal_622(extensions, names, e, i), i)
}

fn is_scope(names: &[u8], t: Text) -> bool
    ensures { result ≡ (same (octets_of names.now t) read_write || same (octets_of names.now t) write_only) }
{
    seek::is_text(names, t, b"read-write") || seek::is_text(names, t, b"write-only")
}

#[tactic(auto, unfolding(pack::specs::Tables::extension_of, rules::specs::Extensions::of641))]
pub fn of_641(names: &[u8], e: ExtensionRow) -> Judgment
    ensures { result ≡ of641 (extension_of names.now e) }
{
    fault_if(!is_scope(names, e.scope))
}

// What the rule of a code says of an extension row.
#[tactic(auto, unfolding(rules::specs::Codes::judged))]
pub fn judge_extension(ready: Ready, i: usize) -> Judgment
    requires { table_of ready.code ≡ 6 }
    ensures { result ≡ judged (pack_in ready.entry.tables.form (map (λ x. x.now) ready.entry.tables.slices)) ready.entry.code i }
{
    let extensions = ready.tables.slice_of(EXTENSIONS);
    let names = ready.tables.slice_of(NAMES);
    let e = pack::extension_at(extensions, i);
    match ready.code {
        601 => of_601(names, e),
        621 => of_621(names, e),
        622 => of_622(extensions, names, e, i),
        641 => of_641(names, e),
        _ => None,
    }
}
