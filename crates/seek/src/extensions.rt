// Extension rows: what the rules ask of one, and the searches for the lowest.
ghost use Rattle.std.specs.Prelude.{◌≡◌};
ghost use Rattle.octets.specs.Search.{first};
ghost use Rattle.octets.specs.Texts.{same, spell, octets_of};
ghost use Rattle.pack.specs.Tables.{extension_of, extensions_of};
ghost use Rattle.rules.specs.Matrices.{frees};
ghost use Rattle.rules.specs.Extensions.{equals622};

use octets::{Name, Text};
use pack::ExtensionRow;

// Whether a text is the given octets; NULL has none.
pub fn is_text(names: &[u8], t: Text, octets: &[u8]) -> bool
    ensures { result ≡ same (octets_of names.now t) octets.now }
{
    octets::equal(pack::text_octets(names, t), octets)
}

// 351 is not judged for the name.
#[tactic(auto, unfolding(rules::specs::Matrices::frees, pack::specs::Tables::extension_of))]
fn does_free(names: &[u8], x: Name, q: ExtensionRow) -> bool
    ensures { result ≡ frees (spell names.now x) (extension_of names.now q) }
{
    pack::same_text(names, Some(x), q.table) && is_text(names, q.name, b"gpkg_zoom_other")
}

#[tactic(auto, unfolding(rules::specs::Extensions::equals622, pack::specs::Tables::extension_of))]
fn equals_622(names: &[u8], e: ExtensionRow, q: ExtensionRow) -> bool
    ensures { result ≡ equals622 (extension_of names.now e) (extension_of names.now q) }
{
    pack::same_text(names, e.table, q.table)
        && pack::same_text(names, e.column, q.column)
        && is_text(names, e.name, pack::text_octets(names, q.name))
}

// The lowest of the first n extension rows that frees the name of 351, or n.
pub fn first_free(extensions: &[u8], names: &[u8], x: Name, n: usize) -> usize
    ensures { result ≡ first (λ j. frees (spell names.now x) ((extensions_of extensions.now names.now).row j)) n }
{
    octets::first(
        0..n,
        |j| does_free(names, x, pack::extension_at(extensions, j)),
    )
}

// The lowest of the first n extension rows that 622 takes for the same as the row e, or n.
pub fn first_equal_622(extensions: &[u8], names: &[u8], e: ExtensionRow, n: usize) -> usize
    ensures { result ≡ first (λ j. equals622 (extension_of names.now e) ((extensions_of extensions.now names.now).row j)) n }
{
    octets::first(
        0..n,
        |j| equals_622(names, e, pack::extension_at(extensions, j)),
    )
}
