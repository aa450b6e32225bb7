// Texts of rows, with the octets of the names.
ghost use Rattle.std.specs.Prelude.{◌≡◌};
ghost use Rattle.octets.specs.Texts.{reads, octets_of, both_same};

use octets::{Name, Text};

// Both texts are there, and are equal. One place has one text.
pub fn same_text(names: &[u8], a: Text, b: Text) -> bool
    ensures { result ≡ both_same (reads names.now a) (reads names.now b) }
{
    let Some(x) = a else {
        return false; // NULL equals nothing
    };
    let Some(y) = b else {
        return false;
    };
    octets::same_name(names, x, y)
}

// The octets of a text; none for NULL.
pub fn text_octets(names: &[u8], t: Text) -> &[u8]
    ensures { result.now ≡ octets_of names.now t }
{
    match t {
        Some(name) => octets::spelled(names, name),
        None => &names[..0],
    }
}
