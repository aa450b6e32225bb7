// Names of extensions.
ghost use Rattle.std.specs.Prelude.{◌≡◌};
ghost use Rattle.spelling.specs.ExtensionNames.{name_octet, is_extension_name};

#[tactic(auto, unfolding(crate::specs::ExtensionNames::name_octet, crate::specs::ExtensionNames::alphanumeric, crate::specs::Characters::between))]
fn is_name_octet(c: u8) -> bool
    ensures { result ≡ name_octet c }
{
    c == b'_' || c.is_ascii_alphanumeric()
}

pub fn is_extension_name(s: &[u8]) -> bool
    ensures { result ≡ is_extension_name s.now }
{
    let underscore = octets::first(0..s.len(), |i| s[i] == b'_');
    0 < underscore && underscore + 1 < s.len() && !octets::any(0..s.len(), |i| !is_name_octet(s[i]))
}
