// Words in any letter case.
ghost use Rattle.std.specs.Prelude.{◌≡◌};
ghost use Rattle.spelling.specs.LetterCase.{in_any_case};

// The word is given in capitals.
pub fn is_in_any_case(s: &[u8], word: &[u8]) -> bool
    ensures { result ≡ in_any_case s.now word.now }
{
    s.len() == word.len() && !octets::any(0..s.len(), |i| s[i].to_ascii_uppercase() != word[i])
}
