// One character, by Table 3-7.
ghost use Rattle.std.specs.Prelude.{◌≡◌, true, [], ◌∷◌, ◌+◌, ◌<◌, length, get_or, drop};
ghost use Rattle.utf8.specs.Utf8.{size};
ghost use Rattle.utf8.specs.CharacterLaws.{NeverFirst, continuation};
ghost use Rattle.utf8.specs.StepLaws.{second};

#[tactic(auto, unfolding(crate::specs::Utf8::in_range))]
pub fn is_continuation(x: u8) -> bool
    ensures { result ≡ continuation x }
{
    (0x80..=0xBF).contains(&x)
}

// Whether b may follow a, a first octet from E0 to F4.
#[tactic(auto, unfolding(crate::specs::StepLaws::second, crate::specs::Utf8::in_range))]
fn is_second(a: u8, b: u8) -> bool
    ensures { result ≡ second a b }
{
    match a {
        0xE0 => (0xA0..=0xBF).contains(&b),
        0xED => (0x80..=0x9F).contains(&b),
        0xF0 => (0x90..=0xBF).contains(&b),
        0xF4 => (0x80..=0x8F).contains(&b),
        _ => is_continuation(b),
    }
}

// The octets of the character that four octets begin with, or 0, as `size` has it.
#[tactic(auto, using(crate::proofs::Laws::sizes))]
fn size_of(a: u8, b: u8, c: u8, d: u8) -> usize
    ensures { result ≡ size (a ∷ b ∷ c ∷ d ∷ []) }
{
    match a {
        0x00..=0x7F => 1,
        0xC2..=0xDF if is_continuation(b) => 2,
        0xE0..=0xEF if is_second(a, b) && is_continuation(c) => 3,
        0xF0..=0xF4 if is_second(a, b) && is_continuation(c) && is_continuation(d) => 4,
        _ => 0,
    }
}

// The octet k after a place, 0 past the end.
fn octet_after(s: &[u8], p: usize, k: usize) -> u8
    requires { p < length s.now }
    ensures { result ≡ get_or s.now (p + k) 0 }
{
    s[p..].get(k).copied().unwrap_or(0)
}

// Whether no character begins with an octet.
#[tactic(auto, using(crate::proofs::Laws::nevers))]
fn is_never_first(a: u8) -> bool
    ensures { result ≡ true → NeverFirst a }
{
    matches!(a, 0x80..=0xC1 | 0xF5..=0xFF)
}

// The octets of the character at a place, or 0. An octet that begins none is told before any other is read.
#[tactic(auto, using(crate::proofs::Laws::places))]
pub fn size_at(s: &[u8], p: usize) -> usize
    requires { p < length s.now }
    ensures { result ≡ size (drop p s.now) }
{
    if is_never_first(s[p]) {
        return 0;
    }
    size_of(
        s[p],
        octet_after(s, p, 1),
        octet_after(s, p, 2),
        octet_after(s, p, 3),
    )
}
