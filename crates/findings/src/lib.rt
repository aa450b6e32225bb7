// What the calls answer. The definitions are in specs/.
#![tactic(auto)]

use listing::Refusal;

// What a verdict rules, where nothing is refused.
#[derive(Clone, Copy, PartialEq, Eq)]
pub enum Ruling {
    Pass,
    Fail(usize),
    NotTestable,
}

// What a verdict answers.
pub type Verdict = Result<Ruling, Refusal>;

// What a lookup answers: the tile's row, or none.
pub type Located = Result<Option<usize>, Refusal>;
