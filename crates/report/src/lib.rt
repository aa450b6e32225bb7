// Report, verdict and lookup.
#![tactic(auto)]

mod answers;
mod buffer;
mod full;
mod notes;
mod rulings;
mod search;
mod tiles;
mod walk;

pub use answers::{put_located, put_refusal, put_ruling, put_words};
pub use full::{report, report_columns};
pub use notes::report_metadata;
pub use rulings::verdict;
pub use search::{lookup, lookup_columns};

// How many findings there are so far, and the row of the first, NONE before it: a number, since that is what C reads of a verdict.
// It goes beside the buffer and not in one struct with it: whoever is lent such a struct may exchange the buffer in it, and each clause would have to say that it is still the same one.
#[derive(Clone, Copy)]
pub struct Tally {
    pub total: usize,
    pub row: usize,
}

// What a report answers where nothing is refused: how many findings there are, and how many were written.
#[derive(Clone, Copy, PartialEq, Eq)]
pub struct Summary {
    pub total: usize,
    pub written: usize,
}
