// Well-formed UTF-8: of one text, and of many texts that lie in the same octets.
#![tactic(auto)]

mod characters;
mod marks;
mod steps;
mod texts;

// `mark` and `head_of` are the two steps of `Marked::of`, for a caller that keeps marked words and makes a `Marked` of them later.
pub use marks::mark;
pub use steps::is_well_formed;
pub use texts::{Marked, head_of};

// The words that marks take: one, and two for each block of 256 octets of the most that table 7 may have.
pub const MARK_COUNT: usize = 8193;
