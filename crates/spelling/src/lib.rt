// What a text must look like: dates, extension names, and words in any letter case.
#![tactic(auto)]

pub mod case;
pub mod dates;
pub mod names;
