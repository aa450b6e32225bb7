// Rows found by their keys in near-constant time: one chained index over lent octets, for every kind of key.
#![tactic(auto)]

use octets::Name;

mod chains;
mod contents;
mod entries;
mod hashes;
mod keys;
mod levels;
mod shelf;
mod sizes;
mod tiles;
mod work;

pub use chains::Index;
pub use entries::{first_answer, index_all};
pub use keys::{count, kind_of};
pub use shelf::shelve;
pub use tiles::{enter_address, index_names};
pub use work::start;

// What is indexed beside tiles, and by which key. An enum, since `row_count`, `key_of` and `answers` of specs/Keys say of its values what they mean.
#[derive(Clone, Copy)]
pub enum Kind {
    // matrices
    Level,
    MatrixName,
    // contents rows that make their name a tiles name, and all contents rows
    TilesName,
    ContentName,
    // sets
    SetName,
}

// A key to look for. An enum, since `kind_of`, `meaning` and `KeyConfines` of specs/Keys say of its values what they mean.
#[derive(Clone, Copy)]
pub enum Key {
    Level { name: Name, zoom: u64 },
    MatrixName(Name),
    TilesName(Name),
    ContentName(Name),
    SetName(Name),
}
