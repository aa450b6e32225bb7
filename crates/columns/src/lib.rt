// Tiles in columns: filled from a listing, checked, and cut for whoever reads tiles.
#![tactic(auto)]

mod check;
mod entries;
mod filling;

pub use check::{accept, cut};
pub use filling::fill;

// The name's start and length, the zoom level, the tile column, the tile row.
pub const COLUMN_COUNT: usize = 4;
