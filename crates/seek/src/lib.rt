// Rows that pass a test: what the rules ask of the rows of each table, and the searches for the lowest.
#![tactic(auto)]

use octets::Name;
use pack::{MatrixRow, TileRow};

mod contents;
mod extensions;
mod matrices;
mod references;
mod scan;
mod sets;
mod tiles;

pub use contents::{content_named, first_content_named, first_map, gives_tiles, is_of_type};
pub use extensions::{first_equal_622, first_free, is_text};
pub use matrices::{at_level, breaks_531, first_matrix, matrix_named, matrix_passes};
pub use references::first_id;
pub use sets::{breaks_162, set_named};
pub use tiles::{at_address, first_at, first_of_name, tile_named};

// What a rule asks of a matrix row. An enum, since `passing` and `KeyConfines` of index/specs/Keys say of its values which rows pass.
#[derive(Clone, Copy)]
pub enum MatrixTest {
    Named(Name),
    Level { name: Name, zoom: u64 },
    AtMost(TileRow),
    AtLeast(TileRow),
    Breaks351(MatrixRow),
    Breaks531(MatrixRow),
}
