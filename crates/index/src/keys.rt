// Keys as the code has them: of a row, and whether a row answers to one.
ghost use Rattle.std.specs.Prelude.{◌≡◌};
ghost use Rattle.index.specs.Keys.{row_count, key_of, answers_to, sure, kind_of, meaning};

use crate::{Key, Kind};
use listing::{ContentsTable, MatrixTable, SetTable};

// How many rows the table of a kind has.
pub fn count(rows: &[u8], kind: Kind) -> usize
    ensures { result ≡ row_count kind rows.now }
{
    match kind {
        Kind::Level | Kind::MatrixName => rows.len() / (MatrixTable::ROW as usize),
        Kind::TilesName | Kind::ContentName => rows.len() / (ContentsTable::ROW as usize),
        Kind::SetName => rows.len() / (SetTable::ROW as usize),
    }
}

pub fn kind_of(key: Key) -> Kind
    ensures { result ≡ kind_of key }
{
    match key {
        Key::Level { .. } => Kind::Level,
        Key::MatrixName(_) => Kind::MatrixName,
        Key::TilesName(_) => Kind::TilesName,
        Key::ContentName(_) => Kind::ContentName,
        Key::SetName(_) => Kind::SetName,
    }
}

// The key of row k. The names stand in what it means; they are not read.
#[tactic(auto, unfolding(pack::specs::Tables::matrix_of, pack::specs::Tables::content_of, pack::specs::Tables::set_of))]
pub fn key_at(rows: &[u8], names: &[u8], kind: Kind, k: usize) -> Key
    ensures { (kind_of result ≡ kind) × (meaning names.now result ≡ key_of kind rows.now names.now k) }
{
    match kind {
        Kind::Level => {
            let q = pack::matrix_at(rows, k);
            let name = q.name;
            Key::Level { name, zoom: q.zoom }
        }
        Kind::MatrixName => Key::MatrixName(pack::matrix_at(rows, k).name),
        Kind::TilesName => Key::TilesName(pack::contents_at(rows, k).name),
        Kind::ContentName => Key::ContentName(pack::contents_at(rows, k).name),
        Kind::SetName => Key::SetName(pack::set_at(rows, k).name),
    }
}

// Whether row k answers to a key.
pub fn does_answer(rows: &[u8], names: &[u8], key: Key, k: usize) -> bool
    ensures { result ≡ answers_to rows.now names.now key k }
{
    match key {
        Key::Level { name, zoom } => {
            let q = pack::matrix_at(rows, k);
            seek::at_level(names, name, zoom, q)
        }
        Key::MatrixName(x) => seek::matrix_named(names, x, pack::matrix_at(rows, k)),
        Key::TilesName(x) => seek::gives_tiles(names, x, pack::contents_at(rows, k)),
        Key::ContentName(x) => seek::content_named(names, x, pack::contents_at(rows, k)),
        Key::SetName(x) => seek::set_named(names, x, pack::set_at(rows, k)),
    }
}

// Whether every row of a kind answers to its own key.
fn is_sure(kind: Kind) -> bool
    ensures { result ≡ sure kind }
{
    !matches!(kind, Kind::TilesName)
}

// Whether row k, which has that key, answers to it.
#[tactic(auto, using(crate::proofs::KeyLaws::key_own))]
pub fn answers_itself(rows: &[u8], names: &[u8], key: Key, k: usize) -> bool
    requires { meaning names.now key ≡ key_of (kind_of key) rows.now names.now k }
    ensures { result ≡ answers_to rows.now names.now key k }
{
    is_sure(kind_of(key)) || does_answer(rows, names, key, k)
}
