// The rules on rows as the code reads them, and the rule of a code.
// A rule is given the slices that it reads, and not all tables: so its contract says which table it is on, and the survey lends two of them alone.
#![tactic(auto)]

ghost use Rattle.std.specs.Prelude.{◌≡◌, map};
ghost use Rattle.pack.specs.Tables.{pack_in};
ghost use Rattle.rules.specs.Codes.{table_of, judged, judged_none};

use pack::{CONTENTS, NAMES, REFERENCES, Tables};
use rules::Judgment;

mod contents;
mod extensions;
mod judgments;
mod matrices;
mod plans;
mod references;
mod sets;
mod tiles;

use contents::judge_contents;
use extensions::judge_extension;
use matrices::judge_matrix;
pub use plans::{Ready, prepare, prepare_more};
use references::{MINUS_ONE, judge_reference, lacks_id};
use sets::judge_set;
use tiles::judge_tile;

// For rules judged elsewhere, and for a search that finds the row by other means, as by an index.
pub use contents::unless_tiles_name;
pub use judgments::{fault_if, partner_of, unless_found};
pub use matrices::first_step;
pub use tiles::placed;

// The axis that a rule measures: 451 and 561 go by x, 452 and 571 by y. A value and no closure, since `fits_along` and `off_along`, of which contracts speak, take it.
#[derive(Clone, Copy)]
pub enum Axis {
    X,
    Y,
}

// Which index a code goes by. An enum, since `Prepared` and `PreparedMore` say by its cases what the lent octets hold.
#[derive(Clone, Copy)]
pub enum Plan {
    // none
    Plain,
    // contents by tiles name
    Names,
    // sets by name
    Sets,
    // matrices by level
    Levels,
    // 351: every matrix by level, and tiles by name
    Steps,
    // 531: every matrix by name
    Sizes,
    // 551: matrices by level, and every matrix by name
    Ranges,
}

// What the rule of the code says of row i of the code's table. Here and in the judge of each table codes are numbers: what C gives, and what `judged` takes.
pub fn judge(ready: Ready, table: u32, i: usize) -> Judgment
    requires { table ≡ table_of ready.code }
    ensures { result ≡ judged (pack_in ready.entry.tables.form (map (λ x. x.now) ready.entry.tables.slices)) ready.entry.code i }
{
    match table {
        1 => judge_reference(ready, i),
        2 => judge_contents(ready, i),
        3 => judge_set(ready, i),
        4 => judge_matrix(ready, i),
        5 => judge_tile(ready, i),
        6 => judge_extension(ready, i),
        _ => None,
    }
}

// What the rule of a code says without a row.
#[tactic(auto, unfolding(rules::specs::Codes::judged_none))]
pub fn judge_none(tables: Tables, code: u32) -> Judgment
    ensures { result ≡ judged_none (pack_in tables.entry.form (map (λ x. x.now) tables.entry.slices)) code }
{
    let references = tables.slice_of(REFERENCES);
    let names = tables.slice_of(NAMES);
    match code {
        111 => lacks_id(references, names, 4326),
        112 => lacks_id(references, names, MINUS_ONE),
        113 => lacks_id(references, names, 0),
        171 => contents::none_171(tables.slice_of(CONTENTS), names),
        _ => None,
    }
}
