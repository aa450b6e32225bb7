// The indexes that a code goes by, made in lent octets. Where they have no room, an index is the plain search.
ghost use Rattle.std.specs.Prelude.{◌≡◌, map};
ghost use Rattle.judge.specs.PlanLaws.{Prepared-prop, PreparedMore-prop};
ghost use Rattle.judge.specs.Plans.{plan_of, Prepared, PreparedMore};

use crate::Plan;
use index::{Index, Kind};
use pack::{CONTENTS, MATRICES, NAMES, SETS, Tables};

// By the code's number, as `plan_of` has it.
fn plan_of(code: u32) -> Plan
    ensures { result ≡ plan_of code }
{
    match code {
        341 | 391 | 431 => Plan::Names,
        392 | 401 | 451 | 452 => Plan::Sets,
        432 | 441 | 561 | 571 => Plan::Levels,
        351 => Plan::Steps,
        531 => Plan::Sizes,
        551 => Plan::Ranges,
        _ => Plan::Plain,
    }
}

// Makes the first index for a code, and answers how many heads it has.
pub fn prepare(tables: Tables, work: &mut [u8], code: u32) -> usize
    ensures { Prepared (plan_of code) (map (λ x. x.now) tables.entry.slices) work.new result }
{
    let contents = tables.slice_of(CONTENTS);
    let sets = tables.slice_of(SETS);
    let matrices = tables.slice_of(MATRICES);
    let names = tables.slice_of(NAMES);
    match plan_of(code) {
        Plan::Plain => 0,
        Plan::Names => index::index_all(contents, names, work, Kind::TilesName),
        Plan::Sets => index::index_all(sets, names, work, Kind::SetName),
        Plan::Levels | Plan::Ranges => index::index_all(matrices, names, work, Kind::Level),
        Plan::Steps => index::shelve(matrices, names, work, Kind::Level),
        Plan::Sizes => index::shelve(matrices, names, work, Kind::MatrixName),
    }
}

// Makes the second, and answers how many heads that one has. A function beside the first: each writes its own octets, and has its own contract.
pub fn prepare_more(tables: Tables, work: &mut [u8], code: u32) -> usize
    ensures { PreparedMore (plan_of code) tables.entry.form (map (λ x. x.now) tables.entry.slices) work.new result }
{
    let names = tables.slice_of(NAMES);
    match plan_of(code) {
        Plan::Steps => index::index_names(tables, names, work),
        Plan::Ranges => index::shelve(tables.slice_of(MATRICES), names, work, Kind::MatrixName),
        _ => 0,
    }
}

// A pack that is ready for the rule of one code: its tables, and the indexes that the code goes by.
#[derive(Clone, Copy)]
pub struct Ready<'a> {
    pub tables: Tables<'a>,
    pub code: u32,
    pub first: Index<'a>,
    pub second: Index<'a>,
    ghost prepared: { Prepared (plan_of code) (map (λ x. x.now) tables.slices) first.work.now first.heads } by { Prepared-prop (plan_of code) (map (λ x. x.now) tables.slices) first.work.now first.heads },
    ghost prepared_more: { PreparedMore (plan_of code) tables.form (map (λ x. x.now) tables.slices) second.work.now second.heads } by { PreparedMore-prop (plan_of code) tables.form (map (λ x. x.now) tables.slices) second.work.now second.heads },
}

impl<'a> Ready<'a> {
    // Makes both indexes in lent octets.
    pub fn of(
        tables: Tables<'a>,
        code: u32,
        work: &'a mut [u8],
        more_work: &'a mut [u8],
    ) -> Ready<'a>
        ensures form { result.tables.form ≡ tables.entry.form }
        ensures slices { map (λ x. x.now) result.tables.slices ≡ map (λ x. x.now) tables.entry.slices }
        ensures code { result.code ≡ code }
    {
        let heads = prepare(tables, work, code);
        let more_heads = prepare_more(tables, more_work, code);
        Ready {
            tables,
            code,
            first: Index { work, heads },
            second: Index {
                work: more_work,
                heads: more_heads,
            },
        }
    }
}
