// The walk over the constant table of codes, code by code and row by row.
ghost use Rattle.std.specs.Prelude.{◌≡◌, map, ◌+◌, ◌<◌, ◌^◌};
ghost use Rattle.octets.specs.Gather.{gather};
ghost use Rattle.pack.specs.Rows.{rows_in};
ghost use Rattle.pack.specs.Tables.{pack_in};
ghost use Rattle.rules.specs.Codes.{table_of};
ghost use Rattle.survey.specs.Surveys.{Surveyed};
ghost use Rattle.findings.specs.Findings.{at_row, of_code, findings};
ghost use Rattle.findings.specs.OrderLaws.{Numbered};
ghost use Rattle.report.specs.Buffers.{Added, no_tally};

use crate::Tally;
use crate::buffer::{add, add_rows};
use crate::tiles::add_541;
use judge::Ready;
use pack::{NAMES, Tables};
use rules::{CODE_COUNT, NONE};
use survey::Survey;

// The first part of the lent octets serves every table but the tiles: an index of 4,096 matrices takes all of it.
const FIRST_PART: usize = 65536;

// The findings of the first n rows of a code's table, by the indexes that the code's plan makes in the two parts of the lent octets. A code stands beside its table, since `of_code` takes both, and beside the bound of the total, which goes with n.
fn add_by_plan(
    tables: Tables,
    out: &mut [u8],
    work: &mut [u8],
    t: Tally,
    code: u32,
    table: u32,
    n: usize,
) -> Tally
    requires table_value { table ≡ table_of code }
    requires n_bound { t.total + n < 2 ^ 64 }
    ensures { Added (gather n (at_row (pack_in tables.entry.form (map (λ x. x.now) tables.entry.slices)) code)) out.old t out.new result }
{
    let split = work.len().min(FIRST_PART);
    let (first, second) = work.split_at_mut(split);
    let ready = Ready::of(tables, code, first, second);
    add_rows(out, t, code, n, |i| judge::judge(ready, table, i))
}

// The findings of a code's rows, of which its table has n. Codes and tables are numbers, as `of_code` has them. That a pack is `Numbered` stays a clause: it is known of an accepted listing's alone.
fn add_table_rows(
    tables: Tables,
    out: &mut [u8],
    work: &mut [u8],
    s: Survey,
    t: Tally,
    code: u32,
    table: u32,
    n: usize,
) -> Tally
    requires surveyed { Surveyed (pack_in tables.form (map (λ x. x.now) tables.slices)) s }
    requires table_value { table ≡ table_of code }
    requires n_value { n ≡ rows_in (pack_in tables.form (map (λ x. x.now) tables.slices)) table }
    requires n_bound { t.total + n < 2 ^ 64 }
    ensures { Added (gather n (at_row (pack_in tables.entry.form (map (λ x. x.now) tables.entry.slices)) code)) out.old t out.new result }
{
    if survey::is_quiet(s, code, table) {
        return t;
    }
    if code == 541 {
        if table == 5 {
            return add_541(tables, tables.slice_of(NAMES), out, work, t);
        }
    }
    add_by_plan(tables, out, work, t, code, table, n)
}

// The findings of a code: its table's rows, then the one without a row.
pub fn add_code(
    tables: Tables,
    out: &mut [u8],
    work: &mut [u8],
    s: Survey,
    t: Tally,
    code: u32,
    table: u32,
) -> Tally
    requires surveyed { Surveyed (pack_in tables.form (map (λ x. x.now) tables.slices)) s }
    requires numbered { Numbered (pack_in tables.form (map (λ x. x.now) tables.slices)) }
    requires table_value { table ≡ table_of code }
    requires total_bound { t.total < 2 ^ 63 }
    ensures { Added (of_code (pack_in tables.entry.form (map (λ x. x.now) tables.entry.slices)) code table) out.old t out.new result }
{
    let n = tables.rows_in(table);
    let tally = add_table_rows(tables, out, work, s, t, code, table, n);
    let v = judge::judge_none(tables, code);
    add(out, tally, code, NONE, v)
}

// The findings of every code. A loop beside the one in `notes`: a closure over codes would lend buffers, and its contract by its states is longer than the loop.
pub fn add_all(tables: Tables, out: &mut [u8], work: &mut [u8]) -> Tally
    requires { Numbered (pack_in tables.form (map (λ x. x.now) tables.slices)) }
    ensures { Added (findings (pack_in tables.entry.form (map (λ x. x.now) tables.entry.slices))) out.old no_tally out.new result }
{
    let s = survey::look(tables, work);
    let mut tally = Tally {
        total: 0,
        row: NONE,
    };
    for k in 0..CODE_COUNT {
        tally = add_code(
            tables,
            out,
            work,
            s,
            tally,
            rules::code_at(k),
            rules::table_at(k),
        );
    }
    tally
}
