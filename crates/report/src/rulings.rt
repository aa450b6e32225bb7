// The verdict of one code.
ghost use Rattle.std.specs.Prelude.{◌≡◌, ◌<◌, map, true, MatchOption};
ghost use Rattle.listing.specs.Refusals.{outcome, is_accepted};
ghost use Rattle.pack.specs.Tables.{pack_in, pack_of};
ghost use Rattle.rules.specs.Codes.{table_of};
ghost use Rattle.findings.specs.Answers.{always_testable, without_finding, ruled};
ghost use Rattle.findings.specs.OrderLaws.{Numbered};
ghost use Rattle.report.specs.Promises.{VerdictOf};

use crate::Tally;
use crate::walk::add_code;
use findings::{Ruling, Verdict};
use listing::{Refusal, Why};
use pack::Tables;
use rules::{CODE_COUNT, NONE};

// The table that a code belongs to, where it is one of the 36.
fn table_of_code(code: u32) -> Option<u32>
    ensures { MatchOption result (table_of code ≡ 0) (λ table. (table ≡ table_of code) × (0 < table)) }
{
    let k = octets::first(0..CODE_COUNT, |k| rules::code_at(k) == code);
    if k < CODE_COUNT {
        Some(rules::table_at(k))
    } else {
        None
    }
}

// 111, 112, 113 and 171 are testable without a row. Numbers, as `always_testable` has them.
fn is_always_testable(code: u32) -> bool
    ensures { result ≡ always_testable code }
{
    matches!(code, 111 | 112 | 113 | 171)
}

// What a code without a finding answers, n being the rows of its table.
#[tactic(auto, unfolding(findings::specs::Answers::without_finding))]
fn without_finding(code: u32, n: usize) -> Ruling
    ensures { result ≡ without_finding code n }
{
    if n != 0 || is_always_testable(code) {
        Ruling::Pass
    } else {
        Ruling::NotTestable
    }
}

// The ruling of a listed code: the row of its first finding, or none.
fn rule(tables: Tables, work: &mut [u8], code: u32, table: u32) -> Ruling
    requires numbered { Numbered (pack_in tables.form (map (λ x. x.now) tables.slices)) }
    requires table_value { table ≡ table_of code }
    ensures { result ≡ ruled (pack_in tables.entry.form (map (λ x. x.now) tables.entry.slices)) code }
{
    // No finding is kept: the tally has what a verdict needs.
    let mut kept = [0u8; 1];
    let none = Tally {
        total: 0,
        row: NONE,
    };
    let t = add_code(
        tables,
        &mut kept,
        work,
        survey::unknown(),
        none,
        code,
        table,
    );
    if t.total != 0 {
        return Ruling::Fail(t.row);
    }
    without_finding(code, tables.rows_in(table))
}

fn rule_listing(listing: &[u8], work: &mut [u8], code: u32, table: u32) -> Ruling
    requires accepted { is_accepted (outcome listing.now) ≡ true }
    requires table_value { table ≡ table_of code }
    ensures { result ≡ ruled (pack_of listing.now) code }
{
    rule(pack::cut(listing), work, code, table)
}

// Pass, fail with the first row, not testable; or a refusal: 9 before the reader's.
pub fn verdict(listing: &[u8], code: u32, work: &mut [u8]) -> Verdict
    ensures { VerdictOf listing.now code work.old result work.new }
{
    let Some(table) = table_of_code(code) else {
        return Err(Refusal::new(Why::Code, 0, 0));
    };
    listing::accept(listing)?;
    Ok(rule_listing(listing, work, code, table))
}
