// The report.
ghost use Rattle.std.specs.Prelude.{◌≡◌, map, ◌/◌, min};
ghost use Rattle.pack.specs.Tables.{pack_in};
ghost use Rattle.findings.specs.Findings.{findings};
ghost use Rattle.findings.specs.OrderLaws.{Numbered};
ghost use Rattle.report.specs.Promises.{Reports, ReportOf, ColumnReportOf};

use crate::walk::add_all;
use crate::{Summary, Tally};
use columns::COLUMN_COUNT;
use listing::Refusal;
use pack::Tables;

// The answer by what was counted, with so many octets for the findings.
pub fn summed_up(t: Tally, octets: usize) -> Summary
    ensures { (result.total ≡ t.total) × (result.written ≡ min t.total (octets / 4 / 3)) }
{
    Summary {
        total: t.total,
        written: t.total.min(octets / 4 / 3),
    }
}

// Every finding of some tables is counted; those that fit are written.
fn report_pack(tables: Tables, out: &mut [u8], work: &mut [u8]) -> Summary
    requires { Numbered (pack_in tables.form (map (λ x. x.now) tables.slices)) }
    ensures { Reports (findings (pack_in tables.entry.form (map (λ x. x.now) tables.entry.slices))) out.old result out.new }
{
    summed_up(add_all(tables, out, work), out.len())
}

// The report on a listing. Where the listing is refused, nothing is judged.
pub fn report(listing: &[u8], findings: &mut [u8], work: &mut [u8]) -> Result<Summary, Refusal>
    ensures { ReportOf listing.now findings.old work.old result findings.new work.new }
{
    listing::accept(listing)?;
    Ok(report_pack(pack::cut(listing), findings, work))
}

// The report on a listing with its tiles in columns.
pub fn report_columns<'a>(
    listing: &'a [u8],
    columns: [&'a [u8]; COLUMN_COUNT],
    findings: &mut [u8],
    work: &mut [u8],
) -> Result<Summary, Refusal>
    ensures { ColumnReportOf listing.now (map (λ x. x.now) columns.entry) findings.old work.old result findings.new work.new }
{
    columns::accept(listing, columns)?;
    Ok(report_pack(columns::cut(listing, columns), findings, work))
}
