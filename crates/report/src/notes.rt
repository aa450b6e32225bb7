// The report on metadata: its walk over its own codes, and what it answers.
ghost use Rattle.std.specs.Prelude.{◌≡◌, map, ◌+◌, ◌<◌, ◌≤◌, ◌^◌};
ghost use Rattle.metadata.specs.Tables.{notebook_in};
ghost use Rattle.findings.specs.Schemes.{of_code_by, findings_of};
ghost use Rattle.findings.specs.MetadataAnswers.{metadata_scheme};
ghost use Rattle.report.specs.Buffers.{Added, no_tally};
ghost use Rattle.report.specs.WalkLaws.{Few};
ghost use Rattle.report.specs.Promises.{Reports, MetadataReportOf};

use crate::buffer::add_rows;
use crate::full::summed_up;
use crate::{Summary, Tally};
use listing::Refusal;
use metadata::{CODE_COUNT, Notebook, Ready};
use rules::NONE;

// The findings of a code: those of its table's rows. `Few` stays a clause, as `Numbered` does: it is known of an accepted listing's alone.
fn add_code(ready: Ready, out: &mut [u8], t: Tally, code: u32, table: u32) -> Tally
    requires few { Few (metadata_scheme (notebook_in (map (λ x. x.now) ready.tables.slices))) }
    requires total_bound { t.total < 2 ^ 63 }
    ensures { Added (of_code_by (metadata_scheme (notebook_in (map (λ x. x.now) ready.entry.tables.slices))) code table) out.old t out.new result }
{
    let n = ready.tables.rows_in(table);
    add_rows(out, t, code, n, |i| metadata::judge(ready, code, i))
}

// The findings of every code.
fn add_codes(ready: Ready, out: &mut [u8]) -> Tally
    requires { Few (metadata_scheme (notebook_in (map (λ x. x.now) ready.tables.slices))) }
    ensures { Added (findings_of (metadata_scheme (notebook_in (map (λ x. x.now) ready.entry.tables.slices)))) out.old no_tally out.new result }
{
    let mut tally = Tally {
        total: 0,
        row: NONE,
    };
    for k in 0..CODE_COUNT {
        tally = add_code(
            ready,
            out,
            tally,
            metadata::code_at(k),
            metadata::table_at(k),
        );
    }
    tally
}

// Every finding of some tables is counted; those that fit are written.
fn report_notes(tables: Notebook, out: &mut [u8], work: &mut [u8]) -> Summary
    requires { Few (metadata_scheme (notebook_in (map (λ x. x.now) tables.slices))) }
    ensures { Reports (findings_of (metadata_scheme (notebook_in (map (λ x. x.now) tables.entry.slices)))) out.old result out.new }
{
    summed_up(add_codes(Ready::of(tables, work), out), out.len())
}

// The report on the metadata of a sibling listing, beside its tile listing. Where either is refused, nothing is judged.
pub fn report_metadata<'a>(
    listing: &'a [u8],
    metadata: &'a [u8],
    findings: &mut [u8],
    work: &mut [u8],
) -> Result<Summary, Refusal>
    ensures { MetadataReportOf listing.now metadata.now findings.old work.old result findings.new work.new }
{
    metadata::accept(listing, metadata)?;
    Ok(report_notes(metadata::cut(listing, metadata), findings, work))
}
