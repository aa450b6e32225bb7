// The eight calls for C. Numbers and octet buffers only; words are little-endian. docs/API.md is for their callers.
#![tactic(auto)]

ghost use Rattle.std.specs.Prelude.{◌≡◌, [], ◌∷◌, ◌≤◌, length};
ghost use Rattle.std.proofs.lemmas.List.Edits.{sets};
ghost use Rattle.octets.specs.Numbers.{signed};
ghost use Rattle.findings.specs.Words.{octets_of};
ghost use Rattle.desterlin.specs.Calls.{summary_words, ReportCall, MetadataReportCall, VerdictCall, LookupCall, written_words, WriteCall, ColumnReportCall, ColumnLookupCall, checked_words, FillCall};

use listing::Refusal;
use report::{Summary, put_words};

// A report's five words.
fn put_summary(answer: &mut [u8], a: Result<Summary, Refusal>)
    requires { 20 ≤ length answer.old }
    ensures { answer.new ≡ sets answer.old 0 (octets_of (summary_words a)) }
{
    match a {
        Ok(summary) => put_words(answer, 0, [0, 0, 0, summary.total, summary.written]),
        Err(refusal) => {
            let number = u32::from(refusal.why) as usize;
            put_words(
                answer,
                0,
                [number, refusal.table as usize, refusal.row as usize, 0, 0],
            );
        }
    }
}

// Everything that is wrong with a listing. The answer: number, table and row of a refusal, total, written.
#[unsafe(no_mangle)]
pub extern "C" fn desterlin_report(
    listing: &[u8],
    findings: &mut [u8],
    work: &mut [u8],
    answer: &mut [u8],
) -> u32
    ensures { ReportCall listing.now findings.old work.old answer.old result findings.new work.new answer.new }
{
    if answer.len() < 20 {
        return 0;
    }
    let a = report::report(listing, findings, work);
    put_summary(answer, a);
    1
}

// Everything that is wrong with the metadata of a sibling listing, beside its tile listing. The answer: as the report's.
#[unsafe(no_mangle)]
pub extern "C" fn desterlin_report_metadata<'a>(
    listing: &'a [u8],
    metadata: &'a [u8],
    findings: &mut [u8],
    work: &mut [u8],
    answer: &mut [u8],
) -> u32
    ensures { MetadataReportCall listing.now metadata.now findings.old work.old answer.old result findings.new work.new answer.new }
{
    if answer.len() < 20 {
        return 0;
    }
    let a = report::report_metadata(listing, metadata, findings, work);
    put_summary(answer, a);
    1
}

// The verdict of one code. The answer: 0 pass, 1 fail, 2 not testable, 3 refused; the row; number, table and row of a refusal.
#[unsafe(no_mangle)]
pub extern "C" fn desterlin_verdict(
    listing: &[u8],
    code: u32,
    work: &mut [u8],
    answer: &mut [u8],
) -> u32
    ensures { VerdictCall listing.now code work.old answer.old result work.new answer.new }
{
    if answer.len() < 20 {
        return 0;
    }
    let v = report::verdict(listing, code, work);
    report::put_ruling(answer, v);
    1
}

// The tile at an address. The answer: its row; number, table and row of a refusal. The address is three i64, by their patterns.
#[unsafe(no_mangle)]
pub extern "C" fn desterlin_lookup(
    listing: &[u8],
    contents_row: u32,
    zoom: u64,
    column: u64,
    row: u64,
    answer: &mut [u8],
) -> u32
    ensures { LookupCall listing.now contents_row (signed zoom) (signed column) (signed row) answer.old result answer.new }
{
    if answer.len() < 16 {
        return 0;
    }
    let a = report::lookup(listing, contents_row as usize, zoom, column, row);
    report::put_located(answer, a);
    1
}

// The writer's four words.
fn put_written(answer: &mut [u8], a: Result<usize, Refusal>)
    requires { 16 ≤ length answer.old }
    ensures { answer.new ≡ sets answer.old 0 (octets_of (written_words a)) }
{
    match a {
        Ok(octets) => put_words(answer, 0, [0, 0, 0, octets]),
        Err(refusal) => {
            let number = u32::from(refusal.why) as usize;
            put_words(
                answer,
                0,
                [number, refusal.table as usize, refusal.row as usize, 0],
            );
        }
    }
}

// Six row tables and the name octets as one listing in a buffer. The answer: number, table and row of a refusal, octets written.
#[unsafe(no_mangle)]
pub extern "C" fn desterlin_write<'a>(
    references: &'a [u8],
    contents: &'a [u8],
    sets: &'a [u8],
    matrices: &'a [u8],
    tiles: &'a [u8],
    extensions: &'a [u8],
    names: &'a [u8],
    listing: &mut [u8],
    answer: &mut [u8],
) -> u32
    ensures { WriteCall (references.now ∷ contents.now ∷ sets.now ∷ matrices.now ∷ tiles.now ∷ extensions.now ∷ names.now ∷ []) listing.old answer.old result listing.new answer.new }
{
    if answer.len() < 16 {
        return 0;
    }
    let parts = [
        references, contents, sets, matrices, tiles, extensions, names,
    ];
    let a = writer::write(parts, listing);
    put_written(answer, a);
    1
}

// A refusal's three words, or that there is none.
fn put_checked(answer: &mut [u8], said: Result<(), Refusal>)
    requires { 12 ≤ length answer.old }
    ensures { answer.new ≡ sets answer.old 0 (octets_of (checked_words said)) }
{
    match said {
        Ok(()) => put_words(answer, 0, [0, 0, 0]),
        Err(refusal) => {
            let number = u32::from(refusal.why);
            report::put_refusal(answer, 0, number, refusal.table, refusal.row);
        }
    }
}

// Four columns filled from the tiles of a listing. The answer: number, table and row of a refusal.
#[unsafe(no_mangle)]
pub extern "C" fn desterlin_fill(
    listing: &[u8],
    firsts: &mut [u8],
    zooms: &mut [u8],
    columns: &mut [u8],
    rows: &mut [u8],
    answer: &mut [u8],
) -> u32
    ensures { FillCall listing.now (firsts.old ∷ zooms.old ∷ columns.old ∷ rows.old ∷ []) answer.old result (firsts.new ∷ zooms.new ∷ columns.new ∷ rows.new ∷ []) answer.new }
{
    if answer.len() < 12 {
        return 0;
    }
    let said = columns::fill(listing, firsts, zooms, columns, rows);
    put_checked(answer, said);
    1
}

// The report on a listing with its tiles in columns. The answer is that of a report.
#[unsafe(no_mangle)]
pub extern "C" fn desterlin_report_columns<'a>(
    listing: &'a [u8],
    firsts: &'a [u8],
    zooms: &'a [u8],
    columns: &'a [u8],
    rows: &'a [u8],
    findings: &mut [u8],
    work: &mut [u8],
    answer: &mut [u8],
) -> u32
    ensures { ColumnReportCall listing.now (firsts.now ∷ zooms.now ∷ columns.now ∷ rows.now ∷ []) findings.old work.old answer.old result findings.new work.new answer.new }
{
    if answer.len() < 20 {
        return 0;
    }
    let tiles = [firsts, zooms, columns, rows];
    let a = report::report_columns(listing, tiles, findings, work);
    put_summary(answer, a);
    1
}

// The tile at an address, of tiles in columns. The answer is that of a lookup.
#[unsafe(no_mangle)]
pub extern "C" fn desterlin_lookup_columns<'a>(
    listing: &'a [u8],
    firsts: &'a [u8],
    zooms: &'a [u8],
    columns: &'a [u8],
    rows: &'a [u8],
    contents_row: u32,
    zoom: u64,
    column: u64,
    row: u64,
    answer: &mut [u8],
) -> u32
    ensures { ColumnLookupCall listing.now (firsts.now ∷ zooms.now ∷ columns.now ∷ rows.now ∷ []) contents_row (signed zoom) (signed column) (signed row) answer.old result answer.new }
{
    if answer.len() < 16 {
        return 0;
    }
    let tiles = [firsts, zooms, columns, rows];
    let a = report::lookup_columns(listing, tiles, contents_row as usize, zoom, column, row);
    report::put_located(answer, a);
    1
}
