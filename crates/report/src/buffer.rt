// Findings put into the caller's buffer, one by one.
ghost use Rattle.std.specs.Prelude.{ℕ, ◌≡◌, ◌+◌, ◌<◌, ◌^◌};
ghost use Rattle.findings.specs.Findings.{found};
ghost use Rattle.report.specs.Buffers.{finding_of, put_one, Added};
ghost use Rattle.report.specs.Walks.{Gathers};

use crate::Tally;
use rules::Judgment;

// Finding number n, where there is room for it.
fn put_finding(out: &mut [u8], n: usize, code: u32, row: usize, partner: usize)
    ensures { out.new ≡ put_one out.old n (finding_of code row partner) }
{
    if n < out.len() / 4 / 3 {
        let at = 12 * n;
        octets::put_word(out, at, code as usize);
        octets::put_word(out, at + 4, row);
        octets::put_word(out, at + 8, partner);
    }
}

// Adds what a rule says of a row: nothing, or one finding.
pub fn add(out: &mut [u8], t: Tally, code: u32, row: usize, v: Judgment) -> Tally
    requires { t.total + 1 < 2 ^ 64 }
    ensures { Added (found code row v) out.old t out.new result }
{
    let Some(partner) = v else {
        return t;
    };
    let total = t.total;
    put_finding(out, total, code, row, partner);
    if total == 0 {
        return Tally { total: 1, row };
    }
    Tally {
        total: total + 1,
        row: t.row,
    }
}

// Adds what a rule says of each of the first n rows.
pub fn add_rows<F: Fn(usize) -> Judgment>(
    out: &mut [u8],
    t: Tally,
    code: u32,
    n: usize,
    rule: F,
) -> Tally
    requires callable { (i : ℕ) → i < n → F.pre rule i }
    requires n_bound { t.total + n < 2 ^ 64 }
    ensures { Gathers (F.post rule) code n out.old t out.new result }
{
    let mut tally = t;
    for i in 0..n {
        tally = add(out, tally, code, i, rule(i));
    }
    tally
}
