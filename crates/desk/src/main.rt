// The desk program: reads one listing from standard input and prints its findings, each on a line.
#![tactic(auto)]

use rules::NONE;
use std::{fmt, io};

// The most octets of a listing, and the octets of the findings that there is room for: 1,365.
const MOST: usize = 65536;

const ROOM: usize = 16380;

// The octets of a finding: three words.
const FINDING_SIZE: usize = 12;

// A row as it is printed: its number, or "-" for none.
#[derive(Clone, Copy)]
struct Row(usize);

impl fmt::Display for Row {
    fn fmt<W: fmt::Write>(&self, f: &mut fmt::Formatter<W>) -> fmt::Result {
        match self.0 {
            NONE => f.write_str("-"),
            row => write!(f, "{row}"),
        }
    }
}

fn say_finding(rt: &impl Print, finding: &[u8]) -> io::Result<()> {
    let code = octets::u32_at(finding, 0);
    let row = Row(octets::u32_at(finding, 4) as usize);
    let partner = Row(octets::u32_at(finding, 8) as usize);
    println!(rt; "finding {code} {row} {partner}")
}

fn judge(rt: &impl Print, listing: &[u8], findings: &mut [u8], work: &mut [u8]) -> io::Result<()> {
    match report::report(listing, findings, work) {
        Ok(summary) => {
            for finding in findings.chunks_exact(FINDING_SIZE).take(summary.written) {
                say_finding(rt, finding)?;
            }
            println!(rt; "total {}", summary.total)
        }
        Err(refusal) => {
            let number = u32::from(refusal.why);
            println!(rt; "refused {number} {} {}", refusal.table, refusal.row)
        }
    }
}

fn main(rt: HostRuntime) -> io::Result<()> {
    let mut buffer = [0u8; 65537];
    let mut findings = [0u8; ROOM];
    let mut work = [0u8; 32768];
    let listing = input::read(&rt, &mut buffer)?;
    if MOST < listing.len() {
        return println!(rt; "oversize");
    }
    judge(&rt, listing, &mut findings, &mut work)
}
