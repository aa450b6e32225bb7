// A test: reads listings from standard input, each after its length as a u32, and prints for each what the reader says.
#![tactic(auto)]

use std::io;

fn say(rt: &impl Print, listing: &[u8]) -> io::Result<()> {
    match listing::accept(listing) {
        Ok(_) => println!(rt; "accepted"),
        Err(refusal) => {
            let number = u32::from(refusal.why);
            println!(rt; "refused {number} {} {}", refusal.table, refusal.row)
        }
    }
}

// One listing after the other, up to the end or one that is not whole.
fn say_each(rt: &impl Print, input: &[u8]) -> io::Result<()> {
    let mut rest = input;
    while let Some((size, after)) = rest.split_first_chunk::<4>() {
        let size = u32::from_le_bytes(*size) as usize;
        let Some((listing, others)) = after.split_at_checked(size) else {
            break;
        };
        say(rt, listing)?;
        rest = others;
    }
    Ok(())
}

fn main(rt: HostRuntime) -> io::Result<()> {
    let mut buffer = [0u8; 262144];
    say_each(&rt, input::read(&rt, &mut buffer)?)
}
