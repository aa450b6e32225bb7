// The writer of listings: seven parts, each lent, as one listing in a lent buffer.
#![tactic(auto)]

ghost use Rattle.std.specs.Prelude.{map};
ghost use Rattle.listing.specs.Listing.{numbered};
ghost use Rattle.writer.specs.Writing.{WriteOf};

use listing::{Refusal, TABLE_COUNT};

mod parts;
mod refusals;

// Six row tables and the name octets as one listing at the front of a buffer: how many octets are written, or why none are.
pub fn write(parts: [&[u8]; TABLE_COUNT], out: &mut [u8]) -> Result<usize, Refusal>
    ensures { WriteOf (numbered (map (λ x. x.now) parts.entry)) out.old result out.new }
{
    let octets = refusals::answer(parts, out.len())?;
    parts::put_listing(parts, out);
    Ok(octets)
}
