// The reasons for writing nothing, in their order.
ghost use Rattle.std.specs.Prelude.{◌≡◌, map, ◌≤◌};
ghost use Rattle.listing.specs.Listing.{numbered};
ghost use Rattle.octets.specs.Search.{first};
ghost use Rattle.writer.specs.PartLaws.{Sized};
ghost use Rattle.writer.specs.Writing.{ragged, crowded, room_answer, sized_answer, write_answer};

use crate::parts::length_of;
use listing::{Format, Refusal, TABLE_COUNT, Why, table_at};

// A part is not whole rows.
fn is_ragged(parts: [&[u8]; TABLE_COUNT], k: usize) -> bool
    requires { (1 ≤ k) × (k ≤ 7) }
    ensures { result ≡ ragged (numbered (map (λ x. x.now) parts.entry)) k }
{
    table_at(parts, k).len() % (listing::row_of(k) as usize) != 0
}

// The lowest table of such a part, or 8.
fn first_ragged(parts: [&[u8]; TABLE_COUNT]) -> usize
    ensures { result ≡ first (ragged (numbered (map (λ x. x.now) parts.entry))) 8 }
{
    octets::first(1..8, |k| is_ragged(parts, k))
}

// A part has more rows than its most.
fn is_crowded(parts: [&[u8]; TABLE_COUNT], k: usize) -> bool
    requires { (1 ≤ k) × (k ≤ 7) }
    ensures { result ≡ crowded (numbered (map (λ x. x.now) parts.entry)) k }
{
    (listing::most_of(k) as usize) < listing::rows_of(k, table_at(parts, k))
}

// The lowest table of such a part, or 8.
fn first_crowded(parts: [&[u8]; TABLE_COUNT]) -> usize
    ensures { result ≡ first (crowded (numbered (map (λ x. x.now) parts.entry))) 8 }
{
    octets::first(1..8, |k| is_crowded(parts, k))
}

// Whether the listing has room in so many octets.
fn room_answer(parts: [&[u8]; TABLE_COUNT], room: usize) -> Result<usize, Refusal>
    requires { Sized (numbered (map (λ x. x.now) parts)) }
    ensures { result ≡ room_answer (numbered (map (λ x. x.now) parts.entry)) room }
{
    let n = length_of(parts);
    if room < n {
        return Err(Refusal::new(Why::Room, 0, 0));
    }
    Ok(n)
}

// The answer to parts of whole rows, none of which has too many.
fn sized_answer(parts: [&[u8]; TABLE_COUNT], room: usize) -> Result<usize, Refusal>
    requires { Sized (numbered (map (λ x. x.now) parts)) }
    ensures { result ≡ sized_answer (numbered (map (λ x. x.now) parts.entry)) room }
{
    listing::check_rows(Format::Edition1, parts)?;
    room_answer(parts, room)
}

// The answer to parts and the octets of a buffer.
pub fn answer(parts: [&[u8]; TABLE_COUNT], room: usize) -> Result<usize, Refusal>
    ensures { result ≡ write_answer (numbered (map (λ x. x.now) parts.entry)) room }
{
    let k = first_ragged(parts);
    if k < 8 {
        return Err(Refusal::new(Why::Ragged, k as u32, 0));
    }
    let k = first_crowded(parts);
    if k < 8 {
        return Err(Refusal::new(Why::Count, k as u32, 0));
    }
    sized_answer(parts, room)
}
