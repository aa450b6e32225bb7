// The parts, counted and put into a buffer.
ghost use Rattle.std.specs.Prelude.{ℕ, ◌≡◌, map, ◌+◌, ◌≤◌, length};
ghost use Rattle.std.proofs.lemmas.List.Edits.{sets};
ghost use Rattle.octets.specs.Octets.{filled};
ghost use Rattle.listing.specs.Listing.{numbered};
ghost use Rattle.writer.specs.Parts.{Numbers, numbers, size_of, count_of, joined, written};
ghost use Rattle.writer.specs.PartLaws.{Sized};

use listing::{TABLE_COUNT, table_at};

// The octets of a part, as a word of the header. That parts are `Sized` stays a clause: a struct round the lent array would have to be made and proved at each step of the answer.
fn size_of(parts: [&[u8]; TABLE_COUNT], k: usize) -> u32
    requires { (1 ≤ k) × (k ≤ 7) × Sized (numbered (map (λ x. x.now) parts)) }
    ensures { result ≡ size_of (numbered (map (λ x. x.now) parts.entry)) k }
{
    table_at(parts, k).len() as u32
}

// Its rows.
fn count_of(parts: [&[u8]; TABLE_COUNT], k: usize) -> u32
    requires { (1 ≤ k) × (k ≤ 7) × Sized (numbered (map (λ x. x.now) parts)) }
    ensures { result ≡ count_of (numbered (map (λ x. x.now) parts.entry)) k }
{
    listing::rows_of(k, table_at(parts, k)) as u32
}

// One number of every part; there is no table 0.
fn numbers_of<F: Fn(usize) -> u32>(number: F) -> [u32; 8]
    requires { (k : ℕ) → 1 ≤ k → k ≤ 7 → F.pre number k }
    ensures { Numbers (F.post number) result }
{
    [
        0,
        number(1),
        number(2),
        number(3),
        number(4),
        number(5),
        number(6),
        number(7),
    ]
}

// The octets of every part, and the rows.
fn sizes_of(parts: [&[u8]; TABLE_COUNT]) -> [u32; 8]
    requires { Sized (numbered (map (λ x. x.now) parts)) }
    ensures { result ≡ numbers (size_of (numbered (map (λ x. x.now) parts.entry))) }
{
    numbers_of(|k| size_of(parts, k))
}

fn counts_of(parts: [&[u8]; TABLE_COUNT]) -> [u32; 8]
    requires { Sized (numbered (map (λ x. x.now) parts)) }
    ensures { result ≡ numbers (count_of (numbered (map (λ x. x.now) parts.entry))) }
{
    numbers_of(|k| count_of(parts, k))
}

// The octets of the listing.
pub fn length_of(parts: [&[u8]; TABLE_COUNT]) -> usize
    requires { Sized (numbered (map (λ x. x.now) parts)) }
    ensures { result ≡ length (written (numbered (map (λ x. x.now) parts.entry))) }
{
    listing::start_by(&sizes_of(parts), 8)
}

// The parts one after the other, behind the header.
fn put_parts(parts: [&[u8]; TABLE_COUNT], out: &mut [u8])
    requires { 64 + length (joined (numbered (map (λ x. x.now) parts)) 8) ≤ length out.old }
    ensures { out.new ≡ sets out.old 64 (joined (numbered (map (λ x. x.now) parts.entry)) 8) }
{
    let mut at = 64;
    for k in 1..8 {
        let part = table_at(parts, k);
        octets::put_octets(out, at, part);
        at += part.len();
    }
}

// The listing at the front of a buffer that has the room.
pub fn put_listing(parts: [&[u8]; TABLE_COUNT], out: &mut [u8])
    requires { Sized (numbered (map (λ x. x.now) parts)) × (length (written (numbered (map (λ x. x.now) parts))) ≤ length out.old) }
    ensures { out.new ≡ filled (written (numbered (map (λ x. x.now) parts.entry))) out.old }
{
    listing::put_header(out, 1, &counts_of(parts), &sizes_of(parts));
    put_parts(parts, out);
}
