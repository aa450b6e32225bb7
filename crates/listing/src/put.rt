// The header that is written, from the count of each table and the octets that it takes.
ghost use Rattle.std.specs.Prelude.{◌≡◌, ◌+◌, ◌^◌, ◌≤◌, ◌<◌, length};
ghost use Rattle.std.proofs.lemmas.List.Edits.{sets};
ghost use Rattle.octets.specs.Octets.{filled};
ghost use Rattle.listing.specs.Header.{listed, start_of, two, header};

// Where a table starts, by the octets that each takes; 8 for the final end.
pub fn start_by(sizes: &[u32; 8], k: usize) -> usize
    requires { k ≤ 8 }
    ensures { (result ≡ start_of (listed sizes.now) k) × (result < 2 ^ 40) }
{
    let mut at = 64;
    for i in 0..k {
        at += sizes[i] as usize;
    }
    at
}

fn put_pair(out: &mut [u8], at: usize, x: usize, y: usize)
    requires { at + 8 ≤ length out.old }
    ensures { out.new ≡ sets out.old at (two x y) }
{
    octets::put_word(out, at, x);
    octets::put_word(out, at + 4, y);
}

// Version and total length, then the count and offset of each table, at the front of a buffer. Counts and sizes are two arrays, since `header` takes two.
pub fn put_header(out: &mut [u8], version: u32, counts: &[u32; 8], sizes: &[u32; 8])
    requires { 64 ≤ length out.old }
    ensures { out.new ≡ filled (header version (listed counts.now) (listed sizes.now)) out.old }
{
    put_pair(out, 0, version as usize, start_by(sizes, 8));
    for k in 1..8 {
        put_pair(out, 8 * k, counts[k] as usize, start_by(sizes, k));
    }
}
