// The tables of a listing as one value: an array of slices, cut once or lent one by one, and handed on whole.
ghost use Rattle.std.specs.Prelude.{◌≡◌, map, ◌≤◌, ◌<◌};
ghost use Rattle.octets.specs.Slices.{nth};
ghost use Rattle.listing.specs.Listing.{tables_in, tables_of, numbered};

use crate::Format;
use crate::header::table_in;

// How many tables there are at most.
pub const TABLE_COUNT: usize = 7;

// The tables of a listing; where its format has fewer than seven, the others are empty.
pub fn cut_in<'a>(f: Format, listing: &'a [u8]) -> [&'a [u8]; TABLE_COUNT]
    ensures { map (λ x. x.now) result ≡ tables_in f listing.now }
{
    [
        table_in(f, listing, 1),
        table_in(f, listing, 2),
        table_in(f, listing, 3),
        table_in(f, listing, 4),
        table_in(f, listing, 5),
        table_in(f, listing, 6),
        table_in(f, listing, 7),
    ]
}

// The seven of edition 1.
#[tactic(auto, unfolding(crate::specs::Listing::tables_of, crate::specs::Listing::tables_in, crate::specs::Listing::table))]
pub fn cut<'a>(listing: &'a [u8]) -> [&'a [u8]; TABLE_COUNT]
    ensures { map (λ x. x.now) result ≡ tables_of listing.now }
{
    cut_in(Format::Edition1, listing)
}

// The table at a place, as `octets::slice_of` has it of any array: the public name of it for this one.
pub fn slice_of<'a>(tables: [&'a [u8]; TABLE_COUNT], k: usize) -> &'a [u8]
    requires { k < 7 }
    ensures { result.now ≡ nth (map (λ x. x.now) tables.entry) k }
{
    tables[k]
}

// The table with a number.
pub fn table_at<'a>(tables: [&'a [u8]; TABLE_COUNT], k: usize) -> &'a [u8]
    requires { (1 ≤ k) × (k ≤ 7) }
    ensures { result.now ≡ numbered (map (λ x. x.now) tables.entry) k }
{
    slice_of(tables, k - 1)
}
