// Reference rows: the search for the lowest with an srs_id.
ghost use Rattle.std.specs.Prelude.{◌≡◌};
ghost use Rattle.octets.specs.Search.{first};
ghost use Rattle.octets.specs.Numbers.{signed};
ghost use Rattle.pack.specs.Tables.{references_of};
ghost use Rattle.rules.specs.References.{has_id};

// The lowest of the first n reference rows with the srs_id, or n. The names stand in what a row means; the id does not ask for them.
pub fn first_id(references: &[u8], names: &[u8], id: u64, n: usize) -> usize
    ensures { result ≡ first (λ j. has_id (signed id) ((references_of references.now names.now).row j)) n }
{
    octets::first(
        0..n,
        |j| octets::is_equal(id, pack::reference_at(references, j).srs_id),
    )
}
