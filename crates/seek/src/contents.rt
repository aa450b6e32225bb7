// Contents rows: what the rules ask of one, and the searches for the lowest.
ghost use Rattle.std.specs.Prelude.{◌≡◌};
ghost use Rattle.octets.specs.Search.{first};
ghost use Rattle.octets.specs.Texts.{spell};
ghost use Rattle.pack.specs.Tables.{content_of, contents_of};
ghost use Rattle.rules.specs.Contents.{of_type, content_named, gives_tiles, is_map};

use octets::Name;
use pack::ContentsRow;

// The row has the data_type.
#[tactic(auto, unfolding(rules::specs::Contents::of_type, pack::specs::Tables::content_of))]
pub fn is_of_type(names: &[u8], word: &[u8], c: ContentsRow) -> bool
    ensures { result ≡ of_type word.now (content_of names.now c) }
{
    octets::is_name(names, c.data_type, word)
}

// Here and in the files beside, one for each table, since `content_named` to `tile_named` are four definitions; what they share is `same_name`.
#[tactic(auto, unfolding(rules::specs::Contents::content_named, pack::specs::Tables::content_of))]
pub fn content_named(names: &[u8], x: Name, c: ContentsRow) -> bool
    ensures { result ≡ content_named (spell names.now x) (content_of names.now c) }
{
    octets::same_name(names, x, c.name)
}

// The row makes the name a tiles name.
#[tactic(auto, unfolding(rules::specs::Contents::gives_tiles, rules::specs::Contents::content_named, pack::specs::Tables::content_of))]
pub fn gives_tiles(names: &[u8], x: Name, c: ContentsRow) -> bool
    ensures { result ≡ gives_tiles (spell names.now x) (content_of names.now c) }
{
    content_named(names, x, c) && is_of_type(names, b"tiles", c)
}

#[tactic(auto, unfolding(rules::specs::Contents::is_map))]
fn is_map(names: &[u8], c: ContentsRow) -> bool
    ensures { result ≡ is_map (content_of names.now c) }
{
    is_of_type(names, b"tiles", c) || is_of_type(names, b"features", c)
}

// The lowest of the first n contents rows with the name, or n.
pub fn first_content_named(contents: &[u8], names: &[u8], x: Name, n: usize) -> usize
    ensures { result ≡ first (λ j. content_named (spell names.now x) ((contents_of contents.now names.now).row j)) n }
{
    octets::first(
        0..n,
        |j| content_named(names, x, pack::contents_at(contents, j)),
    )
}

// The lowest of the first n contents rows of a map, tiles or features, or n.
pub fn first_map(contents: &[u8], names: &[u8], n: usize) -> usize
    ensures { result ≡ first (λ j. is_map ((contents_of contents.now names.now).row j)) n }
{
    octets::first(0..n, |j| is_map(names, pack::contents_at(contents, j)))
}
