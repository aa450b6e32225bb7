// The constant table of the codes.
ghost use Rattle.std.specs.Prelude.{◌≡◌, ◌<◌};
ghost use Rattle.metadata.specs.Codes.{code_count, code_at, table_at};

// How many codes there are.
pub const CODE_COUNT: usize = 8;

// The codes, in the order of their findings: ten times the requirement of 000, and five. An array of them and one of their tables, which report walks: the form that document 01 names.
const CODES: [u32; CODE_COUNT] = [945, 965, 975, 985, 995, 1005, 1015, 1025];

// The table of each.
const TABLES: [u32; CODE_COUNT] = [11, 12, 12, 12, 12, 12, 12, 12];

#[tactic(auto, unfolding(crate::specs::Codes::code_at))]
pub fn code_at(k: usize) -> u32
    requires { k < code_count }
    ensures { result ≡ code_at k }
{
    CODES[k]
}

#[tactic(auto, unfolding(crate::specs::Codes::table_at))]
pub fn table_at(k: usize) -> u32
    requires { k < code_count }
    ensures { result ≡ table_at k }
{
    TABLES[k]
}
