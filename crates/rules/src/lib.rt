// The rules: what they are is in specs/; here is what a judgment is, and the constant table of the codes.
#![tactic(auto)]

ghost use Rattle.std.specs.Prelude.{◌≡◌, ◌<◌};
ghost use Rattle.rules.specs.Codes.{code_count, code_at, table_at};

// No row: where a finding has no row or no partner, a verdict no row, a lookup no tile. A number and no `None`, since what callers in C read has it.
pub const NONE: usize = 4294967295;

// What a rule says of a row: nothing, or a finding with its partner or NONE.
pub type Judgment = Option<usize>;

// How many codes there are.
pub const CODE_COUNT: usize = 36;

// The codes, in the order of their findings. An array of them and one of their tables, which report and verdict walk: the form that document 01 names.
const CODES: [u32; CODE_COUNT] = [
    101, 111, 112, 113, 131, 151, 161, 162, 171, 341, 351, 391, 392, 401, 411, 431, 432, 441, 451,
    452, 461, 471, 481, 491, 501, 511, 521, 531, 541, 551, 561, 571, 601, 621, 622, 641,
];

// The table of each.
const TABLES: [u32; CODE_COUNT] = [
    1, // 101
    1, // 111
    1, // 112
    1, // 113
    2, // 131
    2, // 151
    2, // 161
    2, // 162
    2, // 171
    5, // 341
    4, // 351
    3, // 391
    3, // 392
    2, // 401
    3, // 411
    4, // 431
    4, // 432
    5, // 441
    4, // 451
    4, // 452
    4, // 461
    4, // 471
    4, // 481
    4, // 491
    4, // 501
    4, // 511
    4, // 521
    4, // 531
    5, // 541
    5, // 551
    5, // 561
    5, // 571
    6, // 601
    6, // 621
    6, // 622
    6, // 641
];

pub fn code_at(k: usize) -> u32
    requires { k < code_count }
    ensures { result ≡ code_at k }
{
    CODES[k]
}

pub fn table_at(k: usize) -> u32
    requires { k < code_count }
    ensures { result ≡ table_at k }
{
    TABLES[k]
}
