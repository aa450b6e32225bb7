// What a rule says, from a test or from the answer of a search.
ghost use Rattle.std.specs.Prelude.{◌≡◌, cond, ltb, None, Some};
ghost use Rattle.octets.specs.Search.{first};
ghost use Rattle.rules.specs.Judgments.{none, fault_if, partner};
ghost use Rattle.index.specs.Keys.{row_count, answers, kind_of, meaning, Indexes};

use index::{Index, Key};
use rules::{Judgment, NONE};

pub fn fault_if(fault: bool) -> Judgment
    ensures { result ≡ fault_if fault }
{
    fault.then_some(NONE)
}

// A finding with the partner r, where r is one of the first n rows.
#[tactic(auto, unfolding(rules::specs::Judgments::partner))]
pub fn partner_of(r: usize, n: usize) -> Judgment
    ensures { result ≡ partner r n }
{
    (r < n).then_some(r)
}

// A finding where a search for r among n rows has found none.
pub fn unless_found(r: usize, n: usize) -> Judgment
    ensures { result ≡ cond (ltb r n) None (Some none) }
{
    (n <= r).then_some(NONE)
}

// A finding with the lowest of the rows before row i that answers to a key. An index has the rows of the table; past its end it has none.
pub fn with_earlier(rows: &[u8], names: &[u8], index: Index, key: Key, i: usize) -> Judgment
    requires { Indexes (kind_of key) rows.now names.now index.work.now index.heads (row_count (kind_of key) rows.now) }
    ensures { result ≡ partner (first (answers (kind_of key) rows.now names.now (meaning names.now key)) i) i }
{
    if i <= index::count(rows, index::kind_of(key)) {
        partner_of(index.find(rows, names, key), i)
    } else {
        partner_of(index::first_answer(rows, names, key, i), i)
    }
}
