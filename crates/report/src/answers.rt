// Answers as words in a buffer.
ghost use Rattle.std.specs.Prelude.{◌≡◌, [], ◌∷◌, ◌+◌, ◌*◌, ◌≤◌, length};
ghost use Rattle.std.proofs.lemmas.List.Edits.{sets};
ghost use Rattle.findings.specs.Words.{octets_of, ruling_words, located_words};

use findings::{Located, Ruling, Verdict};
use rules::NONE;

// Words at a place of an answer, one after the other.
pub fn put_words<const N: usize>(answer: &mut [u8], at: usize, words: [usize; N])
    requires { at + 4 * N ≤ length answer.old }
    ensures { answer.new ≡ sets answer.old at (octets_of words.entry) }
{
    for k in 0..N {
        octets::put_word(answer, at + 4 * k, words[k]);
    }
}

// A refusal's number, table and row.
pub fn put_refusal(answer: &mut [u8], at: usize, number: u32, table: u32, row: u32)
    requires { at + 12 ≤ length answer.old }
    ensures { answer.new ≡ sets answer.old at (octets_of (number ∷ table ∷ row ∷ [])) }
{
    put_words(answer, at, [number as usize, table as usize, row as usize]);
}

// A verdict's five words.
pub fn put_ruling(answer: &mut [u8], v: Verdict)
    requires { 20 ≤ length answer.old }
    ensures { answer.new ≡ sets answer.old 0 (octets_of (ruling_words v)) }
{
    match v {
        Ok(Ruling::Pass) => put_words(answer, 0, [0, NONE, 0, 0, 0]),
        Ok(Ruling::Fail(row)) => put_words(answer, 0, [1, row, 0, 0, 0]),
        Ok(Ruling::NotTestable) => put_words(answer, 0, [2, NONE, 0, 0, 0]),
        Err(refusal) => {
            let number = u32::from(refusal.why) as usize;
            let table = refusal.table as usize;
            put_words(answer, 0, [3, NONE, number, table, refusal.row as usize]);
        }
    }
}

// A lookup's four words.
pub fn put_located(answer: &mut [u8], a: Located)
    requires { 16 ≤ length answer.old }
    ensures { answer.new ≡ sets answer.old 0 (octets_of (located_words a)) }
{
    match a {
        Ok(tile) => put_words(answer, 0, [tile.unwrap_or(NONE), 0, 0, 0]),
        Err(refusal) => {
            let number = u32::from(refusal.why) as usize;
            put_words(
                answer,
                0,
                [NONE, number, refusal.table as usize, refusal.row as usize],
            );
        }
    }
}
