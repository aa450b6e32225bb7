// Row i of a table, whichever the table: a row knows its octets, how it is read, and what stands past the last one, which no rule looks at.
ghost use Rattle.std.specs.Prelude.{◌≡◌, ℕ, List, cond, ltb, ◌+◌, ◌*◌, ◌/◌, ◌<◌, ◌≤◌, length, IsTrue};

pub trait Row: Copy {
    // How many octets a row has.
    ghost size: { ℕ };

    ghost some: { IsTrue (ltb 0 size) };

    // The row whose octets stand at a place.
    ghost read_as: { List ℕ → ℕ → Self };

    ghost blank: { Self };

    fn size() -> usize
        ensures { result ≡ size };

    fn blank() -> Self
        ensures { result ≡ blank };

    fn read(s: &[u8], at: usize) -> Self
        requires { at + size ≤ length s.now }
        ensures { result ≡ read_as s.now at };
}

pub fn row_at<R: Row>(table: &[u8], i: usize) -> R
    ensures { result ≡ cond (ltb i (length table.now / R.size)) (R.read_as table.now (R.size * i)) R.blank }
{
    if i < table.len() / R::size() {
        R::read(table, R::size() * i)
    } else {
        R::blank()
    }
}
