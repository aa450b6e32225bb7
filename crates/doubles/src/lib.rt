// Doubles, as rules 351, 451, 452, 511, 521 and 531 judge them.
#![tactic(auto)]

ghost use Rattle.std.specs.Prelude.{◌≡◌, ◌<◌, ◌^◌};
ghost use Rattle.std.specs.Float.{binary64};
ghost use Rattle.std.specs.Float.Ieee.{of_bits};
ghost use Rattle.octets.specs.Numbers.{signed, natural};
ghost use Rattle.doubles.specs.Doubles.{positive, near, twice, strictly_below, magnitude, gap_above, gap_of, difference, within_four, same_length, measures, spans_x, spans_y};

// The four corner values of a set row.
#[derive(Clone, Copy, Default)]
pub struct Extent {
    pub min_x: f64,
    pub min_y: f64,
    pub max_x: f64,
    pub max_y: f64,
}

// The double of any pattern. Every NaN pattern gives the one NaN: `from_bits` alone takes no other pattern of a NaN.
pub fn double_of(bits: u64) -> f64
    ensures { result ≡ of_bits binary64 bits }
{
    if bits % 0x8000_0000_0000_0000 > 0x7ff0_0000_0000_0000 {
        0.0 / 0.0
    } else {
        f64::from_bits(bits)
    }
}

// x is finite and above 0.
pub fn is_positive(x: f64) -> bool
    ensures { result ≡ positive x }
{
    0.0 < x && x < 1.0 / 0.0
}

// Both are finite and above 0, and their patterns differ by at most 4.
pub fn is_near(a: f64, b: f64) -> bool
    ensures { result ≡ near a b }
{
    if is_positive(a) {
        if is_positive(b) {
            return f64::to_bits(a).abs_diff(f64::to_bits(b)) <= 4;
        }
    }
    false
}

// Twice x, rounded once.
pub fn doubled(x: f64) -> f64
    ensures { result ≡ twice x }
{
    2.0 * x
}

// a is strictly below b, so never where one is a NaN.
pub fn is_finer(a: f64, b: f64) -> bool
    ensures { result ≡ strictly_below a b }
{
    a < b
}

// The i64 of a pattern where it is not negative, and 0 where it is, as `natural` has it: by way of an i64 it is no plainer.
fn natural_of(p: u64) -> u64
    ensures { result ≡ natural (signed p) }
{
    if p < 0x8000_0000_0000_0000 { p } else { 0 }
}

// The pattern of the magnitude of x. A NaN has no pattern of its own; it gets one, so that no caller has to rule it out.
fn magnitude_of(x: f64) -> u64
    ensures { (result ≡ magnitude x) × (result < 2 ^ 63) }
{
    if x.is_nan() {
        return 0x7ff8_0000_0000_0000;
    }
    f64::to_bits(x) % 0x8000_0000_0000_0000
}

// From the double of a pattern to that of the next.
fn gap_above(n: u64) -> f64
    requires { n < 2 ^ 63 }
    ensures { result ≡ gap_above n }
{
    double_of(n + 1) - double_of(n)
}

// The gap above the corner that is larger in magnitude.
#[tactic(auto, unfolding(crate::specs::Doubles::gap_of))]
fn gap_of(low: f64, high: f64) -> f64
    ensures { result ≡ gap_of low high }
{
    gap_above(magnitude_of(low).max(magnitude_of(high)))
}

// The greater less the other, rounded once, as `difference` has it: the magnitude of a - b is another function of doubles, and no plainer.
fn difference_of(a: f64, b: f64) -> f64
    ensures { result ≡ difference a b }
{
    if a < b { b - a } else { a - b }
}

// Both and the gap are finite and above 0, and the two differ by at most four gaps.
fn is_within_four(gap: f64, a: f64, b: f64) -> bool
    ensures { result ≡ within_four gap a b }
{
    if is_positive(a) {
        if is_positive(b) {
            if is_positive(gap) {
                return difference_of(a, b) <= 4.0 * gap;
            }
        }
    }
    false
}

// Near, or within four gaps of the corners. Most rows are near, so that is asked first.
fn is_same_length(low: f64, high: f64, extent: f64, product: f64) -> bool
    ensures { result ≡ same_length low high extent product }
{
    if is_near(extent, product) {
        return true;
    }
    is_within_four(gap_of(low, high), extent, product)
}

// Count times size pixels measure high - low. The product is bounded by a division, since a product of 64 bits could wrap.
fn does_measure(low: f64, high: f64, count: u64, size: u64, pixel: f64) -> bool
    ensures { result ≡ measures low high (signed count) (signed size) pixel }
{
    let n = natural_of(count);
    let m = natural_of(size);
    if n == 0 {
        return false;
    }
    if m == 0 {
        return false;
    }
    if n > 9007199254740992 / m {
        return false;
    }
    is_same_length(low, high, high - low, (n * m) as f64 * pixel)
}

// Width times tile width pixels measure the extent from west to east. Two functions, since `spans_x` and `spans_y` are two rules' words, a line each.
pub fn spans_x(e: Extent, width: u64, tile: u64, pixel: f64) -> bool
    ensures { result ≡ spans_x e (signed width) (signed tile) pixel }
{
    does_measure(e.min_x, e.max_x, width, tile, pixel)
}

// Height times tile height pixels measure it from south to north.
pub fn spans_y(e: Extent, height: u64, tile: u64, pixel: f64) -> bool
    ensures { result ≡ spans_y e (signed height) (signed tile) pixel }
{
    does_measure(e.min_y, e.max_y, height, tile, pixel)
}
