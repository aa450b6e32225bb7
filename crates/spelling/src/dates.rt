// Dates: YYYY-MM-DDThh:mm:ss.sssZ.
ghost use Rattle.std.specs.Prelude.{◌≡◌, ◌+◌, ◌-◌, ◌≤◌, ◌<◌, length, get_or};
ghost use Rattle.octets.specs.Search.{any};
ghost use Rattle.spelling.specs.Dates.{form, fits, misfit, two_digits, four_digits, year, month, day, hour, minute, second, leap, common_length, leap_february, month_length, in_calendar, on_clock, is_date};

// ---- the form

const FORM: [u8; 24] = *b"dddd-dd-ddTdd:dd:dd.dddZ";

#[tactic(auto, unfolding(crate::specs::Dates::fits, crate::specs::Characters::between))]
fn does_fit(entry: u8, c: u8) -> bool
    ensures { result ≡ fits entry c }
{
    if entry == b'd' {
        c.is_ascii_digit()
    } else {
        c == entry
    }
}

fn has_misfit(s: &[u8; 24]) -> bool
    ensures { result ≡ any (misfit s.now) 24 }
{
    octets::any(0..24, |i| !does_fit(FORM[i], s[i]))
}

// ---- the numbers

// Below "0" it is 0, so that no caller has to show that it has a digit.
fn value_of(c: u8) -> u32
    ensures { (result ≡ c - 48) × (result < 208) }
{
    u32::from(c.saturating_sub(b'0'))
}

#[tactic(auto, unfolding(crate::specs::Dates::two_digits))]
fn two_digits(s: &[u8], at: usize) -> u32
    requires { at + 2 ≤ length s.now }
    ensures { (result ≡ two_digits s.now at) × (result < 2278) }
{
    10 * value_of(s[at]) + value_of(s[at + 1])
}

#[tactic(auto, unfolding(crate::specs::Dates::four_digits))]
fn four_digits(s: &[u8], at: usize) -> u32
    requires { at + 4 ≤ length s.now }
    ensures { result ≡ four_digits s.now at }
{
    100 * two_digits(s, at) + two_digits(s, at + 2)
}

// ---- the calendar and the clock

#[tactic(auto, unfolding(crate::specs::Dates::leap))]
fn is_leap(year: u32) -> bool
    ensures { result ≡ leap year }
{
    if year % 100 == 0 {
        year % 400 == 0
    } else {
        year % 4 == 0
    }
}

// A month's length in a year that is no leap year, from its number: but for February, 31 and 30 days by turns, and anew from August on.
fn common_length(month: u32) -> u32
    requires { (1 ≤ month) × (month ≤ 12) }
    ensures { result ≡ common_length month }
{
    if month == 2 {
        return 28;
    }
    30 + (month + month / 8) % 2
}

#[tactic(auto, unfolding(crate::specs::Dates::leap_february))]
fn is_leap_february(year: u32, month: u32) -> bool
    ensures { result ≡ leap_february year month }
{
    month == 2 && is_leap(year)
}

#[tactic(auto, unfolding(crate::specs::Dates::month_length))]
fn month_length(year: u32, month: u32) -> u32
    requires { (1 ≤ month) × (month ≤ 12) }
    ensures { result ≡ month_length year month }
{
    if is_leap_february(year, month) {
        return 29;
    }
    common_length(month)
}

#[tactic(auto, unfolding(crate::specs::Dates::in_calendar, crate::specs::Characters::between))]
fn is_in_calendar(year: u32, month: u32, day: u32) -> bool
    ensures { result ≡ in_calendar year month day }
{
    (1..=12).contains(&month) && (1..=month_length(year, month)).contains(&day)
}

#[tactic(auto, unfolding(crate::specs::Dates::on_clock))]
fn is_on_clock(hour: u32, minute: u32, second: u32) -> bool
    ensures { result ≡ on_clock hour minute second }
{
    hour <= 23 && minute <= 59 && second <= 59
}

// ---- the date

fn has_day(s: &[u8; 24]) -> bool
    ensures { result ≡ in_calendar (year s.now) (month s.now) (day s.now) }
{
    is_in_calendar(four_digits(s, 0), two_digits(s, 5), two_digits(s, 8))
}

fn has_time(s: &[u8; 24]) -> bool
    ensures { result ≡ on_clock (hour s.now) (minute s.now) (second s.now) }
{
    is_on_clock(two_digits(s, 11), two_digits(s, 14), two_digits(s, 17))
}

#[tactic(auto, unfolding(crate::specs::Dates::is_date))]
pub fn is_date(s: &[u8]) -> bool
    ensures { result ≡ is_date s.now }
{
    <&[u8; 24]>::try_from(s).is_ok_and(|date| !has_misfit(date) && has_day(date) && has_time(date))
}
