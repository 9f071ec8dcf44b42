#![tactic(auto)]
// Rule DT: whether a number or eight digits are a day of the calendar.
ghost use Rattle.std.specs.Prelude.{◌≡◌, ◌≤◌};
ghost use Rattle.rules.specs.Numbers.{leap, month_length, is_day, is_date};

const FEBRUARY: usize = 2;

const AUGUST: usize = 8;

// A year with a 29 February.
fn is_leap(year: u32) -> bool
    ensures { result ≡ leap year }
{
    year % 4 == 0 && (year % 100 != 0 || year % 400 == 0)
}

// The days of one of the months 1 to 12. Up to July the odd months are long, from August on the even ones.
fn month_length(year: u32, month: usize) -> u8
    requires { (1 ≤ month) × (month ≤ 12) }
    ensures { result ≡ month_length year month }
{
    if month == FEBRUARY {
        return 28 + is_leap(year) as u8;
    }
    let is_long = (month % 2 == 1) == (month < AUGUST);
    30 + is_long as u8
}

// The number CCYYMMDD is a day.
pub fn is_day(n: u32) -> bool
    ensures { result ≡ is_day n }
{
    let month = (n / 100 % 100) as usize;
    let day = (n % 100) as usize;
    text::is_between(month, 1, 12)
        && text::is_between(day, 1, month_length(n / 10000, month) as usize)
}

// Rule DT: eight digits that are a day. They are gone through once: `count_in` tests the digits that it reads.
pub fn is_date(s: &[u8]) -> bool
    ensures { result ≡ is_date s.now }
{
    if s.len() != 8 {
        return false;
    }
    match text::count_in(s, 8) {
        Some(n) => is_day(n as u32),
        None => false,
    }
}
