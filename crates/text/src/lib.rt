#![tactic(auto)]
// Leaves on bytes: searching, comparing, digits and the numbers that they stand for, times, valid bytes.
ghost use Rattle.std.specs.Prelude.{◌≡◌, ◌||◌, ◌+◌, min, drop};
ghost use Rattle.rules.specs.Base.{between, is_digit, is_upper_or_digit, same, all};
ghost use Rattle.rules.specs.Cutting.{valid, text};
ghost use Rattle.rules.specs.Numbers.{digits, count_in, declares, is_time};
ghost use Rattle.rules.specs.Elements as law;
ghost use Rattle.text.specs.Text.{index_of, part, up_to_ten};

use rules::Delimiters;

// The place of the first b from `from` on; the length where there is none, and `from` where that is past the end.
// Byte by byte: b is near, as the end of an element is. The end stands for none, and is no `Option`: callers cut up to it.
pub fn find_near(s: &[u8], from: usize, b: u8) -> usize
    ensures { result ≡ from + index_of b (drop from s.now) }
{
    for i in from..s.len() {
        if s[i] == b {
            return i;
        }
    }
    from.max(s.len())
}

// The same, eight bytes a turn: b is far, as the end of a segment is. No `chunks`: the search goes on in the middle of what is lent.
pub fn find(s: &[u8], from: usize, b: u8) -> usize
    ensures { result ≡ from + index_of b (drop from s.now) }
{
    // From here on fewer than eight bytes are left.
    let few = s.len().saturating_sub(7);
    let mut i = from;
    while i < few && !s[i..i + 8].contains(&b) {
        i += 8;
    }
    find_near(s, i, b)
}

// The bytes from `from` up to `to`, those that there are.
pub fn part(s: &[u8], from: usize, to: usize) -> &[u8]
    ensures { result.now ≡ part s.now from to }
{
    s.get(from..to.min(s.len())).unwrap_or(&[])
}

// Byte for byte the same. It has a name for its promise, by the word `same` of the definitions, as `is_between` has.
pub fn same_bytes(a: &[u8], b: &[u8]) -> bool
    ensures { result ≡ same a.now b.now }
{
    a == b
}

// n is one of lo to hi.
pub fn is_between(n: usize, lo: usize, hi: usize) -> bool
    ensures { result ≡ between lo hi n }
{
    (lo..=hi).contains(&n)
}

// Nothing but digits.
pub fn all_digits(s: &[u8]) -> bool
    ensures { result ≡ all is_digit s.now }
{
    s.iter().all(|b| b.is_ascii_digit())
}

// lo to hi digits and nothing else.
pub fn is_digits(s: &[u8], lo: usize, hi: usize) -> bool
    ensures { result ≡ digits lo hi s.now }
{
    is_between(s.len(), lo, hi) && all_digits(s)
}

// The count that one to `most` digits stand for, or one to ten where `most` is greater. No `parse`: it reads a `str`, and takes a plus.
pub fn count_in(s: &[u8], most: usize) -> Option<u64>
    ensures { result ≡ count_in (min most 10) s.now }
{
    if !is_between(s.len(), 1, most.min(10)) {
        return None;
    }
    let mut n = 0;
    for &b in s {
        if !b.is_ascii_digit() {
            return None;
        }
        n = n * 10 + u64::from(b - b'0');
    }
    Some(n)
}

// The number that at most ten digits stand for; 0 for anything else.
pub fn value(s: &[u8]) -> u64
    ensures { result ≡ up_to_ten s.now }
{
    count_in(s, 10).unwrap_or(0)
}

// One to `most` digits declare the count n, where one to ten are read at most.
pub fn declares(s: &[u8], most: usize, n: u64) -> bool
    ensures { result ≡ declares (min most 10) s.now n }
{
    count_in(s, most) == Some(n)
}

// As many digits as a time may have: HHMM, HHMMSS, and one or two more.
fn is_time_digits(s: &[u8]) -> bool
    ensures { result ≡ (digits 4 4 s.now || digits 6 8 s.now) }
{
    is_digits(s, 4, 4) || is_digits(s, 6, 8)
}

// Rule TM: hours 00 to 23, minutes and seconds 00 to 59.
pub fn is_time(s: &[u8]) -> bool
    ensures { result ≡ is_time s.now }
{
    if !is_time_digits(s) {
        return false;
    }
    value(&s[..2]) <= 23 && value(&s[2..4]) <= 59 && (s.len() == 4 || value(&s[4..6]) <= 59)
}

// A valid byte: 32 to 126 and no delimiter. The range is asked first: more than half of the 256 bytes are out of it.
pub fn is_valid(b: u8, d: Delimiters) -> bool
    ensures { result ≡ valid d b }
{
    matches!(b, 32..=126) && !d.is_mark(b)
}

// Nothing but valid bytes. All are looked at, which takes fewer branches than to stop at the first that is not.
pub fn all_valid(s: &[u8], d: Delimiters) -> bool
    ensures { result ≡ all (valid d) s.now }
{
    let mut valid = true;
    for &b in s {
        valid &= is_valid(b, d);
    }
    valid
}

// lo to hi valid bytes and nothing else. They are few, so it stops at the first that is not valid.
pub fn is_text(s: &[u8], lo: usize, hi: usize, d: Delimiters) -> bool
    ensures { result ≡ text d lo hi s.now }
{
    is_between(s.len(), lo, hi) && s.iter().all(|&b| is_valid(b, d))
}

// Nothing but uppercase letters and digits.
pub fn is_name(s: &[u8]) -> bool
    ensures { result ≡ all is_upper_or_digit s.now }
{
    s.iter()
        .all(|b| b.is_ascii_uppercase() || b.is_ascii_digit())
}

// Without a leading minus.
pub fn unsigned(s: &[u8]) -> &[u8]
    ensures { result.now ≡ law.unsigned s.now }
{
    s.strip_prefix(b"-").unwrap_or(s)
}
