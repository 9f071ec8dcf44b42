#![tactic(auto)]
// Writers of bytes into a lent buffer. A piece puts its text at the start of what it is lent, and is added after n bytes of it. Each writes what
// fits and answers the full length, so that on an empty part it only measures. No writer knows what is being said. `out`, `n` and `d` are no
// struct: each writer is lent the buffer for its call alone, and answers the length. One that held the buffer would have its loan in each promise, and
// to measure, a writer is lent an empty part.
ghost use Rattle.std.specs.Prelude.{◌≡◌, [], ◌∷◌, map, set};
ghost use Rattle.rules.specs.Base.{Bytes};
ghost use Rattle.rules.specs.Numbers.{decimal, padded};
ghost use Rattle.rules.specs.Response.{fields_out, segment_out, trailing};
ghost use Rattle.writing.specs.Over.{Wrote, From};
ghost use Rattle.writing.specs.Optional.{optional};

use rules::Delimiters;

// What can be written.
pub trait Piece {
    ghost text: { Self → Bytes };

    // Puts the text over the start of a buffer, as far as it fits, and answers its full length.
    fn put(self, out: &mut [u8]) -> usize
        ensures { Wrote (text self) result out.old out.new };
}

// A byte at a place, where there is one.
fn set_byte(out: &mut [u8], at: usize, b: u8)
    ensures { out.new ≡ set out.old at b }
{
    if at < out.len() {
        out[at] = b;
    }
}

// One byte.
impl Piece for u8 {
    ghost text = { λ b. b ∷ [] };

    fn put(self, out: &mut [u8]) -> usize {
        set_byte(out, 0, self);
        1
    }
}

// Bytes as they are. By index: `copy_from_slice` calls for `memmove`, and a program in C that links the library need not have it.
impl<'a> Piece for &'a [u8] {
    ghost text = { λ bytes. bytes.now };

    fn put(self, out: &mut [u8]) -> usize {
        let end = self.len().min(out.len());
        for i in 0..end {
            out[i] = self[i];
        }
        self.len()
    }
}

// An array of bytes, too.
impl<'a, const N: usize> Piece for &'a [u8; N] {
    ghost text = { λ bytes. bytes.now };

    fn put(self, out: &mut [u8]) -> usize {
        self.as_slice().put(out)
    }
}

// The last w digits of a number. No `Display`: a piece answers its full length also where only a part of it fits.
fn put_padded(out: &mut [u8], v: u64, w: usize) -> usize
    ensures { Wrote (padded w v) result out.old out.new }
{
    let mut rest = v;
    for i in (0..w).rev() {
        set_byte(out, i, b'0' + (rest % 10) as u8);
        rest /= 10;
    }
    w
}

// A number and a width: the number by so many of its last digits, with zeros before it.
#[derive(Clone, Copy)]
pub struct Padded(pub u64, pub usize);

impl Piece for Padded {
    ghost text = { λ number. padded number.1 number.0 };

    fn put(self, out: &mut [u8]) -> usize {
        put_padded(out, self.0, self.1)
    }
}

// How many digits a number has without leading zeros.
fn digit_count(v: u64) -> usize
    ensures { padded result v ≡ decimal v }
{
    v.checked_ilog10().unwrap_or(0) as usize + 1
}

// A number without leading zeros.
#[derive(Clone, Copy)]
pub struct Number(pub u64);

impl Piece for Number {
    ghost text = { λ number. decimal number.0 };

    fn put(self, out: &mut [u8]) -> usize {
        put_padded(out, self.0, digit_count(self.0))
    }
}

// A piece, after n bytes.
pub fn add<P: Piece>(out: &mut [u8], n: usize, piece: P) -> usize
    ensures { From n (P.text piece) result out.old out.new }
{
    let at = n.min(out.len());
    let m = piece.put(&mut out[at..]);
    n.saturating_add(m)
}

// A piece as an element, after its separator.
pub fn add_field<P: Piece>(out: &mut [u8], n: usize, d: Delimiters, piece: P) -> usize
    ensures { From n (fields_out d (P.text piece ∷ [])) result out.old out.new }
{
    let n = add(out, n, d.element);
    add(out, n, piece)
}

// A number as an element, which is empty for 0, after its separator.
pub fn add_optional(out: &mut [u8], n: usize, d: Delimiters, v: u64) -> usize
    ensures { From n (fields_out d (optional v ∷ [])) result out.old out.new }
{
    if v == 0 {
        return add(out, n, d.element);
    }
    add_field(out, n, d, Number(v))
}

// An element at the end of a segment, after its separator; nothing where it is empty.
pub fn add_trailing(out: &mut [u8], n: usize, d: Delimiters, bytes: &[u8]) -> usize
    ensures { From n (fields_out d (trailing bytes.now)) result out.old out.new }
{
    if bytes.is_empty() {
        return n;
    }
    add_field(out, n, d, bytes)
}

// Codes as elements, each after its separator.
pub fn add_codes(out: &mut [u8], n: usize, d: Delimiters, codes: &[u8]) -> usize
    ensures { From n (fields_out d (map decimal codes.now)) result out.old out.new }
{
    let mut m = n;
    for &code in codes {
        m = add_field(out, m, d, Number(code as u64));
    }
    m
}

// A segment of two elements, after n bytes.
pub fn add_pair(
    out: &mut [u8],
    n: usize,
    d: Delimiters,
    id: &[u8],
    first: &[u8],
    second: &[u8],
) -> usize
    ensures { From n (segment_out d (id.now ∷ first.now ∷ second.now ∷ [])) result out.old out.new }
{
    let n = add(out, n, id);
    let n = add_field(out, n, d, first);
    let n = add_field(out, n, d, second);
    add(out, n, d.terminator)
}
