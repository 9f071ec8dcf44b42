// One look at a segment, at the start of the bytes that are left: its elements are taken by the rows of its entry, one after the other.
ghost use Rattle.std.specs.Prelude.{◌≡◌, true, ◌≤◌, eqb, length};
ghost use Rattle.text.specs.Text.{next_where, part};
ghost use Rattle.tables.specs.Reading.{row_at};
ghost use Rattle.elements.specs.Values.{row_code};
ghost use Rattle.look.specs.Bytes.{is_other};
ghost use Rattle.look.specs.Passing.{id_end, start_after, is_over, passed};

use elements::Marks;
use rules::Delimiters;

// A segment in which nothing is found: how long it is, and the row of the entry after its own.
#[derive(Clone, Copy)]
pub struct Passed {
    pub length: usize,
    pub next: usize,
}

// Where the id ends: a separator, a terminator or nothing stands there.
pub(crate) fn id_end(rest: &[u8], d: Delimiters) -> usize
    ensures { result ≡ id_end d rest.now }
{
    rest.iter()
        .position(|&b| (b == d.element) | (b == d.terminator))
        .unwrap_or(rest.len())
}

// The place of the first byte from `from` on that is not valid; the length where there is none, and `from` where that is past the end.
fn find_invalid(s: &[u8], from: usize, valid: &[bool; 256]) -> usize
    ensures { result ≡ next_where (is_other valid.now) s.now from }
{
    for i in from..s.len() {
        if !valid[usize::from(s[i])] {
            return i;
        }
    }
    from.max(s.len())
}

// Where the field starts that follows the one which ends at `end`: after its separator; right there where none stands there.
fn start_after(rest: &[u8], e: u8, end: usize) -> usize
    ensures { result ≡ start_after e rest.now end }
{
    if rest.get(end).is_some_and(|&b| b == e) {
        end + 1
    } else {
        end
    }
}

// The segment ends at `end`.
fn is_over(rest: &[u8], t: u8, end: usize) -> bool
    ensures { result ≡ is_over t rest.now end }
{
    rest.get(end).is_none_or(|&b| b == t)
}

// The bytes from `start` to `end` have no code by row k. Most rows ask only how many they are, so that is tried first.
fn is_taken(rest: &[u8], start: usize, end: usize, guide: &[[u16; 6]], k: usize) -> bool
    requires { (start ≤ end) × (end ≤ length rest.now) }
    ensures { result ≡ eqb (row_code (row_at guide.now k) (part rest.now start end)) 0 }
{
    (start < end && elements::takes_length(end - start, guide, k))
        || elements::takes(&rest[start..end], guide, k)
}

// The segment whose id ends at `id`, which lies within the bytes, by the entry of a row.
pub(crate) fn pass(
    rest: &[u8],
    id: usize,
    d: Delimiters,
    valid: &[bool; 256],
    guide: &[[u16; 6]],
    entry: usize,
) -> Option<Passed>
    requires { id ≤ length rest.now }
    ensures { result ≡ passed valid.now d rest.now guide.now entry id }
{
    let below = tables::below(guide, entry);
    // The row of the next entry; the end of the guide where there is none.
    let mut next = below.max(guide.len());
    let mut end = id;
    let mut marks = Marks::none();
    for k in below..guide.len() {
        if tables::is_segment(guide, k) {
            next = k;
            break;
        }
        if tables::is_element(guide, k) {
            let start = start_after(rest, d.element, end);
            end = find_invalid(rest, start, valid);
            if !is_taken(rest, start, end, guide, k) {
                return None;
            }
            marks = marks.with(start < end);
        } else if marks.breaks_note(guide, k) {
            return None;
        }
    }
    is_over(rest, d.terminator, end).then_some(Passed { length: end, next })
}
