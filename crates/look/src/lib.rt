#![tactic(auto)]
// One look at a set: the walk through its table goes on while nothing is to be told, and comes to where the set ends.
ghost use Rattle.std.specs.Prelude.{◌≡◌, ◌+◌, ◌≤◌, length};
ghost use Rattle.look.specs.Bytes.{valid_bytes};
ghost use Rattle.look.specs.Looking.{again_at, turn_on, afterward, step_at, look_from, looked};

use rules::Delimiters;
use sets::SetAt;

mod segment;

// Which bytes are valid between these delimiters, one answer for each of the 256.
pub fn valid_bytes(d: Delimiters) -> [bool; 256]
    ensures { result ≡ valid_bytes d }
{
    let mut valid = [false; 256];
    for b in 0..256 {
        valid[b] = text::is_valid(b as u8, d);
    }
    valid
}

// Where a look has come to: where the next segment starts, the row of the present entry, how often that was used, the row of the entry after it,
// and how many segments there are so far.
#[derive(Clone, Copy)]
struct Course {
    at: usize,
    row: usize,
    used: usize,
    next: usize,
    segments: usize,
}

// Where a segment stands of which nothing is told: the row of its entry, and how often that is used with it.
#[derive(Clone, Copy)]
struct Turn {
    row: usize,
    used: usize,
}

// What a segment comes to of which nothing is told: the look goes on, or the set ends with its trailer.
#[derive(Clone, Copy)]
enum Step {
    On(Course),
    Closed(usize),
}

// One more use of the present entry.
fn again(guide: &[[u16; 6]], c: Course) -> Option<Turn>
    ensures { result ≡ again_at guide.now c }
{
    if tables::most_uses(guide, c.row) <= c.used {
        return None;
    }
    Some(Turn {
        row: c.row,
        used: c.used + 1,
    })
}

// Where a segment with this id stands. Most are due, so that is asked before whether one more use is made of the present entry.
fn turn_on(id: &[u8], guide: &[[u16; 6]], c: Course) -> Option<Turn>
    ensures { result ≡ turn_on guide.now c id.now }
{
    match tables::next_due(guide, c.next, id) {
        Some(row) => Some(Turn { row, used: 1 }),
        None if tables::is_entry(guide, c.row, id) => again(guide, c),
        None => None,
    }
}

// Where a look comes to after a segment with this id, which the cursor stands behind: SE closes the set, ST opens another.
fn after(id: &[u8], c: Course) -> Option<Step>
    ensures { result ≡ afterward id.now c }
{
    if text::same_bytes(id, &rules::SE) {
        return Some(Step::Closed(c.at));
    }
    if text::same_bytes(id, &rules::ST) {
        return None;
    }
    Some(Step::On(c))
}

// The next segment.
fn go_on(
    body: &[u8],
    d: Delimiters,
    valid: &[bool; 256],
    guide: &[[u16; 6]],
    c: Course,
) -> Option<Step>
    requires { c.segments ≤ c.at }
    ensures { result ≡ step_at valid.now d guide.now body.now c }
{
    if body.len() <= c.at {
        return None;
    }
    let rest = &body[c.at..];
    let end = segment::id_end(rest, d);
    let id = &rest[..end];
    let turn = turn_on(id, guide, c)?;
    let passed = segment::pass(rest, end, d, valid, guide, turn.row)?;
    after(
        id,
        Course {
            at: c.at + passed.length + 1,
            row: turn.row,
            used: turn.used,
            next: passed.next,
            segments: c.segments + 1,
        },
    )
}

// The segments after the header, which goes from `at` to `header`.
fn look_on(
    body: &[u8],
    d: Delimiters,
    valid: &[bool; 256],
    guide: &[[u16; 6]],
    at: usize,
    header: usize,
    next: usize,
) -> Option<SetAt>
    requires { header ≤ length body.now }
    ensures { result ≡ look_from valid.now d guide.now body.now at header (length body.now) (record { at = header + 1; row = 0; used = 1; next = next; segments = 1 }) }
{
    let mut c = Course {
        at: header + 1,
        row: 0,
        used: 1,
        next,
        segments: 1,
    };
    loop {
        match go_on(body, d, valid, guide, c)? {
            Step::On(further) => c = further,
            Step::Closed(end) => {
                return Some(SetAt {
                    start: at,
                    header,
                    trailer: c.at,
                    end,
                    closed: true,
                    segments: c.segments + 1,
                });
            }
        }
    }
}

// The place of the set whose header starts at `at`, where it has a trailer and nothing is told of it.
pub fn look_at(
    body: &[u8],
    d: Delimiters,
    valid: &[bool; 256],
    guide: &[[u16; 6]],
    at: usize,
) -> Option<SetAt>
    ensures { result ≡ looked valid.now d guide.now body.now at }
{
    if body.len() <= at {
        return None;
    }
    let rest = &body[at..];
    let passed = segment::pass(rest, segment::id_end(rest, d), d, valid, guide, 0)?;
    look_on(body, d, valid, guide, at, at + passed.length, passed.next)
}
