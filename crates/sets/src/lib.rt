#![tactic(auto)]
// The sets of a group, cut from its bytes, and refusals 11 to 13. The body of a group is the segments between GS and GE; a place in it may
// be one past its end.
ghost use Rattle.std.specs.Prelude.{◌≡◌, true, false};
ghost use Rattle.rules.specs.Cutting as cutting;
ghost use Rattle.rules.specs.Sets.{is_st};
ghost use Rattle.rules.specs.Refusals.{good_st};
ghost use Rattle.sets.specs.Places.{closed_at, unclosed_at, role_of, set_at, ThroughSet, sets_between, sets_checked};

use rules::{Delimiters, GS, ISA, Refusal, SE, ST};

// The place of a set.
#[derive(Clone, Copy)]
pub struct SetAt {
    // Where its header starts.
    pub start: usize,
    // Where the header ends.
    pub header: usize,
    // Where the trailer starts; the end where there is none.
    pub trailer: usize,
    // Where the next set starts.
    pub end: usize,
    // There is a trailer. `trailer` is no `Option` in its place: of a set that is known to be closed it is read without asking.
    pub closed: bool,
    // How many segments there are, from header to trailer.
    pub segments: usize,
}

impl SetAt {
    fn with_trailer(
        start: usize,
        header: usize,
        segments: usize,
        trailer: usize,
        end: usize,
    ) -> Self
        ensures { result ≡ closed_at start header segments trailer end }
    {
        Self {
            start,
            header,
            trailer,
            end,
            closed: true,
            segments,
        }
    }

    fn without_trailer(start: usize, header: usize, segments: usize, end: usize) -> Self
        ensures { result ≡ unclosed_at start header segments end }
    {
        Self {
            start,
            header,
            trailer: end,
            end,
            closed: false,
            segments,
        }
    }
}

// What a segment is to the sets: ST opens one, SE closes it.
#[derive(Clone, Copy)]
enum Role {
    Header,
    Trailer,
    Other,
}

fn role_of(segment: &[u8], e: u8) -> Role
    ensures { result ≡ role_of (cutting.split e segment.now) }
{
    // Most segments are told apart by their first byte; ST and SE share it.
    if segment.first() != Some(&SE[0]) {
        return Role::Other;
    }
    if segments::is_named(segment, e, &SE) {
        Role::Trailer
    } else if segments::is_named(segment, e, &ST) {
        Role::Header
    } else {
        Role::Other
    }
}

// The set whose header starts at `at`: it goes to its SE, or up to the next ST or the group's end.
pub fn next_set(body: &[u8], d: Delimiters, at: usize) -> SetAt
    ensures { result ≡ set_at d body.now at }
{
    if body.len() <= at {
        return SetAt::without_trailer(at, at, 0, at);
    }
    let header = text::find(body, at, d.terminator);
    let mut segments = 1;
    // A cursor: where the next segment starts is known when this one is read, and so it is in the walks below.
    let mut next = header + 1;
    while next < body.len() {
        let end = text::find(body, next, d.terminator);
        match role_of(&body[next..end], d.element) {
            Role::Trailer => {
                return SetAt::with_trailer(at, header, segments + 1, next, end + 1);
            }
            Role::Header => break,
            Role::Other => {}
        }
        segments += 1;
        next = end + 1;
    }
    SetAt::without_trailer(at, header, segments, next)
}

// ST01 is three digits, and ST02 is 4 to 9 valid bytes: after its id a good header has them at fixed places.
fn is_good_header(header: &[u8], d: Delimiters) -> bool
    requires { is_st (cutting.split d.element header.now) ≡ true }
    ensures { result ≡ good_st d (cutting.split d.element header.now) }
{
    if header.len() < 11 || text::find_near(header, 3, d.element) != 6 {
        return false;
    }
    let end = text::find_near(header, 7, d.element);
    text::is_digits(&header[3..6], 3, 3) && text::is_text(&header[7..end], 4, 9, d)
}

// Where the set that is open at `at` ends: after its SE, or where the next ST or a segment of the envelope starts.
fn end_of_set(i: &[u8], d: Delimiters, at: usize) -> usize
    ensures { ThroughSet d i.now at false result }
{
    let mut next = at;
    while next < i.len() {
        let end = text::find(i, next, d.terminator);
        // Most segments are told apart by their first byte, or an empty one by its terminator.
        let first = i[next];
        if first == SE[0] || first == ISA[0] || first == GS[0] {
            let segment = &i[next..end];
            if segments::is_named(segment, d.element, &SE) {
                return end + 1;
            }
            if segments::is_named(segment, d.element, &ST)
                || envelope::is_of_envelope(segment, d.element)
            {
                return next;
            }
        }
        next = end + 1;
    }
    next
}

// What the sets from `at` to `end` come to, where no segment is outside every set; `good` tells that every header can be answered.
fn sets_between(at: usize, end: usize, good: bool) -> Result<usize, Refusal>
    ensures { result ≡ sets_between at end good }
{
    if end == at {
        return Err(Refusal::NoSet);
    }
    if !good {
        return Err(Refusal::BadSetHeader);
    }
    Ok(end)
}

// Refusals 11 to 13 of the sets from `at` on, up to the first segment of the envelope: a segment outside every set, no set, a header
// that cannot be answered.
pub fn check_sets(i: &[u8], d: Delimiters, at: usize) -> Result<usize, Refusal>
    ensures { result ≡ sets_checked d i.now at }
{
    // Every header so far can be answered, and no set is open at `next`.
    let mut good = true;
    let mut next = at;
    while next < i.len() {
        let end = text::find(i, next, d.terminator);
        let segment = &i[next..end];
        if !segments::is_named(segment, d.element, &ST) {
            if envelope::is_of_envelope(segment, d.element) {
                break;
            }
            return Err(Refusal::Outside);
        }
        good &= is_good_header(segment, d);
        next = end_of_set(i, d, end + 1);
    }
    sets_between(at, next, good)
}
