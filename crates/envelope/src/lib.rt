#![tactic(auto)]
// The envelope of an interchange: where its groups and IEA lie (refusal 7), and whether IEA is right (refusal 8). The bytes and d are
// no struct, here and in the crates above: d is read from the bytes, and parts are cut from them and read by the same d.
ghost use Rattle.std.specs.Prelude.{◌≡◌, ◌+◌, drop, Some};
ghost use Rattle.rules.specs.Cutting.{field, is_named, pieces, split};
ghost use Rattle.rules.specs.Refusals as law;
ghost use Rattle.text.specs.Text.{part};
ghost use Rattle.envelope.specs.Places.{end_of, is_envelope_name, until_envelope, trailer_at, start_after, group_ending, next_group, group_after, groups_end, envelope_ending, envelope_of};
ghost use Rattle.envelope.specs.Faults.{trailer_check};

use rules::{Delimiters, GE, GS, IEA, ISA};

// How many digits IEA01 may have.
const IEA01_DIGITS: usize = 5;

// The place of a group, as offsets: each part starts at one and ends before the other.
// The body holds the terminator of its last segment. GE starts where the body ends; where it is missing, its part is empty.
// The next group, or IEA, is due at `next`.
#[derive(Clone, Copy)]
pub struct GroupAt {
    pub gs: usize,
    pub gs_end: usize,
    pub body: usize,
    pub body_end: usize,
    pub ge_end: usize,
    // There is a GE. `ge_end` is no `Option` in its place: the walk asks for this flag alone, and the one reader of GE asks for both by a `then_some`.
    pub closed: bool,
    pub next: usize,
}

// The place of an interchange's first group, the number of its groups, and the place of its IEA.
#[derive(Clone, Copy)]
pub struct Envelope {
    pub first: GroupAt,
    pub groups: u64,
    pub iea: usize,
    pub iea_end: usize,
}

// What is wrong with IEA: the first that is.
#[derive(Clone, Copy, PartialEq, Eq)]
pub enum TrailerFault {
    NotTwoElements,
    OtherControl,
    OtherCount,
}

// Where the groups end: their number, and where IEA is due.
#[derive(Clone, Copy)]
struct GroupsEnd {
    groups: u64,
    iea: usize,
}

// The segment is ISA, GS, GE or IEA.
pub fn is_of_envelope(s: &[u8], e: u8) -> bool
    ensures { result ≡ is_envelope_name (field (split e s.now) 0) }
{
    segments::is_named(s, e, &ISA)
        || segments::is_named(s, e, &GS)
        || segments::is_named(s, e, &GE)
        || segments::is_named(s, e, &IEA)
}

// The segment ends the body of a group: the same test, where most segments are told apart by their first byte.
fn ends_body(s: &[u8], e: u8) -> bool
    ensures { result ≡ is_envelope_name (field (split e s.now) 0) }
{
    match s.first() {
        Some(&b) => (b == ISA[0] || b == GS[0]) && is_of_envelope(s, e),
        None => false,
    }
}

// Where the first segment of the envelope from `from` on starts; past the end where there is none.
fn envelope_from(i: &[u8], from: usize, d: Delimiters) -> usize
    ensures { result ≡ from + until_envelope d.element (pieces d.terminator (drop from i.now)) }
{
    // A cursor: where the next segment starts is known when this one is read.
    let mut at = from;
    while at < i.len() {
        let end = text::find(i, at, d.terminator);
        if ends_body(&i[at..end], d.element) {
            return at;
        }
        at = end + 1;
    }
    at
}

// The segment from `at` to `end` is there, and has this name.
fn is_named_at(i: &[u8], at: usize, end: usize, d: Delimiters, name: &[u8]) -> bool
    ensures { result ≡ is_named name.now (split d.element (part i.now at end)) }
{
    segments::is_named(text::part(i, at, end), d.element, name)
}

// Where GE ends, if it stands at `at`.
fn trailer_at(i: &[u8], at: usize, d: Delimiters) -> Option<usize>
    ensures { result ≡ trailer_at d i.now at }
{
    let end = text::find(i, at, d.terminator);
    is_named_at(i, at, end, d, &GE).then_some(end)
}

// Where the segment after the one from `at` to `end` starts; `at` where that is past the end.
fn start_after(i: &[u8], at: usize, end: usize, d: Delimiters) -> usize
    requires { end ≡ end_of d i.now at }
    ensures { result ≡ start_after d i.now at }
{
    if at < i.len() { end + 1 } else { at }
}

// The group whose GS starts at `at` and whose body ends at `body_end`. The body is not searched.
pub fn group_ending(i: &[u8], d: Delimiters, at: usize, body_end: usize) -> GroupAt
    ensures { result ≡ group_ending d i.now at body_end }
{
    let gs_end = text::find(i, at, d.terminator);
    let body = start_after(i, at, gs_end, d);
    let ge = trailer_at(i, body_end, d);
    GroupAt {
        gs: at,
        gs_end,
        body,
        body_end,
        ge_end: ge.unwrap_or(body_end),
        closed: ge.is_some(),
        next: match ge {
            Some(end) => end + 1,
            None => body_end,
        },
    }
}

// The group that starts at `at`: GS, the body up to the first segment of the envelope, and GE or nothing.
pub fn next_group(i: &[u8], d: Delimiters, at: usize) -> Option<GroupAt>
    ensures { result ≡ next_group d i.now at }
{
    let gs_end = text::find(i, at, d.terminator);
    if !is_named_at(i, at, gs_end, d, &GS) {
        return None;
    }
    let body_end = envelope_from(i, gs_end + 1, d);
    Some(group_ending(i, d, at, body_end))
}

// The group after another. No group follows one without GE.
fn group_after(i: &[u8], d: Delimiters, group: GroupAt) -> Option<GroupAt>
    ensures { result ≡ group_after d i.now group }
{
    if group.closed {
        next_group(i, d, group.next)
    } else {
        None
    }
}

// Where the groups from the first on end, if they are at most `limit`.
fn groups_end(i: &[u8], d: Delimiters, first: GroupAt, limit: u64) -> Option<GroupsEnd>
    ensures { result ≡ groups_end limit d i.now 0 first.gs (Some first) }
{
    let mut groups = 0;
    let mut iea = first.gs;
    let mut next = Some(first);
    while let Some(group) = next {
        if groups == limit {
            return None;
        }
        groups += 1;
        iea = group.next;
        next = group_after(i, d, group);
    }
    Some(GroupsEnd { groups, iea })
}

// The envelope with these groups, where IEA stands at `iea` and nothing follows it.
fn envelope_ending(
    i: &[u8],
    d: Delimiters,
    first: GroupAt,
    groups: u64,
    iea: usize,
) -> Option<Envelope>
    ensures { result ≡ envelope_ending d i.now first groups iea }
{
    let iea_end = text::find(i, iea, d.terminator);
    if !is_named_at(i, iea, iea_end, d, &IEA) || iea_end + 1 < i.len() {
        return None;
    }
    Some(Envelope {
        first,
        groups,
        iea,
        iea_end,
    })
}

// The places of the parts: 1 to `limit` groups from the second segment on, one after the other, and IEA last.
pub fn envelope_of(i: &[u8], d: Delimiters, limit: u64) -> Option<Envelope>
    ensures { result ≡ envelope_of limit d i.now }
{
    let start = text::find(i, 0, d.terminator) + 1;
    let first = next_group(i, d, start)?;
    let GroupsEnd { groups, iea } = groups_end(i, d, first, limit)?;
    envelope_ending(i, d, first, groups, iea)
}

// IEA has exactly two elements.
fn has_two(iea: &[u8], d: Delimiters) -> bool
    ensures { result ≡ law.has_two (split d.element iea.now) }
{
    segments::field_count(iea, d.element) == 3
}

// IEA02 is ISA13.
fn closes(iea: &[u8], isa13: &[u8], d: Delimiters) -> bool
    ensures { result ≡ law.closes (split d.element iea.now) isa13.now }
{
    text::same_bytes(segments::field(iea, d.element, 2), isa13)
}

// IEA01 counts the groups.
fn counts_groups(groups: u64, iea: &[u8], d: Delimiters) -> bool
    ensures { result ≡ law.counts_groups groups (split d.element iea.now) }
{
    text::declares(segments::field(iea, d.element, 1), IEA01_DIGITS, groups)
}

// Refusal 8, by the bytes of IEA, the number of groups and ISA13.
pub fn check_trailer(
    iea: &[u8],
    groups: u64,
    isa13: &[u8],
    d: Delimiters,
) -> Result<(), TrailerFault>
    ensures { result ≡ trailer_check (split d.element iea.now) groups isa13.now }
{
    if !has_two(iea, d) {
        return Err(TrailerFault::NotTwoElements);
    }
    if !closes(iea, isa13, d) {
        return Err(TrailerFault::OtherControl);
    }
    if !counts_groups(groups, iea, d) {
        return Err(TrailerFault::OtherCount);
    }
    Ok(())
}
