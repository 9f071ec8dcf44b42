#![tactic(auto)]
// The notes of a set, written: an AK3 for each segment that is told, and an AK4 for each finding.
ghost use Rattle.std.specs.Prelude.{◌≡◌, ◌&&◌, [], ◌∷◌, map, ◌+◌, length, get_or};
ghost use Rattle.rules.specs.Base.{all, between, is_upper_or_digit};
ghost use Rattle.rules.specs.Cutting.{field, split};
ghost use Rattle.rules.specs.Numbers.{decimal};
ghost use Rattle.rules.specs.Response.{fields_out, segment_out, ak4};
ghost use Rattle.rules.specs.Segments.{echoed};
ghost use Rattle.tables.specs.Reading.{id_bytes};
ghost use Rattle.elements.specs.Checks.{finding_in, findings_at, findings_from};
ghost use Rattle.findings.specs.Events as events;
ghost use Rattle.findings.specs.Remaining as rest;
ghost use Rattle.findings.specs.Steps.{codes_of, is_checked, start};
ghost use Rattle.notes.specs.Lines.{echoed_id, absent, code_of, finding_of, found_by};
ghost use Rattle.notes.specs.Saying.{Adds, Tells};
ghost use Rattle.writing.specs.Over.{sat, From};

use elements::{Found, PlaceCodes};
use findings::{Passed, Step, Taken};
use rules::{Delimiters, Finding, SegmentCode};
use tables::SegmentId;
use writing::{Number, add, add_field, add_optional, add_trailing};

// What is told of one segment, an AK3: its codes are its own, where it has one, and 8, where it is faulty.
#[derive(Clone, Copy)]
struct Line {
    id: SegmentId,
    position: usize,
    own: Option<SegmentCode>,
    faulty: bool,
}

// The byte at a place, 0 past the end. One expression of the library, as in `isa`: a shared function would be no shorter, with a promise of its own.
fn byte_at(s: &[u8], i: usize) -> u8
    ensures { result ≡ get_or s.now i 0 }
{
    s.get(i).copied().unwrap_or(0)
}

// Two or three uppercase letters or digits: an id that is echoed as it is.
fn is_id(s: &[u8]) -> bool
    ensures { result ≡ (between 2 3 (length s.now) && all is_upper_or_digit s.now) }
{
    (2..=3).contains(&s.len()) && text::is_name(s)
}

// The id that is echoed, `ZZZ` for what is none.
fn echoed_id(id: &[u8]) -> SegmentId
    ensures { result ≡ echoed_id id.now }
{
    let shown = if is_id(id) { id } else { b"ZZZ" };
    SegmentId {
        first: byte_at(shown, 0),
        second: byte_at(shown, 1),
        third: byte_at(shown, 2),
    }
}

// The mandatory segment of row k is missing.
fn absent(guide: &[[u16; 6]], k: usize, position: usize) -> Line
    ensures { result ≡ absent guide.now k position }
{
    Line {
        id: tables::id_at(guide, k),
        position,
        own: Some(SegmentCode::Missing),
        faulty: false,
    }
}

// A segment with this code has its elements checked.
fn is_checked(own: Option<SegmentCode>) -> bool
    ensures { result ≡ is_checked own }
{
    !matches!(own, Some(SegmentCode::NotKnown | SegmentCode::NotInTable))
}

// A segment's id as an element.
fn add_id(out: &mut [u8], n: usize, d: Delimiters, id: SegmentId) -> usize
    ensures { From n (fields_out d (id_bytes id ∷ [])) result out.old out.new }
{
    let bytes = [id.first, id.second, id.third];
    let end = text::find(&bytes, 0, 0);
    add_field(out, n, d, &bytes[..end])
}

// A code as an element, where there is one.
fn add_code(out: &mut [u8], n: usize, d: Delimiters, code: Option<SegmentCode>) -> usize
    ensures { From n (fields_out d (map decimal (code_of code))) result out.old out.new }
{
    match code {
        Some(code) => add_field(out, n, d, Number(code as u64)),
        None => n,
    }
}

// AK3: id, position, nothing, codes.
fn add_ak3(out: &mut [u8], n: usize, d: Delimiters, l: Line) -> usize
    ensures { From n (segment_out d (events.written (events.Line (id_bytes l.id) l.position (codes_of l.own l.faulty)))) result out.old out.new }
{
    let n = add(out, n, &rules::AK3);
    let n = add_id(out, n, d, l.id);
    let n = add_field(out, n, d, Number(l.position as u64));
    let n = add_optional(out, n, d, 0);
    let n = add_code(out, n, d, l.own);
    let n = add_code(out, n, d, l.faulty.then_some(SegmentCode::HasFindings));
    add(out, n, d.terminator)
}

// AK4 of a finding in a segment: place, reference number, code and echo.
fn add_ak4(out: &mut [u8], n: usize, s: &[u8], d: Delimiters, f: Finding) -> usize
    ensures { From n (segment_out d (ak4 (finding_in s.now f))) result out.old out.new }
{
    let n = add(out, n, &rules::AK4);
    let n = add_field(out, n, d, Number(f.place as u64));
    let n = add_optional(out, n, d, f.reference as u64);
    let n = add_field(out, n, d, Number(f.code as u64));
    let echo = text::part(s, f.echo.start, f.echo.end);
    let n = add_trailing(out, n, d, echo);
    add(out, n, d.terminator)
}

// What was written of a list of segments: the length of their text, and how many they are.
#[derive(Clone, Copy)]
pub struct Told {
    pub length: usize,
    pub segments: usize,
}

// One segment more, with which the text has n bytes.
fn one_more(told: Told, n: usize) -> Told
    ensures { result ≡ record { length = n; segments = sat (told.segments + 1) } }
{
    Told {
        length: n,
        segments: told.segments.saturating_add(1),
    }
}

// An AK3 after what was told before.
fn add_line(out: &mut [u8], told: Told, d: Delimiters, l: Line) -> Told
    ensures { Adds d (events.written (events.Line (id_bytes l.id) l.position (codes_of l.own l.faulty)) ∷ []) told result out.old out.new }
{
    one_more(told, add_ak3(out, told.length, d, l))
}

// The mandatory segments among the rows that are passed over, an AK3 for each.
fn add_missing(
    out: &mut [u8],
    told: Told,
    d: Delimiters,
    guide: &[[u16; 6]],
    passed: Passed,
) -> Told
    ensures { Adds d (map events.written (rest.passed_events guide.now passed)) told result out.old out.new }
{
    let mut sum = told;
    let mut from = passed.from;
    while let Some(row) = findings::next_missing(guide, from, passed.end) {
        sum = add_line(out, sum, d, absent(guide, row, passed.position));
        from = row + 1;
    }
    sum
}

// The AK3 of a segment, where it has a code.
fn add_segment_line(
    out: &mut [u8],
    told: Told,
    s: &[u8],
    d: Delimiters,
    taken: Taken,
    faulty: bool,
) -> Told
    ensures { Adds d (map events.written (rest.lined (echoed (field (split d.element s.now) 0)) taken.passed.position (codes_of taken.own faulty))) told result out.old out.new }
{
    if taken.own.is_none() && !faulty {
        return told;
    }
    let line = Line {
        id: echoed_id(segments::id(s, d.element)),
        position: taken.passed.position,
        own: taken.own,
        faulty,
    };
    add_line(out, told, d, line)
}

// An AK4, where there is a code.
fn add_finding(out: &mut [u8], told: Told, s: &[u8], d: Delimiters, f: Finding) -> Told
    ensures { Adds d (map ak4 (finding_of (finding_in s.now f))) told result out.old out.new }
{
    if f.code == 0 {
        return told;
    }
    one_more(told, add_ak4(out, told.length, s, d, f))
}

// An AK4 for each code of a place, the lower first.
fn add_codes(out: &mut [u8], told: Told, s: &[u8], d: Delimiters, c: PlaceCodes) -> Told
    ensures { Adds d (map ak4 (findings_at s.now c)) told result out.old out.new }
{
    let told = add_finding(out, told, s, d, c.finding(c.lower()));
    add_finding(out, told, s, d, c.finding(c.higher()))
}

// The findings of a segment from what is found on, an AK4 for each.
fn add_findings(
    out: &mut [u8],
    told: Told,
    s: &[u8],
    d: Delimiters,
    guide: &[[u16; 6]],
    found: Option<Found>,
) -> Told
    ensures { Adds d (map ak4 (findings_from d s.now guide.now found)) told result out.old out.new }
{
    let mut sum = told;
    let mut rest = found;
    while let Some(Found { codes, next }) = rest {
        sum = add_codes(out, sum, s, d, codes);
        rest = elements::next_found(s, d, guide, next);
    }
    sum
}

// What is found first in a segment with this code, by the entry of row `check`.
fn found_in(
    s: &[u8],
    d: Delimiters,
    guide: &[[u16; 6]],
    own: Option<SegmentCode>,
    check: usize,
) -> Option<Found>
    ensures { result ≡ found_by d s.now guide.now own check }
{
    if is_checked(own) {
        elements::first_found(s, d, guide, check)
    } else {
        None
    }
}

// What a segment passes over, its own AK3, and its findings.
fn add_segment(
    out: &mut [u8],
    told: Told,
    set: &[u8],
    d: Delimiters,
    guide: &[[u16; 6]],
    taken: Taken,
) -> Told
    ensures { Adds d (map events.written (rest.taken_events d guide.now set.now taken)) told result out.old out.new }
{
    let s = text::part(set, taken.start, taken.end);
    let found = found_in(s, d, guide, taken.own, taken.check);
    let told = add_missing(out, told, d, guide, taken.passed);
    let told = add_segment_line(out, told, s, d, taken, found.is_some());
    add_findings(out, told, s, d, guide, found)
}

// The notes of a set, from the start of what is lent.
pub fn put_notes(
    out: &mut [u8],
    set: &[u8],
    d: Delimiters,
    directory: &[[u8; 3]],
    guide: &[[u16; 6]],
    closed: bool,
) -> Told
    ensures { Tells d (map events.written (rest.events (rest.remaining set.now d directory.now guide.now closed start))) result out.old out.new }
{
    let mut told = Told {
        length: 0,
        segments: 0,
    };
    let mut w = findings::start();
    loop {
        match findings::next(set, d, directory, guide, closed, w) {
            Step::Segment(taken, v) => {
                told = add_segment(out, told, set, d, guide, taken);
                w = v;
            }
            Step::Trailer(passed) => {
                return add_missing(out, told, d, guide, passed);
            }
            Step::Done => {
                return told;
            }
        }
    }
}
