#![tactic(auto)]
// The verdicts: the codes of a set (AK5), and the summary of a group (AK9).
ghost use Rattle.std.specs.Prelude.{◌≡◌, ◌&&◌, [], ◌∷◌, ◌+◌, min, drop, if◌then◌else◌, unwrap_or};
ghost use Rattle.std.specs.Option.{option_copied};
ghost use Rattle.rules.specs.Base.{ascii, same, null};
ghost use Rattle.rules.specs.Cutting as cutting;
ghost use Rattle.rules.specs.Cutting.{split};
ghost use Rattle.rules.specs.Numbers.{declares};
ghost use Rattle.rules.specs.Sets.{declared_in};
ghost use Rattle.rules.specs.Groups as groups;
ghost use Rattle.text.specs.Text.{index_of, part};
ghost use Rattle.verdicts.specs.Collecting.{codes_of, no_codes, with_code, collected};
ghost use Rattle.verdicts.specs.Verdicts.{trailer_if, other_control, other_count, set_code_rules, group_code_rules, verdict_out, summary_of};

use guides::Scope;
use rules::{Delimiters, GroupCode, SetCode};
use segments::field;
use text::same_bytes;

// How many digits a declared count may have.
const SE01_DIGITS: usize = 10;

const GE01_DIGITS: usize = 6;

// Codes: the first `count` of `list`, a value of fixed size, since nothing is allocated.
#[derive(Clone, Copy)]
pub struct Codes {
    pub list: [u8; Codes::MOST],
    pub count: usize,
}

impl Codes {
    pub const MOST: usize = 6;

    // No code.
    pub fn none() -> Self
        ensures { result ≡ no_codes }
    {
        Self {
            list: [0; Codes::MOST],
            count: 0,
        }
    }

    // One more where it applies. Where there are six, no more fits.
    fn with(mut self, applies: bool, code: u8) -> Self
        ensures { result ≡ with_code self applies code }
    {
        if applies && self.count < Codes::MOST {
            self.list[self.count] = code;
            self.count += 1;
        }
        self
    }

    // There is no code.
    pub fn is_empty(self) -> bool
        ensures { result ≡ null (codes_of self) }
    {
        self.count == 0
    }
}

// There is a trailer, and its control number is not that of the header, which is element n there.
fn is_other_control(trailer: Option<&[u8]>, header: &[u8], e: u8, n: usize) -> bool
    ensures { result ≡ other_control (cutting.field (split e header.now) n) (trailer_if e (option_copied trailer.entry)) }
{
    trailer.is_some_and(|trailer| !same_bytes(field(trailer, e, 2), field(header, e, n)))
}

// There is a trailer, and it does not declare the count n.
fn is_other_count(trailer: Option<&[u8]>, e: u8, most: usize, n: usize) -> bool
    ensures { result ≡ other_count (min most 10) n (trailer_if e (option_copied trailer.entry)) }
{
    trailer.is_some_and(|trailer| !text::declares(field(trailer, e, 1), most, n as u64))
}

// The field that starts at `at`, the empty part where that is past the end.
fn field_at(s: &[u8], e: u8, at: usize) -> &[u8]
    ensures { result.now ≡ part s.now at (at + index_of e (drop at s.now)) }
{
    text::part(s, at, text::find_near(s, at, e))
}

// A set of n segments with this control number is closed by its trailer as it should be.
pub fn closes(trailer: &[u8], e: u8, n: usize, control: &[u8]) -> bool
    ensures { result ≡ (declares 10 (cutting.field (split e trailer.now) 1) n && same (cutting.field (split e trailer.now) 2) control.now) }
{
    let first = text::find_near(trailer, 0, e) + 1;
    let se01 = field_at(trailer, e, first);
    text::declares(se01, SE01_DIGITS, n as u64)
        && same_bytes(field_at(trailer, e, first + se01.len() + 1), control)
}

// What a set's codes are made from, beside the bytes of its header and trailer.
#[derive(Clone, Copy)]
pub struct SetFacts {
    // It has a table.
    pub supported: bool,
    // How many segments there are, from header to trailer.
    pub segments: usize,
    // An AK3 is written of it.
    pub noted: bool,
    // An earlier set has its control number.
    pub repeated: bool,
}

// The codes of a set, by the bytes of its ST, and of its SE where it has one.
pub fn set_codes(header: &[u8], trailer: Option<&[u8]>, d: Delimiters, set: SetFacts) -> Codes
    ensures { result ≡ collected (set_code_rules set (split d.element header.now) (trailer_if d.element (option_copied trailer.entry))) }
{
    let e = d.element;
    Codes::none()
        .with(!set.supported, SetCode::NotSupported as u8)
        .with(trailer.is_none(), SetCode::NoTrailer as u8)
        .with(
            is_other_control(trailer, header, e, 2),
            SetCode::OtherControl as u8,
        )
        .with(
            is_other_count(trailer, e, SE01_DIGITS, set.segments),
            SetCode::OtherCount as u8,
        )
        .with(set.noted, SetCode::HasNotes as u8)
        .with(set.repeated, SetCode::Repeated as u8)
}

// The codes of a group, by the bytes of its GS, and of its GE where it has one.
fn group_codes(gs: &[u8], ge: Option<&[u8]>, d: Delimiters, scope: Scope, sets: usize) -> Codes
    ensures { result ≡ collected (group_code_rules scope (split d.element gs.now) (trailer_if d.element (option_copied ge.entry)) sets) }
{
    let e = d.element;
    let edition = scope.edition;
    Codes::none()
        .with(!scope.supported, GroupCode::NotSupported as u8)
        .with(!edition.has_tables(), GroupCode::NoTable as u8)
        .with(ge.is_none(), GroupCode::NoTrailer as u8)
        .with(
            is_other_control(ge, gs, e, 6),
            GroupCode::OtherControl as u8,
        )
        .with(
            is_other_count(ge, e, GE01_DIGITS, sets),
            GroupCode::OtherCount as u8,
        )
}

// AK902: the value of GE01, or the number of sets where it declares none.
fn included_sets(ge: Option<&[u8]>, d: Delimiters, sets: usize) -> u64
    ensures { result ≡ unwrap_or (declared_in 6 (trailer_if d.element (option_copied ge.entry))) sets }
{
    ge.and_then(|ge| text::count_in(field(ge, d.element, 1), GE01_DIGITS))
        .unwrap_or(sets as u64)
}

// How many sets a group has, and how many of them are accepted.
#[derive(Clone, Copy)]
pub struct Tally {
    pub received: usize,
    pub accepted: usize,
}

// AK901, by the bytes that are written.
#[derive(Clone, Copy, PartialEq, Eq)]
pub enum Verdict {
    Accepted = b'A' as isize,
    Partly = b'P' as isize,
    Rejected = b'R' as isize,
}

impl Verdict {
    pub fn byte(self) -> u8
        ensures { result ∷ [] ≡ verdict_out self }
    {
        self as u8
    }
}

// AK901, by the group's codes and its sets.
fn verdict_of(codes: Codes, sets: Tally) -> Verdict
    ensures { verdict_out result ≡ groups.verdict (codes_of codes) sets.received sets.accepted }
{
    if !codes.is_empty() || sets.accepted == 0 {
        Verdict::Rejected
    } else if sets.accepted == sets.received {
        Verdict::Accepted
    } else {
        Verdict::Partly
    }
}

// AK904: the sets accepted, and none under the verdict R.
fn allowed_sets(verdict: Verdict, accepted: usize) -> usize
    ensures { result ≡ if same (verdict_out verdict) (ascii "R") then 0 else accepted }
{
    match verdict {
        Verdict::Accepted | Verdict::Partly => accepted,
        Verdict::Rejected => 0,
    }
}

// The summary of a group: AK901 to AK904, and its codes.
#[derive(Clone, Copy)]
pub struct Summary {
    pub verdict: u8,
    pub included: u64,
    pub received: usize,
    pub allowed: usize,
    pub codes: Codes,
}

// The summary of a group, by the bytes of its GS, and of its GE where it has one, its scope and its sets.
pub fn summary_of(gs: &[u8], ge: Option<&[u8]>, d: Delimiters, scope: Scope, sets: Tally) -> Summary
    ensures { result ≡ summary_of scope (split d.element gs.now) (trailer_if d.element (option_copied ge.entry)) sets }
{
    let codes = group_codes(gs, ge, d, scope, sets.received);
    let verdict = verdict_of(codes, sets);
    Summary {
        verdict: verdict.byte(),
        included: included_sets(ge, d, sets.received),
        received: sets.received,
        allowed: allowed_sets(verdict, sets.accepted),
        codes,
    }
}
