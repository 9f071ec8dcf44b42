#![tactic(auto)]
// Notes on elements: the code of a value by its row, the syntax notes, and the findings of a segment, one place after the other.
ghost use Rattle.std.specs.Prelude.{◌≡◌, min, max, ◌&&◌, [], ◌∷◌, drop, ◌==◌, slice_index_or, Some};
ghost use Rattle.rules.specs.Base.{◌⇒◌, first, any, all};
ghost use Rattle.rules.specs.Cutting.{split};
ghost use Rattle.rules.specs.Codes.{element_number};
ghost use Rattle.rules.specs.Elements as law;
ghost use Rattle.tables.specs.Rows as rows;
ghost use Rattle.tables.specs.Reading.{row_at, note_at};
ghost use Rattle.elements.specs.Values.{unlisted, spelled_as, rule_code, value_code, takes_length, byte_code, row_code};
ghost use Rattle.elements.specs.Notes.{is_e, breaks, note_code_by};
ghost use Rattle.elements.specs.Marks.{no_marks, marked_with, marked, two, broken_by, breaks_note};
ghost use Rattle.elements.specs.Checks.{is_coded, beginning, echo_at, finding_by, note_row, next_start, field_after, codes_at, surplus, next_found, start};

use rules::{Delimiters, ElementCode, Finding, Kind, Relation, Span};
use tables::Places;

// Outside the code values of row k, where it has any.
fn is_unlisted(e: &[u8], guide: &[[u16; 6]], k: usize) -> bool
    ensures { result ≡ unlisted (row_at guide.now k) e.now }
{
    tables::has_values(guide, k) && !tables::is_listed(guide, k, e)
}

// The code of an empty element by row k.
fn empty_code(guide: &[[u16; 6]], k: usize) -> Option<ElementCode>
    ensures { element_number result ≡ first (((row_at guide.now k).mandatory ⇒ 1) ∷ []) }
{
    let row = tables::element_at(guide, k);
    row.mandatory.then_some(ElementCode::Missing)
}

// Of a number: nothing but digits after an optional minus.
fn is_spelled(e: &[u8], kind: Kind) -> bool
    ensures { result ≡ spelled_as kind e.now }
{
    kind != Kind::N0 || text::all_digits(text::unsigned(e))
}

// How long a value counts: the minus of a number does not.
fn value_length(e: &[u8], kind: Kind) -> usize
    ensures { result ≡ law.value_length kind e.now }
{
    let counted = if kind == Kind::N0 {
        text::unsigned(e)
    } else {
        e
    };
    counted.len()
}

// The code of the type's own rule.
#[tactic(auto, unfolding(rules::specs::Base::first))]
fn rule_code(e: &[u8], kind: Kind) -> Option<ElementCode>
    ensures { element_number result ≡ rule_code kind e.now }
{
    match kind {
        Kind::DT if !dates::is_date(e) => Some(ElementCode::NoDate),
        Kind::TM if !text::is_time(e) => Some(ElementCode::NoTime),
        _ => None,
    }
}

// The code of a value of valid bytes, which is not empty, by row k.
fn value_code(e: &[u8], guide: &[[u16; 6]], k: usize) -> Option<ElementCode>
    ensures { element_number result ≡ value_code (row_at guide.now k) e.now }
{
    let row = tables::element_at(guide, k);
    let kind = row.kind;
    if !is_spelled(e, kind) {
        return Some(ElementCode::BadByte);
    }
    let length = value_length(e, kind);
    if length < row.shortest {
        return Some(ElementCode::TooShort);
    }
    if row.longest < length {
        return Some(ElementCode::TooLong);
    }
    if is_unlisted(e, guide, k) {
        return Some(ElementCode::NotListed);
    }
    rule_code(e, kind)
}

// The repetition separator stands in the value.
fn repeats(e: &[u8], d: Delimiters) -> bool
    ensures { result ≡ law.repeats d e.now }
{
    e.iter().any(|&b| d.separates_repetitions(b))
}

// The code of a value by its bytes alone. The repetition separator is no valid byte, so valid ones are not searched for it.
fn byte_code(e: &[u8], d: Delimiters) -> Option<ElementCode>
    ensures { element_number result ≡ byte_code d e.now }
{
    if text::all_valid(e, d) {
        return None;
    }
    if repeats(e, d) {
        Some(ElementCode::TooManyRepetitions)
    } else {
        Some(ElementCode::BadByte)
    }
}

// The code of an element by row k.
fn element_code(e: &[u8], d: Delimiters, guide: &[[u16; 6]], k: usize) -> Option<ElementCode>
    ensures { element_number result ≡ law.element_code d (row_at guide.now k) e.now }
{
    if e.is_empty() {
        return empty_code(guide, k);
    }
    byte_code(e, d).or_else(|| value_code(e, guide, k))
}

// Row k asks of a text only how long it is, and takes this length.
pub fn takes_length(n: usize, guide: &[[u16; 6]], k: usize) -> bool
    ensures { result ≡ takes_length (row_at guide.now k) n }
{
    let row = tables::element_at(guide, k);
    matches!(row.kind, Kind::AN | Kind::ID)
        && !tables::has_values(guide, k)
        && (row.shortest..=row.longest).contains(&n)
}

// An element of valid bytes has no code by row k.
pub fn takes(e: &[u8], guide: &[[u16; 6]], k: usize) -> bool
    ensures { result ≡ (row_code (row_at guide.now k) e.now == 0) }
{
    if e.is_empty() {
        return empty_code(guide, k).is_none();
    }
    value_code(e, guide, k).is_none()
}

// One of the places is present.
fn any_present(s: &[u8], e: u8, places: &[usize]) -> bool
    ensures { result ≡ any (law.present (split e s.now)) places.now }
{
    places.iter().any(|&n| segments::is_present(s, e, n))
}

// The places after the first present one.
fn after_present<'a>(s: &[u8], e: u8, places: &'a [usize]) -> &'a [usize]
    ensures { result.now ≡ law.after_present (split e s.now) places.now }
{
    match places.iter().position(|&n| segments::is_present(s, e, n)) {
        Some(i) => &places[i + 1..],
        None => &[],
    }
}

// P: another place is present, and n is absent.
fn lacks_pair(s: &[u8], e: u8, places: &[usize], n: usize) -> bool
    ensures { result ≡ law.lacking (split e s.now) Relation.P places.now n }
{
    places.contains(&n) && !segments::is_present(s, e, n) && any_present(s, e, places)
}

// R: none is present, and n is the first.
fn lacks_one(s: &[u8], e: u8, places: &[usize], n: usize) -> bool
    ensures { result ≡ law.lacking (split e s.now) Relation.R places.now n }
{
    places.first() == Some(&n) && !any_present(s, e, places)
}

// E: n is present after another.
fn is_second(s: &[u8], e: u8, places: &[usize], n: usize) -> bool
    ensures { result ≡ law.excluded (split e s.now) Relation.E places.now n }
{
    segments::is_present(s, e, n) && after_present(s, e, places).contains(&n)
}

// C: the first is present, and n of the others is absent.
fn lacks_other(s: &[u8], e: u8, places: &[usize], n: usize) -> bool
    ensures { result ≡ law.lacking (split e s.now) Relation.C places.now n }
{
    let [first, others @ ..] = places else {
        return false;
    };
    others.contains(&n) && !segments::is_present(s, e, n) && segments::is_present(s, e, *first)
}

// L: the first is present and no other, and n is the second.
fn lacks_any_other(s: &[u8], e: u8, places: &[usize], n: usize) -> bool
    ensures { result ≡ law.lacking (split e s.now) Relation.L places.now n }
{
    let [first, others @ ..] = places else {
        return false;
    };
    others.first() == Some(&n) && !any_present(s, e, others) && segments::is_present(s, e, *first)
}

// The relation between the places is broken at place n: an element lacks there, or one is shut out.
fn is_broken(relation: Relation, s: &[u8], e: u8, places: &[usize], n: usize) -> bool
    ensures { result ≡ breaks (is_e relation) (split e s.now) n (record { relation = relation; places = places.now }) }
{
    match relation {
        Relation::P => lacks_pair(s, e, places, n),
        Relation::R => lacks_one(s, e, places, n),
        Relation::E => is_second(s, e, places, n),
        Relation::C => lacks_other(s, e, places, n),
        Relation::L => lacks_any_other(s, e, places, n),
    }
}

// Row k is a note that is broken at place n, which is present or absent.
fn breaks_note(s: &[u8], e: u8, guide: &[[u16; 6]], k: usize, n: usize, present: bool) -> bool
    ensures { result ≡ (rows.is_row 4 (slice_index_or guide.now k []) && breaks present (split e s.now) n (note_at guide.now k)) }
{
    if !tables::is_note(guide, k) {
        return false;
    }
    let relation = tables::relation_at(guide, k);
    // E shuts out what is present; each other relation asks for what is absent.
    if (relation == Relation::E) != present {
        return false;
    }
    let Places { numbers, count } = tables::places_at(guide, k);
    is_broken(relation, s, e, &numbers[..count], n)
}

// A note from row `from` on is broken at place n, which is present or absent.
fn breaks_notes(s: &[u8], e: u8, guide: &[[u16; 6]], from: usize, n: usize, present: bool) -> bool
    ensures { result ≡ any (breaks present (split e s.now) n) (rows.syntax_in (drop from guide.now)) }
{
    for k in from..guide.len() {
        if tables::is_segment(guide, k) {
            return false;
        }
        if breaks_note(s, e, guide, k, n, present) {
            return true;
        }
    }
    false
}

// The code that the notes from row `from` on give place n: what is present is shut out (10), and what is absent is asked for (2).
fn note_code(
    s: &[u8],
    e: u8,
    guide: &[[u16; 6]],
    from: usize,
    n: usize,
    present: bool,
) -> Option<ElementCode>
    ensures { element_number result ≡ note_code_by present (rows.syntax_in (drop from guide.now)) (split e s.now) n }
{
    if !breaks_notes(s, e, guide, from, n, present) {
        return None;
    }
    if present {
        Some(ElementCode::ShutOut)
    } else {
        Some(ElementCode::MissingByNote)
    }
}

// Where the check of a segment has come to: the next row, the place of the next element, and where the field before it ends. The notes of its
// entry stand from row `notes` on.
#[derive(Clone, Copy)]
pub struct Cursor {
    pub notes: usize,
    pub row: usize,
    pub place: usize,
    pub end: usize,
}

// A code whose AK4 shows the value.
#[tactic(auto, unfolding(rules::specs::Base::any))]
fn shows_value(code: u8) -> bool
    ensures { result ≡ law.shows_value code }
{
    code == ElementCode::TooShort as u8
        || code == ElementCode::TooLong as u8
        || code == ElementCode::NotListed as u8
        || code == ElementCode::NoDate as u8
        || code == ElementCode::NoTime as u8
        || code == ElementCode::ShutOut as u8
}

// A value with this code of its own is echoed under no code.
#[tactic(auto, unfolding(rules::specs::Base::any))]
fn is_withheld(own: u8) -> bool
    ensures { result ≡ law.is_withheld own }
{
    own == ElementCode::BadByte as u8 || own == ElementCode::TooManyRepetitions as u8
}

// As much of a value as is echoed: its first bytes. A span that ends before it starts has no length, and stays as it is.
fn beginning(value: Span) -> Span
    ensures { result ≡ beginning value }
{
    let longest = value.start.saturating_add(Finding::LONGEST_ECHO);
    Span {
        start: value.start,
        end: value.end.min(longest),
    }
}

// The codes of a place: that of its value and that of the notes, each 0 for none; and where the value lies.
#[derive(Clone, Copy)]
pub struct PlaceCodes {
    pub place: usize,
    pub reference: u16,
    pub own: u8,
    pub noted: u8,
    pub value: Span,
}

impl PlaceCodes {
    // The lower of the codes, 0 where there are not two.
    pub fn lower(self) -> u8
        ensures { result ≡ min self.own self.noted }
    {
        self.own.min(self.noted)
    }

    // The higher of them, 0 where there is none.
    pub fn higher(self) -> u8
        ensures { result ≡ max self.own self.noted }
    {
        self.own.max(self.noted)
    }

    // There is a code.
    fn is_coded(self) -> bool
        ensures { result ≡ is_coded self }
    {
        self.own != 0 || self.noted != 0
    }

    // Where the echo under one of the codes lies.
    fn echo(self, code: u8) -> Span
        ensures { result ≡ echo_at self code }
    {
        if shows_value(code) && !is_withheld(self.own) {
            return beginning(self.value);
        }
        let start = self.value.start;
        Span { start, end: start }
    }

    // The finding of one of the codes.
    pub fn finding(self, code: u8) -> Finding
        ensures { result ≡ finding_by self code }
    {
        Finding::new(self.place, self.reference, code, self.echo(code))
    }
}

// What a check finds next: the codes of a place that has any, and where it goes on.
#[derive(Clone, Copy)]
pub struct Found {
    pub codes: PlaceCodes,
    pub next: Cursor,
}

// The first note or segment from row `from` on; the number of rows where there is none, and `from` where that is past the end.
fn first_note(guide: &[[u16; 6]], from: usize) -> usize
    ensures { result ≡ note_row guide.now from }
{
    for k in from..guide.len() {
        if tables::is_note(guide, k) || tables::is_segment(guide, k) {
            return k;
        }
    }
    from.max(guide.len())
}

// Where the field starts that follows the one which ends at `end`; the segment's end where none follows.
fn next_start(s: &[u8], end: usize) -> usize
    ensures { result ≡ next_start s.now end }
{
    end.saturating_add(1).min(s.len())
}

// The field that follows the one which ends at `end`.
fn field_after(s: &[u8], e: u8, end: usize) -> Span
    ensures { result ≡ field_after e s.now end }
{
    let start = next_start(s, end);
    Span {
        start,
        end: text::find_near(s, start, e),
    }
}

// Which places of a segment are present: a bit for each up to place 63, and the bit of the next place, which is 0 past them.
#[derive(Clone, Copy)]
pub struct Marks {
    pub bits: usize,
    pub next: usize,
}

impl Marks {
    // No place so far.
    pub fn none() -> Marks
        ensures { result ≡ no_marks }
    {
        Marks { bits: 0, next: 2 }
    }

    // One place more, which is present or absent.
    pub fn with(self, present: bool) -> Marks
        ensures { result ≡ marked_with self present }
    {
        let bits = if present {
            self.bits.wrapping_add(self.next)
        } else {
            self.bits
        };
        Marks {
            bits,
            next: self.next << 1,
        }
    }

    // Place n is present. The places that notes name are below 64, so the remainder only keeps the shift in range.
    fn has(self, n: usize) -> bool
        ensures { result ≡ marked self n }
    {
        (self.bits >> (n % 64)) & 1 == 1
    }

    // One of the places is present.
    fn any_of(self, places: &[usize]) -> bool
        ensures { result ≡ any (marked self) places.now }
    {
        places.iter().any(|&n| self.has(n))
    }

    // All of the places are present.
    fn all_of(self, places: &[usize]) -> bool
        ensures { result ≡ all (marked self) places.now }
    {
        places.iter().all(|&n| self.has(n))
    }

    // Two of the places are present.
    fn two_of(self, places: &[usize]) -> bool
        ensures { result ≡ two (marked self) places.now }
    {
        2 <= places.iter().filter(|&&n| self.has(n)).count()
    }

    // Of two places at least, the first is present and no other.
    fn only_first(self, places: &[usize]) -> bool
        ensures { result ≡ broken_by (marked self) Relation.L places.now }
    {
        let [first, others @ ..] = places else {
            return false;
        };
        !others.is_empty() && self.has(*first) && !self.any_of(others)
    }

    // The relation between the places is broken somewhere.
    fn breaks(self, relation: Relation, places: &[usize]) -> bool
        ensures { result ≡ broken_by (marked self) relation places.now }
    {
        match relation {
            Relation::P => self.any_of(places) && !self.all_of(places),
            Relation::R => !places.is_empty() && !self.any_of(places),
            Relation::E => self.two_of(places),
            Relation::C => places.first().is_some_and(|&n| self.has(n)) && !self.all_of(places),
            Relation::L => self.only_first(places),
        }
    }

    // Row k is a note that is broken somewhere.
    pub fn breaks_note(self, guide: &[[u16; 6]], k: usize) -> bool
        ensures { result ≡ (rows.is_row 4 (slice_index_or guide.now k []) && breaks_note (marked self) (note_at guide.now k)) }
    {
        if !tables::is_note(guide, k) {
            return false;
        }
        let relation = tables::relation_at(guide, k);
        let Places { numbers, count } = tables::places_at(guide, k);
        self.breaks(relation, &numbers[..count])
    }
}

// The number of a code, 0 for none.
fn number(code: Option<ElementCode>) -> u8
    ensures { result ≡ element_number code }
{
    code.map_or(0, |code| code as u8)
}

// The codes of the next place by the element of the next row, in the next field.
fn codes_at(s: &[u8], d: Delimiters, guide: &[[u16; 6]], c: Cursor) -> PlaceCodes
    ensures { result ≡ codes_at d s.now guide.now c }
{
    let value = field_after(s, d.element, c.end);
    let present = value.start < value.end;
    PlaceCodes {
        place: c.place,
        reference: tables::element_at(guide, c.row).reference,
        own: number(element_code(&s[value.start..value.end], d, guide, c.row)),
        noted: number(note_code(s, d.element, guide, c.notes, c.place, present)),
        value,
    }
}

// Code 3 where an element stands beyond the rows.
fn surplus(s: &[u8], c: Cursor) -> Option<Found>
    ensures { result ≡ surplus s.now c }
{
    if s.len() <= c.end {
        return None;
    }
    let codes = PlaceCodes {
        place: c.place,
        reference: 0,
        own: ElementCode::BeyondTable as u8,
        noted: 0,
        // Under this code nothing is echoed.
        value: Span { start: 0, end: 0 },
    };
    Some(Found {
        codes,
        next: Cursor { end: s.len(), ..c },
    })
}

// What the check of a segment finds next.
pub fn next_found(s: &[u8], d: Delimiters, guide: &[[u16; 6]], cursor: Cursor) -> Option<Found>
    ensures { result ≡ next_found d s.now guide.now cursor }
{
    let mut c = cursor;
    for row in cursor.row..guide.len() {
        if tables::is_segment(guide, row) {
            break;
        }
        if tables::is_element(guide, row) {
            let codes = codes_at(s, d, guide, c);
            c.place = c.place.saturating_add(1);
            c.end = codes.value.end;
            c.row = row + 1;
            if codes.is_coded() {
                return Some(Found { codes, next: c });
            }
        } else {
            c.row = row + 1;
        }
    }
    surplus(s, c)
}

// What the check of a segment by its entry finds first.
pub fn first_found(s: &[u8], d: Delimiters, guide: &[[u16; 6]], entry: usize) -> Option<Found>
    ensures { result ≡ next_found d s.now guide.now (start d s.now guide.now entry) }
{
    let row = tables::below(guide, entry);
    let c = Cursor {
        notes: first_note(guide, row),
        row,
        place: 1,
        end: text::find_near(s, 0, d.element),
    };
    next_found(s, d, guide, c)
}
