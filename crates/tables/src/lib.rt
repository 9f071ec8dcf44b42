#![tactic(auto)]
// Reading a guide: a table as rows of six numbers, lent. What the numbers mean is said in `specs/Rows.antt`.
ghost use Rattle.std.specs.Prelude.{◌≡◌, not, [], ◌%◌, get_or, drop};
ghost use Rattle.rules.specs.Base.{same, member, null};
ghost use Rattle.tables.specs.Rows.{is_row, filled, kind_of, relation_of, ids_in};
ghost use Rattle.text.specs.Text.{next_where, index_of};
ghost use Rattle.tables.specs.Reading.{entry_at, row_at, note_at, codes_at, id_in, is_entry_row, is_mandatory_row, entry_row, next_mandatory, id_at, row_below, element_row, places_at, next_due};

use rules::{Kind, Relation};

// What the numbers of a row mean. They are no enums: `put_notes` and every reader here take any rows of six numbers, so that a narrower type would ask
// more, and a table is a constant array of them.

// What a row is.
pub const SEGMENT: u16 = 1;

pub const ELEMENT: u16 = 2;

pub const VALUE: u16 = 3;

pub const NOTE: u16 = 4;

// Mandatory and optional.
pub const M: u16 = 1;

pub const O: u16 = 0;

// The types of elements.
pub const AN: u16 = 0;

pub const ID: u16 = 1;

pub const N0: u16 = 2;

pub const DT: u16 = 3;

pub const TM: u16 = 4;

// The relations of syntax notes.
pub const P: u16 = 0;

pub const R: u16 = 1;

pub const E: u16 = 2;

pub const C: u16 = 3;

pub const L: u16 = 4;

// The columns of a segment's row after its id: whether it is mandatory, and how often it may be used.
const NEED: usize = 4;

const MOST: usize = 5;

// The columns of an element's row.
const REFERENCE: usize = 1;

const MANDATORY: usize = 2;

const KIND: usize = 3;

const SHORTEST: usize = 4;

const LONGEST: usize = 5;

// The columns of a note's row: its relation, and from the second on its places.
const RELATION: usize = 1;

// The id of a segment by value: two or three bytes, the third 0 where there are two. Three fields and no array: `id_bytes` and the laws on it name them.
#[derive(Clone, Copy)]
pub struct SegmentId {
    pub first: u8,
    pub second: u8,
    pub third: u8,
}

// An element's row by value. Its code values stay in the guide.
#[derive(Clone, Copy)]
pub struct ElementRow {
    pub reference: u16,
    pub mandatory: bool,
    pub kind: Kind,
    pub shortest: usize,
    pub longest: usize,
}

// The places that a note names, in their order: as many of the numbers as the count says. No heap, so they stand in an array with the count beside.
#[derive(Clone, Copy)]
pub struct Places {
    pub numbers: [usize; 4],
    pub count: usize,
}

// The number at i, 0 past the end.
fn number_at(numbers: &[u16], i: usize) -> u16
    ensures { result ≡ get_or numbers.now i 0 }
{
    numbers.get(i).copied().unwrap_or(0)
}

// The numbers before the first 0 are these bytes.
fn spells(numbers: &[u16], bytes: &[u8]) -> bool
    ensures { result ≡ same (filled numbers.now) bytes.now }
{
    for (i, &byte) in bytes.iter().enumerate() {
        let number = number_at(numbers, i);
        // The numbers end at a 0, even where the byte is a 0 too.
        if number == 0 || number != u16::from(byte) {
            return false;
        }
    }
    number_at(numbers, bytes.len()) == 0
}

fn is_id(row: [u16; 6], id: &[u8]) -> bool
    ensures { result ≡ same (filled (id_in row)) id.now }
{
    spells(&row[1..4], id)
}

fn is_code(row: [u16; 6], value: &[u8]) -> bool
    ensures { result ≡ same value.now (filled (drop 1 row)) }
{
    spells(&row[1..6], value)
}

fn is_entry_row(row: [u16; 6], id: &[u8]) -> bool
    ensures { result ≡ is_entry_row id.now row }
{
    row[0] == SEGMENT && is_id(row, id)
}

fn is_mandatory_row(row: [u16; 6]) -> bool
    ensures { result ≡ is_mandatory_row row }
{
    row[0] == SEGMENT && row[NEED] == M
}

// A number of row k, 0 past the end.
fn number(guide: &[[u16; 6]], k: usize, column: usize) -> u16
    ensures { result ≡ get_or (get_or guide.now k []) column 0 }
{
    guide.get(k).map_or(0, |row| number_at(row, column))
}

fn wide_number(guide: &[[u16; 6]], k: usize, column: usize) -> usize
    ensures { result ≡ get_or (get_or guide.now k []) column 0 }
{
    usize::from(number(guide, k, column))
}

fn is_row(guide: &[[u16; 6]], what: u16, k: usize) -> bool
    ensures { result ≡ is_row what (get_or guide.now k []) }
{
    number(guide, k, 0) == what
}

// Row k is a segment.
pub fn is_segment(guide: &[[u16; 6]], k: usize) -> bool
    ensures { result ≡ is_row 1 (get_or guide.now k []) }
{
    is_row(guide, SEGMENT, k)
}

// Row k is an element of the segment above it.
pub fn is_element(guide: &[[u16; 6]], k: usize) -> bool
    ensures { result ≡ is_row 2 (get_or guide.now k []) }
{
    is_row(guide, ELEMENT, k)
}

// Row k is a code value of the element above it.
fn is_value(guide: &[[u16; 6]], k: usize) -> bool
    ensures { result ≡ is_row 3 (get_or guide.now k []) }
{
    is_row(guide, VALUE, k)
}

// Row k is a syntax note of the segment above it.
pub fn is_note(guide: &[[u16; 6]], k: usize) -> bool
    ensures { result ≡ is_row 4 (get_or guide.now k []) }
{
    is_row(guide, NOTE, k)
}

// By a match and not by `From`: the number and the enum are both types of other crates, for which no `impl` may stand here.
fn kind_of(n: u16) -> Kind
    ensures { result ≡ kind_of n }
{
    match n {
        ID => Kind::ID,
        N0 => Kind::N0,
        DT => Kind::DT,
        TM => Kind::TM,
        _ => Kind::AN,
    }
}

// By a match, as `kind_of`.
fn relation_of(n: u16) -> Relation
    ensures { result ≡ relation_of n }
{
    match n {
        R => Relation::R,
        E => Relation::E,
        C => Relation::C,
        L => Relation::L,
        _ => Relation::P,
    }
}

// The row below row k; past the end there is none, whatever the number. A row is named by the guide and its number, here and below, and by no struct of
// the two: what is behind it belongs to it, and the walks go on by its number.
pub fn below(guide: &[[u16; 6]], k: usize) -> usize
    ensures { result ≡ row_below guide.now k }
{
    if k < guide.len() { k + 1 } else { k }
}

// How often the segment of row k may be used.
pub fn most_uses(guide: &[[u16; 6]], k: usize) -> usize
    ensures { result ≡ (entry_at guide.now k).most }
{
    wide_number(guide, k, MOST)
}

// The element of row k.
pub fn element_at(guide: &[[u16; 6]], k: usize) -> ElementRow
    ensures { result ≡ element_row (row_at guide.now k) }
{
    ElementRow {
        reference: number(guide, k, REFERENCE),
        mandatory: number(guide, k, MANDATORY) == M,
        kind: kind_of(number(guide, k, KIND)),
        shortest: wide_number(guide, k, SHORTEST),
        longest: wide_number(guide, k, LONGEST),
    }
}

// The relation of the note in row k.
pub fn relation_at(guide: &[[u16; 6]], k: usize) -> Relation
    ensures { result ≡ (note_at guide.now k).relation }
{
    relation_of(number(guide, k, RELATION))
}

// How many numbers stand before the first 0.
fn named(numbers: &[usize]) -> usize
    ensures { result ≡ index_of 0 numbers.now }
{
    numbers
        .iter()
        .position(|&n| n == 0)
        .unwrap_or(numbers.len())
}

// The places of the note in row k.
pub fn places_at(guide: &[[u16; 6]], k: usize) -> Places
    ensures { result ≡ places_at guide.now k }
{
    let numbers = [
        wide_number(guide, k, 2),
        wide_number(guide, k, 3),
        wide_number(guide, k, 4),
        wide_number(guide, k, 5),
    ];
    let count = named(&numbers);
    Places { numbers, count }
}

// The row of the first segment with this id; the number of rows where there is none. No `Option`: the contract, which other tables are read by too,
// promises that number, here and in `next_mandatory`.
pub fn reach(guide: &[[u16; 6]], id: &[u8]) -> usize
    ensures { result ≡ entry_row guide.now id.now }
{
    guide
        .iter()
        .position(|&row| is_entry_row(row, id))
        .unwrap_or(guide.len())
}

// The first mandatory segment from row `from` on and before row `end`; `end` or the number of rows where there is none.
pub fn next_mandatory(guide: &[[u16; 6]], from: usize, end: usize) -> usize
    ensures { result ≡ next_mandatory guide.now from end }
{
    let end = end.min(guide.len());
    for k in from..end {
        if is_mandatory_row(guide[k]) {
            return k;
        }
    }
    from.max(end)
}

// The element of row k has code values.
pub fn has_values(guide: &[[u16; 6]], k: usize) -> bool
    ensures { result ≡ not (null (row_at guide.now k).codes) }
{
    is_value(guide, below(guide, k))
}

// The value is one of the code values from row `from` on.
fn is_listed_from(guide: &[[u16; 6]], from: usize, value: &[u8]) -> bool
    ensures { result ≡ member value.now (codes_at guide.now from) }
{
    for k in from..guide.len() {
        if !is_value(guide, k) {
            return false;
        }
        if is_code(guide[k], value) {
            return true;
        }
    }
    false
}

// The value is one of the code values of the element in row k.
pub fn is_listed(guide: &[[u16; 6]], k: usize, value: &[u8]) -> bool
    ensures { result ≡ member value.now (row_at guide.now k).codes }
{
    is_listed_from(guide, below(guide, k), value)
}

// By a remainder and not by `From`: what is above a byte is dropped.
fn low_byte(n: u16) -> u8
    ensures { result ≡ n % 256 }
{
    (n % 256) as u8
}

// The id of row k, by value.
pub fn id_at(guide: &[[u16; 6]], k: usize) -> SegmentId
    ensures { result ≡ id_at guide.now k }
{
    SegmentId {
        first: low_byte(number(guide, k, 1)),
        second: low_byte(number(guide, k, 2)),
        third: low_byte(number(guide, k, 3)),
    }
}

fn is_named(row: [u8; 3], id: &[u8]) -> bool
    ensures { result ≡ same id.now (filled row) }
{
    spells(&row.map(u16::from), id)
}

// The id is one of the directory.
pub fn is_known(id: &[u8], directory: &[[u8; 3]]) -> bool
    ensures { result ≡ member id.now (ids_in directory.now) }
{
    directory.iter().any(|&row| is_named(row, id))
}

// Row k is the segment with this id.
pub fn is_entry(guide: &[[u16; 6]], k: usize, id: &[u8]) -> bool
    ensures { result ≡ is_entry_row id.now (get_or guide.now k []) }
{
    guide.get(k).is_some_and(|&row| is_entry_row(row, id))
}

// The row of the next segment with this id from row `from` on, where no mandatory one stands before it.
pub fn next_due(guide: &[[u16; 6]], from: usize, id: &[u8]) -> Option<usize>
    ensures { result ≡ next_due guide.now from id.now }
{
    for k in from..guide.len() {
        if is_entry_row(guide[k], id) {
            return Some(k);
        }
        if is_mandatory_row(guide[k]) {
            return None;
        }
    }
    None
}
