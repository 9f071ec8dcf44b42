#![tactic(auto)]
// The directory and the tables of document 01: rows of six numbers, read by the crate `tables`, and the choice of a set's table among them.
ghost use Rattle.std.specs.Prelude.{◌≡◌, [], ◌∷◌, ◌++◌, take};
ghost use Rattle.rules.specs.Base.{ascii, member};
ghost use Rattle.rules.specs.Cutting.{split};
ghost use Rattle.guides.specs.Encoded.{guide006010, guide004010, directory_rows};
ghost use Rattle.guides.specs.Choice.{has_tables, place_in, edition_in, scope_in, place_of};

use rules::Delimiters;
use tables::{AN, DT, ELEMENT, ID, M, N0, NOTE, O, P, R, SEGMENT, VALUE};

const DIRECTORY: [[u8; 3]; 5] = [*b"ST\0", *b"SE\0", *b"B1\0", *b"L11", *b"K1\0"];

// The table of edition 006010, then that of 004010.
const ROWS: [[u16; 6]; 36] = [
    [SEGMENT, b'S' as u16, b'T' as u16, 0, M, 1],
    [ELEMENT, 143, M, ID, 3, 3],
    [ELEMENT, 329, M, AN, 4, 9],
    [ELEMENT, 1705, O, AN, 1, 35],
    [SEGMENT, b'B' as u16, b'1' as u16, 0, M, 1],
    [ELEMENT, 140, M, ID, 2, 4],
    [ELEMENT, 145, O, AN, 1, 30],
    [ELEMENT, 373, O, DT, 8, 8],
    [ELEMENT, 558, O, ID, 1, 1],
    [VALUE, b'A' as u16, 0, 0, 0, 0],
    [VALUE, b'D' as u16, 0, 0, 0, 0],
    [SEGMENT, b'L' as u16, b'1' as u16, b'1' as u16, O, 1],
    [ELEMENT, 127, O, AN, 1, 30],
    [ELEMENT, 128, O, ID, 2, 3],
    [ELEMENT, 352, O, AN, 1, 80],
    [NOTE, P, 1, 2, 0, 0],
    [NOTE, R, 1, 3, 0, 0],
    [SEGMENT, b'S' as u16, b'E' as u16, 0, M, 1],
    [ELEMENT, 96, M, N0, 1, 10],
    [ELEMENT, 329, M, AN, 4, 9],
    [SEGMENT, b'S' as u16, b'T' as u16, 0, M, 1],
    [ELEMENT, 143, M, ID, 3, 3],
    [ELEMENT, 329, M, AN, 4, 9],
    [SEGMENT, b'B' as u16, b'1' as u16, 0, M, 1],
    [ELEMENT, 140, M, ID, 2, 4],
    [ELEMENT, 145, O, AN, 1, 30],
    [ELEMENT, 373, O, DT, 8, 8],
    [ELEMENT, 558, O, ID, 1, 1],
    [VALUE, b'A' as u16, 0, 0, 0, 0],
    [VALUE, b'D' as u16, 0, 0, 0, 0],
    [SEGMENT, b'K' as u16, b'1' as u16, 0, O, 10],
    [ELEMENT, 61, M, AN, 1, 30],
    [ELEMENT, 61, O, AN, 1, 30],
    [SEGMENT, b'S' as u16, b'E' as u16, 0, M, 1],
    [ELEMENT, 96, M, N0, 1, 10],
    [ELEMENT, 329, M, AN, 4, 9],
];

// The ids that are known at all, each filled up with 0.
pub fn directory() -> [[u8; 3]; 5]
    ensures { result ≡ directory_rows }
{
    DIRECTORY
}

// The rows of all tables.
pub fn rows() -> [[u16; 6]; 36]
    ensures { result ≡ guide006010 ++ guide004010 }
{
    ROWS
}

// The functional groups that are supported.
const GF: [u8; 2] = *b"GF";

const SM: [u8; 2] = *b"SM";

// The transaction set id of a load response.
const LOAD_RESPONSE: [u8; 3] = *b"990";

const EDITION_006010: [u8; 6] = *b"006010";

const EDITION_004010: [u8; 6] = *b"004010";

// The editions that have tables, and any other.
#[derive(Clone, Copy)]
pub enum Edition {
    E006010,
    E004010,
    Other,
}

impl Edition {
    // There are tables for it.
    pub fn has_tables(self) -> bool
        ensures { result ≡ has_tables self }
    {
        matches!(self, Edition::E006010 | Edition::E004010)
    }

    // Where its table of a load response stands.
    fn table(self) -> Option<TableAt>
        ensures { result ≡ place_in self }
    {
        match self {
            Edition::E006010 => Some(TableAt { start: 0, end: 20 }),
            Edition::E004010 => Some(TableAt { start: 20, end: 36 }),
            Edition::Other => None,
        }
    }
}

// The edition that GS08 names in its first six bytes.
fn edition_of(gs08: &[u8]) -> Edition
    ensures { result ≡ edition_in (take 6 gs08.now) }
{
    let edition = text::part(gs08, 0, 6);
    if text::same_bytes(edition, &EDITION_006010) {
        Edition::E006010
    } else if text::same_bytes(edition, &EDITION_004010) {
        Edition::E004010
    } else {
        Edition::Other
    }
}

// GS01 is supported.
fn is_supported(gs01: &[u8]) -> bool
    ensures { result ≡ member gs01.now (ascii "GF" ∷ ascii "SM" ∷ []) }
{
    text::same_bytes(gs01, &GF) || text::same_bytes(gs01, &SM)
}

// Which tables the sets of a group may have: none where its GS01 is not supported, else those of its edition.
#[derive(Clone, Copy)]
pub struct Scope {
    pub supported: bool,
    pub edition: Edition,
}

// The scope of a group, by the bytes of its GS.
pub fn scope_of(gs: &[u8], d: Delimiters) -> Scope
    ensures { result ≡ scope_in (split d.element gs.now) }
{
    Scope {
        supported: is_supported(segments::field(gs, d.element, 1)),
        edition: edition_of(segments::field(gs, d.element, 8)),
    }
}

// Where a set's table stands among the rows: from one row up to another. No `Span`: that is a part of a segment's bytes, and this counts rows.
#[derive(Clone, Copy)]
pub struct TableAt {
    pub start: usize,
    pub end: usize,
}

// The table of a set, by the scope of its group and its ST01.
pub fn table_of(scope: Scope, st01: &[u8]) -> Option<TableAt>
    ensures { result ≡ place_of scope st01.now }
{
    if scope.supported && text::same_bytes(st01, &LOAD_RESPONSE) {
        scope.edition.table()
    } else {
        None
    }
}
