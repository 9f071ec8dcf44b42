#![tactic(auto)]
// The notes of a set by a table that no document has, so that a test can run what the tables of document 01 cannot cause.
ghost use Rattle.writing.specs.Over.{Wrote};
ghost use Rattle.other_table.specs.OtherTable.{notes_text};

use rules::Delimiters;
use tables::{AN, DT, E, ELEMENT, ID, M, N0, NOTE, O, SEGMENT, TM, VALUE};

const DIRECTORY: [[u8; 3]; 3] = [*b"ST\0", *b"SE\0", *b"T1\0"];

const ROWS: [[u16; 6]; 17] = [
    [SEGMENT, b'S' as u16, b'T' as u16, 0, M, 1],
    [ELEMENT, 143, M, ID, 3, 3],
    [ELEMENT, 329, M, AN, 4, 9],
    [SEGMENT, b'T' as u16, b'1' as u16, 0, O, 9],
    [ELEMENT, 901, O, AN, 1, 9],
    [ELEMENT, 902, O, AN, 3, 5],
    [ELEMENT, 903, O, ID, 2, 2],
    [VALUE, b'A' as u16, b'A' as u16, 0, 0, 0],
    [VALUE, b'B' as u16, b'B' as u16, 0, 0, 0],
    [ELEMENT, 904, O, N0, 2, 3],
    [ELEMENT, 905, O, DT, 8, 8],
    [ELEMENT, 906, O, TM, 4, 8],
    [NOTE, E, 1, 2, 3, 4],
    [NOTE, E, 1, 4, 5, 6],
    [SEGMENT, b'S' as u16, b'E' as u16, 0, M, 1],
    [ELEMENT, 96, M, N0, 1, 10],
    [ELEMENT, 329, M, AN, 4, 9],
];

// For C, by other_table_c: the notes of a set with a trailer, from the start of what is lent, as far as they fit; their full length is returned.
#[unsafe(no_mangle)]
pub extern "C" fn x12_other_table_notes(set: &[u8], out: &mut [u8]) -> usize
    ensures { Wrote (notes_text set.now) result out.old out.new }
{
    let d = Delimiters::new(b'*', b'>', b'~', Some(b'^'));
    let told = notes::put_notes(out, set, d, &DIRECTORY, &ROWS, true);
    told.length
}
