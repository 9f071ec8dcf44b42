#![tactic(auto)]
// ISA: its delimiters and its fields, refusals 2 to 5, and the last byte.
ghost use Rattle.std.specs.Prelude.{◌≡◌, [], ◌∷◌, ◌≤◌, ◌<◌, get_or};
ghost use Rattle.std.proofs.Math.Seq.{slice};
ghost use Rattle.rules.specs.Base.{ascii, all, last, member};
ghost use Rattle.rules.specs.Cutting as cutting;
ghost use Rattle.rules.specs.Cutting.{field, isa, separators, valid, marks, knows_repetition, repetition_in};
ghost use Rattle.rules.specs.Refusals.{is_terminated, has_isa, plain, distinct, good_marks, text_fields, good_isa};
ghost use Rattle.isa.specs.Delimited.{isa_of};

use rules::{Delimiters, Interchange, Refusal};
use text::{all_valid, is_digits, same_bytes};

// The fields of ISA that are read by place: the id, and ISA01 to ISA15.
const FIELDS: usize = 16;

// Where the separator after each of them stands.
const SEPARATORS: [usize; FIELDS] = [
    3, 6, 17, 20, 31, 34, 50, 53, 69, 76, 81, 83, 89, 99, 101, 103,
];

// Where the delimiters stand.
const ELEMENT: usize = 3;

const REPETITION: usize = 82;

const COMPONENT: usize = 104;

const TERMINATOR: usize = 105;

// The first control version that knows repetition.
const FIRST_WITH_REPETITION: u64 = 402;

// Refusals 2 to 5: the length of the interchange, and its ISA, which brings the delimiters.
pub fn read_isa(i: &[u8]) -> Result<Delimiters, Refusal>
    ensures { result ≡ isa_of i.now }
{
    if !text::is_between(i.len(), Interchange::SHORTEST, Interchange::LONGEST) {
        return Err(Refusal::BadLength);
    }
    if !has_isa(i) {
        return Err(Refusal::NoIsa);
    }
    let d = delimiters(i);
    if !has_good_marks(d) {
        return Err(Refusal::BadDelimiters);
    }
    if !is_good_isa(i, d) {
        return Err(Refusal::BadIsa);
    }
    Ok(d)
}

// The last byte ends a segment.
pub fn is_terminated(i: &[u8], d: Delimiters) -> bool
    ensures { result ≡ is_terminated d i.now }
{
    last_byte(i) == d.terminator
}

// The delimiters that the interchange brings. Of a short one the first three are 0 where they are missing, and there is no fourth where ISA12 is cut short.
fn delimiters(i: &[u8]) -> Delimiters
    ensures { result ≡ cutting.delimiters i.now }
{
    Delimiters::new(
        byte_at(i, ELEMENT),
        byte_at(i, COMPONENT),
        byte_at(i, TERMINATOR),
        repetition(i),
    )
}

// ISA11 where it is the repetition separator.
fn repetition(i: &[u8]) -> Option<u8>
    ensures { result ≡ repetition_in i.now }
{
    let isa11 = byte_at(i, REPETITION);
    if isa11 != b'U' && knows_repetition(isa_field(i, 12)) {
        Some(isa11)
    } else {
        None
    }
}

fn knows_repetition(isa12: &[u8]) -> bool
    ensures { result ≡ knows_repetition isa12.now }
{
    is_digits(isa12, 5, 5) && FIRST_WITH_REPETITION <= text::value(isa12)
}

// Field n of ISA, where the separators stand at these places; of a short interchange what there is of it.
fn field_at<'a>(i: &'a [u8], separators: &[usize; FIELDS], n: usize) -> &'a [u8]
    requires { (separators.now ≡ cutting.separators) × (n < 16) }
    ensures { result.now ≡ field (isa i.now) n }
{
    let end = separators[n];
    if n == 0 {
        return text::part(i, 0, end);
    }
    text::part(i, separators[n - 1] + 1, end)
}

// Field n of ISA by its fixed places, up to ISA15; of a short interchange what there is of it.
pub fn isa_field(i: &[u8], n: usize) -> &[u8]
    ensures { result.now ≡ field (isa i.now) n }
{
    if FIELDS <= n {
        return &i[0..0];
    }
    let separators = SEPARATORS;
    field_at(i, &separators, n)
}

// ISA, and a separator at each of its places.
fn has_isa(i: &[u8]) -> bool
    ensures { result ≡ has_isa i.now }
{
    if !same_bytes(text::part(i, 0, 3), &rules::ISA) {
        return false;
    }
    let e = byte_at(i, ELEMENT);
    SEPARATORS.iter().all(|&at| byte_at(i, at) == e)
}

fn has_good_marks(d: Delimiters) -> bool
    ensures { result ≡ good_marks (marks d) }
{
    match d.repetition {
        None => are_good_marks(&[d.element, d.component, d.terminator]),
        Some(separator) => are_good_marks(&[d.element, d.component, d.terminator, separator]),
    }
}

fn are_good_marks(marks: &[u8]) -> bool
    ensures { result ≡ good_marks marks.now }
{
    are_distinct(marks) && are_plain(marks)
}

// No two are the same.
fn are_distinct(bytes: &[u8]) -> bool
    ensures { result ≡ distinct bytes.now }
{
    for k in 0..bytes.len() {
        if text::find(bytes, k + 1, bytes[k]) < bytes.len() {
            return false;
        }
    }
    true
}

fn are_plain(bytes: &[u8]) -> bool
    ensures { result ≡ all plain bytes.now }
{
    bytes.iter().all(|&b| is_plain(b))
}

// No letter, digit or space.
fn is_plain(b: u8) -> bool
    ensures { result ≡ plain b }
{
    !(b.is_ascii_alphanumeric() || b == b' ')
}

fn is_good_isa(i: &[u8], d: Delimiters) -> bool
    ensures { result ≡ good_isa d (isa i.now) }
{
    if !are_valid_text_fields(i, d) {
        return false;
    }
    if !is_digits(isa_field(i, 13), 9, 9) {
        return false;
    }
    is_usage(isa_field(i, 15))
}

// The fields that are text: all of them, but ISA11 where it is the repetition separator.
fn are_valid_text_fields(i: &[u8], d: Delimiters) -> bool
    ensures { result ≡ all (all (valid d)) (text_fields d.repetition (isa i.now)) }
{
    match d.repetition {
        None => are_valid_fields(i, d, 0, FIELDS),
        Some(_) => are_valid_fields(i, d, 0, 11) && are_valid_fields(i, d, 12, FIELDS),
    }
}

// The fields from one up to another, which is not among them.
fn are_valid_fields(i: &[u8], d: Delimiters, from: usize, to: usize) -> bool
    requires { to ≤ 16 }
    ensures { result ≡ all (all (valid d)) (slice from to (isa i.now)) }
{
    let separators = SEPARATORS;
    for n in from..to {
        if !all_valid(field_at(i, &separators, n), d) {
            return false;
        }
    }
    true
}

// ISA15: production, test or information.
fn is_usage(s: &[u8]) -> bool
    ensures { result ≡ member s.now (ascii "P" ∷ ascii "T" ∷ ascii "I" ∷ []) }
{
    same_bytes(s, b"P") || same_bytes(s, b"T") || same_bytes(s, b"I")
}

// The byte at a place, 0 past the end: one expression of the library.
fn byte_at(i: &[u8], at: usize) -> u8
    ensures { result ≡ get_or i.now at 0 }
{
    i.get(at).copied().unwrap_or(0)
}

// The last byte, 0 where there is none.
fn last_byte(i: &[u8]) -> u8
    ensures { result ≡ last 0 i.now }
{
    i.last().copied().unwrap_or(0)
}
