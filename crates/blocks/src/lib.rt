#![tactic(auto)]
// The segments of the response's transaction set, ST to SE, all but AK3 and AK4: each a row of pieces after n bytes of a lent buffer.
ghost use Rattle.std.specs.Prelude.{◌≡◌, [], ◌∷◌, ◌++◌, map, ◌≤◌, length, if◌then◌else◌};
ghost use Rattle.rules.specs.Base.{ascii, null};
ghost use Rattle.rules.specs.Numbers.{decimal, padded};
ghost use Rattle.rules.specs.Cutting.{field, split};
ghost use Rattle.rules.specs.Response.{fields_out, segment_out, st_out, se_out};
ghost use Rattle.verdicts.specs.Collecting.{codes_of};
ghost use Rattle.verdicts.specs.Verdicts.{summary_out};
ghost use Rattle.writing.specs.Over.{over, Wrote, From};

use rules::Delimiters;
use verdicts::{Codes, Summary};
use writing::{Number, Padded, add, add_field};

// How many digits ST02 and SE02 of a 997 have.
const ST02_DIGITS: usize = 4;

// ST of the 997 with this number.
pub fn add_st(out: &mut [u8], n: usize, d: Delimiters, number: u64) -> usize
    ensures { From n (segment_out d (st_out (padded 4 number))) result out.old out.new }
{
    let n = add(out, n, &rules::ST);
    let n = add_field(out, n, d, b"997");
    let n = add_field(out, n, d, Padded(number, ST02_DIGITS));
    add(out, n, d.terminator)
}

// A segment of two fields of another, as received.
fn add_received(
    out: &mut [u8],
    n: usize,
    d: Delimiters,
    id: &[u8],
    s: &[u8],
    first: usize,
    second: usize,
) -> usize
    ensures { From n (segment_out d (id.now ∷ field (split d.element s.now) first ∷ field (split d.element s.now) second ∷ [])) result out.old out.new }
{
    let first = segments::field(s, d.element, first);
    let second = segments::field(s, d.element, second);
    writing::add_pair(out, n, d, id, first, second)
}

// AK1: GS01 and GS06 as received.
pub fn add_ak1(out: &mut [u8], n: usize, d: Delimiters, gs: &[u8]) -> usize
    ensures { From n (segment_out d (ascii "AK1" ∷ field (split d.element gs.now) 1 ∷ field (split d.element gs.now) 6 ∷ [])) result out.old out.new }
{
    add_received(out, n, d, &rules::AK1, gs, 1, 6)
}

// AK2: ST01 and ST02 as received.
pub fn add_ak2(out: &mut [u8], n: usize, d: Delimiters, st: &[u8]) -> usize
    ensures { From n (segment_out d (ascii "AK2" ∷ field (split d.element st.now) 1 ∷ field (split d.element st.now) 2 ∷ [])) result out.old out.new }
{
    add_received(out, n, d, &rules::AK2, st, 1, 2)
}

// The letter of AK501.
fn verdict_of(codes: Codes) -> u8
    ensures { (result ∷ []) ≡ (if null (codes_of codes) then ascii "A" else ascii "R") }
{
    if codes.is_empty() { b'A' } else { b'R' }
}

// Codes as elements.
fn add_codes(out: &mut [u8], n: usize, d: Delimiters, codes: Codes) -> usize
    ensures { From n (fields_out d (map decimal (codes_of codes))) result out.old out.new }
{
    writing::add_codes(out, n, d, text::part(&codes.list, 0, codes.count))
}

// AK5: accepted without codes, else rejected.
pub fn add_ak5(out: &mut [u8], n: usize, d: Delimiters, codes: Codes) -> usize
    ensures { From n (segment_out d (ascii "AK5" ∷ (if null (codes_of codes) then ascii "A" else ascii "R") ∷ map decimal (codes_of codes))) result out.old out.new }
{
    let n = add(out, n, &rules::AK5);
    let n = add_field(out, n, d, verdict_of(codes));
    let n = add_codes(out, n, d, codes);
    add(out, n, d.terminator)
}

// Bytes over the start of a buffer that has room for them. By index, as a piece of bytes: `copy_from_slice` calls for `memmove`.
fn copy(out: &mut [u8], bytes: &[u8])
    requires { length bytes.now ≤ length out.old }
    ensures { out.new ≡ over bytes.now out.old }
{
    for i in 0..bytes.len() {
        out[i] = bytes[i];
    }
}

// AK2 and AK5 of an accepted set, from the start of what is lent; ST01 and ST02 are given as they stand in its header, each after its separator.
pub fn put_acceptance(out: &mut [u8], d: Delimiters, fields: &[u8]) -> usize
    ensures { Wrote (ascii "AK2" ++ fields.now ++ d.terminator ∷ segment_out d (ascii "AK5" ∷ ascii "A" ∷ [])) result out.old out.new }
{
    let e = d.element;
    let t = d.terminator;
    let ak5 = [t, b'A', b'K', b'5', e, b'A', t];
    let n = rules::AK2.len() + fields.len();
    // Where there is room for all, no piece is clipped.
    if n + ak5.len() <= out.len() {
        copy(out, &rules::AK2);
        copy(&mut out[rules::AK2.len()..], fields);
        copy(&mut out[n..], &ak5);
        return n + ak5.len();
    }
    let n = add(out, 0, &rules::AK2);
    let n = add(out, n, fields);
    add(out, n, &ak5)
}

// AK9: the verdict on the group, its numbers of sets included, received and accepted, and its codes.
pub fn add_ak9(out: &mut [u8], n: usize, d: Delimiters, group: Summary) -> usize
    ensures { From n (segment_out d (summary_out group)) result out.old out.new }
{
    let n = add(out, n, &rules::AK9);
    let n = add_field(out, n, d, group.verdict);
    let n = add_field(out, n, d, Number(group.included));
    let n = add_field(out, n, d, Number(group.received as u64));
    let n = add_field(out, n, d, Number(group.allowed as u64));
    let n = add_codes(out, n, d, group.codes);
    add(out, n, d.terminator)
}

// SE of the 997 with this number, with a count of segments.
pub fn add_se(out: &mut [u8], n: usize, d: Delimiters, count: usize, number: u64) -> usize
    ensures { From n (segment_out d (se_out count (padded 4 number))) result out.old out.new }
{
    let n = add(out, n, &rules::SE);
    let n = add_field(out, n, d, Number(count as u64));
    let n = add_field(out, n, d, Padded(number, ST02_DIGITS));
    add(out, n, d.terminator)
}
