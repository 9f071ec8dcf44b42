#![tactic(auto)]
// The envelope of the response, ISA, GS, GE and IEA, each a row of pieces after n bytes of a lent buffer.
ghost use Rattle.std.specs.Prelude.{[], ◌∷◌};
ghost use Rattle.rules.specs.Base.{ascii};
ghost use Rattle.rules.specs.Numbers.{decimal, padded};
ghost use Rattle.rules.specs.Cutting.{field, split, isa};
ghost use Rattle.rules.specs.Response.{fields_out, segment_out, isa_out, gs_out, ge_out, iea_out};
ghost use Rattle.writing.specs.Over.{From};

use rules::{Call, Delimiters};
use writing::{Number, Padded, add, add_field};

// ISA01 and ISA02, or ISA03 and ISA04: no authorization, no security.
fn add_no_information(out: &mut [u8], n: usize, d: Delimiters) -> usize
    ensures { From n (fields_out d (ascii "00" ∷ ascii "          " ∷ [])) result out.old out.new }
{
    let n = add_field(out, n, d, b"00");
    add_field(out, n, d, b"          ")
}

// ISA05 to ISA08: the parties of the ISA received, changed places.
fn add_isa_parties(out: &mut [u8], n: usize, d: Delimiters, i: &[u8]) -> usize
    ensures { From n (fields_out d (field (isa i.now) 7 ∷ field (isa i.now) 8 ∷ field (isa i.now) 5 ∷ field (isa i.now) 6 ∷ [])) result out.old out.new }
{
    let n = add_field(out, n, d, isa::isa_field(i, 7));
    let n = add_field(out, n, d, isa::isa_field(i, 8));
    let n = add_field(out, n, d, isa::isa_field(i, 5));
    add_field(out, n, d, isa::isa_field(i, 6))
}

// ISA09 to ISA13: date, time, standard, version and control number.
fn add_isa_stamp(out: &mut [u8], n: usize, d: Delimiters, call: Call) -> usize
    ensures { From n (fields_out d (padded 6 call.date ∷ padded 4 call.time ∷ ascii "U" ∷ ascii "00401" ∷ padded 9 call.control ∷ [])) result out.old out.new }
{
    let n = add_field(out, n, d, Padded(call.date as u64, 6));
    let n = add_field(out, n, d, Padded(call.time as u64, 4));
    let n = add_field(out, n, d, b"U");
    let n = add_field(out, n, d, b"00401");
    add_field(out, n, d, Padded(call.control as u64, 9))
}

// ISA of the response: the parties of the ISA received change places.
pub fn add_isa(out: &mut [u8], n: usize, d: Delimiters, i: &[u8], call: Call) -> usize
    ensures { From n (segment_out d (isa_out d (isa i.now) call)) result out.old out.new }
{
    let n = add(out, n, &rules::ISA);
    let n = add_no_information(out, n, d);
    let n = add_no_information(out, n, d);
    let n = add_isa_parties(out, n, d, i);
    let n = add_isa_stamp(out, n, d, call);
    let n = add_field(out, n, d, b"0");
    let n = add_field(out, n, d, isa::isa_field(i, 15));
    let n = add_field(out, n, d, d.component);
    add(out, n, d.terminator)
}

// GS01 to GS03: an acknowledgment, and the parties of the GS received, changed places.
fn add_gs_parties(out: &mut [u8], n: usize, d: Delimiters, gs: &[u8]) -> usize
    ensures { From n (fields_out d (ascii "FA" ∷ field (split d.element gs.now) 3 ∷ field (split d.element gs.now) 2 ∷ [])) result out.old out.new }
{
    let n = add_field(out, n, d, &rules::FA);
    let n = add_field(out, n, d, segments::field(gs, d.element, 3));
    add_field(out, n, d, segments::field(gs, d.element, 2))
}

// GS04 to GS08: date, time, control number, agency and version.
fn add_gs_stamp(out: &mut [u8], n: usize, d: Delimiters, call: Call) -> usize
    ensures { From n (fields_out d (padded 8 call.date ∷ padded 4 call.time ∷ decimal call.control ∷ ascii "X" ∷ ascii "004010" ∷ [])) result out.old out.new }
{
    let n = add_field(out, n, d, Padded(call.date as u64, 8));
    let n = add_field(out, n, d, Padded(call.time as u64, 4));
    let n = add_field(out, n, d, Number(call.control as u64));
    let n = add_field(out, n, d, b"X");
    add_field(out, n, d, b"004010")
}

// GS of an acknowledgment: the parties of the GS received change places.
pub fn add_gs(out: &mut [u8], n: usize, d: Delimiters, gs: &[u8], call: Call) -> usize
    ensures { From n (segment_out d (gs_out (split d.element gs.now) call)) result out.old out.new }
{
    let n = add(out, n, &rules::GS);
    let n = add_gs_parties(out, n, d, gs);
    let n = add_gs_stamp(out, n, d, call);
    add(out, n, d.terminator)
}

// GE with a count of transaction sets.
pub fn add_ge(out: &mut [u8], n: usize, d: Delimiters, count: u64, control: u32) -> usize
    ensures { From n (segment_out d (ge_out count control)) result out.old out.new }
{
    let n = add(out, n, &rules::GE);
    let n = add_field(out, n, d, Number(count));
    let n = add_field(out, n, d, Number(control as u64));
    add(out, n, d.terminator)
}

// IEA with a count of groups.
pub fn add_iea(out: &mut [u8], n: usize, d: Delimiters, count: u64, control: u32) -> usize
    ensures { From n (segment_out d (iea_out count control)) result out.old out.new }
{
    let n = add(out, n, &rules::IEA);
    let n = add_field(out, n, d, Number(count));
    let n = add_field(out, n, d, Padded(control as u64, 9));
    add(out, n, d.terminator)
}
