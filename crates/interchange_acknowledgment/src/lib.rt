#![tactic(auto)]
// The acknowledgment of an interchange itself: an interchange with one TA1, or a refusal.
ghost use Rattle.std.specs.Prelude.{◌≡◌, [], ◌∷◌};
ghost use Rattle.rules.specs.Cutting as cutting;
ghost use Rattle.rules.specs.InterchangeAcknowledgment as law;
ghost use Rattle.rules.specs.Response.{segment_out};
ghost use Rattle.rules.specs.Answers.{interchange_acknowledgment, Allowed};
ghost use Rattle.refusals.specs.Checks.{check_by, envelope_check};
ghost use Rattle.writing.specs.Over.{From};
ghost use Rattle.interchange_acknowledgment.specs.Notes.{note_number};

use refusals::EnvelopeFault;
use rules::{Answer, Call, Delimiters, Refusal};
use writing::{Padded, add, add_field};

// The length of every response: ISA, TA1 and IEA.
const LENGTH: usize = 154;

// TA105, by its number: what is wrong with the envelope.
#[derive(Clone, Copy, PartialEq, Eq)]
enum NoteCode {
    Accepted = 0,
    OtherControl = 1,
    OtherCount = 21,
    BadStructure = 22,
    EarlyEnd = 23,
}

impl NoteCode {
    fn number(self) -> u64
        ensures { result ≡ note_number self }
    {
        self as u64
    }

    // TA104: accepted without a note code, rejected with one.
    fn verdict(self) -> u8
        ensures { result ∷ [] ≡ (law.verdict_by (note_number self)).ta104 }
    {
        if self == NoteCode::Accepted {
            b'A'
        } else {
            b'R'
        }
    }
}

// The note code of an interchange: by the first check of its envelope that fails.
fn note_code(i: &[u8], d: Delimiters) -> NoteCode
    ensures { note_number result ≡ check_by 23 22 22 1 21 (envelope_check d i.now) }
{
    match refusals::check_envelope(i, d) {
        Ok(_) => NoteCode::Accepted,
        Err(EnvelopeFault::NotTerminated) => NoteCode::EarlyEnd,
        Err(EnvelopeFault::OutOfPlace | EnvelopeFault::NotTwoElements) => NoteCode::BadStructure,
        Err(EnvelopeFault::OtherControl) => NoteCode::OtherControl,
        Err(EnvelopeFault::OtherCount) => NoteCode::OtherCount,
    }
}

// TA1: the interchange by its ISA13, ISA09 and ISA10, its verdict and the note code.
fn add_ta1(out: &mut [u8], n: usize, d: Delimiters, i: &[u8], note: NoteCode) -> usize
    ensures { From n (segment_out d (law.ta1 (cutting.isa i.now) (law.verdict_by (note_number note)))) result out.old out.new }
{
    let n = add(out, n, &rules::TA1);
    let n = add_field(out, n, d, isa::isa_field(i, 13));
    let n = add_field(out, n, d, isa::isa_field(i, 9));
    let n = add_field(out, n, d, isa::isa_field(i, 10));
    let n = add_field(out, n, d, note.verdict());
    let n = add_field(out, n, d, Padded(note.number(), 3));
    add(out, n, d.terminator)
}

// The answer to an interchange without a refusal: its response where it fits.
fn respond(out: &mut [u8], i: &[u8], d: Delimiters, call: Call) -> Answer
    requires { (law.interchange_refusal i.now call ≡ 0) × (d ≡ cutting.delimiters i.now) }
    ensures { Allowed (interchange_acknowledgment i.now call) out.old result out.new }
{
    if out.len() < LENGTH {
        return Err(Refusal::TooLong(LENGTH));
    }
    let note = note_code(i, d);
    let n = response_envelope::add_isa(out, 0, d, i, call);
    let n = add_ta1(out, n, d, i, note);
    Ok(response_envelope::add_iea(out, n, d, 0, call.control))
}

// ISA14 asks for a TA1.
fn asks_for_ta1(i: &[u8]) -> bool
    ensures { result ≡ law.asks_for_ta1 i.now }
{
    text::same_bytes(isa::isa_field(i, 14), b"1")
}

// The answer to one interchange.
pub fn acknowledge_interchange(interchange: &[u8], response: &mut [u8], call: Call) -> Answer
    ensures { Allowed (interchange_acknowledgment interchange.now call) response.old result response.new }
{
    let d = refusals::check_head(interchange, call)?;
    if !asks_for_ta1(interchange) {
        return Err(Refusal::NotAsked);
    }
    respond(response, interchange, d, call)
}
