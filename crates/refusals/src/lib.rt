#![tactic(auto)]
// The refusals before the response, in stages: by the call and ISA, by the envelope, and by each group.
ghost use Rattle.std.specs.Prelude.{◌≡◌};
ghost use Rattle.rules.specs.Refused.{refused};
ghost use Rattle.refusals.specs.Checks.{fault_of, fault_refusal, head_checked, trailer_check, envelope_check, group_check};

use envelope::{Envelope, GroupAt, TrailerFault};
use rules::{Call, Delimiters, Interchange, Refusal};

// What is wrong with the envelope of an interchange: its end (6), the places of its segments (7), or one of the three tests of IEA (8).
// The three stand here by name and not as one `TrailerFault`: TA105 has a code for each of the five, by one match.
#[derive(Clone, Copy, PartialEq, Eq)]
pub enum EnvelopeFault {
    NotTerminated,
    OutOfPlace,
    NotTwoElements,
    OtherControl,
    OtherCount,
}

impl From<TrailerFault> for EnvelopeFault {
    ghost from_gives = { λ trailer fault. fault ≡ fault_of trailer };

    fn from(fault: TrailerFault) -> Self {
        match fault {
            TrailerFault::NotTwoElements => Self::NotTwoElements,
            TrailerFault::OtherControl => Self::OtherControl,
            TrailerFault::OtherCount => Self::OtherCount,
        }
    }
}

// Document 01 has one number for the three tests of IEA.
impl From<EnvelopeFault> for Refusal {
    ghost from_gives = { λ fault refusal. refusal ≡ refused (fault_refusal fault) };

    fn from(fault: EnvelopeFault) -> Self {
        match fault {
            EnvelopeFault::NotTerminated => Self::NotTerminated,
            EnvelopeFault::OutOfPlace => Self::OutOfPlace,
            EnvelopeFault::NotTwoElements
            | EnvelopeFault::OtherControl
            | EnvelopeFault::OtherCount => Self::BadTrailer,
        }
    }
}

// Refusals 1 to 5: the caller's numbers, then ISA, which tells the delimiters.
pub fn check_head(i: &[u8], call: Call) -> Result<Delimiters, Refusal>
    ensures { result ≡ head_checked i.now call }
{
    caller::check_call(call)?;
    isa::read_isa(i)
}

// The tests of 8, of an interchange with this envelope.
fn check_trailer(i: &[u8], d: Delimiters, envelope: Envelope) -> Result<(), TrailerFault>
    ensures { result ≡ trailer_check d i.now envelope }
{
    let iea = text::part(i, envelope.iea, envelope.iea_end);
    envelope::check_trailer(iea, envelope.groups, isa::isa_field(i, 13), d)
}

// The tests of 6, 7 and 8 in their order, up to the first that fails: the envelope of an interchange that passes them.
pub fn check_envelope(i: &[u8], d: Delimiters) -> Result<Envelope, EnvelopeFault>
    ensures { result ≡ envelope_check d i.now }
{
    if !isa::is_terminated(i, d) {
        return Err(EnvelopeFault::NotTerminated);
    }
    let Some(envelope) = envelope::envelope_of(i, d, Interchange::MOST_GROUPS) else {
        return Err(EnvelopeFault::OutOfPlace);
    };
    check_trailer(i, d, envelope)?;
    Ok(envelope)
}

// Refusals 9 to 13 of the group whose GS starts at `at`. The walk over its sets finds the end of its body too.
pub fn check_group(i: &[u8], d: Delimiters, at: usize) -> Result<GroupAt, Refusal>
    ensures { result ≡ group_check d i.now at }
{
    let gs_end = text::find(i, at, d.terminator);
    let gs = text::part(i, at, gs_end);
    group_header::check_header(gs, d)?;
    group_header::check_answerable(gs, d)?;
    let body_end = sets::check_sets(i, d, gs_end + 1)?;
    Ok(envelope::group_ending(i, d, at, body_end))
}
