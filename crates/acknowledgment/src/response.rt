// The response: a 997 for each group of an interchange, in one envelope.
ghost use Rattle.std.specs.Prelude.{◌≡◌, ◌+◌, ◌*◌, ◌<◌, ◌≤◌, length};
ghost use Rattle.rules.specs.Cutting as cutting;
ghost use Rattle.rules.specs.Response as law;
ghost use Rattle.rules.specs.Answers.{functional_acknowledgment, Allowed};
ghost use Rattle.writing.specs.Over.{From, sat};
ghost use Rattle.acknowledgment.specs.Writers.{opening, closing};
ghost use Rattle.acknowledgment.specs.Entries.{acknowledgments, Roomy, Enterable, GroupsSurveyed, Recorded, Answering};

use crate::set_block::Mark;
use crate::survey::{FEW_ENTRIES, FEW_LINKS, MOST_ENTRIES, MOST_LINKS, SHORT};
use crate::transaction;
use crate::transaction::Progress;
use envelope::Envelope;
use rules::{Answer, Call, Delimiters, Refusal};

// One look at each group: refusals 9 to 13, and then its sets, before the next group. The answer is how long their 997s are together, or the first
// refusal. `starts`, `marks` and `links` are lent each for itself: the first two from a group's first entry on, the links whole.
fn survey_groups(
    i: &[u8],
    d: Delimiters,
    envelope: Envelope,
    valid: &[bool; 256],
    directory: &[[u8; 3]],
    rows: &[[u16; 6]],
    starts: &mut [u16],
    marks: &mut [Mark],
    links: &mut [u16],
) -> Result<usize, Refusal>
    requires { Enterable d i.now envelope valid.now directory.now rows.now starts.old marks.old links.old }
    ensures { GroupsSurveyed d i.now envelope starts.new marks.new result }
{
    let mut at = envelope.first.gs;
    let mut entries = 0;
    let mut length: usize = 0;
    for _ in 0..envelope.groups {
        let group = refusals::check_group(i, d, at)?;
        let survey = transaction::survey_group(
            i,
            d,
            group,
            valid,
            directory,
            rows,
            entries,
            &mut starts[entries..],
            &mut marks[entries..],
            links,
        );
        at = group.next;
        entries += survey.entries;
        length = length.saturating_add(survey.length);
    }
    Ok(length)
}

// ISA and GS: what comes before the 997s.
fn put_opening(out: &mut [u8], i: &[u8], d: Delimiters, gs: &[u8], call: Call) -> usize
    ensures { From 0 (law.out d (opening d i.now (cutting.split d.element gs.now) call)) result out.old out.new }
{
    let n = response_envelope::add_isa(out, 0, d, i, call);
    response_envelope::add_gs(out, n, d, gs, call)
}

// GE and IEA: what comes after them.
fn add_closing(out: &mut [u8], n: usize, d: Delimiters, groups: u64, control: u32) -> usize
    ensures { From n (law.out d (closing groups control)) result out.old out.new }
{
    let n = response_envelope::add_ge(out, n, d, groups, control);
    response_envelope::add_iea(out, n, d, 1, control)
}

// How long the response is, by what its 997s come to.
fn response_length(
    i: &[u8],
    d: Delimiters,
    gs: &[u8],
    call: Call,
    groups: u64,
    acknowledgments: usize,
) -> usize
    ensures { result ≡ sat (length (law.out d (opening d i.now (cutting.split d.element gs.now) call)) + acknowledgments + length (law.out d (closing groups call.control))) }
{
    let n = put_opening(&mut [], i, d, gs, call);
    let n = n.saturating_add(acknowledgments);
    add_closing(&mut [], n, d, groups, call.control)
}

// The 997s of all groups after n bytes, one after the other.
fn add_transactions(
    out: &mut [u8],
    n: usize,
    i: &[u8],
    d: Delimiters,
    envelope: Envelope,
    directory: &[[u8; 3]],
    rows: &[[u16; 6]],
    starts: &[u16],
    marks: &[Mark],
) -> usize
    requires { Recorded d i.now envelope directory.now rows.now starts.now marks.now }
    ensures { From n (law.out d (acknowledgments d i.now)) result out.old out.new }
{
    let mut progress = Progress {
        at: envelope.first.gs,
        entry: 0,
        number: 1,
        length: n,
    };
    for _ in 0..envelope.groups {
        progress = transaction::add_transaction(
            out, progress, i, d, directory, rows, starts, marks,
        );
    }
    progress.length
}

// The answer, with room for the entries of all groups: the groups are looked at, which tells the length of the response, and then it is written.
fn answer_over(
    out: &mut [u8],
    i: &[u8],
    d: Delimiters,
    envelope: Envelope,
    call: Call,
    starts: &mut [u16],
    marks: &mut [Mark],
    links: &mut [u16],
) -> Answer
    requires { (Answering d i.now envelope call) × Roomy i.now starts.old marks.old links.old }
    ensures { Allowed (functional_acknowledgment i.now call) out.old result out.new }
{
    let valid = look::valid_bytes(d);
    let directory = guides::directory();
    let rows = guides::rows();
    let acknowledgments = survey_groups(
        i, d, envelope, &valid, &directory, &rows, starts, marks, links,
    )?;
    let gs = text::part(i, envelope.first.gs, envelope.first.gs_end);
    let needed = response_length(i, d, gs, call, envelope.groups, acknowledgments);
    if out.len() < needed {
        return Err(Refusal::TooLong(needed));
    }
    let n = put_opening(out, i, d, gs, call);
    let n = add_transactions(out, n, i, d, envelope, &directory, &rows, starts, marks);
    Ok(add_closing(out, n, d, envelope.groups, call.control))
}

// The same over room of its own, for so many entries and their links.
fn answer_with<const ENTRIES: usize, const LINKS: usize>(
    out: &mut [u8],
    i: &[u8],
    d: Delimiters,
    envelope: Envelope,
    call: Call,
) -> Answer
    requires answering { Answering d i.now envelope call }
    requires enough { length i.now + 192 < 12 * ENTRIES + 12 }
    requires few { ENTRIES ≤ 5477 }
    requires linked { LINKS ≡ 1024 + 4 * ENTRIES }
    ensures { Allowed (functional_acknowledgment i.now call) out.old result out.new }
{
    let mut starts = [0; ENTRIES];
    let mut marks = [Mark::Accepted; ENTRIES];
    let mut links = [0; LINKS];
    answer_over(
        out,
        i,
        d,
        envelope,
        call,
        &mut starts,
        &mut marks,
        &mut links,
    )
}

// The answer to an interchange with a sound envelope.
pub(crate) fn answer_groups(
    out: &mut [u8],
    i: &[u8],
    d: Delimiters,
    envelope: Envelope,
    call: Call,
) -> Answer
    requires { Answering d i.now envelope call }
    ensures { Allowed (functional_acknowledgment i.now call) out.old result out.new }
{
    if i.len() <= SHORT {
        answer_with::<FEW_ENTRIES, FEW_LINKS>(out, i, d, envelope, call)
    } else {
        answer_with::<MOST_ENTRIES, MOST_LINKS>(out, i, d, envelope, call)
    }
}
