// The 997 of one group: a look at its sets tells how long it is, and by what the look kept it is written.
ghost use Rattle.std.specs.Prelude.{◌≡◌, List, ◌++◌, ◌+◌, length, drop, Some};
ghost use Rattle.std.specs.Bool.{then_some};
ghost use Rattle.std.specs.Option.{option_copied};
ghost use Rattle.rules.specs.Cutting as cutting;
ghost use Rattle.rules.specs.Cutting.{Segment};
ghost use Rattle.rules.specs.Response as law;
ghost use Rattle.text.specs.Text.{part};
ghost use Rattle.envelope.specs.Places.{next_group};
ghost use Rattle.envelope.specs.declared.GroupAt.{GroupAt};
ghost use Rattle.verdicts.specs.declared.Tally.{Tally};
ghost use Rattle.writing.specs.Over.{From, sat};
ghost use Rattle.notes.specs.Saying.{Tells};
ghost use Rattle.acknowledgment.specs.Writers.{Measures, beginning, ending};
ghost use Rattle.acknowledgment.specs.Received.{Scoped, table_by};
ghost use Rattle.acknowledgment.specs.Surveys.{reports, Looked, tally_of};
ghost use Rattle.acknowledgment.specs.Entries.{Surveyable, SurveyedGroup, GroupEntries, Writable, WroteGroup};

use crate::set_block::{Mark, MarkedSet, Reading};
use crate::{set_block, survey};
use envelope::GroupAt;
use notes::Told;
use rules::Delimiters;
use verdicts::{Summary, Tally};

// What a look at a group tells: how many entries it has, and how long its 997 is.
#[derive(Clone, Copy)]
pub struct GroupSurvey {
    pub entries: usize,
    pub length: usize,
}

// Where the next group starts, its first entry, the number of its 997, and what was written before that.
#[derive(Clone, Copy)]
pub struct Progress {
    pub at: usize,
    pub entry: usize,
    pub number: u64,
    pub length: usize,
}

// ST and AK1: what comes before the blocks of the sets.
fn add_beginning(out: &mut [u8], n: usize, d: Delimiters, gs: &[u8], number: u64) -> usize
    ensures { From n (law.out d (beginning (cutting.split d.element gs.now) number)) result out.old out.new }
{
    let n = blocks::add_st(out, n, d, number);
    blocks::add_ak1(out, n, d, gs)
}

// AK9 and SE: what comes after the blocks of the sets, which have so many segments.
fn add_ending(
    out: &mut [u8],
    n: usize,
    d: Delimiters,
    summary: Summary,
    segments: usize,
    number: u64,
) -> usize
    ensures { From n (law.out d (ending summary (sat (segments + 4)) number)) result out.old out.new }
{
    let n = blocks::add_ak9(out, n, d, summary);
    blocks::add_se(out, n, d, segments.saturating_add(4), number)
}

// How long a 997 is, by what the blocks of the sets come to. Its number makes no difference.
fn transaction_length(d: Delimiters, gs: &[u8], blocks: Told, summary: Summary) -> usize
    ensures { (ss : List Segment) → Measures d ss blocks → result ≡ sat (length (law.out d (beginning (cutting.split d.element gs.now) 1 ++ (ss ++ ending summary (sat (blocks.segments + 4)) 1)))) }
{
    let n = add_beginning(&mut [], 0, d, gs, 1);
    let n = n.saturating_add(blocks.length);
    add_ending(&mut [], n, d, summary, blocks.segments, 1)
}

// GE of a group, where it has one.
fn trailer_of(i: &[u8], group: GroupAt) -> Option<&[u8]>
    ensures { option_copied result ≡ then_some group.closed (part i.now group.body_end group.ge_end) }
{
    group
        .closed
        .then_some(text::part(i, group.body_end, group.ge_end))
}

// One look at the sets of a group, whose first entry has this number. The entry after those of the sets tells how long the body of the group is.
pub(crate) fn survey_group(
    i: &[u8],
    d: Delimiters,
    group: GroupAt,
    valid: &[bool; 256],
    directory: &[[u8; 3]],
    rows: &[[u16; 6]],
    first: usize,
    starts: &mut [u16],
    marks: &mut [Mark],
    links: &mut [u16],
) -> GroupSurvey
    requires { Surveyable d i.now group valid.now directory.now rows.now first starts.old marks.old links.old }
    ensures { SurveyedGroup d i.now group first starts.new marks.new links.new result }
{
    let gs = text::part(i, group.gs, group.gs_end);
    let body = text::part(i, group.body, group.body_end);
    let ge = trailer_of(i, group);
    let scope = guides::scope_of(gs, d);
    let reading = Reading {
        delimiters: d,
        scope,
    };
    let survey = survey::survey_sets(
        body, reading, valid, directory, rows, first, starts, marks, links,
    );
    let sets = survey.sets;
    let received = sets.received;
    starts[received] = body.len() as u16;
    marks[received] = Mark::GroupEnd;
    let summary = verdicts::summary_of(gs, ge, d, scope, sets);
    GroupSurvey {
        entries: received + 1,
        length: transaction_length(d, gs, survey.blocks, summary),
    }
}

// How many sets there are up to the end of a group, and how many of them are accepted.
fn tally_of(marks: &[Mark]) -> Tally
    ensures { result ≡ tally_of marks.now }
{
    let mut received = 0;
    let mut accepted = 0;
    for &mark in marks {
        match mark {
            Mark::GroupEnd => break,
            Mark::Accepted => accepted += 1,
            _ => {}
        }
        received += 1;
    }
    Tally { received, accepted }
}

// The blocks of the sets of a group, as surveyed.
fn put_sets(
    out: &mut [u8],
    body: &[u8],
    reading: Reading,
    directory: &[[u8; 3]],
    rows: &[[u16; 6]],
    starts: &[u16],
    marks: &[Mark],
    sets: usize,
) -> Told
    requires { (Looked reading.delimiters (table_by directory.now rows.now reading.scope) body.now starts.now marks.now sets) × Scoped rows.now reading.scope }
    ensures { Tells reading.delimiters (law.blocks (reports reading.delimiters (table_by directory.now rows.now reading.scope) body.now)) result out.old out.new }
{
    let mut n: usize = 0;
    let mut segments: usize = 0;
    for k in 0..sets {
        let set = MarkedSet {
            start: usize::from(starts[k]),
            mark: marks[k],
        };
        let rest = n.min(out.len());
        let told = set_block::put_block(&mut out[rest..], body, reading, set, directory, rows);
        n = n.saturating_add(told.length);
        segments = segments.saturating_add(told.segments);
    }
    Told {
        length: n,
        segments,
    }
}

// The 997 of the next group, after what was written before. The entries of all groups are lent.
pub(crate) fn add_transaction(
    out: &mut [u8],
    progress: Progress,
    i: &[u8],
    d: Delimiters,
    directory: &[[u8; 3]],
    rows: &[[u16; 6]],
    starts: &[u16],
    marks: &[Mark],
) -> Progress
    requires { Writable d i.now progress directory.now rows.now starts.now marks.now }
    ensures { (g : GroupAt) (sets : Tally) → next_group d i.now progress.at ≡ Some g → GroupEntries d i.now g sets (drop progress.entry starts.now) (drop progress.entry marks.now) → WroteGroup d i.now progress g sets result out.old out.new }
{
    let entry = progress.entry;
    let starts = &starts[entry..];
    let marks = &marks[entry..];
    let sets = tally_of(marks);
    let received = sets.received;
    let gs_end = text::find(i, progress.at, d.terminator);
    let body_end = gs_end + 1 + usize::from(starts[received]);
    let group = envelope::group_ending(i, d, progress.at, body_end);
    let gs = text::part(i, group.gs, group.gs_end);
    let body = text::part(i, group.body, group.body_end);
    let ge = trailer_of(i, group);
    let scope = guides::scope_of(gs, d);
    let reading = Reading {
        delimiters: d,
        scope,
    };
    let summary = verdicts::summary_of(gs, ge, d, scope, sets);
    let number = progress.number;
    let n = add_beginning(out, progress.length, d, gs, number);
    let rest = n.min(out.len());
    let told = put_sets(
        &mut out[rest..],
        body,
        reading,
        directory,
        rows,
        starts,
        marks,
        received,
    );
    let n = n.saturating_add(told.length);
    Progress {
        at: group.next,
        entry: entry + received + 1,
        number: number + 1,
        length: add_ending(out, n, d, summary, told.segments, number),
    }
}
