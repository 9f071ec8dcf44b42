// One look at the sets of a group: where each starts, its mark, and what its block comes to. Each set has an entry, a place in `starts` and `marks`;
// entries are numbered through the groups of an interchange, and `starts` and `marks` are lent from the group's first entry on. They are two arrays and
// not one of pairs: the register reads the starts alone, and a pair takes a byte more for each set, in memory of a fixed size.
ghost use Rattle.std.specs.Prelude.{◌≡◌, ◌+◌};
ghost use Rattle.sets.specs.Places.{control_at};
ghost use Rattle.register.proofs.Entered.{Linked, Entered};
ghost use Rattle.acknowledgment.specs.Received.{Ordered, table_by};
ghost use Rattle.acknowledgment.specs.Surveys.{Room, EnteredNext, mark_by, Sighted, SurveyedIs, Surveyed, Open, Cleared};

use crate::set_block;
use crate::set_block::{Mark, Reading, SeenSet};
use notes::Told;
use rules::Delimiters;
use verdicts::Tally;

// As many entries as the longest interchange can have: each set takes twelve bytes at least, and each group has one more.
pub const MOST_ENTRIES: usize = rules::Interchange::LONGEST / 12
    + rules::Interchange::MOST_GROUPS as usize;

// The links of the buckets, and four for each entry.
pub const MOST_LINKS: usize = register::BUCKETS + 4 * MOST_ENTRIES;

// An interchange of so many bytes at most has few sets, and less is cleared for them.
pub const SHORT: usize = 4096;

// Counted as for the longest, so that whatever a short interchange holds has its entries.
pub const FEW_ENTRIES: usize = SHORT / 12 + rules::Interchange::MOST_GROUPS as usize;

pub const FEW_LINKS: usize = register::BUCKETS + 4 * FEW_ENTRIES;

// How many sets there are, and what the blocks of all come to.
#[derive(Clone, Copy)]
pub struct Survey {
    pub sets: Tally,
    pub blocks: Told,
}

// Whether a set before the one that starts at `at`, which is set k of the group, has its ST02. The set is entered for those after it.
fn enter(
    body: &[u8],
    d: Delimiters,
    first: usize,
    starts: &mut [u16],
    links: &mut [u16],
    k: usize,
    at: usize,
    control: &[u8],
) -> bool
    requires { (Entered d body.now first starts.old links.old k) × ((Room first starts.old links.old k at) × (control.now ≡ control_at d body.now at)) }
    ensures { EnteredNext d body.now first starts.old k at result starts.new links.new }
{
    starts[k] = at as u16;
    match register::search(body, d, first, starts, links, control) {
        None => true,
        Some(slot) => {
            links[slot] = (first + k + 1) as u16;
            false
        }
    }
}

// The mark of a set that was looked at, by whether its control number was used before.
fn mark_of(repeated: bool, set: SeenSet) -> Mark
    ensures { result ≡ mark_by repeated set.quiet set.clean }
{
    match (repeated, set.clean, set.quiet) {
        (true, _, false) => Mark::Repeated,
        (true, _, true) => Mark::QuietRepeated,
        (false, true, _) => Mark::Accepted,
        (false, false, false) => Mark::Rejected,
        (false, false, true) => Mark::QuietRejected,
    }
}

// A set as surveyed: its mark, what its block comes to, and where it ends.
#[derive(Clone, Copy)]
struct SurveyedSet {
    mark: Mark,
    block: Told,
    end: usize,
}

// One look at the set that starts at `at`, with this control number.
fn survey_set(
    body: &[u8],
    reading: Reading,
    valid: &[bool; 256],
    directory: &[[u8; 3]],
    rows: &[[u16; 6]],
    at: usize,
    control: &[u8],
    repeated: bool,
) -> SurveyedSet
    requires { (Sighted reading.delimiters body.now valid.now rows.now reading.scope at control.now) × Ordered directory.now rows.now reading.scope }
    ensures { SurveyedIs reading.delimiters (table_by directory.now rows.now reading.scope) body.now at repeated result }
{
    let seen = set_block::see(body, reading, valid, rows, at, control);
    let mark = mark_of(repeated, seen);
    let place = seen.place;
    let end = place.end;
    if mark.is_accepted() {
        return SurveyedSet {
            mark,
            block: set_block::measure_accepted(control),
            end,
        };
    }
    SurveyedSet {
        mark,
        block: set_block::measure_rejected(body, reading, seen, repeated, directory, rows),
        end,
    }
}

// One look at each set of a group, whose first entry has this number; there is room for them, and none is entered yet.
pub(crate) fn survey_sets(
    body: &[u8],
    reading: Reading,
    valid: &[bool; 256],
    directory: &[[u8; 3]],
    rows: &[[u16; 6]],
    first: usize,
    starts: &mut [u16],
    marks: &mut [Mark],
    links: &mut [u16],
) -> Survey
    requires { (Open reading.delimiters body.now valid.now rows.now reading.scope) × ((Ordered directory.now rows.now reading.scope) × Cleared reading.delimiters body.now first starts.old marks.old links.old) }
    ensures { (Surveyed reading.delimiters (table_by directory.now rows.now reading.scope) body.now starts.new marks.new result) × Linked links.new (first + result.sets.received) }
{
    let d = reading.delimiters;
    let mut received = 0;
    let mut accepted = 0;
    let mut length: usize = 0;
    let mut segments: usize = 0;
    let mut at = 0;
    while at < body.len() {
        let control = set_block::control_of(body, d, at);
        let repeated = enter(body, d, first, starts, links, received, at, control);
        let set = survey_set(body, reading, valid, directory, rows, at, control, repeated);
        marks[received] = set.mark;
        length = length.saturating_add(set.block.length);
        segments = segments.saturating_add(set.block.segments);
        if set.mark.is_accepted() {
            accepted += 1;
        }
        received += 1;
        at = set.end;
    }
    Survey {
        sets: Tally { received, accepted },
        blocks: Told { length, segments },
    }
}
