#![tactic(auto)]
// The walk of a set through its table: a cursor goes in by value, and how the next segment stands comes back with the next cursor.
ghost use Rattle.std.specs.Prelude.{◌≡◌, ◌<◌, ltb, if◌then◌else◌, Some, None};
ghost use Rattle.tables.specs.Reading.{entry_at};
ghost use Rattle.findings.specs.Steps as steps;
ghost use Rattle.findings.specs.declared.Standing.TheVariants as standing;

use rules::{Delimiters, SegmentCode};
use std::cmp::Ordering;

// The present entry: its row, and how often it was used.
#[derive(Clone, Copy)]
pub struct Present {
    pub row: usize,
    pub used: usize,
}

// Where a walk has come to: where the next segment starts, its position, and the present entry. The segment at 0 is the header.
#[derive(Clone, Copy)]
pub struct Walk {
    pub at: usize,
    pub position: usize,
    pub present: Present,
}

// The rows that a segment at a position passes over: from one row on and before another. The mandatory entries among them are missing.
#[derive(Clone, Copy)]
pub struct Passed {
    pub from: usize,
    pub end: usize,
    pub position: usize,
}

// A segment: from where to where it lies, the code of its standing, the row of the entry by which its elements are checked, and what it passes
// over.
#[derive(Clone, Copy)]
pub struct Taken {
    pub start: usize,
    pub end: usize,
    pub own: Option<SegmentCode>,
    pub check: usize,
    pub passed: Passed,
}

// What one step of a walk comes to: a segment, the rows that a missing trailer passes over, or nothing more.
#[derive(Clone, Copy)]
pub enum Step {
    Segment(Taken, Walk),
    Trailer(Passed),
    Done,
}

// How a segment stands to the table and the present entry; the number is the row of its own.
#[derive(Clone, Copy)]
pub enum Standing {
    Unknown,
    Unlisted,
    Before(usize),
    Again,
    Later(usize),
}

// What a standing comes to: the code, the row of the entry by which the elements are checked, the row from which on entries are passed over,
// and the present entry after it.
#[derive(Clone, Copy)]
struct Outcome {
    own: Option<SegmentCode>,
    check: usize,
    from: usize,
    present: Present,
}

// Where the walk of a set starts.
pub fn start() -> Walk
    ensures { result ≡ steps.start }
{
    Walk {
        at: 0,
        position: 1,
        present: Present { row: 0, used: 0 },
    }
}

// How an id stands to the present entry: which of the two rows comes first.
fn stands(id: &[u8], directory: &[[u8; 3]], guide: &[[u16; 6]], present: usize) -> Standing
    ensures { result ≡ steps.stands directory.now guide.now present id.now }
{
    if !tables::is_known(id, directory) {
        return Standing::Unknown;
    }
    let row = tables::reach(guide, id);
    if guide.len() <= row {
        return Standing::Unlisted;
    }
    match row.cmp(&present) {
        Ordering::Less => Standing::Before(row),
        Ordering::Equal => Standing::Again,
        Ordering::Greater => Standing::Later(row),
    }
}

// The code of a use of the entry in row k.
fn use_code(guide: &[[u16; 6]], k: usize, used: usize) -> Option<SegmentCode>
    ensures { result ≡ (if ltb (entry_at guide.now k).most used then Some SegmentCode.BeyondMaximum else None) }
{
    (tables::most_uses(guide, k) < used).then_some(SegmentCode::BeyondMaximum)
}

// The segment has a code, and the present entry stays.
fn stayed(p: Present, own: SegmentCode, check: usize) -> Outcome
    ensures { result ≡ record { own = Some own; check = check; from = p.row; present = p } }
{
    Outcome {
        own: Some(own),
        check,
        from: p.row,
        present: p,
    }
}

// The present entry is used once more.
fn repeated(guide: &[[u16; 6]], p: Present) -> Outcome
    ensures { result ≡ steps.outcome guide.now p standing.Again }
{
    let row = p.row;
    let used = p.used.saturating_add(1);
    Outcome {
        own: use_code(guide, row, used),
        check: row,
        from: row,
        present: Present { row, used },
    }
}

// The entry of row k is used for the first time, and those from row `from` on are passed over.
fn moved(from: usize, k: usize) -> Outcome
    ensures { result ≡ record { own = None; check = k; from = from; present = record { row = k; used = 1 } } }
{
    Outcome {
        own: None,
        check: k,
        from,
        present: Present { row: k, used: 1 },
    }
}

// What a standing to the present entry comes to.
fn outcome_of(guide: &[[u16; 6]], p: Present, standing: Standing) -> Outcome
    ensures { result ≡ steps.outcome guide.now p standing }
{
    match standing {
        Standing::Unknown => stayed(p, SegmentCode::NotKnown, p.row),
        Standing::Unlisted => stayed(p, SegmentCode::NotInTable, p.row),
        Standing::Before(k) => stayed(p, SegmentCode::OutOfOrder, k),
        Standing::Again => repeated(guide, p),
        Standing::Later(k) => moved(p.row.saturating_add(1), k),
    }
}

// What the next segment comes to, by its id. The header is the first use of the first entry.
fn outcome_at(id: &[u8], directory: &[[u8; 3]], guide: &[[u16; 6]], w: Walk) -> Outcome
    ensures { result ≡ steps.outcome_at directory.now guide.now w id.now }
{
    if w.at == 0 {
        return moved(0, 0);
    }
    let standing = stands(id, directory, guide, w.present.row);
    outcome_of(guide, w.present, standing)
}

// The segment up to `end` comes to this.
fn segment(w: Walk, end: usize, o: Outcome) -> Step
    requires { end < 18446744073709551615 }
    ensures { result ≡ steps.segment_by w end o }
{
    let taken = Taken {
        start: w.at,
        end,
        own: o.own,
        check: o.check,
        passed: Passed {
            from: o.from,
            end: o.present.row,
            position: w.position,
        },
    };
    let onward = Walk {
        at: end + 1,
        position: w.position.saturating_add(1),
        present: o.present,
    };
    Step::Segment(taken, onward)
}

// The last step for SE, which is missing.
fn missing_trailer(directory: &[[u8; 3]], guide: &[[u16; 6]], w: Walk) -> Step
    ensures { result ≡ steps.trailer_step directory.now guide.now w }
{
    let row = w.present.row;
    let Standing::Later(end) = stands(&rules::SE, directory, guide, row) else {
        return Step::Done;
    };
    Step::Trailer(Passed {
        from: row.saturating_add(1),
        end,
        position: w.position,
    })
}

// The next step of the walk of a set, with or without its trailer, through the table of a guide. A set without a segment lacks no trailer.
pub fn next(
    set: &[u8],
    d: Delimiters,
    directory: &[[u8; 3]],
    guide: &[[u16; 6]],
    closed: bool,
    w: Walk,
) -> Step
    ensures { result ≡ steps.step set.now d directory.now guide.now closed w }
{
    if w.at < set.len() {
        let end = text::find(set, w.at, d.terminator);
        let id = segments::id(&set[w.at..end], d.element);
        return segment(w, end, outcome_at(id, directory, guide, w));
    }
    if closed || w.at == 0 {
        return Step::Done;
    }
    missing_trailer(directory, guide, w)
}

// The first mandatory segment from row `from` on and before row `end`.
pub fn next_missing(guide: &[[u16; 6]], from: usize, end: usize) -> Option<usize>
    ensures { result ≡ steps.next_missing guide.now from end }
{
    let row = tables::next_mandatory(guide, from, end);
    (row < end && row < guide.len()).then_some(row)
}
