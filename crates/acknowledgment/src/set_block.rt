// One set of a group: whether it has a code, and its block in the response: AK2, its notes, AK5.
ghost use Rattle.std.specs.Prelude.{◌≡◌, true, false, not, List, [], ◌∷◌, ℕ, ◌+◌, ◌<◌, ◌≤◌, length, is_none, is_some, Option};
ghost use Rattle.rules.specs.Base.{Bytes, null, member};
ghost use Rattle.rules.specs.Cutting.{field};
ghost use Rattle.rules.specs.Tables.{Table};
ghost use Rattle.rules.specs.Segments.{Note};
ghost use Rattle.rules.specs.Sets.{control_of, notes_in, set_codes};
ghost use Rattle.rules.specs.Response as law;
ghost use Rattle.guides.specs.Choice.{table_at};
ghost use Rattle.text.specs.Text.{part};
ghost use Rattle.sets.specs.Places.{set_at, control_at};
ghost use Rattle.sets.proofs.Sets.{SetIs};
ghost use Rattle.verdicts.specs.Collecting.{codes_of};
ghost use Rattle.writing.specs.Over.{sat};
ghost use Rattle.notes.specs.Saying.{Tells};
ghost use Rattle.acknowledgment.specs.Writers.{TellsFrom, Measures};
ghost use Rattle.acknowledgment.specs.Received.{Scoped, Ordered, received_at, set_of, ReceivedIs, report_of, Untold, table_by};
ghost use Rattle.acknowledgment.specs.Surveys.{set_here, report_at, header_at, is_accepted, is_repeated, is_quiet, Marked, acceptance, Headed, closed_well, Sighted, SeenIs};

use guides::{Scope, TableAt};
use notes::Told;
use rules::Delimiters;
use sets::SetAt;
use verdicts::{Codes, SetFacts};

// What a look tells of a set: it has no code, it has some, or one of them is that its control number was used before. The quiet ones tell also that
// nothing is told of it. GroupEnd is no set's: it stands after the marks of a group's sets, and so tells how many they are.
#[derive(Clone, Copy, PartialEq, Eq)]
pub enum Mark {
    Accepted,
    Rejected,
    Repeated,
    QuietRejected,
    QuietRepeated,
    GroupEnd,
}

impl Mark {
    pub(crate) fn is_accepted(self) -> bool
        ensures { result ≡ is_accepted self }
    {
        self == Mark::Accepted
    }

    fn is_repeated(self) -> bool
        ensures { result ≡ is_repeated self }
    {
        matches!(self, Mark::Repeated | Mark::QuietRepeated)
    }

    fn is_quiet(self) -> bool
        ensures { result ≡ is_quiet self }
    {
        matches!(self, Mark::QuietRejected | Mark::QuietRepeated)
    }
}

// The bytes of AK2 and AK5 of an accepted set beside its ST02: ST01 has three.
const ACCEPTANCE: usize = 15;

// How the sets of a group are read: by which delimiters, and by which tables. The directory and the rows are lent beside it, each for itself: a look
// reads no directory, and a set is read by a part of the rows.
#[derive(Clone, Copy)]
pub struct Reading {
    pub delimiters: Delimiters,
    pub scope: Scope,
}

// A set that was looked at: its place, whether it showed that nothing is told of the set, and whether the set has no code where its control number
// was not used before. Two flags and no enum: each is asked for alone, and the second only of a set that is not quiet.
#[derive(Clone, Copy)]
pub struct SeenSet {
    pub place: SetAt,
    pub quiet: bool,
    pub clean: bool,
}

// A set as received: where it stands, where its table stands, whether an earlier set has its control number, and whether it is known that nothing
// is told of it.
#[derive(Clone, Copy)]
pub struct ReceivedSet {
    pub place: SetAt,
    pub table: Option<TableAt>,
    pub repeated: bool,
    pub quiet: bool,
}

// A set that was looked at: where it starts, and its mark.
#[derive(Clone, Copy)]
pub struct MarkedSet {
    pub start: usize,
    pub mark: Mark,
}

// The set at a place, with the table that its ST01 gives it.
fn receive(body: &[u8], reading: Reading, place: SetAt, repeated: bool, quiet: bool) -> ReceivedSet
    ensures { result ≡ received_at reading.delimiters reading.scope body.now place repeated quiet }
{
    let header = text::part(body, place.start, place.header);
    let kind = segments::field(header, reading.delimiters.element, 1);
    ReceivedSet {
        place,
        table: guides::table_of(reading.scope, kind),
        repeated,
        quiet,
    }
}

// The codes of a set, by whether it has notes.
fn codes_of(body: &[u8], d: Delimiters, set: ReceivedSet, noted: bool) -> Codes
    requires { SetIs d body.now set.place.start set.place }
    ensures { (t : Option Table) (notes : List Note) (earlier : List Bytes) → is_some set.table ≡ not (is_none t) → noted ≡ not (null notes) → set.repeated ≡ member (control_of (set_of d body.now set)) earlier → codes_of result ≡ set_codes t notes earlier (set_of d body.now set) }
{
    let place = set.place;
    let header = text::part(body, place.start, place.header);
    let trailer = text::part(body, place.trailer, place.end - 1);
    let facts = SetFacts {
        supported: set.table.is_some(),
        segments: place.segments,
        noted,
        repeated: set.repeated,
    };
    verdicts::set_codes(header, place.closed.then_some(trailer), d, facts)
}

// ST01 of the header that starts at `at`: three bytes.
fn kind_of(body: &[u8], at: usize) -> &[u8]
    requires { at + 6 ≤ length body.now }
    ensures { result.now ≡ part body.now (at + 3) (at + 6) }
{
    &body[at + 3..at + 6]
}

// ST02 of the header that starts at `at`: it comes after a separator, and goes up to the next one or to the terminator.
pub(crate) fn control_of(body: &[u8], d: Delimiters, at: usize) -> &[u8]
    requires { Headed d body.now at }
    ensures { result.now ≡ control_at d body.now at }
{
    let start = at + 7;
    let end = register::field_end(body, d, start);
    &body[start..end]
}

// ST01 and ST02 of the header that starts at `at`, each after its separator.
fn fields_of(body: &[u8], d: Delimiters, at: usize) -> &[u8]
    requires { Headed d body.now at }
    ensures { result.now ≡ law.fields_out d (field (header_at d body.now at) 1 ∷ control_at d body.now at ∷ []) }
{
    let start = at + 2;
    let end = register::field_end(body, d, at + 7);
    &body[start..end]
}

// The trailer of a set at a place, with this control number, is as it should be.
fn is_closed_well(body: &[u8], d: Delimiters, place: SetAt, control: &[u8]) -> bool
    requires { 0 < place.end }
    ensures { result ≡ closed_well d body.now place control.now }
{
    let trailer = text::part(body, place.trailer, place.end - 1);
    verdicts::closes(trailer, d.element, place.segments, control)
}

// The set that starts at `at`, which has a code whatever its control number is: it is cut.
fn odd_set(body: &[u8], d: Delimiters, at: usize) -> SeenSet
    ensures { result ≡ record { place = set_at d body.now at; quiet = false; clean = false } }
{
    SeenSet {
        place: sets::next_set(body, d, at),
        quiet: false,
        clean: false,
    }
}

// One look at the set that starts at `at`, with this control number. A set with an oddity is cut as well.
pub(crate) fn see(
    body: &[u8],
    reading: Reading,
    valid: &[bool; 256],
    rows: &[[u16; 6]],
    at: usize,
    control: &[u8],
) -> SeenSet
    requires { Sighted reading.delimiters body.now valid.now rows.now reading.scope at control.now }
    ensures { (result.place ≡ set_at reading.delimiters body.now at) × ((ids : List (List ℕ)) → Ordered ids rows.now reading.scope → SeenIs reading.delimiters (table_by ids rows.now reading.scope) body.now at result) }
{
    let d = reading.delimiters;
    let Some(table) = guides::table_of(reading.scope, kind_of(body, at)) else {
        return odd_set(body, d, at);
    };
    match look::look_at(body, d, valid, &rows[table.start..table.end], at) {
        None => odd_set(body, d, at),
        Some(place) => SeenSet {
            place,
            quiet: true,
            clean: is_closed_well(body, d, place, control),
        },
    }
}

// The notes of a set after n bytes; a quiet set and one without a table have none.
fn add_notes(
    out: &mut [u8],
    n: usize,
    body: &[u8],
    d: Delimiters,
    set: ReceivedSet,
    directory: &[[u8; 3]],
    rows: &[[u16; 6]],
) -> Told
    requires { ReceivedIs d body.now rows.now set }
    ensures { Untold d directory.now rows.now body.now set → TellsFrom n d (law.ak3s (notes_in d (table_at directory.now rows.now set.table) (set_of d body.now set))) result out.old out.new }
{
    let Some(table) = set.table else {
        return Told {
            length: n,
            segments: 0,
        };
    };
    if set.quiet {
        return Told {
            length: n,
            segments: 0,
        };
    }
    let place = set.place;
    let bytes = text::part(body, place.start, place.end);
    let rest = n.min(out.len());
    let told = notes::put_notes(
        &mut out[rest..],
        bytes,
        d,
        directory,
        &rows[table.start..table.end],
        place.closed,
    );
    Told {
        length: n.saturating_add(told.length),
        segments: told.segments,
    }
}

// The block of an accepted set: AK2 and AK5.
fn put_accepted(out: &mut [u8], body: &[u8], d: Delimiters, at: usize) -> Told
    requires { (Headed d body.now at) × SetIs d body.now at (set_at d body.now at) }
    ensures { Tells d (acceptance (set_here d body.now at)) result out.old out.new }
{
    Told {
        length: blocks::put_acceptance(out, d, fields_of(body, d, at)),
        segments: 2,
    }
}

// The block of a rejected set: AK2, its notes, and AK5 with its codes.
fn put_rejected(
    out: &mut [u8],
    body: &[u8],
    d: Delimiters,
    set: ReceivedSet,
    directory: &[[u8; 3]],
    rows: &[[u16; 6]],
) -> Told
    requires { ReceivedIs d body.now rows.now set }
    ensures { (earlier : List Bytes) → set.repeated ≡ member (control_of (set_of d body.now set)) earlier → Untold d directory.now rows.now body.now set → Tells d (law.block (report_of d directory.now rows.now body.now set earlier)) result out.old out.new }
{
    let place = set.place;
    let header = text::part(body, place.start, place.header);
    let n = blocks::add_ak2(out, 0, d, header);
    let told = add_notes(out, n, body, d, set, directory, rows);
    let codes = codes_of(body, d, set, told.segments != 0);
    Told {
        length: blocks::add_ak5(out, told.length, d, codes),
        segments: told.segments.saturating_add(2),
    }
}

// The block of a set that was looked at.
pub(crate) fn put_block(
    out: &mut [u8],
    body: &[u8],
    reading: Reading,
    set: MarkedSet,
    directory: &[[u8; 3]],
    rows: &[[u16; 6]],
) -> Told
    requires { (Headed reading.delimiters body.now set.start) × ((SetIs reading.delimiters body.now set.start (set_at reading.delimiters body.now set.start)) × Scoped rows.now reading.scope) }
    ensures { (earlier : List Bytes) → Marked reading.delimiters (table_by directory.now rows.now reading.scope) body.now set.start earlier set.mark → Tells reading.delimiters (law.block (report_at reading.delimiters (table_by directory.now rows.now reading.scope) body.now set.start earlier)) result out.old out.new }
{
    let d = reading.delimiters;
    if set.mark.is_accepted() {
        return put_accepted(out, body, d, set.start);
    }
    let place = sets::next_set(body, d, set.start);
    let mark = set.mark;
    let received = receive(body, reading, place, mark.is_repeated(), mark.is_quiet());
    put_rejected(out, body, d, received, directory, rows)
}

// What the block of an accepted set with this control number comes to.
pub(crate) fn measure_accepted(control: &[u8]) -> Told
    ensures { result ≡ record { length = sat (15 + length control.now); segments = 2 } }
{
    Told {
        length: ACCEPTANCE.saturating_add(control.len()),
        segments: 2,
    }
}

// What the block of any other set comes to: it is measured on an empty part.
pub(crate) fn measure_rejected(
    body: &[u8],
    reading: Reading,
    set: SeenSet,
    repeated: bool,
    directory: &[[u8; 3]],
    rows: &[[u16; 6]],
) -> Told
    requires { (set.place ≡ set_at reading.delimiters body.now set.place.start) × ((SetIs reading.delimiters body.now set.place.start set.place) × Scoped rows.now reading.scope) }
    ensures { (earlier : List Bytes) → repeated ≡ member (control_of (set_here reading.delimiters body.now set.place.start)) earlier → (set.quiet ≡ true → (report_at reading.delimiters (table_by directory.now rows.now reading.scope) body.now set.place.start []).notes ≡ []) → Measures reading.delimiters (law.block (report_at reading.delimiters (table_by directory.now rows.now reading.scope) body.now set.place.start earlier)) result }
{
    let d = reading.delimiters;
    let place = set.place;
    let received = receive(body, reading, place, repeated, set.quiet);
    put_rejected(&mut [], body, d, received, directory, rows)
}
