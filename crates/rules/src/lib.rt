#![tactic(auto)]
// The types that the code and the definitions of document 01 share. The definitions stand in specs/, the theorems on them in proofs/.
ghost use Rattle.std.specs.Prelude.{◌≡◌, eqb};
ghost use Rattle.rules.specs.Base.{any, last};
ghost use Rattle.rules.specs.Cutting as cutting;
ghost use Rattle.rules.specs.Refused.{number_of};

// The names of segments, for what is read and for what is written.
pub const ISA: [u8; 3] = *b"ISA";

pub const IEA: [u8; 3] = *b"IEA";

pub const TA1: [u8; 3] = *b"TA1";

pub const GS: [u8; 2] = *b"GS";

pub const GE: [u8; 2] = *b"GE";

pub const ST: [u8; 2] = *b"ST";

pub const SE: [u8; 2] = *b"SE";

pub const AK1: [u8; 3] = *b"AK1";

pub const AK2: [u8; 3] = *b"AK2";

pub const AK3: [u8; 3] = *b"AK3";

pub const AK4: [u8; 3] = *b"AK4";

pub const AK5: [u8; 3] = *b"AK5";

pub const AK9: [u8; 3] = *b"AK9";

// GS01 of an acknowledgment.
pub const FA: [u8; 2] = *b"FA";

// The limits of an interchange: its bytes, and its groups.
#[derive(Clone, Copy)]
pub struct Interchange {
    pub length: usize,
}

impl Interchange {
    pub const SHORTEST: usize = 106;

    pub const LONGEST: usize = 65536;

    // As many groups as are answered in one call.
    pub const MOST_GROUPS: u64 = 16;
}

// The bytes that part segments, elements, components and repetitions.
#[derive(Clone, Copy)]
pub struct Delimiters {
    pub element: u8,
    pub component: u8,
    pub terminator: u8,
    // The repetition separator, where there is one.
    pub repetition: Option<u8>,
}

impl Delimiters {
    pub fn new(element: u8, component: u8, terminator: u8, repetition: Option<u8>) -> Self
        ensures { result ≡ record { element = element; component = component; terminator = terminator; repetition = repetition } }
    {
        Self {
            element,
            component,
            terminator,
            repetition,
        }
    }

    // The byte is the repetition separator.
    pub fn separates_repetitions(self, b: u8) -> bool
        ensures { result ≡ cutting.separates_repetitions self b }
    {
        Some(b) == self.repetition
    }

    // The last of them, which is the terminator where there is no fourth. So `is_mark` makes the same four comparisons in both cases, which is faster
    // than to ask which case it is for every byte.
    fn last(self) -> u8
        ensures { result ≡ last 0 (cutting.marks self) }
    {
        self.repetition.unwrap_or(self.terminator)
    }

    // The byte is a delimiter.
    pub fn is_mark(self, b: u8) -> bool
        ensures { result ≡ any (eqb b) (cutting.marks self) }
    {
        let last = self.last();
        (b == self.element) | (b == self.component) | (b == self.terminator) | (b == last)
    }
}

// The type of an element.
#[derive(Clone, Copy, PartialEq, Eq)]
pub enum Kind {
    AN,
    ID,
    N0,
    DT,
    TM,
}

// The relation that a syntax note asks of the elements at its places: paired, required, exclusive, conditional, list conditional.
#[derive(Clone, Copy, PartialEq, Eq)]
pub enum Relation {
    P,
    R,
    E,
    C,
    L,
}

// A part of a segment: where it starts, and where it ends, which is after its last byte.
#[derive(Clone, Copy)]
pub struct Span {
    pub start: usize,
    pub end: usize,
}

// What is found of one element, an AK4: its place, its reference number (0 for none), the code, and where its echo lies in the segment. The
// echo ends where it starts if there is none. No `Option` for the two: a row writes 0, and AK4 has an empty element, for just these values. The code
// is a number and no `ElementCode`: `new` takes any, and an enum would ask more of callers.
#[derive(Clone, Copy)]
pub struct Finding {
    pub place: usize,
    pub reference: u16,
    pub code: u8,
    pub echo: Span,
}

impl Finding {
    // The most bytes of a value that are echoed.
    pub const LONGEST_ECHO: usize = 99;

    pub fn new(place: usize, reference: u16, code: u8, echo: Span) -> Self
        ensures { result ≡ record { place = place; reference = reference; code = code; echo = echo } }
    {
        Self {
            place,
            reference,
            code,
            echo,
        }
    }
}

// A code of AK4: what is wrong with an element. They ascend as their numbers do.
#[derive(Clone, Copy, PartialEq, Eq, PartialOrd, Ord)]
pub enum ElementCode {
    Missing = 1,
    MissingByNote = 2,
    BeyondTable = 3,
    TooShort = 4,
    TooLong = 5,
    BadByte = 6,
    NotListed = 7,
    NoDate = 8,
    NoTime = 9,
    ShutOut = 10,
    TooManyRepetitions = 12,
}

// A code of AK3: what is wrong with a segment.
#[derive(Clone, Copy, PartialEq, Eq)]
pub enum SegmentCode {
    NotKnown = 1,
    Missing = 3,
    BeyondMaximum = 5,
    NotInTable = 6,
    OutOfOrder = 7,
    HasFindings = 8,
}

// A code of AK5: what is wrong with a set.
#[derive(Clone, Copy, PartialEq, Eq)]
pub enum SetCode {
    NotSupported = 1,
    NoTrailer = 2,
    OtherControl = 3,
    OtherCount = 4,
    HasNotes = 5,
    Repeated = 23,
}

// A code of AK9: what is wrong with a group.
#[derive(Clone, Copy, PartialEq, Eq)]
pub enum GroupCode {
    NotSupported = 1,
    NoTable = 2,
    NoTrailer = 3,
    OtherControl = 4,
    OtherCount = 5,
}

// The caller's numbers: the date CCYYMMDD, the time HHMM and the control number of the response.
#[derive(Clone, Copy)]
pub struct Call {
    pub date: u32,
    pub time: u32,
    pub control: u32,
}

// Why an interchange gets no response.
#[derive(Clone, Copy, PartialEq, Eq)]
pub enum Refusal {
    // A number of the caller's is wrong.
    BadCall,
    // The interchange is too short or too long.
    BadLength,
    // It does not start with ISA and its separators.
    NoIsa,
    // Two delimiters are the same, or one is a letter, a digit or a space.
    BadDelimiters,
    // A field of ISA is wrong.
    BadIsa,
    // The last byte ends no segment.
    NotTerminated,
    // ISA, GS, GE and IEA do not stand in their places.
    OutOfPlace,
    // IEA is wrong.
    BadTrailer,
    // An element of GS is wrong.
    BadHeader,
    // A group is an acknowledgment.
    Acknowledgment,
    // A segment stands outside every set.
    Outside,
    // A group has no set.
    NoSet,
    // The header of a set cannot be answered.
    BadSetHeader,
    // The buffer is shorter than the response, which has this length.
    TooLong(usize),
    // No TA1 is asked for.
    NotAsked,
}

impl Refusal {
    // Document 01's number. By a match: `TooLong` holds a length, so that no cast gives it.
    pub fn number(self) -> u8
        ensures { result ≡ number_of self }
    {
        match self {
            Refusal::BadCall => 1,
            Refusal::BadLength => 2,
            Refusal::NoIsa => 3,
            Refusal::BadDelimiters => 4,
            Refusal::BadIsa => 5,
            Refusal::NotTerminated => 6,
            Refusal::OutOfPlace => 7,
            Refusal::BadTrailer => 8,
            Refusal::BadHeader => 9,
            Refusal::Acknowledgment => 10,
            Refusal::Outside => 11,
            Refusal::NoSet => 12,
            Refusal::BadSetHeader => 13,
            Refusal::TooLong(_) => 14,
            Refusal::NotAsked => 15,
        }
    }
}

// What a caller gets: the length of the response, or why there is none.
pub type Answer = Result<usize, Refusal>;
