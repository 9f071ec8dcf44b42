// The first line of the program's input.
ghost use Rattle.std.specs.Prelude.{◌≡◌};
ghost use Rattle.rules.specs.Program.{is_call};
ghost use Rattle.exchange.specs.Calls.{line_on, line_in};

use rules::Call;
use text::{is_digits, value};

// Where the parts of the line stand: the date, a space, the time, a space, the control number.
const DATE_END: usize = 8;

const TIME: usize = 9;

const TIME_END: usize = 13;

const CONTROL: usize = 14;

// What the first line says: the caller's numbers, and where the interchange starts.
#[derive(Clone, Copy)]
pub struct FirstLine {
    pub call: Call,
    pub interchange: usize,
}

// The call that an input makes, by its first line; none where that has no LF.
pub(crate) fn call_of(input: &[u8]) -> Option<FirstLine>
    ensures { result ≡ line_in input.now }
{
    // By `find`, and not by `position`, which goes byte by byte: an input without LF may be long.
    let end = text::find(input, 0, b'\n');
    if input.len() <= end {
        return None;
    }
    call_on(&input[..end])
}

// The call on a line that an LF ends; the interchange starts after that.
fn call_on(line: &[u8]) -> Option<FirstLine>
    ensures { result ≡ line_on line.now }
{
    if !is_call(line) {
        return None;
    }
    let date = value(&line[..DATE_END]) as u32;
    let time = value(&line[TIME..TIME_END]) as u32;
    let control = value(&line[CONTROL..]) as u32;
    let call = Call {
        date,
        time,
        control,
    };
    let interchange = line.len() + 1;
    Some(FirstLine { call, interchange })
}

// 8, 4 and 1 to 9 digits with one space between.
fn is_call(line: &[u8]) -> bool
    ensures { result ≡ is_call line.now }
{
    CONTROL < line.len()
        && is_digits(&line[..DATE_END], 8, 8)
        && line[DATE_END] == b' '
        && is_digits(&line[TIME..TIME_END], 4, 4)
        && line[TIME_END] == b' '
        && is_digits(&line[CONTROL..], 1, 9)
}
