#![tactic(auto)]
// What each program does: it reads standard input, answers it, and writes the answer to standard output.
ghost use Rattle.std.specs.Prelude.{◌≤◌, ◌≡◌, length, IfOk};
ghost use Rattle.writing.specs.Over.{over};
ghost use Rattle.exchange.specs.Deciding.{deciding};
ghost use Rattle.program.specs.Counts.{IsPrefixLen};
ghost use Rattle.program.specs.Serving.{room, prints, Serves};

use exchange::Acknowledgment;
use std::io::{self, Read, Stderr, Stdin, Stdout};

// As much of an input as decides its answer: the longest first line, its LF, and an interchange that is too long by one byte.
const MOST: usize = 23 + 1 + 65537;

// The room for a response.
const ROOM: usize = 65536;

// Reads until the input ends or the buffer is full, and says how many bytes. The rest of a longer input is not read: it makes no difference.
// No `read_to_end`, which allocates, and no `read_exact`, to which a short input is an error.
fn read_input(mut stdin: Stdin, input: &mut [u8]) -> io::Result<usize>
    requires { deciding ≤ length input.old }
    ensures { IfOk result (λ n. IsPrefixLen n input.new) }
{
    let mut n = 0;
    while n < input.len() {
        let more = stdin.read(&mut input[n..])?;
        if more == 0 {
            break;
        }
        n += more;
    }
    Ok(n)
}

// Prints the answer to an input. Only what the law says of the input may be lent.
fn print(stdout: Stdout, asked: Acknowledgment, input: &[u8], answer: &[u8]) -> io::Result<()>
    requires { answer.now ≡ prints asked input.now }
{
    stdout.write_all(answer)
}

// Answers an input and prints that. The output is the room for a response; the answer is left in it, also where not all of it could be written.
fn write_answer(
    stdout: Stdout,
    asked: Acknowledgment,
    input: &[u8],
    output: &mut [u8],
) -> io::Result<()>
    requires { length output.old ≡ room }
    ensures { output.new ≡ over (prints asked input.now) output.old }
{
    let length = exchange::exchange(asked, input, output);
    print(stdout, asked, input, &output[..length])
}

// What failed: the input could not be read, or the answer to so many bytes not all be written.
#[derive(Clone, Copy)]
enum Failure {
    Unread,
    Unprinted(usize),
}

// Reads an input and prints the answer to it, and says how many bytes were read. An input that can't be read gets none.
fn serve(
    stdin: Stdin,
    stdout: Stdout,
    asked: Acknowledgment,
    input: &mut [u8],
    output: &mut [u8],
) -> Result<usize, Failure>
    requires deciding_in_bounds { deciding ≤ length input.old }
    requires output_len { length output.old ≡ room }
    ensures { Serves asked result input.new output.old output.new }
{
    let n = read_input(stdin, input).map_err(|_| Failure::Unread)?;
    write_answer(stdout, asked, &input[..n], output).map_err(|_| Failure::Unprinted(n))?;
    Ok(n)
}

// Says on standard error which program failed, and at what.
fn complain(stderr: Stderr, name: &[u8], what: &[u8]) {
    let _ = stderr.write_all(name);
    let _ = stderr.write_all(what);
}

// Runs the program of this name, which answers with the acknowledgment that is asked for.
pub fn run(stdin: Stdin, stdout: Stdout, stderr: Stderr, asked: Acknowledgment, name: &[u8]) {
    let mut input = [0; MOST];
    let mut output = [0; ROOM];
    match serve(stdin, stdout, asked, &mut input, &mut output) {
        Ok(_) => {}
        Err(Failure::Unread) => complain(stderr, name, b": cannot read standard input\n"),
        Err(Failure::Unprinted(_)) => complain(stderr, name, b": cannot write standard output\n"),
    }
}
