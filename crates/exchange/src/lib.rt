#![tactic(auto)]
// All that a program does, on slices: the first line, and the answer as it is printed.
mod first_line;
mod printing;

ghost use Rattle.std.specs.Prelude.{◌≡◌, length};
ghost use Rattle.rules.specs.Program.{printed};
ghost use Rattle.writing.specs.Over.{over};
ghost use Rattle.exchange.specs.Replies.{replies_of};

use rules::Refusal;

// Which acknowledgment is asked for: the 997, or the interchange with TA1. An enum and no closure, which would need a `requires` on `exchange`:
// the contracts name what each of the two says, by `replies_of`.
#[derive(Clone, Copy)]
pub enum Acknowledgment {
    Functional,
    Interchange,
}

// What is printed for an input, as much as the output holds; its length is the answer.
pub fn exchange(asked: Acknowledgment, input: &[u8], output: &mut [u8]) -> usize
    ensures { (result ≡ length (printed (replies_of asked) input.now (length output.old))) × (output.new ≡ over (printed (replies_of asked) input.now (length output.old)) output.old) }
{
    match first_line::call_of(input) {
        Some(line) => {
            printing::print_answer(output, asked, &input[line.interchange..], line.call)
        }
        None => printing::put_refused(output, Refusal::BadCall),
    }
}
