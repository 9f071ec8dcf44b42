// What is printed: the response, or the text of a refusal.
ghost use Rattle.std.specs.Prelude.{length};
ghost use Rattle.rules.specs.Answers.{Allowed};
ghost use Rattle.rules.specs.Refused.{number_of};
ghost use Rattle.rules.specs.Program.{refused_text, printed_reply};
ghost use Rattle.writing.specs.Over.{Wrote};
ghost use Rattle.exchange.specs.Replies.{replies_of};

use super::Acknowledgment;
use rules::{Answer, Call, Refusal};
use writing::{Number, add};

// `refused`, the number and LF.
pub(crate) fn put_refused(out: &mut [u8], refusal: Refusal) -> usize
    ensures { Wrote (refused_text (number_of refusal)) result out.old out.new }
{
    let n = add(out, 0, b"refused ");
    let n = add(out, n, Number(refusal.number() as u64));
    add(out, n, b'\n')
}

// The answer to an interchange, by the acknowledgment that is asked for.
fn acknowledge(asked: Acknowledgment, interchange: &[u8], response: &mut [u8], call: Call) -> Answer
    ensures { Allowed (replies_of asked interchange.now call) response.old result response.new }
{
    match asked {
        Acknowledgment::Functional => acknowledgment::acknowledge(interchange, response, call),
        Acknowledgment::Interchange => {
            interchange_acknowledgment::acknowledge_interchange(interchange, response, call)
        }
    }
}

// That answer as it is printed: the response, or `refused` and the number.
pub(crate) fn print_answer(
    output: &mut [u8],
    asked: Acknowledgment,
    interchange: &[u8],
    call: Call,
) -> usize
    ensures { Wrote (printed_reply (replies_of asked interchange.now call) (length output.old)) result output.old output.new }
{
    match acknowledge(asked, interchange, output, call) {
        Ok(n) => n,
        Err(refusal) => put_refused(output, refusal),
    }
}
