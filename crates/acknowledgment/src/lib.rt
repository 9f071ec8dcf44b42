#![tactic(auto)]
// The acknowledgment of an interchange: a 997 for each of its groups, or the number of a refusal.
ghost use Rattle.rules.specs.Answers.{functional_acknowledgment, Allowed};

use rules::{Answer, Call};

mod response;
mod set_block;
mod survey;
mod transaction;

// The answer to one interchange.
pub fn acknowledge(interchange: &[u8], response: &mut [u8], call: Call) -> Answer
    ensures { Allowed (functional_acknowledgment interchange.now call) response.old result response.new }
{
    let d = refusals::check_head(interchange, call)?;
    let envelope = refusals::check_envelope(interchange, d)?;
    response::answer_groups(response, interchange, d, envelope, call)
}
