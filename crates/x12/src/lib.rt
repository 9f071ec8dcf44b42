#![tactic(auto)]
// The entries for C, which x12_c exports: the number of an answer is returned and its length stored.
ghost use Rattle.std.specs.Prelude.{◌≡◌};
ghost use Rattle.rules.specs.Answers as law;
ghost use Rattle.rules.specs.Answers.{functional_acknowledgment, interchange_acknowledgment, called};

use rules::{Answer, Call, Refusal};

// Stores the length of an answer; its number comes back, as `x12_acknowledge` and `x12_acknowledge_interchange` have it for C.
fn tell(answer: Answer, length: &mut usize) -> u32
    ensures { (result ≡ law.number answer) × (length.new ≡ law.size answer) }
{
    *length = match answer {
        Ok(n) | Err(Refusal::TooLong(n)) => n,
        Err(_) => 0,
    };
    match answer {
        Ok(_) => 0,
        Err(refusal) => refusal.number() as u32,
    }
}

// The 997 of an interchange. This function and the next have one shape, and stay two: C calls each by its name.
#[unsafe(no_mangle)]
pub extern "C" fn x12_acknowledge(
    interchange: &[u8],
    response: &mut [u8],
    date: u32,
    time: u32,
    control: u32,
    length: &mut usize,
) -> u32
    ensures { record { number = result; size = length.new; buffer = response.new } ≡ called (functional_acknowledgment interchange.now (record { date = date; time = time; control = control })) response.old }
{
    let call = Call {
        date,
        time,
        control,
    };
    tell(
        acknowledgment::acknowledge(interchange, response, call),
        length,
    )
}

// The acknowledgment of the interchange itself, a TA1.
#[unsafe(no_mangle)]
pub extern "C" fn x12_acknowledge_interchange(
    interchange: &[u8],
    response: &mut [u8],
    date: u32,
    time: u32,
    control: u32,
    length: &mut usize,
) -> u32
    ensures { record { number = result; size = length.new; buffer = response.new } ≡ called (interchange_acknowledgment interchange.now (record { date = date; time = time; control = control })) response.old }
{
    let call = Call {
        date,
        time,
        control,
    };
    tell(
        interchange_acknowledgment::acknowledge_interchange(interchange, response, call),
        length,
    )
}
