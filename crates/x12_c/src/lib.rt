#![tactic(auto)]
// The entries for C in one archive, which no crate can stand on: each answers as the function of x12 with its name.
ghost use Rattle.std.specs.Prelude.{◌≡◌};
ghost use Rattle.rules.specs.Answers.{functional_acknowledgment, interchange_acknowledgment, called};

// The 997 of an interchange.
#[unsafe(no_mangle)]
pub extern "C" fn x12_acknowledge(
    interchange: &[u8],
    response: &mut [u8],
    date: u32,
    time: u32,
    control: u32,
    length: &mut usize,
) -> u32
    ensures { record { number = result; size = length.new; buffer = response.new } ≡ called (functional_acknowledgment interchange.now (record { date = date; time = time; control = control })) response.old }
{
    x12::x12_acknowledge(interchange, response, date, time, control, length)
}

// The acknowledgment of the interchange itself, a TA1.
#[unsafe(no_mangle)]
pub extern "C" fn x12_acknowledge_interchange(
    interchange: &[u8],
    response: &mut [u8],
    date: u32,
    time: u32,
    control: u32,
    length: &mut usize,
) -> u32
    ensures { record { number = result; size = length.new; buffer = response.new } ≡ called (interchange_acknowledgment interchange.now (record { date = date; time = time; control = control })) response.old }
{
    x12::x12_acknowledge_interchange(interchange, response, date, time, control, length)
}
