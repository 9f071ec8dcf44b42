#![tactic(auto)]
// Refusal 1: the numbers that a caller gives with an interchange.
ghost use Rattle.std.specs.Prelude.{◌≡◌, ◌&&◌, ◌/◌, ◌%◌, leb};
ghost use Rattle.rules.specs.Base.{between, first};
ghost use Rattle.rules.specs.Numbers.{is_day};
ghost use Rattle.rules.specs.Refusals.{call_rules};
ghost use Rattle.rules.specs.Refused.{unless};

use rules::{Call, Refusal};

fn is_date(date: u32) -> bool
    ensures { result ≡ (leb date 99991231 && is_day date) }
{
    date <= 99991231 && dates::is_day(date)
}

fn is_time(time: u32) -> bool
    ensures { result ≡ (leb (time / 100) 23 && leb (time % 100) 59) }
{
    time / 100 <= 23 && time % 100 <= 59
}

fn is_control(control: u32) -> bool
    ensures { result ≡ between 1 999999999 control }
{
    (1..=999999999).contains(&control)
}

// Refusal 1, where the date is no day, the time no time or the control number out of its range.
pub fn check_call(call: Call) -> Result<(), Refusal>
    ensures { result ≡ unless (first (call_rules call)) tt }
{
    if is_date(call.date) && is_time(call.time) && is_control(call.control) {
        Ok(())
    } else {
        Err(Refusal::BadCall)
    }
}
