#![tactic(auto)]
// GS, the header of a group: refusals 9 and 10.
ghost use Rattle.std.specs.Prelude.{◌≡◌};
ghost use Rattle.rules.specs.Base.{first};
ghost use Rattle.rules.specs.Cutting.{split};
ghost use Rattle.rules.specs.Refusals.{header_rules, answer_rules};
ghost use Rattle.rules.specs.Refused.{unless};

use rules::{Delimiters, FA, Refusal};
use segments::field;
use text::{is_digits, is_text};

// Refusal 9, by the bytes of GS.
pub fn check_header(gs: &[u8], d: Delimiters) -> Result<(), Refusal>
    ensures { result ≡ unless (first (header_rules d (split d.element gs.now))) tt }
{
    if segments::field_count(gs, d.element) != 9 {
        return Err(Refusal::BadHeader);
    }
    let code = field(gs, d.element, 1);
    if code.len() != 2 {
        return Err(Refusal::BadHeader);
    }
    if !text::is_name(code) {
        return Err(Refusal::BadHeader);
    }
    if !is_text(field(gs, d.element, 2), 2, 15, d) {
        return Err(Refusal::BadHeader);
    }
    if !is_text(field(gs, d.element, 3), 2, 15, d) {
        return Err(Refusal::BadHeader);
    }
    if !dates::is_date(field(gs, d.element, 4)) {
        return Err(Refusal::BadHeader);
    }
    if !text::is_time(field(gs, d.element, 5)) {
        return Err(Refusal::BadHeader);
    }
    if !is_digits(field(gs, d.element, 6), 1, 9) {
        return Err(Refusal::BadHeader);
    }
    if !is_text(field(gs, d.element, 7), 1, 2, d) {
        return Err(Refusal::BadHeader);
    }
    if !is_text(field(gs, d.element, 8), 1, 12, d) {
        return Err(Refusal::BadHeader);
    }
    Ok(())
}

// Refusal 10, by the bytes of GS.
pub fn check_answerable(gs: &[u8], d: Delimiters) -> Result<(), Refusal>
    ensures { result ≡ unless (first (answer_rules (split d.element gs.now))) tt }
{
    if text::same_bytes(field(gs, d.element, 1), &FA) {
        Err(Refusal::Acknowledgment)
    } else {
        Ok(())
    }
}
