//! Answers that are not printed.
ghost use Rattle.std.specs.Prelude.{◌≡◌, not, position};
ghost use Rattle.tables.specs.Files.{told};
ghost use Rattle.printing.specs.Refusal.{exists, fault_of};

use crate::answer::Answer;
use dialogues::named::Named;
use faults::{Cause, Fault, Layer};
use unfolding::Press;

/// Refuses an answer that is not printed, whatever the list it is to be printed into.
pub(crate) fn admit<D: Named>(answer: Answer, dialogue: &D) -> Result<(), Fault>
    ensures { result ≡ told (fault_of (D.Dialogue.table dialogue.now) answer.entry) }
{
    let Answer::Broken { lead_in, entries } = answer else {
        return Ok(());
    };
    let count = entries.len();
    if lead_in >= count {
        return Err(Layer::Check.refusal(Cause::BadLeadIn, count.min(65535)));
    }
    match first_absent(entries, dialogue) {
        Some(number) => Err(Layer::Check.refusal(Cause::NoSuchArgument, number)),
        None => Ok(()),
    }
}

/// The number of the first entry that does not exist in the dialogue.
fn first_absent<D: Named>(entries: &[Press], dialogue: &D) -> Option<usize>
    ensures { result ≡ position (λ entry. not (exists (D.Dialogue.table dialogue.now) entry)) entries.now }
{
    let states = dialogue.states();
    let events = u32::from(dialogue.events());
    entries
        .iter()
        .position(|entry| !(entry.state < states && entry.event < events))
}
