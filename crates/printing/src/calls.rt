//! The call.
ghost use Rattle.std.specs.Prelude.{◌≡◌, length, nat_le};
ghost use Rattle.printing.specs.Printed.{print_answer, print_list};
ghost use Rattle.printing.specs.Refusal.{fault_of};
ghost use Rattle.printing.specs.Text.{text};

use crate::answer::{Answer, entries_of, first_line};
use crate::refusal::admit;
use crate::writing::{entries_fit, put_entries, put_line};
use dialogues::named::Named;
use faults::{Cause, Fault, Layer};

/// Prints an answer into the front of a lent list, and answers the number of bytes. Refused are a lead-in that leaves no loop, then an entry
/// that does not exist in the dialogue, and then a list that is too short; nothing is written then.
pub fn print<D: Named>(answer: Answer, dialogue: &D, out: &mut [u8]) -> Result<usize, Fault>
    ensures answer { result ≡ print_answer (fault_of (D.Dialogue.table dialogue.now) answer.entry) (text (D.Named.names dialogue.now) answer.entry) out.old }
    ensures list { out.new ≡ print_list (fault_of (D.Dialogue.table dialogue.now) answer.entry) (text (D.Named.names dialogue.now) answer.entry) out.old }
{
    admit(answer, dialogue)?;
    if !fits(answer, dialogue, out.len()) {
        return Err(Layer::Check.refusal(Cause::ListTooShort, 1));
    }
    let end = put_line(&first_line(answer), out, 0);
    Ok(put_entries(entries_of(answer), dialogue, out, end))
}

/// Whether the text of an answer needs no more than so many bytes.
fn fits<D: Named>(answer: Answer, dialogue: &D, room: usize) -> bool
    ensures { result ≡ nat_le (length (text (D.Named.names dialogue.now) answer.entry)) room }
{
    let count = first_line(answer).len();
    count <= room && entries_fit(entries_of(answer), dialogue, room - count)
}
