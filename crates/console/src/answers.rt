//! The answer to a line, as text.
ghost use Rattle.std.specs.Prelude.{◌≡◌, ◌≤◌, length, take, None};
ghost use Rattle.printing.specs.declared.answer.Answer.TheVariants.{Refused};
ghost use Rattle.printing.specs.Refusal.{fault_of};
ghost use Rattle.printing.specs.Text.{text as text_of};
ghost use Rattle.search.specs.Lists.{lengths};
ghost use Rattle.console.specs.Answers.{AnswersLine};
ghost use Rattle.console.specs.Rooms.{Brief, Room, Held, Tells};

use checker::check;
use dialogues::named::Named;
use faults::Fault;
use printing::{Answer, print};
use rules::read;
use search::{Lasso, Lists};
use unfolding::Press;

/// Prints an answer into a list that has room for it.
pub(crate) fn put_answer<D: Named>(answer: Answer, dialogue: &D, out: &mut [u8]) -> usize
    requires sound { fault_of (D.Dialogue.table dialogue.now) answer ≡ None }
    requires room { length (text_of (D.Named.names dialogue.now) answer) ≤ length out.old }
    ensures within { result ≤ length out.old }
    ensures bytes { take result out.new ≡ text_of (D.Named.names dialogue.now) answer.entry }
{
    print(answer, dialogue, out).unwrap()
}

/// Prints a refusal into a list that has room for it.
pub(crate) fn put_refusal<D: Named>(fault: Fault, dialogue: &D, out: &mut [u8]) -> usize
    requires { 26 ≤ length out.old }
    ensures within { result ≤ length out.old }
    ensures bytes { take result out.new ≡ text_of (D.Named.names dialogue.now) (Refused fault) }
{
    put_answer(Answer::Refused(fault), dialogue, out)
}

/// What a check found, as an answer, with the entries that break the rule.
pub(crate) fn answer_of<'a>(broken: Option<Lasso>, presses: &'a [Press]) -> Answer<'a>
    requires { Held broken (length presses.now) }
    ensures { Tells broken presses.now result }
{
    match broken {
        None => Answer::Holds,
        Some(lasso) => Answer::Broken {
            lead_in: lasso.lead,
            entries: &presses[..lasso.len],
        },
    }
}

/// Reads a line as a rule, checks it and prints the answer.
pub(crate) fn answer_line<D: Named>(
    dialogue: &D,
    line: &[u8],
    lists: Lists,
    presses: &mut [Press],
    out: &mut [u8],
) -> usize
    requires brief { Brief (D.Named.names dialogue.now) }
    requires room { Room (lengths lists) (length presses.old) (length out.old) }
    ensures within { result ≤ length out.old }
    ensures text { AnswersLine (D.Dialogue.table dialogue.now) (D.Named.names dialogue.now) line.now (take result out.new) }
{
    let rule = match read(line) {
        Ok(rule) => rule,
        Err(fault) => return put_refusal(fault, dialogue, out),
    };
    match check(dialogue, &rule, lists, presses) {
        Ok(checked) => put_answer(answer_of(checked.broken, presses), dialogue, out),
        Err(fault) => put_refusal(fault, dialogue, out),
    }
}
