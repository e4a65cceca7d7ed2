//! Answers of a check, and the parts of their texts.
ghost use Rattle.std.specs.Prelude.{◌≡◌};
ghost use Rattle.printing.specs.Text.{first_line, entries_of, entry_line};

use crate::line::{Line, letter_line, number_line, push_bytes, push_decimal};
use dialogues::named::Named;
use faults::Fault;
use unfolding::Press;

/// What a check of a rule comes to, for people to read.
#[derive(Clone, Copy)]
pub enum Answer<'a> {
    /// The rule holds.
    Holds,
    /// The check, or the reading of the rule, was refused.
    Refused(Fault),
    /// These entries, a lead-in of so many and then a loop, break the rule.
    Broken {
        lead_in: usize,
        entries: &'a [Press],
    },
}

/// The line that every answer begins with.
pub(crate) fn first_line(answer: Answer) -> Line
    ensures { result.items ≡ first_line answer.entry }
{
    match answer {
        Answer::Holds => letter_line(b'H'),
        Answer::Refused(fault) => number_line(b'R', fault.cause.number() as usize, fault.place),
        Answer::Broken { lead_in, entries } => {
            number_line(b'B', lead_in, entries.len().saturating_sub(lead_in))
        }
    }
}

/// The entries of an answer; only a broken one has any.
pub(crate) fn entries_of<'a>(answer: Answer<'a>) -> &'a [Press]
    ensures { result.now ≡ entries_of answer.entry }
{
    match answer {
        Answer::Broken { entries, .. } => entries,
        _ => &[],
    }
}

/// The line of an entry.
pub(crate) fn entry_line<D: Named>(entry: Press, dialogue: &D) -> Line
    ensures { result.items ≡ entry_line (D.Named.names dialogue.now) entry }
{
    let mut line = Line::new();
    push_decimal(&mut line, entry.state as usize);
    line.push(b' ');
    if let Some(name) = dialogue.name(entry.event as usize) {
        push_bytes(&mut line, name.as_bytes());
    }
    line.push(b'\n');
    line
}
