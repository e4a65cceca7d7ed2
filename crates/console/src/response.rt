//! The whole response.
ghost use Rattle.std.specs.Prelude.{◌≡◌, length, take, IfOk};
ghost use Rattle.printing.specs.Text.{text as text_of};
ghost use Rattle.printing.specs.declared.answer.Answer.TheVariants.{Refused};
ghost use Rattle.search.specs.Lists.{lengths};
ghost use Rattle.console.specs.Answers.{Answers, Responds};
ghost use Rattle.console.specs.Lines.{lines_of};
ghost use Rattle.console.specs.Rooms.{Brief, Room};

use crate::answers::{answer_line, put_refusal};
use crate::lines::Lines;
use dialogues::bar::Bar;
use dialogues::named::Named;
use drawings::checks::check_file;
use drawings::file::File;
use faults::Fault;
use search::{Frame, Lists, Root, Slot};
use std::alloc::{AllocError, Global};
use unfolding::Press;

/// How many bytes of the file, and of the input, count.
const MOST: usize = 4096;

/// How many nodes are served.
const NODES: usize = 512;

/// The most entries of an answer: up to there, a rule has at most nine locations.
const PRESSES: usize = 5120;

/// The most bytes of an answer's text: 24 for its first line and 15 for each entry.
const TEXT: usize = 76824;

/// The first bytes, as many as count.
fn front(bytes: &[u8]) -> &[u8]
    ensures { result.now ≡ take 4096 bytes.now }
{
    &bytes[..bytes.len().min(MOST)]
}

/// The line of a refusal.
fn refusal_text<D: Named>(heap: Global, dialogue: &D, fault: Fault) -> Result<Vec<u8>, AllocError>
    ensures { IfOk result (λ out. out.items ≡ text_of (D.Named.names dialogue.now) (Refused fault)) }
{
    let mut text = [0; 26];
    let count = put_refusal(fault, dialogue, &mut text);
    let mut out = Vec::new(heap);
    out.extend_from_slice(&text[..count])?;
    Ok(out)
}

/// The answers to the lines of an input, one behind the other.
fn answer_lines<D: Named>(
    heap: Global,
    dialogue: &D,
    input: &[u8],
    lists: Lists,
    presses: &mut [Press],
    text: &mut [u8],
) -> Result<Vec<u8>, AllocError>
    requires brief { Brief (D.Named.names dialogue.now) }
    requires room { Room (lengths lists) (length presses.old) (length text.old) }
    ensures { IfOk result (λ out. Answers (D.Dialogue.table dialogue.now) (D.Named.names dialogue.now) (lines_of input.now) out.items) }
{
    let Lists {
        marks,
        slots,
        trail,
        roots,
    } = lists;
    let mut out = Vec::new(heap);
    for line in (Lines { rest: input }) {
        let lent = Lists {
            marks: &mut *marks,
            slots: &mut *slots,
            trail: &mut *trail,
            roots: &mut *roots,
        };
        let count = answer_line(dialogue, line, lent, presses, text);
        out.extend_from_slice(&text[..count])?;
    }
    Ok(out)
}

/// Makes the lists, and answers the lines of an input.
fn respond_to<D: Named>(heap: Global, dialogue: &D, input: &[u8]) -> Result<Vec<u8>, AllocError>
    requires { Brief (D.Named.names dialogue.now) }
    ensures { IfOk result (λ out. Answers (D.Dialogue.table dialogue.now) (D.Named.names dialogue.now) (lines_of input.now) out.items) }
{
    let mut marks = vec![in heap; 0; NODES]?;
    let mut slots = vec![in heap; Slot::default(); NODES]?;
    let mut trail = vec![in heap; Frame::default(); NODES]?;
    let mut roots = vec![in heap; Root::default(); NODES]?;
    let mut presses = vec![in heap; Press::default(); PRESSES]?;
    let mut text = vec![in heap; 0; TEXT]?;
    let lists = Lists {
        marks: marks.as_mut_slice(),
        slots: slots.as_mut_slice(),
        trail: trail.as_mut_slice(),
        roots: roots.as_mut_slice(),
    };
    answer_lines(
        heap,
        dialogue,
        input,
        lists,
        presses.as_mut_slice(),
        text.as_mut_slice(),
    )
}

/// What is printed for the bytes of a dialogue file and of an input: of a bad file its fault; else the answer to each line, read as a rule and
/// checked against the file's dialogue with event 0 barred. Only the first 4,096 bytes of each count.
pub fn respond(heap: Global, file: &[u8], input: &[u8]) -> Result<Vec<u8>, AllocError>
    ensures { IfOk result (λ out. Responds file.now input.now out.items) }
{
    let bytes = front(file);
    let dialogue = Bar {
        event: 0,
        below: File::new(bytes),
    };
    match check_file(bytes) {
        Ok(()) => respond_to(heap, &dialogue, front(input)),
        Err(fault) => refusal_text(heap, &dialogue, fault),
    }
}
