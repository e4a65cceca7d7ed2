//! The calls that change a drawing.
ghost use Rattle.std.specs.Prelude.{◌≡◌, if◌then◌else◌, Ok, ◌==◌, nat_le};
ghost use Rattle.faults.specs.declared.Cause.TheVariants.{NoSuchArgument};
ghost use Rattle.tables.specs.Drawings.{refused, blank, add_answer, after_add, relabel_answer, after_relabel, join_answer, after_join, cut_answer, after_cut};
ghost use Rattle.tables.specs.Takes.{take_answer, after_take};
ghost use Rattle.drawings.specs.Drawn.{drawn};

use crate::checks::read_file;
use crate::drawing::copies::drawing_of;
use crate::drawing::state::State;
use crate::drawing::{Drawing, EVENTS, ROOM};
use crate::file::File;
use faults::{Cause, Fault, Layer};

/// The start mark that an argument says, if it is 0 or 1.
fn start_mark(start: usize, argument: usize) -> Result<bool, Fault>
    ensures { result ≡ (if nat_le start 1 then Ok (start == 1) else refused NoSuchArgument argument) }
{
    match start {
        0 => Ok(false),
        1 => Ok(true),
        _ => Err(Layer::Drawing.refusal(Cause::NoSuchArgument, argument)),
    }
}

impl Drawing {
    /// A drawing of no states.
    pub fn new() -> Drawing
        ensures { drawn result ≡ blank }
    {
        Drawing {
            count: 0,
            states: [State::new(false, 0); 64],
        }
    }

    /// Adds a state with a label and a start mark, 0 or 1, and answers its number.
    pub fn add(&mut self, label: u16, start: usize) -> Result<u8, Fault>
        ensures answer { result ≡ add_answer (drawn self.old) start }
        ensures leaves { drawn self.new ≡ after_add (drawn self.old) label start }
    {
        let start = start_mark(start, 2)?;
        let state = self.count;
        if state >= ROOM {
            return Err(Layer::Drawing.refusal(Cause::DrawingFull, 64));
        }
        self.states[state] = State::new(start, label);
        self.count = state + 1;
        Ok(state as u8)
    }

    /// Gives a state a new label and start mark.
    pub fn relabel(&mut self, state: usize, label: u16, start: usize) -> Result<(), Fault>
        ensures answer { result ≡ relabel_answer (drawn self.old) state start }
        ensures leaves { drawn self.new ≡ after_relabel (drawn self.old) state label start }
    {
        if state >= self.count {
            return Err(Layer::Drawing.refusal(Cause::NoSuchArgument, 1));
        }
        let start = start_mark(start, 3)?;
        let next = self.states[state].next;
        self.states[state] = State { start, label, next };
        Ok(())
    }

    /// Sets the next state of a state and event that have none.
    pub fn join(&mut self, from: usize, event: usize, to: usize) -> Result<(), Fault>
        ensures answer { result ≡ join_answer (drawn self.old) from event to }
        ensures leaves { drawn self.new ≡ after_join (drawn self.old) from event to }
    {
        if from >= self.count {
            return Err(Layer::Drawing.refusal(Cause::NoSuchArgument, 1));
        }
        if event >= EVENTS {
            return Err(Layer::Drawing.refusal(Cause::NoSuchArgument, 2));
        }
        if to >= self.count {
            return Err(Layer::Drawing.refusal(Cause::NoSuchArgument, 3));
        }
        let old = self.states[from].next[event];
        if old.is_some() {
            return Err(Layer::Drawing.refusal(Cause::AlreadyJoined, from));
        }
        self.states[from].set_next(event, Some(to as u8));
        Ok(())
    }

    /// Removes the next state of a state and event.
    pub fn cut(&mut self, from: usize, event: usize) -> Result<(), Fault>
        ensures answer { result ≡ cut_answer (drawn self.old) from event }
        ensures leaves { drawn self.new ≡ after_cut (drawn self.old) from event }
    {
        if from >= self.count {
            return Err(Layer::Drawing.refusal(Cause::NoSuchArgument, 1));
        }
        if event >= EVENTS {
            return Err(Layer::Drawing.refusal(Cause::NoSuchArgument, 2));
        }
        let old = self.states[from].next[event];
        if old.is_none() {
            return Err(Layer::Drawing.refusal(Cause::NotJoined, from));
        }
        self.states[from].set_next(event, None);
        Ok(())
    }

    /// Leaves no states.
    pub fn wipe(&mut self)
        ensures { drawn self.new ≡ blank }
    {
        *self = Drawing::new();
    }

    /// Takes a file's table in place of the drawing's.
    pub fn take(&mut self, bytes: &[u8]) -> Result<(), Fault>
        ensures answer { result ≡ take_answer bytes.now }
        ensures leaves { drawn self.new ≡ after_take (drawn self.old) bytes.now }
    {
        let outline = read_file(bytes)?;
        if outline.states > ROOM || outline.events != EVENTS {
            return Err(Layer::Drawing.refusal(Cause::DrawingFull, outline.states));
        }
        *self = drawing_of(&File::open(bytes, outline));
        Ok(())
    }
}
