//! Lists of drawing calls.
ghost use Rattle.std.specs.Prelude.{◌≡◌};
ghost use Rattle.drawings.specs.Calls.{after_call, spelled};
ghost use Rattle.drawings.specs.Drawn.{drawn};

use crate::drawing::Drawing;
use faults::Fault;

/// A call that changes a drawing.
#[derive(Clone, Copy)]
pub enum Call<'a> {
    Add(u16, usize),
    Relabel(usize, u16, usize),
    Join(usize, usize, usize),
    Cut(usize, usize),
    Wipe,
    Take(&'a [u8]),
}

impl Drawing {
    /// Makes one call. A call that is refused alters nothing.
    fn apply(&mut self, call: Call) -> Result<(), Fault>
        ensures { drawn self.new ≡ after_call (drawn self.old) call.entry }
    {
        match call {
            Call::Add(label, start) => {
                self.add(label, start)?;
            }
            Call::Relabel(state, label, start) => self.relabel(state, label, start)?,
            Call::Join(from, event, to) => self.join(from, event, to)?,
            Call::Cut(from, event) => self.cut(from, event)?,
            Call::Wipe => self.wipe(),
            Call::Take(bytes) => self.take(bytes)?,
        }
        Ok(())
    }

    /// The drawing that a list of calls makes of a new one.
    pub fn from_calls(calls: &[Call]) -> Drawing
        ensures { drawn result ≡ spelled calls.now }
    {
        let mut drawing = Drawing::new();
        for call in calls {
            let _ = drawing.apply(*call);
        }
        drawing
    }
}
