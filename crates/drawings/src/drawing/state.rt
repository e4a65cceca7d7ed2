//! The states of drawings.
ghost use Rattle.std.specs.Prelude.{◌≡◌, ℕ, ◌<◌, if◌then◌else◌, None, ◌==◌, slice_index_or};

/// A state of a drawing: its start mark, its label, and its next state by each event.
#[derive(Clone, Copy)]
pub(crate) struct State {
    pub(crate) start: bool,
    pub(crate) label: u16,
    pub(crate) next: [Option<u8>; 16],
}

impl State {
    /// A state with no next states.
    pub(crate) fn new(start: bool, label: u16) -> State
        ensures start { result.start ≡ start }
        ensures label { result.label ≡ label }
        ensures next { (e : ℕ) → slice_index_or result.next e None ≡ None }
    {
        State {
            start,
            label,
            next: [None; 16],
        }
    }

    /// Sets the next state by an event.
    pub(crate) fn set_next(&mut self, event: usize, to: Option<u8>)
        requires { event < 16 }
        ensures start { self.new.start ≡ self.old.start }
        ensures label { self.new.label ≡ self.old.label }
        ensures next { (e : ℕ) → slice_index_or self.new.next e None ≡ (if e == event then to else slice_index_or self.old.next e None) }
    {
        self.next[event] = to;
    }
}
