//! The questions that every dialogue answers.
ghost use Rattle.std.specs.Prelude.{◌≡◌};
ghost use Rattle.tables.specs.Table.{Table, Formed};

/// How many states and events a dialogue has.
#[derive(Clone, Copy)]
pub struct Size {
    pub states: u32,
    pub events: u8,
}

/// A dialogue. It means its table, and each answer is the table's, for every number that is asked. A state that does not exist is no start,
/// has label 0 and no next state; an event that does not exist leads nowhere. Asking alters nothing.
pub trait Dialogue {
    ghost table: { Self → Table };

    // At most 65,536 states, 64 events, labels of 16 bits, and next states that exist.
    ghost formed: { (x : Self) → Formed (table x) };

    /// How many states there are.
    fn states(&self) -> u32
        ensures { result ≡ (table self.now).states };

    /// How many events there are.
    fn events(&self) -> u8
        ensures { result ≡ (table self.now).events };

    /// Whether a state is a start.
    fn is_start(&self, state: usize) -> bool
        ensures { result ≡ (table self.now).start state };

    /// The label of a state: bit 0 is letter a, bit 15 letter p.
    fn label(&self, state: usize) -> u16
        ensures { result ≡ (table self.now).label state };

    /// Where an event leads from a state.
    fn next(&self, state: usize, event: usize) -> Option<u16>
        ensures { result ≡ (table self.now).next state event };

    /// Both counts at once.
    fn size(&self) -> Size
        ensures states { result.states ≡ (table self.now).states }
        ensures events { result.events ≡ (table self.now).events }
    {
        Size {
            states: self.states(),
            events: self.events(),
        }
    }
}

/// What is lent answers as the dialogue itself does.
impl<D: Dialogue> Dialogue for &D {
    ghost table = { λ d. D.Dialogue.table d.now };

    ghost formed = { λ d. D.Dialogue.formed d.now };

    fn states(&self) -> u32 {
        D::states(*self)
    }

    fn events(&self) -> u8 {
        D::events(*self)
    }

    fn size(&self) -> Size {
        D::size(*self)
    }

    fn is_start(&self, state: usize) -> bool {
        D::is_start(*self, state)
    }

    fn label(&self, state: usize) -> u16 {
        D::label(*self, state)
    }

    fn next(&self, state: usize, event: usize) -> Option<u16> {
        D::next(*self, state, event)
    }
}
