//! A pile is a dialogue.
ghost use Rattle.std.specs.Prelude.{◌≡◌};
ghost use Rattle.piles.specs.Meaning.{pile_table, pile_formed};

use crate::pile::Pile;
use dialogues::dialogue::{Dialogue, Size};

impl Dialogue for Pile {
    ghost table = { pile_table };

    ghost formed = { pile_formed };

    #[cycle(pile)]
    fn states(&self) -> u32 {
        self.size().states
    }

    #[cycle(pile)]
    fn events(&self) -> u8 {
        self.size().events
    }

    #[cycle(pile)]
    fn size(&self) -> Size {
        match self {
            Pile::Drawn(drawing) => drawing.size(),
            Pile::Filed(file) => file.size(),
            Pile::Open(free) => free.size(),
            Pile::Pair(pair) => pair.size(),
            Pile::Bar(bar) => bar.size(),
        }
    }

    #[cycle(pile)]
    fn is_start(&self, state: usize) -> bool {
        match self {
            Pile::Drawn(drawing) => drawing.is_start(state),
            Pile::Filed(file) => file.is_start(state),
            Pile::Open(free) => free.is_start(state),
            Pile::Pair(pair) => pair.is_start(state),
            Pile::Bar(bar) => bar.is_start(state),
        }
    }

    #[cycle(pile)]
    fn label(&self, state: usize) -> u16 {
        match self {
            Pile::Drawn(drawing) => drawing.label(state),
            Pile::Filed(file) => file.label(state),
            Pile::Open(free) => free.label(state),
            Pile::Pair(pair) => pair.label(state),
            Pile::Bar(bar) => bar.label(state),
        }
    }

    #[cycle(pile)]
    fn next(&self, state: usize, event: usize) -> Option<u16> {
        match self {
            Pile::Drawn(drawing) => drawing.next(state, event),
            Pile::Filed(file) => file.next(state, event),
            Pile::Open(free) => free.next(state, event),
            Pile::Pair(pair) => pair.next(state, event),
            Pile::Bar(bar) => bar.next(state, event),
        }
    }
}
