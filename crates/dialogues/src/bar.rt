//! Bars.
ghost use Rattle.tables.specs.Layers.{barred};
ghost use Rattle.tables.proofs.Layers.{barred_formed};

use crate::dialogue::{Dialogue, Size};

/// The dialogue below with one event barred: that event leads nowhere, and all else is as below. A barred event keeps its number.
#[derive(Clone, Copy)]
pub struct Bar<D> {
    pub event: usize,
    pub below: D,
}

impl<D: Dialogue> Dialogue for Bar<D> {
    ghost table = { λ b. barred b.event (D.Dialogue.table b.below) };

    ghost formed = { λ b. barred_formed b.event (D.Dialogue.table b.below) (D.Dialogue.formed b.below) };

    fn states(&self) -> u32 {
        self.below.states()
    }

    fn events(&self) -> u8 {
        self.below.events()
    }

    fn size(&self) -> Size {
        self.below.size()
    }

    fn is_start(&self, state: usize) -> bool {
        self.below.is_start(state)
    }

    fn label(&self, state: usize) -> u16 {
        self.below.label(state)
    }

    fn next(&self, state: usize, event: usize) -> Option<u16> {
        if event == self.event {
            None
        } else {
            self.below.next(state, event)
        }
    }
}
