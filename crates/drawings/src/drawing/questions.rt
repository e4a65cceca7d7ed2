//! A drawing is a dialogue.
ghost use Rattle.tables.proofs.Cells.{cells_formed};
ghost use Rattle.drawings.specs.Drawn.{drawn};
ghost use Rattle.drawings.specs.Rows.{start_at, label_at, next_at};

use crate::drawing::{Drawing, EVENTS};
use dialogues::dialogue::Dialogue;

impl Dialogue for Drawing {
    ghost table = { drawn };

    ghost formed = { λ d. cells_formed d.count (start_at d.states) (label_at d.states) (next_at d.states) d.few d.fit d.within };

    fn states(&self) -> u32 {
        self.count as u32
    }

    fn events(&self) -> u8 {
        16
    }

    fn is_start(&self, state: usize) -> bool {
        state < self.count && self.states[state].start
    }

    fn label(&self, state: usize) -> u16 {
        if state < self.count {
            self.states[state].label
        } else {
            0
        }
    }

    fn next(&self, state: usize, event: usize) -> Option<u16> {
        if state >= self.count || event >= EVENTS {
            return None;
        }
        self.states[state].next[event].map(u16::from)
    }
}
