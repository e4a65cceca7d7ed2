//! A file is a dialogue.
ghost use Rattle.std.specs.Prelude.{◌+◌, ◌*◌, ◌<◌};
ghost use Rattle.tables.specs.Files.{Place};
ghost use Rattle.tables.proofs.Filed.{filed_formed};
ghost use Rattle.drawings.specs.Opened.{opened};

use crate::checks::{PRESS_SIZE, STATE_SIZE, press_key, word};
use crate::file::File;
use dialogues::dialogue::Dialogue;
use std::convert::AsSlice;

impl<B: AsSlice<u8>> File<B> {
    /// Finds the press of a state and an event, by halving.
    fn find(&self, state: usize, event: usize) -> Option<usize>
        requires state { state < self.now.outline.states }
        requires event { event < self.now.outline.events }
        ensures { Place (B.items self.now.bytes) self.now.outline.states self.now.outline.presses (state * 64 + event) result }
    {
        let key = state * 64 + event;
        let bytes = self.bytes.as_slice();
        let first = STATE_SIZE + STATE_SIZE * self.outline.states;
        let records = &bytes[first..first + PRESS_SIZE * self.outline.presses];
        let (presses, _) = records.as_chunks::<PRESS_SIZE>();
        presses
            .binary_search_by_key(&key, |press| press_key(press, 0))
            .ok()
    }
}

impl<B: AsSlice<u8>> Dialogue for File<B> {
    ghost table = { opened };

    ghost formed = { λ f. filed_formed (B.items f.bytes) f.outline.states f.outline.events f.outline.presses f.few f.most f.exist };

    fn states(&self) -> u32 {
        self.outline.states as u32
    }

    fn events(&self) -> u8 {
        self.outline.events as u8
    }

    fn is_start(&self, state: usize) -> bool {
        state < self.outline.states
            && self.bytes.as_slice()[STATE_SIZE + STATE_SIZE * state + 4] == 1
    }

    fn label(&self, state: usize) -> u16 {
        if state < self.outline.states {
            word(self.bytes.as_slice(), STATE_SIZE + STATE_SIZE * state + 2) as u16
        } else {
            0
        }
    }

    fn next(&self, state: usize, event: usize) -> Option<u16> {
        if state >= self.outline.states || event >= self.outline.events {
            return None;
        }
        let k = self.find(state, event)?;
        let bytes = self.bytes.as_slice();
        let at = STATE_SIZE + STATE_SIZE * self.outline.states + PRESS_SIZE * k;
        Some(word(bytes, at + 5) as u16)
    }
}
