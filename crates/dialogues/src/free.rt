//! Free dialogues.
ghost use Rattle.std.specs.Prelude.{◌≡◌};
ghost use Rattle.tables.specs.Layers.{free, free_size};
ghost use Rattle.tables.proofs.Layers.{free_formed};

use crate::dialogue::Dialogue;

/// The free dialogue of some letters: every label over them is a state and a start, and from everywhere event e leads to state e. It has no
/// names, and past six letters it is empty.
#[derive(Clone, Copy)]
pub struct Free {
    pub letters: u32,
}

impl Free {
    /// The number of states, which is that of the events: 2 to the number of letters.
    fn count(&self) -> u8
        ensures { result ≡ free_size self.now.letters }
    {
        if self.letters <= 6 {
            1 << self.letters
        } else {
            0
        }
    }
}

impl Dialogue for Free {
    ghost table = { λ f. free f.letters };

    ghost formed = { λ f. free_formed f.letters };

    fn states(&self) -> u32 {
        self.count() as u32
    }

    fn events(&self) -> u8 {
        self.count()
    }

    fn is_start(&self, state: usize) -> bool {
        state < self.count() as usize
    }

    fn label(&self, state: usize) -> u16 {
        if self.is_start(state) {
            state as u16
        } else {
            0
        }
    }

    fn next(&self, state: usize, event: usize) -> Option<u16> {
        let count = self.count() as usize;
        (state < count && event < count).then(|| event as u16)
    }
}
