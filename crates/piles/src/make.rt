//! Building piles.
ghost use Rattle.std.specs.Prelude.{◌≡◌, IfOk};
ghost use Rattle.tables.specs.Files.{file_table};
ghost use Rattle.tables.specs.Layers.{free, pair as paired, barred};
ghost use Rattle.drawings.specs.Drawn.{drawn as table_of};
ghost use Rattle.piles.specs.Meaning.{pile_table};

use crate::pile::Pile;
use dialogues::bar::Bar;
use dialogues::free::Free;
use dialogues::pair::Pair;
use drawings::drawing::Drawing;
use drawings::stored::Stored;
use std::alloc::{AllocError, Global};

impl Pile {
    /// A drawing.
    pub fn drawn(heap: Global, drawing: Drawing) -> Result<Pile, AllocError>
        ensures { IfOk result (λ p. pile_table p ≡ table_of drawing) }
    {
        Ok(Pile::Drawn(Box::new(heap, drawing)?))
    }

    /// A file.
    pub fn filed(bytes: Vec<u8>) -> Pile
        ensures { pile_table result ≡ file_table bytes.items }
    {
        Pile::Filed(Stored::new(bytes))
    }

    /// A free dialogue.
    pub fn open(letters: u32) -> Pile
        ensures { pile_table result ≡ free letters }
    {
        Pile::Open(Free { letters })
    }

    /// A pair of two piles.
    pub fn pair(heap: Global, left: Pile, right: Pile) -> Result<Pile, AllocError>
        ensures { IfOk result (λ p. pile_table p ≡ paired (pile_table left) (pile_table right)) }
    {
        Ok(Pile::Pair(Box::new(heap, Pair { left, right })?))
    }

    /// A bar of an event over a pile.
    pub fn bar(heap: Global, event: usize, below: Pile) -> Result<Pile, AllocError>
        ensures { IfOk result (λ p. pile_table p ≡ barred event (pile_table below)) }
    {
        Ok(Pile::Bar(Box::new(heap, Bar { event, below })?))
    }
}
