//! Piles.
use dialogues::bar::Bar;
use dialogues::free::Free;
use dialogues::pair::Pair;
use drawings::drawing::Drawing;
use drawings::stored::Stored;

/// A dialogue of any make.
#[derive(Drop)]
pub enum Pile {
    Drawn(Box<Drawing>),
    Filed(Stored),
    Open(Free),
    Pair(Box<Pair<Pile, Pile>>),
    Bar(Box<Bar<Pile>>),
}
