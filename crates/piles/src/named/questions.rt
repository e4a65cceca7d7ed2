//! A named pile is a named dialogue.
ghost use Rattle.std.specs.Prelude.{◌≡◌, true, is_some, is_ok, MatchResult, nat_lt};
ghost use Rattle.dialogues.specs.Names.{spelled};
ghost use Rattle.piles.specs.Meaning.{pile_table, pile_formed};
ghost use Rattle.piles.specs.Names.{all_named, pile_names};

use crate::named::NamedPile;
use crate::pile::Pile;
use dialogues::dialogue::{Dialogue, Size};
use dialogues::name::Name;
use dialogues::named::Named;
use dialogues::pair::Side;

impl Pile {
    /// Whether each event has a name.
    fn is_named(&self) -> bool
        ensures { result ≡ all_named self.now }
    {
        match self {
            Pile::Drawn(_) | Pile::Filed(_) => true,
            Pile::Open(_) => false,
            Pile::Pair(pair) => pair.left.is_named() && pair.right.is_named(),
            Pile::Bar(bar) => bar.below.is_named(),
        }
    }

    /// The name of an event, where there is one.
    fn find_name(&self, event: usize) -> Option<Name>
        ensures exists { all_named self.now ≡ true → is_some result ≡ nat_lt event (pile_table self.now).events }
        ensures spells { spelled result ≡ pile_names self.now event }
    {
        match self {
            Pile::Drawn(drawing) => drawing.name(event),
            Pile::Filed(file) => file.name(event),
            Pile::Open(_) => None,
            Pile::Pair(pair) => match pair.side_of(event)? {
                Side::Left(left) => pair.left.find_name(left),
                Side::Right(right) => pair.right.find_name(right),
            },
            Pile::Bar(bar) => bar.below.find_name(event),
        }
    }
}

impl NamedPile {
    /// The pile with its names, or the pile back where something in it has none.
    pub fn new(pile: Pile) -> Result<NamedPile, Pile>
        ensures test { is_ok result ≡ all_named pile }
        ensures same { MatchResult result (λ n. n.pile ≡ pile) (λ p. p ≡ pile) }
    {
        if pile.is_named() {
            Ok(NamedPile { pile })
        } else {
            Err(pile)
        }
    }

    /// The pile itself, lent.
    pub fn as_pile(&self) -> &Pile
        ensures { result.now ≡ self.now.pile }
    {
        &self.pile
    }

    /// The pile itself.
    pub fn into_pile(self) -> Pile
        ensures { result ≡ self.pile }
    {
        let NamedPile { pile } = self;
        pile
    }
}

impl Dialogue for NamedPile {
    ghost table = { λ n. pile_table n.pile };

    ghost formed = { λ n. pile_formed n.pile };

    fn states(&self) -> u32 {
        self.pile.states()
    }

    fn events(&self) -> u8 {
        self.pile.events()
    }

    fn size(&self) -> Size {
        self.pile.size()
    }

    fn is_start(&self, state: usize) -> bool {
        self.pile.is_start(state)
    }

    fn label(&self, state: usize) -> u16 {
        self.pile.label(state)
    }

    fn next(&self, state: usize, event: usize) -> Option<u16> {
        self.pile.next(state, event)
    }
}

impl Named for NamedPile {
    ghost names = { λ n. pile_names n.pile };

    fn name(&self, event: usize) -> Option<Name> {
        self.pile.find_name(event)
    }
}
