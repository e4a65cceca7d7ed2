//! Parts of a rule's table with a sign.
ghost use Rattle.std.specs.Prelude.{◌≡◌};
ghost use Rattle.denials.specs.Signs.{owns};

/// A part of a rule's table, as it stands (`sign` true) or negated.
#[derive(Clone, Copy, Default)]
pub struct Signed {
    pub(crate) index: usize,
    pub(crate) sign: bool,
}

/// What a signed part is when negation is pushed down: its operands are signed parts again.
#[derive(Clone, Copy)]
pub(crate) enum Pushed {
    Fixed(bool),
    Literal(bool, u8),
    Same(Signed),
    Both(Signed, Signed),
    Either(Signed, Signed),
    Next(usize, Signed),
    Finally(usize, Signed),
    Globally(usize, Signed),
    Until(usize, Signed, Signed),
    Release(usize, Signed, Signed),
}

impl Pushed {
    /// Whether it is the temporal part of a location.
    pub(crate) fn is_own(self, location: usize) -> bool
        ensures { result ≡ owns self location }
    {
        match self {
            Pushed::Fixed(_)
            | Pushed::Literal(_, _)
            | Pushed::Same(_)
            | Pushed::Both(_, _)
            | Pushed::Either(_, _) => false,
            Pushed::Next(own, _)
            | Pushed::Finally(own, _)
            | Pushed::Globally(own, _)
            | Pushed::Until(own, _, _)
            | Pushed::Release(own, _, _) => own == location,
        }
    }
}

/// What is due for a location: a signed part; and whether the location is a promise.
#[derive(Clone, Copy)]
pub(crate) struct Due {
    pub(crate) part: Signed,
    pub(crate) promise: bool,
}

/// What a location owes: a signed part, and the set of the locations that it mentions.
#[derive(Clone, Copy, Default)]
pub struct Debt {
    pub(crate) part: Signed,
    pub(crate) mentions: u32,
}
