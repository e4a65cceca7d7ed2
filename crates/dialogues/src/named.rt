//! Dialogues whose events have names.
ghost use Rattle.std.specs.Prelude.{◌≡◌, ℕ, List, is_some, nat_lt};
ghost use Rattle.tables.specs.Layers.{pair_names};
ghost use Rattle.dialogues.specs.Names.{spelled};

use crate::bar::Bar;
use crate::dialogue::Dialogue;
use crate::name::Name;
use crate::pair::{Pair, Side};

/// A dialogue that names each of its events in 1 to 8 bytes. An event that does not exist has no name.
pub trait Named: Dialogue {
    // What the name of an event spells, and nothing where there is no name.
    ghost names: { Self → ℕ → List ℕ };

    /// The name of an event.
    fn name(&self, event: usize) -> Option<Name>
        ensures exists { is_some result ≡ nat_lt event (Self.Dialogue.table self.now).events }
        ensures spells { spelled result ≡ names self.now event };
}

/// What is lent has the names of the dialogue itself.
impl<D: Named> Named for &D {
    ghost names = { λ d. D.Named.names d.now };

    fn name(&self, event: usize) -> Option<Name> {
        D::name(*self, event)
    }
}

/// A bar leaves every name as it is below, also that of the barred event.
impl<D: Named> Named for Bar<D> {
    ghost names = { λ b. D.Named.names b.below };

    fn name(&self, event: usize) -> Option<Name> {
        self.below.name(event)
    }
}

/// In a pair each side's events have their names there.
impl<L: Named, R: Named> Named for Pair<L, R> {
    ghost names = { λ p e. pair_names (L.Dialogue.table p.left) (R.Dialogue.table p.right) (L.Named.names p.left) (R.Named.names p.right) e };

    fn name(&self, event: usize) -> Option<Name> {
        match self.side_of(event)? {
            Side::Left(left) => self.left.name(left),
            Side::Right(right) => self.right.name(right),
        }
    }
}
