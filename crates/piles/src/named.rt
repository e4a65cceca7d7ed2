//! Piles whose events have names.
ghost use Rattle.std.specs.Prelude.{◌≡◌, true};
ghost use Rattle.piles.specs.Names.{all_named};

use crate::pile::Pile;

pub mod questions;

/// A pile of drawings and files only, so that each event has a name.
#[derive(Drop)]
pub struct NamedPile {
    pile: Pile,
    ghost named: { all_named pile ≡ true },
}
