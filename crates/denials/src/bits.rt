//! Sets of locations, kept as the bits of one number.
ghost use Rattle.std.specs.Prelude.{◌≡◌, ℕ, ◌<◌, ◌&&◌, ◌==◌};
ghost use Rattle.components.specs.Bits.{has};

/// Whether a location is in a set.
pub(crate) fn contains(set: u32, location: usize) -> bool
    ensures { result ≡ has set location }
{
    location < 32 && (set >> location) % 2 == 1
}

/// The set of one location.
pub(crate) fn only(location: usize) -> u32
    ensures { (l : ℕ) → l < 32 → has result l ≡ (l == location) }
{
    if location < 32 { 1 << location } else { 0 }
}

/// A set where it is wanted, and else the empty one.
pub(crate) fn select(wanted: bool, set: u32) -> u32
    ensures { (l : ℕ) → has result l ≡ (wanted && has set l) }
{
    if wanted { set } else { 0 }
}
