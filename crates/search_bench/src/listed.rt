//! Graphs whose steps lie in a list in memory.
ghost use Rattle.std.specs.Prelude.{◌≤◌};

pub mod questions;

/// Step i of node v, where i is below `degree`, leads to the node at v * degree + i of `targets`. There is no such step where that is no
/// node or the list is too short.
#[derive(Clone, Copy)]
pub struct Listed<'a> {
    pub targets: &'a [u32],
    pub nodes: u32,
    pub degree: u32,
    ghost few: { nodes ≤ 1048576 },
    ghost narrow: { degree ≤ 64 },
}
