//! Dialogue files as dialogues.
ghost use Rattle.std.specs.Prelude.{◌≡◌, ◌≤◌, ⊤};
ghost use Rattle.tables.specs.Files.{Room, Exist, Ordered};

use crate::checks::Outline;
use std::alloc::AllocError;
use std::convert::AsSlice;

pub mod make;
pub mod names;
pub mod questions;

/// A dialogue over the bytes of a file, which are lent or owned. A bad file is the empty dialogue.
#[derive(Drop)]
pub struct File<B: AsSlice<u8>> {
    bytes: B,
    outline: Outline,
    ghost few: { outline.states ≤ 4096 },
    ghost most: { outline.events ≤ 64 },
    ghost room: { Room (B.items bytes) outline.states outline.presses },
    ghost exist: { Exist (B.items bytes) outline.states outline.events outline.presses },
    ghost ordered: { Ordered (B.items bytes) outline.states outline.presses },
}

impl<B: AsSlice<u8> + Copy> Clone for File<B> {
    ghost is_clone = { λ x y. y ≡ x };

    ghost is_infallible = { λ _. ⊤ };

    fn clone(&self) -> Result<Self, AllocError> {
        Ok(*self)
    }
}

impl<B: AsSlice<u8> + Copy> Copy for File<B> {}
