//! Drawings.
ghost use Rattle.std.specs.Prelude.{ℕ, ◌<◌, ◌≤◌};
ghost use Rattle.tables.specs.Cells.{Within};
ghost use Rattle.drawings.specs.Rows.{label_at, next_at};

use crate::drawing::state::State;

mod calls;
mod copies;
pub mod names;
pub mod questions;
mod state;
mod writes;

/// How many states a drawing has room for.
const ROOM: usize = 64;

/// How many events every drawing has.
const EVENTS: usize = 16;

/// A dialogue that is drawn call by call: up to 64 states, always 16 events. A refused call alters nothing.
#[derive(Clone, Copy)]
pub struct Drawing {
    count: usize,
    states: [State; 64],
    ghost few: { count ≤ 64 },
    ghost fit: { (s : ℕ) → label_at states s < 65536 },
    ghost within: { Within count (next_at states) },
}
