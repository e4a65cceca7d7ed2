//! Copying a dialogue into a drawing.
ghost use Rattle.std.specs.Prelude.{◌≡◌, ℕ, ◌<◌, ◌≤◌};
ghost use Rattle.drawings.specs.Drawn.{drawn};
ghost use Rattle.drawings.specs.Rows.{state_at, IsCopy};

use crate::drawing::state::State;
use crate::drawing::{Drawing, ROOM};
use dialogues::dialogue::Dialogue;

/// The next state of one state and event, in a dialogue of at most 64 states.
fn next_of<D: Dialogue>(dialogue: &D, state: usize, event: usize) -> Option<u8>
    requires { (D.Dialogue.table dialogue.now).states ≤ 64 }
    ensures { result ≡ (D.Dialogue.table dialogue.now).next state event }
{
    dialogue.next(state, event).map(|to| to as u8)
}

/// A state of a dialogue of at most 64 states.
fn state_of<D: Dialogue>(dialogue: &D, state: usize) -> State
    requires { (D.Dialogue.table dialogue.now).states ≤ 64 }
    ensures { IsCopy (D.Dialogue.table dialogue.now) state result }
{
    State {
        start: dialogue.is_start(state),
        label: dialogue.label(state),
        next: std::array::from_fn(|event| next_of(dialogue, state, event)),
    }
}

/// The first 64 states of a dialogue that has no more.
fn states_of<D: Dialogue>(dialogue: &D) -> [State; 64]
    requires { (D.Dialogue.table dialogue.now).states ≤ 64 }
    ensures { (s : ℕ) → s < 64 → IsCopy (D.Dialogue.table dialogue.now) s (state_at result s) }
{
    let mut states = [State::new(false, 0); 64];
    for (s, state) in states.iter_mut().enumerate() {
        *state = state_of(dialogue, s);
    }
    states
}

/// The drawing of a dialogue of at most 64 states and 16 events.
pub(crate) fn drawing_of<D: Dialogue>(dialogue: &D) -> Drawing
    requires few { (D.Dialogue.table dialogue.now).states ≤ 64 }
    requires events { (D.Dialogue.table dialogue.now).events ≡ 16 }
    ensures { drawn result ≡ D.Dialogue.table dialogue.now }
{
    Drawing {
        count: dialogue.states() as usize,
        states: states_of(dialogue),
    }
}
