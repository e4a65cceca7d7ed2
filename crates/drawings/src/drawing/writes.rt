//! Writing a drawing as a file.
ghost use Rattle.std.specs.Prelude.{◌≡◌, ◌+◌, ◌*◌, ◌<◌, ◌≤◌, length};
ghost use Rattle.std.specs.List.{range_with_len, flat_map};
ghost use Rattle.tables.specs.Writes.{pasted, presses, press_bytes, press_here, state_bytes, write_answer, after_write, ReadsBack};
ghost use Rattle.drawings.specs.Drawn.{drawn};

use crate::checks::{PRESS_SIZE, STATE_SIZE};
use crate::drawing::{Drawing, EVENTS};
use dialogues::dialogue::Dialogue;
use faults::{Cause, Fault, Layer};

/// Copies a record into a list.
fn put(out: &mut [u8], at: usize, bytes: &[u8])
    requires { at + length bytes.now ≤ length out.old }
    ensures { out.new ≡ pasted at bytes.now out.old }
{
    let end = at + bytes.len();
    out[at..end].copy_from_slice(bytes);
}

impl Drawing {
    /// The next state of one state and event, both of which are there.
    fn entry(&self, state: usize, event: usize) -> Option<u8>
        requires state { state < self.now.count }
        requires event { event < 16 }
        ensures { result ≡ (drawn self.now).next state event }
    {
        self.states[state].next[event]
    }

    /// How many presses there are.
    fn count_presses(&self) -> usize
        ensures all { result ≡ length (presses (drawn self.now) (self.now.count * 16)) }
        ensures few { result ≤ 1024 }
    {
        let mut total = 0;
        for state in 0..self.count {
            for event in 0..EVENTS {
                if self.entry(state, event).is_some() {
                    total += 1;
                }
            }
        }
        total
    }

    /// Writes the record of one state.
    fn put_state(&self, out: &mut [u8], state: usize)
        requires here { state < self.now.count }
        requires room { 10 + 5 * state ≤ length out.old }
        ensures { out.new ≡ pasted (5 + 5 * state) (state_bytes (drawn self.now) state) out.old }
    {
        let [low, high] = self.label(state).to_le_bytes();
        let start = self.is_start(state) as u8;
        put(
            out,
            STATE_SIZE + STATE_SIZE * state,
            &[b'D', b'S', low, high, start],
        );
    }

    /// Writes the press of one state and event, if they have a next state, and answers the place behind it.
    fn put_press(&self, out: &mut [u8], at: usize, state: usize, event: usize) -> usize
        requires state { state < self.now.count }
        requires event { event < 16 }
        requires room { at + length (flat_map press_bytes (press_here state event ((drawn self.now).next state event))) ≤ length out.old }
        ensures end { result ≡ at + length (flat_map press_bytes (press_here state event ((drawn self.now).next state event))) }
        ensures leaves { out.new ≡ pasted at (flat_map press_bytes (press_here state event ((drawn self.now).next state event))) out.old }
    {
        match self.entry(state, event) {
            Some(to) => {
                put(out, at, &[b'D', b'P', state as u8, 0, event as u8, to, 0]);
                at + PRESS_SIZE
            }
            None => at,
        }
    }

    /// Writes the records of all states behind the header.
    fn put_states(&self, out: &mut [u8])
        requires { 5 + 5 * self.now.count ≤ length out.old }
        ensures { out.new ≡ pasted 5 (flat_map (state_bytes (drawn self.now)) (range_with_len 0 self.now.count)) out.old }
    {
        for state in 0..self.count {
            self.put_state(out, state);
        }
    }

    /// Writes the records of all presses behind the states, and answers the place behind them.
    fn put_presses(&self, out: &mut [u8]) -> usize
        requires { 5 + 5 * self.now.count + 7 * length (presses (drawn self.now) (self.now.count * 16)) ≤ length out.old }
        ensures end { result ≡ 5 + 5 * self.now.count + 7 * length (presses (drawn self.now) (self.now.count * 16)) }
        ensures leaves { out.new ≡ pasted (5 + 5 * self.now.count) (flat_map press_bytes (presses (drawn self.now) (self.now.count * 16))) out.old }
    {
        let mut at = STATE_SIZE + STATE_SIZE * self.count;
        for state in 0..self.count {
            for event in 0..EVENTS {
                at = self.put_press(out, at, state, event);
            }
        }
        at
    }

    /// Writes the drawing as a file into a lent list, and answers the number of bytes. What is written is an accepted file with the
    /// drawing's table, and taking it gives the drawing back.
    pub fn write(&self, out: &mut [u8]) -> Result<usize, Fault>
        ensures answer { result ≡ write_answer (drawn self.now) out.old }
        ensures leaves { out.new ≡ after_write (drawn self.now) out.old }
        ensures back { ReadsBack (drawn self.now) }
    {
        let size = STATE_SIZE + STATE_SIZE * self.count + PRESS_SIZE * self.count_presses() + 2;
        if out.len() < size {
            return Err(Layer::Drawing.refusal(Cause::ListTooShort, 1));
        }
        put(out, 0, &[b'D', b'H', self.count as u8, 0, 16]);
        self.put_states(out);
        let end = self.put_presses(out);
        put(out, end, b"DZ");
        Ok(size)
    }
}
