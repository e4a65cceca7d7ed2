//! The records behind those of the states: presses in rising order, and the end.
ghost use Rattle.std.specs.Prelude.{◌≡◌, ◌+◌, ◌≤◌, length};
ghost use Rattle.tables.specs.Files.{told, press_place, press_fault, place_fault, press_allowed, is_end as is_end_at, Ends};

use crate::checks::{PRESS_SIZE, STATE_SIZE, check_whole, press_key, word};
use faults::{Cause, Fault, Layer};

/// A file's bytes, with the numbers of states and events that its header gives.
#[derive(Clone, Copy)]
pub(super) struct Records<'a> {
    pub(super) bytes: &'a [u8],
    pub(super) states: usize,
    pub(super) events: usize,
    ghost few: { states ≤ 4096 },
}

impl<'a> Records<'a> {
    /// Where the k-th record behind the states begins.
    fn place(&self, k: usize) -> usize
        requires { press_place self.now.states k ≤ length self.now.bytes.now }
        ensures { result ≡ press_place self.now.states k }
    {
        STATE_SIZE + STATE_SIZE * self.states + PRESS_SIZE * k
    }

    /// Whether the k-th press has states and an event that exist, and comes after the one before.
    fn is_press_allowed(&self, k: usize) -> bool
        requires { press_place self.now.states k + 7 ≤ length self.now.bytes.now }
        ensures { result ≡ press_allowed self.now.bytes.now self.now.states self.now.events k }
    {
        let bytes = self.bytes;
        let at = self.place(k);
        if word(bytes, at + 2) >= self.states
            || bytes[at + 4] as usize >= self.events
            || word(bytes, at + 5) >= self.states
        {
            return false;
        }
        k == 0 || press_key(bytes, at - PRESS_SIZE) < press_key(bytes, at)
    }

    /// Refuses a bad record of a press.
    fn check_press(&self, k: usize) -> Result<(), Fault>
        requires { press_place self.now.states k ≤ length self.now.bytes.now }
        ensures { result ≡ told (press_fault self.now.bytes.now self.now.states self.now.events k) }
    {
        let at = self.place(k);
        check_whole(self.bytes, at, b'P', b'Z', PRESS_SIZE)?;
        if !self.is_press_allowed(k) {
            return Err(Layer::File.refusal(Cause::BadRecord, at));
        }
        Ok(())
    }

    /// Whether the letter of the k-th mark is that of the end.
    fn is_end(&self, k: usize) -> bool
        requires { press_place self.now.states k ≤ length self.now.bytes.now }
        ensures { result ≡ is_end_at self.now.bytes.now (press_place self.now.states k) }
    {
        let at = self.place(k);
        self.bytes.len() - at >= 2 && self.bytes[at + 1] == b'Z'
    }

    /// Refuses a bad record, press or end, at the k-th place.
    fn check_place(&self, k: usize) -> Result<(), Fault>
        requires { press_place self.now.states k ≤ length self.now.bytes.now }
        ensures { result ≡ told (place_fault self.now.bytes.now self.now.states self.now.events k) }
    {
        if self.is_end(k) {
            check_whole(self.bytes, self.place(k), b'P', b'Z', 2)
        } else {
            self.check_press(k)
        }
    }

    /// Goes through the presses up to the end of the file, and answers how many there are.
    pub(super) fn check_presses(&self) -> Result<usize, Fault>
        requires { press_place self.now.states 0 ≤ length self.now.bytes.now }
        ensures { Ends self.now.bytes.now self.now.states self.now.events result }
    {
        let mut k = 0;
        loop {
            self.check_place(k)?;
            if self.is_end(k) {
                break;
            }
            k += 1;
        }
        let end = self.place(k) + 2;
        if end < self.bytes.len() {
            return Err(Layer::File.refusal(Cause::TrailingBytes, end));
        }
        Ok(k)
    }
}
