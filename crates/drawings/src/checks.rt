//! What is wrong with a dialogue file. Each record has a mark of two bytes, D and a letter:
//! DH (states, events), then a DS for each state (label, start), then DP (from, event, to) in rising order, then DZ.
ghost use Rattle.std.specs.Prelude.{◌≡◌, ◌+◌, ◌*◌, ◌<◌, ◌≤◌, length, is_ok, Decides};
ghost use Rattle.drawings.specs.Read.{Outlined};
ghost use Rattle.tables.specs.Files.{Allowed, TablesTellFiles, fault_of, word as word_at, mark_wrong, whole_fault, told, header_fault, state_fault, states_fault, press_key as key_at};

mod records;

use crate::checks::records::Records;
use faults::{Cause, Fault, Layer};

/// The length of a header, and of the record of a state.
pub(crate) const STATE_SIZE: usize = 5;

/// The length of the record of a press.
pub(crate) const PRESS_SIZE: usize = 7;

/// The number in two bytes, the least first.
pub(crate) fn word(bytes: &[u8], at: usize) -> usize
    requires { at + 1 < length bytes.now }
    ensures { result ≡ word_at bytes.now at }
{
    usize::from(u16::from_le_bytes([bytes[at], bytes[at + 1]]))
}

/// Whether a byte that is there belongs to none of two marks.
fn is_mark_wrong(bytes: &[u8], at: usize, p: u8, q: u8) -> bool
    ensures { result ≡ mark_wrong bytes.now at p q }
{
    if at >= bytes.len() {
        return false;
    }
    if bytes[at] != b'D' {
        return true;
    }
    if at + 1 >= bytes.len() {
        return false;
    }
    let letter = bytes[at + 1];
    letter != p && letter != q
}

/// Refuses a record whose mark is none of two, or that is not there whole.
pub(crate) fn check_whole(bytes: &[u8], at: usize, p: u8, q: u8, size: usize) -> Result<(), Fault>
    requires { at ≤ length bytes.now }
    ensures { result ≡ told (whole_fault bytes.now at p q size) }
{
    if is_mark_wrong(bytes, at, p, q) {
        return Err(Layer::File.refusal(Cause::BadMark, at));
    }
    if bytes.len() - at < size {
        return Err(Layer::File.refusal(Cause::FileTooShort, bytes.len()));
    }
    Ok(())
}

/// Refuses a bad header.
fn check_header(bytes: &[u8]) -> Result<(), Fault>
    ensures { result ≡ told (header_fault bytes.now) }
{
    check_whole(bytes, 0, b'H', b'H', STATE_SIZE)?;
    if word(bytes, 2) > 4096 || bytes[4] < 1 || bytes[4] > 64 {
        return Err(Layer::File.refusal(Cause::BadRecord, 0));
    }
    Ok(())
}

/// Refuses a bad record of a state.
fn check_state(bytes: &[u8], at: usize) -> Result<(), Fault>
    requires { at ≤ length bytes.now }
    ensures { result ≡ told (state_fault bytes.now at) }
{
    check_whole(bytes, at, b'S', b'S', STATE_SIZE)?;
    if bytes[at + 4] > 1 {
        return Err(Layer::File.refusal(Cause::BadRecord, at));
    }
    Ok(())
}

/// Refuses the first bad record among those of the states.
fn check_states(bytes: &[u8], states: usize) -> Result<(), Fault>
    requires begun { 5 ≤ length bytes.now }
    requires few { states ≤ 4096 }
    ensures { result ≡ told (states_fault bytes.now states) }
{
    for i in 0..states {
        check_state(bytes, STATE_SIZE + STATE_SIZE * i)?;
    }
    Ok(())
}

/// The state and event of a press as one number, by which presses are in rising order.
pub(crate) fn press_key(bytes: &[u8], at: usize) -> usize
    requires { at + 4 < length bytes.now }
    ensures { result ≡ key_at bytes.now at }
{
    word(bytes, at + 2) * 64 + bytes[at + 4] as usize
}

/// How many states, events and presses a good file has.
#[derive(Clone, Copy)]
pub struct Outline {
    pub states: usize,
    pub events: usize,
    pub presses: usize,
}

/// Goes through a file once, up to its earliest fault.
pub fn read_file(bytes: &[u8]) -> Result<Outline, Fault>
    ensures { Outlined bytes.now result }
{
    check_header(bytes)?;
    let states = word(bytes, 2);
    let events = bytes[4] as usize;
    check_states(bytes, states)?;
    let records = Records {
        bytes,
        states,
        events,
    };
    let presses = records.check_presses()?;
    Ok(Outline {
        states,
        events,
        presses,
    })
}

/// Tells what is wrong with a file, if anything is. A file is accepted exactly when the layout allows it, and two accepted files have equal
/// tables exactly when their bytes are equal.
pub fn check_file(bytes: &[u8]) -> Result<(), Fault>
    ensures answer { result ≡ told (fault_of bytes.now) }
    ensures layout { Decides (is_ok result) (Allowed bytes.now) }
    ensures apart { TablesTellFiles }
{
    read_file(bytes)?;
    Ok(())
}
