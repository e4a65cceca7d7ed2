//! Lists that a line lends to a call.
use crate::stop::Stop;
use crate::words::Words;
use faults::Fault;
use std::alloc::Global;

/// A list of so many items.
pub(crate) fn lend<T: Copy + Drop>(heap: Global, item: T, count: usize) -> Result<Vec<T>, Stop> {
    vec![in heap; item; count].map_err(|_| Stop::Unknown("there is not so much memory"))
}

/// What a call writes into a list of that length.
pub(crate) fn written<F: FnOnce(&mut [u8]) -> Result<usize, Fault>>(
    heap: Global,
    room: usize,
    write: F,
) -> Result<Vec<u8>, Stop>
    requires { F.IsAlwaysCallable write }
{
    let mut out = lend(heap, 0u8, room)?;
    let count = write(out.as_mut_slice())?;
    out.truncate(count);
    Ok(out)
}

/// The room that a line gives, or what is needed where it gives none.
pub(crate) fn room(words: &mut Words, need: usize) -> Result<usize, Stop> {
    if words.at_end() {
        return Ok(need);
    }
    match (words.number(), words.at_end()) {
        (Some(room), true) => Ok(room),
        _ => Err(Stop::Unknown("a room is a decimal number")),
    }
}
