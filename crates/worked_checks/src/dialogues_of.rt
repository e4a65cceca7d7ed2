//! The dialogues of the worked examples.
use drawings::call::Call;
use drawings::drawing::Drawing;
use std::alloc::{AllocError, Global};

/// A start with letter a and another state with letter b; Adult (1) leads from the first to the second, and Child (2) back.
pub(crate) fn two_states() -> Drawing {
    Drawing::from_calls(&[
        Call::Add(1, 1),
        Call::Add(2, 0),
        Call::Join(0, 1, 1),
        Call::Join(1, 2, 0),
    ])
}

/// The same, where Return (3) leads from the first state to itself. The last call is refused, and alters nothing.
pub(crate) fn returning() -> Drawing {
    Drawing::from_calls(&[
        Call::Add(1, 1),
        Call::Add(2, 0),
        Call::Join(0, 1, 1),
        Call::Join(1, 2, 0),
        Call::Join(0, 3, 0),
        Call::Join(0, 3, 1),
    ])
}

/// Two states without the way by Adult.
pub(crate) fn cut_off() -> Drawing {
    Drawing::from_calls(&[
        Call::Add(1, 1),
        Call::Add(2, 0),
        Call::Join(0, 1, 1),
        Call::Join(1, 2, 0),
        Call::Cut(0, 1),
    ])
}

/// The file of a dialogue with so many states, each a start without letters, with one event that leads nowhere.
pub(crate) fn file_of(heap: Global, states: u16) -> Result<Vec<u8>, AllocError> {
    let mut bytes = Vec::new(heap);
    bytes.extend_from_slice(b"DH")?;
    bytes.extend_from_slice(&states.to_le_bytes())?;
    bytes.push(1)?;
    for _ in 0..states {
        bytes.extend_from_slice(b"DS\x00\x00\x01")?;
    }
    bytes.extend_from_slice(b"DZ")?;
    Ok(bytes)
}
