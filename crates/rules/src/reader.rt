//! The state of reading a rule text, byte by byte: the parts that are complete, and the frames that wait.
use formulas::{Infix, Part, Prefix};

pub mod acts;
pub mod steps;

/// What waits for the operand that comes next: a bracket to be closed, a prefix operator with its location, or an
/// infix operator with its left operand and its location.
#[derive(Clone, Copy)]
pub enum Frame {
    Bracket,
    Waiting(Prefix, usize),
    Halfway(Infix, usize, usize),
}

/// What may come next: an operand; what follows an operand; or the second byte of `->`.
#[derive(Clone, Copy)]
pub enum Mode {
    Wanting,
    Having,
    Dashed,
}

/// A reader in the midst of a text: the complete parts, the frames that wait, the newest last, and how many temporal
/// operators there were.
#[derive(Clone, Copy)]
pub struct Reader {
    parts: [Part; 128],
    count: usize,
    frames: [Frame; 128],
    depth: usize,
    mode: Mode,
    temporals: usize,
}
