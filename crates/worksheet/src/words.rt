//! The words of a line: runs of bytes between blanks, decimal numbers and hexadecimal bytes.
ghost use Rattle.std.specs.Prelude.{◌<◌, length};
ghost use Rattle.std.specs.Iterator.{at_most};

use crate::stop::Stop;
use std::alloc::Global;

/// The first word, and what follows the blank behind it.
pub(crate) fn split_word(text: &[u8]) -> (&[u8], &[u8])
    ensures { 0 < length text.now → length result.1.now < length text.now }
{
    match text.iter().position(|b| *b == b' ') {
        Some(end) => (&text[..end], &text[end + 1..]),
        None => (text, &[]),
    }
}

/// Words, one after another; more than one blank between two counts as one.
#[derive(Drop)]
pub struct Words<'a> {
    rest: &'a [u8],
}

impl<'a> Words<'a> {
    pub(crate) fn new(rest: &'a [u8]) -> Self {
        Words { rest }
    }

    /// No word is left.
    pub(crate) fn at_end(&self) -> bool {
        self.rest.iter().all(|b| *b == b' ')
    }

    /// The next word, as a number.
    pub(crate) fn number(&mut self) -> Option<usize> {
        Some(number(self.next()?)? as usize)
    }

    /// The next word, as a label.
    pub(crate) fn label(&mut self) -> Option<u16> {
        label(self.next()?)
    }
}

impl<'a> Iterator for Words<'a> {
    type Item = &'a [u8];

    ghost remaining = { λ w. at_most (length w.rest.now) };

    fn next(&mut self) -> Option<&'a [u8]> {
        let start = self.rest.iter().position(|b| *b != b' ')?;
        let text = &self.rest[start..];
        let (word, rest) = split_word(text);
        self.rest = rest;
        Some(word)
    }
}

/// A decimal number, up to the largest of 64 bits.
pub(crate) fn number(word: &[u8]) -> Option<u64> {
    if word.is_empty() {
        return None;
    }
    word.iter().try_fold(0u64, |n, digit| match *digit {
        b'0'..=b'9' => n.checked_mul(10)?.checked_add(u64::from(*digit - b'0')),
        _ => None,
    })
}

/// Bytes in hexadecimal, two digits each, `-` for none; `wanted` says what a line without them lacks.
pub(crate) fn hex_bytes(heap: Global, word: &[u8], wanted: &'static str) -> Result<Vec<u8>, Stop> {
    match word {
        b"-" => Ok(Vec::new(heap)),
        b"" => Err(Stop::Unknown(wanted)),
        _ => {
            let mut bytes = vec![in heap; 0u8; word.len() / 2]?;
            hex::decode_to_slice(word, bytes.as_mut_slice()).map_err(|_| Stop::Unknown(wanted))?;
            Ok(bytes)
        }
    }
}

/// A label: letters a to p, `-` for none, or a decimal number below 65,536.
pub(crate) fn label(word: &[u8]) -> Option<u16> {
    if let Some(n) = number(word) {
        return u16::try_from(n).ok();
    }
    match word {
        b"-" => Some(0),
        b"" => None,
        _ => letters(word),
    }
}

/// The label of some letters.
fn letters(word: &[u8]) -> Option<u16> {
    word.iter().try_fold(0u16, |label, letter| match *letter {
        b'a'..=b'p' => Some(label | 1 << (*letter - b'a')),
        _ => None,
    })
}
