//! How values are shown in an answer.
use std::fmt::Write;
use std::{fmt, str};

/// How many bytes or marks are shown at a time.
const PIECE: usize = 64;

/// The digits of marks.
const DIGITS: &[u8; 16] = b"0123456789abcdef";

/// Shows bytes of ASCII.
fn show<W: fmt::Write>(text: &[u8], f: &mut fmt::Formatter<W>) -> fmt::Result {
    f.write_str(str::from_utf8(text).map_err(|_| fmt::Error)?)
}

/// Two hexadecimal digits for each byte; `-` for none.
#[derive(Clone, Copy)]
pub struct Hex<'a>(pub &'a [u8]);

impl<'a> fmt::Display for Hex<'a> {
    fn fmt<W: fmt::Write>(&self, f: &mut fmt::Formatter<W>) -> fmt::Result {
        if self.0.is_empty() {
            return f.write_str("-");
        }
        for piece in self.0.chunks(PIECE) {
            let mut digits = [0u8; 2 * PIECE];
            let text = &mut digits[..2 * piece.len().min(PIECE)];
            hex::encode_to_slice(piece, &mut *text).map_err(|_| fmt::Error)?;
            show(text, f)?;
        }
        Ok(())
    }
}

/// A digit for each mark; `-` for none.
#[derive(Clone, Copy)]
pub struct Marks<'a>(pub &'a [u8]);

impl<'a> fmt::Display for Marks<'a> {
    fn fmt<W: fmt::Write>(&self, f: &mut fmt::Formatter<W>) -> fmt::Result {
        if self.0.is_empty() {
            return f.write_str("-");
        }
        for piece in self.0.chunks(PIECE) {
            let mut digits = [0u8; PIECE];
            let text = &mut digits[..piece.len().min(PIECE)];
            for (digit, mark) in text.iter_mut().zip(piece) {
                *digit = DIGITS[(*mark % 16) as usize];
            }
            show(text, f)?;
        }
        Ok(())
    }
}

/// Bytes of ASCII, as a rule text or a name has them.
#[derive(Clone, Copy)]
pub struct Text<'a>(pub &'a [u8]);

impl<'a> fmt::Display for Text<'a> {
    fn fmt<W: fmt::Write>(&self, f: &mut fmt::Formatter<W>) -> fmt::Result {
        show(self.0, f)
    }
}

/// What is there; `-` where nothing is.
#[derive(Clone, Copy)]
pub struct OrDash<T>(pub Option<T>);

impl<T: fmt::Display> fmt::Display for OrDash<T> {
    fn fmt<W: fmt::Write>(&self, f: &mut fmt::Formatter<W>) -> fmt::Result {
        match &self.0 {
            Some(value) => write!(f, "{value}"),
            None => f.write_str("-"),
        }
    }
}
