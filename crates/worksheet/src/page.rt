//! What is printed for one line.
use faults::{Cause, Fault};
use std::alloc::{AllocError, Global};
use std::fmt::Display;

#[derive(Drop)]
pub struct Page {
    heap: Global,
    bytes: Vec<u8>,
}

impl Page {
    pub(crate) fn new(heap: Global) -> Page {
        Page {
            heap,
            bytes: Vec::new(heap),
        }
    }

    pub(crate) fn bytes(&self) -> &[u8] {
        self.bytes.as_slice()
    }

    /// The line itself.
    pub(crate) fn echo(&mut self, line: &[u8]) -> Result<(), AllocError> {
        self.bytes.extend_from_slice(b"> ")?;
        self.bytes.extend_from_slice(line)?;
        self.bytes.extend_from_slice(b"\n")
    }

    fn line<D: Display + Drop>(&mut self, sign: char, words: D) -> Result<(), AllocError> {
        let line = format!(in self.heap; "{sign} {words}\n")?;
        self.bytes.extend_from_slice(line.as_bytes())
    }

    /// A line of plain words.
    fn plain(&mut self, sign: &[u8], words: &str) -> Result<(), AllocError> {
        self.bytes.extend_from_slice(sign)?;
        self.bytes.extend_from_slice(words.as_bytes())?;
        self.bytes.extend_from_slice(b"\n")
    }

    /// An answer.
    pub(crate) fn answer<D: Display + Drop>(&mut self, words: D) -> Result<(), AllocError> {
        self.line('=', words)
    }

    /// The answer `= done`.
    pub(crate) fn done(&mut self) -> Result<(), AllocError> {
        self.plain(b"= ", "done")
    }

    /// A line of detail.
    pub(crate) fn detail(&mut self, text: &str) -> Result<(), AllocError> {
        self.plain(b"  ", text)
    }

    /// A refusal, with its cause in words.
    pub(crate) fn refusal(&mut self, fault: Fault) -> Result<(), AllocError> {
        self.detail(cause_words(fault.cause))?;
        self.line('!', fault)
    }

    /// A line that is not understood.
    pub(crate) fn unknown(&mut self, why: &str) -> Result<(), AllocError> {
        self.plain(b"? ", why)
    }
}

fn cause_words(cause: Cause) -> &'static str {
    match cause {
        Cause::TextTooLong => "the text has more than 128 bytes",
        Cause::UnexpectedByte => "with this byte the text begins no rule",
        Cause::TextTooShort => "the text ends too early",
        Cause::TooManyOperators => "this is the tenth temporal operator",
        Cause::FileTooShort => "the file ends early",
        Cause::BadMark => "no record mark that is due stands here",
        Cause::BadRecord => "this record has a value or an order that is not allowed",
        Cause::TrailingBytes => "bytes follow the end of the file",
        Cause::NoSuchArgument => "this argument names no state, event or start mark",
        Cause::BadLeadIn =>
            "the lead-in is not below the number of entries, or there are too many entries",
        Cause::DrawingFull => "the drawing has no room",
        Cause::AlreadyJoined => "this state and event have a next state already",
        Cause::NotJoined => "this state and event have no next state",
        Cause::TooManyNodes => "more nodes than a check serves",
        Cause::ListTooShort => "this list is too short",
        Cause::NoStart => "the dialogue has no start",
    }
}
