//! Refusals. Every call of the library that cannot do what it is asked answers with one `Fault`, which
//! says why (`cause`), where in the input or in which argument (`place`), and which layer found it.
#![tactic(auto)]

ghost use Rattle.std.specs.Prelude.{◌≡◌, ◌+◌, ◌*◌, min, Some};
ghost use Rattle.faults.specs.Numbers.{cause_number, layer_number, fault_text};
ghost use Rattle.faults.specs.Refusals.{refusal};
ghost use Rattle.faults.specs.Writing.{put_answer, put_list};

use std::fmt;

/// Why a call was refused. Users know each cause by its number.
#[derive(Clone, Copy, PartialEq, Eq, PartialOrd, Ord, Debug)]
pub enum Cause {
    /// a rule text of more than 128 bytes.
    TextTooLong = 11,
    /// a byte with which the text begins no rule.
    UnexpectedByte = 12,
    /// the rule text ends too early.
    TextTooShort = 13,
    /// a tenth temporal operator.
    TooManyOperators = 14,
    /// the file ends early.
    FileTooShort = 15,
    /// a byte that begins or continues no record mark that is due.
    BadMark = 16,
    /// a value or an order that a file may not have.
    BadRecord = 17,
    /// bytes after the end record of a file.
    TrailingBytes = 18,
    /// a state, an event or a start mark that does not exist.
    NoSuchArgument = 19,
    /// a lead-in that does not lie below the number of entries, or too many entries for the judge.
    BadLeadIn = 20,
    /// a drawing has no room.
    DrawingFull = 31,
    /// a state and event that have a next state already.
    AlreadyJoined = 32,
    /// a state and event that have no next state.
    NotJoined = 33,
    /// more nodes than a check serves.
    TooManyNodes = 34,
    /// a lent list that is too short.
    ListTooShort = 35,
    /// a dialogue with no start.
    NoStart = 36,
}

/// The layer that refused. Users know each layer by its number.
#[derive(Clone, Copy, PartialEq, Eq, PartialOrd, Ord, Debug)]
pub enum Layer {
    /// reading and writing rule texts.
    Rule = 1,
    /// reading dialogue files.
    File = 2,
    /// drawings.
    Drawing = 3,
    /// check, loops, judge and print.
    Check = 4,
}

/// A refusal. It travels unchanged from where it arises to the caller.
#[derive(Clone, Copy, PartialEq, Eq, PartialOrd, Ord, Debug)]
pub struct Fault {
    pub cause: Cause,
    pub place: usize,
    pub layer: Layer,
}

impl Cause {
    /// The number that users know the cause by.
    pub fn number(self) -> u32
        ensures { result ≡ cause_number self }
    {
        self as u32
    }
}

impl Layer {
    /// The number that users know the layer by.
    pub fn number(self) -> u32
        ensures { result ≡ layer_number self }
    {
        self as u32
    }

    /// A refusal by this layer.
    pub fn refusal(self, cause: Cause, place: usize) -> Fault
        ensures { result ≡ refusal self cause place }
    {
        Fault {
            cause,
            place,
            layer: self,
        }
    }
}

impl Fault {
    /// The one number by which a C caller learns of a refusal: the cause times 65,536, plus the place.
    /// A place above 65,535 counts as 65,535.
    pub fn code(self) -> u32
        ensures { result ≡ cause_number self.cause * 65536 + min self.place 65535 }
    {
        let place = self.place.min(65535) as u32;
        self.cause.number() * 65536 + place
    }
}

/// Shows the cause's number, the place and the layer's number, with a blank between.
impl fmt::Display for Fault {
    ghost output = { λ f. Some (fault_text f) };

    fn fmt<W: fmt::Write>(&self, f: &mut fmt::Formatter<W>) -> fmt::Result {
        let cause = self.cause.number();
        let place = self.place;
        let layer = self.layer.number();
        write!(f, "{cause} {place} {layer}")
    }
}

/// Writes bytes into the front of a lent list, all of them or, where it is too short, none.
pub fn put(bytes: &[u8], out: &mut [u8], layer: Layer) -> Result<usize, Fault>
    ensures answer { result ≡ put_answer layer bytes.now out.old }
    ensures list { out.new ≡ put_list bytes.now out.old }
{
    let count = bytes.len();
    if out.len() < count {
        return Err(layer.refusal(Cause::ListTooShort, 1));
    }
    let front = &mut out[0..count];
    front.copy_from_slice(bytes);
    Ok(count)
}
