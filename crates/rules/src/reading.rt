//! Reading a rule text.
ghost use Rattle.rules.specs.Refusal.{Answered};

use crate::reader::Reader;
use crate::rule::Rule;
use faults::{Cause, Fault, Layer};

/// The most bytes of a rule text.
const LONGEST: usize = 128;

/// Reads a rule text: the rule that the grammar gives, or the one refusal.
pub fn read(text: &[u8]) -> Result<Rule, Fault>
    ensures { Answered text.now result }
{
    if text.len() > LONGEST {
        return Err(Layer::Rule.refusal(Cause::TextTooLong, LONGEST));
    }
    let mut reader = Reader::new();
    for (place, byte) in text.iter().enumerate() {
        reader.step(*byte, place)?;
    }
    reader.finish(text)
}
