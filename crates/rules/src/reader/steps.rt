//! One byte of a text read.
ghost use Rattle.std.specs.Prelude.{◌≡◌, ◌+◌, ◌<◌, ◌≤◌, [], length};
ghost use Rattle.faults.specs.declared.Cause.TheVariants.{UnexpectedByte, TooManyOperators};
ghost use Rattle.formulas.specs.declared.Sign.TheVariants.{Close};
ghost use Rattle.formulas.specs.Sign.{sign};
ghost use Rattle.formulas.specs.Table.{counted_from};
ghost use Rattle.formulas.proofs.Machine.{wanting};
ghost use Rattle.rules.specs.Reading.{Sane, Tables, Known, Located, Stepped, Joining, Finished, Progress, state_of, parts_of, frames_of, all_locations, in_mode, with_part};
ghost use Rattle.rules.specs.declared.reader.Mode.TheVariants.{Wanting, Having, Dashed};

use super::{Frame, Mode, Reader};
use crate::rule::Rule;
use faults::{Cause, Fault, Layer};
use formulas::{Infix, Part, Sign};

/// The most temporal operators of a rule.
const MOST_TEMPORALS: usize = 9;

impl Reader {
    pub(crate) fn new() -> Reader
        ensures sane { Sane result 0 }
        ensures state { state_of result ≡ wanting [] }
        ensures temporals { result.temporals ≡ 0 }
    {
        Reader {
            parts: [Part::Constant(false); 128],
            count: 0,
            frames: [Frame::Bracket; 128],
            depth: 0,
            mode: Mode::Wanting,
            temporals: 0,
        }
    }

    /// The location of the next operator: its number among the temporal ones, or 0 where it is not temporal.
    fn locate(&mut self, temporal: bool, place: usize) -> Result<usize, Fault>
        requires { self.old.temporals ≤ 9 }
        ensures { Located self.old temporal place self.new result }
    {
        if !temporal {
            return Ok(0);
        }
        if self.temporals >= MOST_TEMPORALS {
            return Err(Layer::Rule.refusal(Cause::TooManyOperators, place));
        }
        self.temporals += 1;
        Ok(self.temporals)
    }

    /// A sign where an operand must come.
    fn want(&mut self, sign: Sign, place: usize) -> Result<(), Fault>
        requires sane { Sane self.old place }
        requires more { place < 128 }
        requires mode { self.old.mode ≡ Wanting }
        requires known { Known sign }
        ensures { Stepped self.old sign place self.new result }
    {
        match sign {
            Sign::Blank => {}
            Sign::Open => self.push_frame(Frame::Bracket),
            Sign::Before(op) => {
                let location = self.locate(op.is_temporal(), place)?;
                self.push_frame(Frame::Waiting(op, location));
            }
            Sign::Constant(value) => self.push_operand(Part::Constant(value)),
            Sign::Letter(letter) => self.push_operand(Part::Letter(letter)),
            Sign::Close | Sign::Dash | Sign::Head | Sign::Between(_) | Sign::Unknown => {
                return Err(Layer::Rule.refusal(Cause::UnexpectedByte, place));
            }
        }
        Ok(())
    }

    fn push_operand(&mut self, part: Part)
        requires { self.old.count < 128 }
        ensures { self.new ≡ in_mode (with_part self.old part) Having }
    {
        self.push_part(part);
        self.mode = Mode::Having;
    }

    /// A sign after an operand.
    fn have(&mut self, sign: Sign, place: usize) -> Result<(), Fault>
        requires sane { Sane self.old place }
        requires more { place < 128 }
        requires mode { self.old.mode ≡ Having }
        ensures { Stepped self.old sign place self.new result }
    {
        match sign {
            Sign::Blank => Ok(()),
            Sign::Dash => {
                self.mode = Mode::Dashed;
                Ok(())
            }
            Sign::Close => self.close(place),
            Sign::Between(op) => self.join(op, place),
            Sign::Open
            | Sign::Head
            | Sign::Constant(_)
            | Sign::Letter(_)
            | Sign::Before(_)
            | Sign::Unknown => { Err(Layer::Rule.refusal(Cause::UnexpectedByte, place)) }
        }
    }

    /// The second byte of `->`.
    fn dash(&mut self, sign: Sign, place: usize) -> Result<(), Fault>
        requires sane { Sane self.old place }
        requires more { place < 128 }
        requires mode { self.old.mode ≡ Dashed }
        ensures { Stepped self.old sign place self.new result }
    {
        match sign {
            Sign::Head => self.join(Infix::Implies, place),
            Sign::Blank
            | Sign::Open
            | Sign::Close
            | Sign::Dash
            | Sign::Constant(_)
            | Sign::Letter(_)
            | Sign::Before(_)
            | Sign::Between(_)
            | Sign::Unknown => Err(Layer::Rule.refusal(Cause::UnexpectedByte, place)),
        }
    }

    /// A closing bracket: what stands inside is complete, and the bracket goes.
    fn close(&mut self, place: usize) -> Result<(), Fault>
        requires sane { Sane self.old place }
        requires more { place < 128 }
        requires mode { self.old.mode ≡ Having }
        ensures { Stepped self.old Close place self.new result }
    {
        self.reduce(0, place);
        if self.depth == 0 {
            return Err(Layer::Rule.refusal(Cause::UnexpectedByte, place));
        }
        self.depth -= 1;
        Ok(())
    }

    /// An infix operator: what binds tighter on its left is its left operand.
    fn join(&mut self, op: Infix, place: usize) -> Result<(), Fault>
        requires tables { Tables self.old place }
        requires more { place < 128 }
        requires some { 0 < self.old.count }
        requires numbered { all_locations (parts_of self.old) (frames_of self.old) ≡ counted_from 1 self.old.temporals }
        requires nine { self.old.temporals ≤ 9 }
        ensures { Joining self.old op place self.new result }
    {
        let location = self.locate(op.is_temporal(), place)?;
        self.reduce(op.level(), place);
        self.push_frame(Frame::Halfway(op, self.count - 1, location));
        self.mode = Mode::Wanting;
        Ok(())
    }

    /// The next byte of the text, at that place.
    pub(crate) fn step(&mut self, byte: u8, place: usize) -> Result<(), Fault>
        requires sane { Sane self.old place }
        requires more { place < 128 }
        ensures { Stepped self.old (sign byte) place self.new result }
    {
        let sign = Sign::from(byte);
        match self.mode {
            Mode::Wanting => self.want(sign, place),
            Mode::Having => self.have(sign, place),
            Mode::Dashed => self.dash(sign, place),
        }
    }

    /// The rule, at the end of the text.
    pub(crate) fn finish(mut self, text: &[u8]) -> Result<Rule, Fault>
        requires { Progress text.now (length text.now) self }
        ensures { Finished self (length text.now) result }
    {
        let length = text.len();
        match self.mode {
            Mode::Wanting | Mode::Dashed => Err(Layer::Rule.refusal(Cause::TextTooShort, length)),
            Mode::Having => {
                self.reduce(0, length);
                if self.depth > 0 {
                    return Err(Layer::Rule.refusal(Cause::TextTooShort, length));
                }
                Ok(Rule::assemble(self.parts, self.count))
            }
        }
    }
}
