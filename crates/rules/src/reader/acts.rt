//! What a reader does to its parts and frames.
ghost use Rattle.std.specs.Prelude.{◌≡◌, ◌+◌, ◌<◌, ◌≤◌};
ghost use Rattle.rules.specs.Reading.{Tables, Reduced, binds, with_part, with_frame, top_frame, completed, applied};

use super::{Frame, Reader};
use formulas::Part;

impl Frame {
    /// How tight it binds its operand; 0 for a bracket, which only its closing sign ends.
    fn binding(self) -> usize
        ensures { result ≡ binds self }
    {
        match self {
            Frame::Bracket => 0,
            Frame::Waiting(_, _) => 5,
            Frame::Halfway(op, _, _) => op.right_level(),
        }
    }

    /// The part that it makes with its operand.
    fn complete(self, operand: usize) -> Part
        requires { 0 < binds self }
        ensures { result ≡ completed self operand }
    {
        match self {
            Frame::Bracket => unreachable(),
            Frame::Waiting(op, location) => Part::Unary(op, operand, location),
            Frame::Halfway(op, left, location) => Part::Binary(op, left, operand, location),
        }
    }
}

impl Reader {
    pub(crate) fn push_part(&mut self, part: Part)
        requires { self.old.count < 128 }
        ensures { self.new ≡ with_part self.old part }
    {
        self.parts[self.count] = part;
        self.count += 1;
    }

    pub(crate) fn push_frame(&mut self, frame: Frame)
        requires { self.old.depth < 128 }
        ensures { self.new ≡ with_frame self.old frame }
    {
        self.frames[self.depth] = frame;
        self.depth += 1;
    }

    /// The frame on top takes the last part as its operand, and becomes a part itself.
    fn apply_top(&mut self)
        requires room { self.old.depth + self.old.count ≤ 128 }
        requires some { 0 < self.old.count }
        requires open { 0 < self.old.depth }
        requires takes { 0 < binds (top_frame self.old) }
        ensures { self.new ≡ applied self.old }
    {
        let top = self.frames[self.depth - 1];
        let part = top.complete(self.count - 1);
        self.depth -= 1;
        self.push_part(part);
    }

    /// Every frame on top that binds tighter than `floor` takes its operand.
    pub(crate) fn reduce(&mut self, floor: usize, place: usize)
        requires tables { Tables self.old place }
        requires short { place ≤ 128 }
        requires some { 0 < self.old.count }
        ensures { Reduced floor self.old place self.new }
    {
        while self.depth > 0 && self.frames[self.depth - 1].binding() > floor {
            self.apply_top();
        }
    }
}
