//! A rule written out as a text.
ghost use Rattle.std.specs.Prelude.{◌≡◌, ◌+◌, ◌<◌, ◌≤◌, length, ◌++◌};
ghost use Rattle.arrayvec.specs.ArrayVec.{array_vec_len};
ghost use Rattle.faults.specs.Writing.{put_answer, put_list};
ghost use Rattle.faults.specs.declared.Layer.TheVariants.{Rule as RuleLayer};
ghost use Rattle.formulas.specs.Sign.{infix_sign};
ghost use Rattle.formulas.specs.Written.{written};
ghost use Rattle.rules.specs.Rules.{table, formula, bracket_if, part_text};

use arrayvec::ArrayVec;
use faults::{Fault, Layer};
use formulas::{Infix, Part};

impl super::Rule {
    /// Writes the rule out: no blanks, and brackets only round what the grammar would otherwise group differently.
    /// Answers the number of bytes.
    pub fn write(&self, out: &mut [u8]) -> Result<usize, Fault>
        ensures answer { result ≡ put_answer RuleLayer (written (formula self.now)) out.old }
        ensures list { out.new ≡ put_list (written (formula self.now)) out.old }
    {
        let mut text = ArrayVec::new();
        self.append(self.count - 1, 1, &mut text);
        faults::put(&text, out, Layer::Rule)
    }

    /// Appends the part at `index`, as an operand of that level.
    fn append(&self, index: usize, level: usize, text: &mut ArrayVec<u8, 128>)
        requires within { index < length (table self.now) }
        requires room { array_vec_len text.old + length (part_text (table self.now) index level) ≤ 128 }
        ensures { text.new.items ≡ text.old.items ++ part_text (table self.now) index level }
    {
        match self.parts()[index] {
            Part::Constant(value) => text.push(if value { b'1' } else { b'0' }),
            Part::Letter(letter) => text.push(b'a' + letter),
            Part::Unary(op, operand, _) => {
                text.push(op.byte());
                self.append(operand, 5, text);
            }
            Part::Binary(op, f, g, _) => {
                let bracketed = op.level() < level;
                push_if(bracketed, b'(', text);
                self.append(f, op.left_level(), text);
                push_infix(op, text);
                self.append(g, op.right_level(), text);
                push_if(bracketed, b')', text);
            }
        }
    }
}

fn push_if(wanted: bool, byte: u8, text: &mut ArrayVec<u8, 128>)
    requires { array_vec_len text.old + length (bracket_if wanted byte) ≤ 128 }
    ensures { text.new.items ≡ text.old.items ++ bracket_if wanted byte }
{
    if wanted {
        text.push(byte);
    }
}

fn push_infix(op: Infix, text: &mut ArrayVec<u8, 128>)
    requires { array_vec_len text.old + length (infix_sign op) ≤ 128 }
    ensures { text.new.items ≡ text.old.items ++ infix_sign op }
{
    let bytes = op.bytes();
    text.push(bytes[0]);
    if bytes.len() > 1 {
        text.push(bytes[1]);
    }
}
