//! Lines in the making.
ghost use Rattle.std.specs.Prelude.{◌≡◌, ◌+◌, ◌≤◌, ◌++◌, length, decimal};
ghost use Rattle.arrayvec.specs.ArrayVec.{array_vec_len};
ghost use Rattle.printing.specs.Text.{letter_line, number_line};

use arrayvec::ArrayVec;
use itoa::Buffer;

/// A line. None needs more than 44 bytes: two numbers of 20 digits, a letter, two blanks and a newline.
pub(crate) type Line = ArrayVec<u8, 44>;

/// Appends bytes to a line that has room for them.
pub(crate) fn push_bytes(line: &mut Line, bytes: &[u8])
    requires { array_vec_len line.old + length bytes.now ≤ 44 }
    ensures { line.new.items ≡ line.old.items ++ bytes.now }
{
    line.try_extend_from_slice(bytes).unwrap();
}

/// Appends the digits of a number, without leading zeros.
pub(crate) fn push_decimal(line: &mut Line, number: usize)
    requires { array_vec_len line.old + 20 ≤ 44 }
    ensures bytes { line.new.items ≡ line.old.items ++ decimal number }
    ensures few { length (decimal number) ≤ 20 }
{
    push_bytes(line, Buffer::new().format(number).as_bytes());
}

/// A letter alone.
pub(crate) fn letter_line(letter: u8) -> Line
    ensures { result.items ≡ letter_line letter }
{
    let mut line = Line::new();
    push_bytes(&mut line, &[letter, b'\n']);
    line
}

/// A letter and two numbers.
pub(crate) fn number_line(letter: u8, first: usize, second: usize) -> Line
    ensures { result.items ≡ number_line letter first second }
{
    let mut line = Line::new();
    push_bytes(&mut line, &[letter, b' ']);
    push_decimal(&mut line, first);
    line.push(b' ');
    push_decimal(&mut line, second);
    line.push(b'\n');
    line
}
