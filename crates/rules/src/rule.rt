//! A rule, kept as a table of parts: operands stand below their operator, and the last part is the whole.
//! What a rule's table keeps to is said in `specs/Parts.antt`, and what it stands for in `specs/Rules.antt`.
ghost use Rattle.std.specs.Prelude.{◌≤◌, take};
ghost use Rattle.rules.specs.Parts.{IsRule};

use formulas::Part;

pub mod parts;
pub mod writing;

/// A rule: its table of parts, which stands in the front of the array.
#[derive(Clone, Copy)]
pub struct Rule {
    parts: [Part; 128],
    count: usize,
    ghost few: { count ≤ 128 },
    ghost formed: { IsRule (take count parts) },
}
