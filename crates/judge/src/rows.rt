//! The judge's table. Each part of a rule has a row of truth values, one byte for each position of the lasso, and the
//! row of part k begins at byte k * count. So the rows of operands stand below the row of their operator, and rows are
//! made in the order of the parts.
//!
//! Until and release share their code. `dual` is false for until, and for F, which is until with leave to stay always;
//! it is true for release, until's dual, and for G, which is release with nothing that releases.
ghost use Rattle.std.specs.Prelude.{◌≡◌, ℕ, ◌+◌, ◌-◌, ◌*◌, ◌<◌, ◌≤◌, true, length, slice_index};
ghost use Rattle.lassos.specs.Lasso.{after};
ghost use Rattle.lassos.specs.Truth.{has, prefixed, infixed, truth};
ghost use Rattle.lassos.proofs.Sweeps.{step_back, swept, settled};
ghost use Rattle.lassos.proofs.Rows.{Filled, Holds, lit, row, prefix_start, infix_start, part_value};
ghost use Rattle.formulas.specs.Table.{sound_part, sound, whole_formula};

use super::labels::Labels;
use super::lasso::Shape;
use formulas::{Infix, Part, Prefix};

/// Fills the row of a constant.
fn constant_row(value: bool, row: &mut [u8])
    ensures { Holds row.new (length row.old) (λ _. value) }
{
    row.fill(value as u8);
}

/// Fills the row of a letter: whether it stands in each label.
fn letter_row<L: Labels>(labels: &L, letter: u8, row: &mut [u8])
    requires known { letter < 16 }
    requires all { length row.old ≡ length (L.Labels.list labels.now) }
    ensures { Holds row.new (length (L.Labels.list labels.now)) (λ i. has (slice_index (L.Labels.list labels.now) i) letter) }
{
    // A copy of its own, so that writes to the row do not make the loop look for the labels anew.
    let labels = *labels;
    for (i, value) in row.iter_mut().enumerate() {
        let label = labels.label(i);
        *value = ((label >> letter) % 2 == 1) as u8;
    }
}

/// What a prefix operator's row holds at first: the operator's value, or for F and G whether to stay.
fn prefix_start(op: Prefix, here: bool, next: bool) -> bool
    ensures { result ≡ prefix_start op here next }
{
    match op {
        Prefix::Not => !here,
        Prefix::Next => next,
        Prefix::Finally => true,
        Prefix::Globally => false,
    }
}

/// What an infix operator's row holds at first: the operator's value, or for U and R whether to stay, or to release,
/// which is the left operand.
fn infix_start(op: Infix, left: bool, right: bool) -> bool
    ensures { result ≡ infix_start op left right }
{
    match op {
        Infix::Implies => !left | right,
        Infix::Or => left | right,
        Infix::And => left & right,
        Infix::Until | Infix::Release => left,
    }
}

/// Starts the row of a prefix operator.
fn start_prefix(op: Prefix, operand: &[u8], shape: Shape, row: &mut [u8])
    requires operand { length operand.now ≡ shape.count }
    requires row { length row.old ≡ shape.count }
    ensures { Holds row.new shape.count (λ i. prefix_start op (lit operand.now i) (lit operand.now (after shape.count shape.lead_in i))) }
{
    for (i, value) in row.iter_mut().enumerate() {
        let here = operand[i] != 0;
        let next = operand[shape.after(i)] != 0;
        *value = prefix_start(op, here, next) as u8;
    }
}

/// Starts the row of an infix operator.
fn start_infix(op: Infix, left: &[u8], right: &[u8], row: &mut [u8])
    requires left { length left.now ≡ length row.old }
    requires right { length right.now ≡ length row.old }
    ensures { Holds row.new (length row.old) (λ i. infix_start op (lit left.now i) (lit right.now i)) }
{
    for (i, value) in row.iter_mut().enumerate() {
        *value = infix_start(op, left[i] != 0, right[i] != 0) as u8;
    }
}

/// The value at a position from the value at the next: of until, or of its dual release.
fn step_back(dual: bool, stay: bool, goal: bool, next: bool) -> bool
    ensures { result ≡ step_back dual stay goal next }
{
    if dual {
        goal & (stay | next)
    } else {
        goal | (stay & next)
    }
}

/// Goes once round the loop, from the last position back to the lead-in, and tells the value there. The row is started,
/// and `goal` is the right operand's.
fn lap(dual: bool, goal: &[u8], shape: Shape, row: &[u8]) -> bool
    requires goal { length goal.now ≡ shape.count }
    requires row { length row.now ≡ shape.count }
    ensures { result ≡ swept dual (lit row.now) (lit goal.now) shape.count dual (shape.count - shape.lead_in) }
{
    let mut value = dual;
    for i in (shape.lead_in..shape.count).rev() {
        value = step_back(dual, row[i] != 0, goal[i] != 0, value);
    }
    value
}

/// Goes from the last position back to the first and puts the values into the started row; `next` is the value at the
/// position after the last.
fn sweep(dual: bool, next: bool, goal: &[u8], row: &mut [u8])
    requires { length goal.now ≡ length row.old }
    ensures { Holds row.new (length row.old) (λ i. swept dual (lit row.old) (lit goal.now) (length row.old) next (length row.old - i)) }
{
    let mut value = next;
    for i in (0..row.len()).rev() {
        value = step_back(dual, row[i] != 0, goal[i] != 0, value);
        row[i] = value as u8;
    }
}

/// Settles a started row of F, G, U or R: a lap finds the value at the lead-in, and a sweep begins with it.
fn settle(dual: bool, goal: &[u8], shape: Shape, row: &mut [u8])
    requires goal { length goal.now ≡ shape.count }
    requires row { length row.old ≡ shape.count }
    ensures { Holds row.new shape.count (settled dual (lit row.old) (lit goal.now) shape.count shape.lead_in) }
{
    let first = lap(dual, goal, shape, row);
    sweep(dual, first, goal, row);
}

/// Fills the row of a prefix operator, from the row of its operand.
fn prefix_row(op: Prefix, operand: &[u8], shape: Shape, row: &mut [u8])
    requires operand { length operand.now ≡ shape.count }
    requires row { length row.old ≡ shape.count }
    ensures { Holds row.new shape.count (prefixed shape.count shape.lead_in op (lit operand.now)) }
{
    start_prefix(op, operand, shape, row);
    match op {
        Prefix::Not | Prefix::Next => {}
        Prefix::Finally => settle(false, operand, shape, row),
        Prefix::Globally => settle(true, operand, shape, row),
    }
}

/// Fills the row of an infix operator, from the rows of its operands.
fn infix_row(op: Infix, left: &[u8], right: &[u8], shape: Shape, row: &mut [u8])
    requires left { length left.now ≡ shape.count }
    requires right { length right.now ≡ shape.count }
    requires row { length row.old ≡ shape.count }
    ensures { Holds row.new shape.count (infixed shape.count shape.lead_in op (lit left.now) (lit right.now)) }
{
    start_infix(op, left, right, row);
    match op {
        Infix::Implies | Infix::Or | Infix::And => {}
        Infix::Until => settle(false, right, shape, row),
        Infix::Release => settle(true, right, shape, row),
    }
}

/// The row of a part among rows of one length.
fn row_of(rows: &[u8], part: usize, count: usize) -> &[u8]
    requires { part * count + count ≤ length rows.now }
    ensures long { length result.now ≡ count }
    ensures each { (i : ℕ) → i < count → lit result.now i ≡ row rows.now (part * count) i }
{
    &rows[part * count..part * count + count]
}

/// Fills the row of a part, from the rows of the parts below it.
fn part_row<L: Labels>(part: Part, index: usize, labels: &L, shape: Shape, work: &mut [u8])
    requires operands { sound_part index part ≡ true }
    requires all { shape.count ≡ length (L.Labels.list labels.now) }
    requires room { index * shape.count + shape.count ≤ length work.old }
    ensures { Filled work.old work.new (index * shape.count) shape.count (part_value work.old (L.Labels.list labels.now) shape.lead_in part) }
{
    let count = shape.count;
    let (below, rest) = work.split_at_mut(index * count);
    let below = &*below;
    let row = &mut rest[..count];
    match part {
        Part::Constant(value) => constant_row(value, row),
        Part::Letter(letter) => letter_row(labels, letter, row),
        Part::Unary(op, f, _) => prefix_row(op, row_of(below, f, count), shape, row),
        Part::Binary(op, f, g, _) => infix_row(
            op,
            row_of(below, f, count),
            row_of(below, g, count),
            shape,
            row,
        ),
    }
}

/// The value of a table of parts at position 0.
pub(crate) fn evaluate<L: Labels>(parts: &[Part], labels: &L, shape: Shape, work: &mut [u8]) -> bool
    requires some { 0 < length parts.now }
    requires operands { sound parts.now ≡ true }
    requires all { shape.count ≡ length (L.Labels.list labels.now) }
    requires room { length parts.now * shape.count ≤ length work.old }
    ensures { result ≡ truth (whole_formula parts.now) (L.Labels.list labels.now) shape.lead_in 0 }
{
    for (index, part) in parts.iter().enumerate() {
        part_row(*part, index, labels, shape, work);
    }
    work[(parts.len() - 1) * shape.count] != 0
}
