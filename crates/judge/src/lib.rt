//! The judge: whether a rule is true of one endless journey, given as a list of labels and a lead-in.
#![tactic(auto)]

ghost use Rattle.std.specs.Prelude.{◌≡◌, false, length, is_ok, IfOk, Decides};
ghost use Rattle.lassos.specs.Word.{Holds, spelled};
ghost use Rattle.rules.specs.Rules.{formula};
ghost use Rattle.judge.specs.Answer.{admitted, judged};

use faults::{Cause, Fault, Layer};
use rules::rule::Rule;

pub mod labels;
pub mod lasso;
pub mod laws;
mod rows;

use labels::Labels;
use lasso::Shape;
use rows::evaluate;

/// The most labels that a journey may have.
const MAX_LABELS: usize = 4096;

/// The most parts that a rule has. Each has a row in the judge's table.
const MAX_PARTS: usize = 128;

/// Refuses a lasso that cannot be judged: one whose lead-in does not lie below its number of labels or that has too
/// many, and then one for which too few bytes of work are lent.
fn admit(count: usize, lead_in: usize, lent: usize) -> Result<(), Fault>
    ensures { result ≡ admitted count lead_in lent tt }
{
    if lead_in >= count || count > MAX_LABELS {
        return Err(Layer::Check.refusal(Cause::BadLeadIn, count.min(65535)));
    }
    if lent < MAX_PARTS * count {
        return Err(Layer::Check.refusal(Cause::ListTooShort, 1));
    }
    Ok(())
}

/// Whether the rule is true of the journey that the labels and the lead-in give. The lead-in lies below the number of
/// labels, of which there are at most 4,096, and 128 bytes of work are lent for each label; else it is refused, and
/// nothing is written. After an answer the work may hold anything.
pub fn judge<L: Labels>(
    rule: &Rule,
    labels: &L,
    lead_in: usize,
    work: &mut [u8],
) -> Result<bool, Fault>
    ensures answer { result ≡ judged (formula rule.now) (L.Labels.list labels.now) lead_in (length work.old) }
    ensures endless { IfOk result (λ b. Decides b (Holds (spelled (L.Labels.list labels.now) lead_in) (formula rule.now) 0)) }
    ensures unchanged { is_ok result ≡ false → work.new ≡ work.old }
{
    let count = labels.count();
    admit(count, lead_in, work.len())?;
    let shape = Shape { count, lead_in };
    Ok(evaluate(rule.parts(), labels, shape, work))
}
