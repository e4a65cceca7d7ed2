//! What the locations of a rule owe.
ghost use Rattle.std.specs.Prelude.{◌≡◌, ◌<◌, length};
ghost use Rattle.rules.specs.Rules.{table, formula};
ghost use Rattle.unfolding.specs.Pushed.{denial};
ghost use Rattle.denials.specs.Signs.{part_of};
ghost use Rattle.denials.specs.Debts.{Follows, Owing};

use crate::signed::{Due, Pushed, Signed};
use rules::rule::Rule;

impl Signed {
    /// What is due later for a temporal part: the operand of X, any other part itself.
    fn due(self, rule: &Rule) -> Due
        requires { self.index < length (table rule.now) }
        ensures { Follows (table rule.now) self result }
    {
        match self.push(rule) {
            Pushed::Same(f) => f.due(rule),
            Pushed::Next(_, f) => Due {
                part: f,
                promise: false,
            },
            Pushed::Finally(_, _) | Pushed::Until(_, _, _) => Due {
                part: self,
                promise: true,
            },
            Pushed::Fixed(_)
            | Pushed::Literal(_, _)
            | Pushed::Both(_, _)
            | Pushed::Either(_, _)
            | Pushed::Globally(_, _)
            | Pushed::Release(_, _, _) => Due {
                part: self,
                promise: false,
            },
        }
    }
}

/// The whole rule, negated.
fn denied(rule: &Rule) -> Signed
    ensures is { part_of (table rule.now) result ≡ denial (formula rule.now) }
    ensures within { result.index < length (table rule.now) }
{
    Signed {
        index: rule.parts().len() - 1,
        sign: false,
    }
}

/// What a location owes: location 0 the whole rule negated, any other what is due for its part.
pub(crate) fn owing(rule: &Rule, location: usize) -> Due
    ensures { Owing (table rule.now) location result }
{
    let whole = Due {
        part: denied(rule),
        promise: false,
    };
    if location == 0 {
        return whole;
    }
    match whole.part.find(rule, location) {
        Some(part) => part.due(rule),
        None => whole,
    }
}
