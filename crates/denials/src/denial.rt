//! A rule denied.
ghost use Rattle.std.specs.Prelude.{◌≡◌};
ghost use Rattle.rules.specs.Rules.{table, formula};
ghost use Rattle.unfolding.specs.Pushed.{locations as locations_of};
ghost use Rattle.denials.specs.Debts.{Placed, Owes, Mentions, Promises};

use crate::signed::Debt;
use rules::rule::Rule;

pub mod methods;

/// A rule negated, with what each of its locations owes. There are 1 to 10 locations.
#[derive(Clone, Copy)]
pub struct Denial<'a> {
    rule: &'a Rule,
    locations: usize,
    debts: [Debt; 10],
    promises: u32,
    ghost counted: { locations ≡ locations_of (formula rule.now) },
    ghost placed: { Placed (table rule.now) (formula rule.now) debts },
    ghost owes: { ∥ Owes (table rule.now) (formula rule.now) debts ∥₁ },
    ghost mentions: { ∥ Mentions (formula rule.now) debts ∥₁ },
    ghost promised: { ∥ Promises (formula rule.now) promises ∥₁ },
}
