//! Recursions over the parts of a rule: an operand's index is always lower.
ghost use Rattle.std.specs.Prelude.{◌≡◌, ℕ, ◌<◌, ◌≤◌, true, false, List, length, slice_index_or};
ghost use Rattle.components.specs.Bits.{has};
ghost use Rattle.formulas.specs.declared.Part.{Part as Row};
ghost use Rattle.formulas.specs.Formula.{constant, operators};
ghost use Rattle.formulas.specs.Table.{formulas};
ghost use Rattle.rules.specs.Rules.{table};
ghost use Rattle.unfolding.specs.Pushed.{under, left_of, prefix_pushed, infix_pushed, carried};
ghost use Rattle.unfolding.specs.Flat.{pushed as pushed_part};
ghost use Rattle.unfolding.specs.Smallest.{mentions as mentions_of};
ghost use Rattle.denials.specs.Signs.{part_of, stands_for, Below, Pushes, Sought};

use crate::bits::{contains, only};
use crate::signed::{Pushed, Signed};
use formulas::{Infix, Part, Prefix};
use rules::rule::Rule;

/// A prefix operator, pushed.
fn push_prefix(op: Prefix, sign: bool, index: usize, location: usize) -> Pushed
    ensures is { (rows : List Row) → prefix_pushed op sign location (pushed_part rows index (under op sign)) ≡ stands_for rows result }
    ensures below { (n : ℕ) → index < n → Below n result }
{
    let operand = Signed { index, sign };
    match (op, sign) {
        (Prefix::Not, _) => Pushed::Same(Signed { index, sign: !sign }),
        (Prefix::Next, _) => Pushed::Next(location, operand),
        (Prefix::Finally, true) | (Prefix::Globally, false) => Pushed::Finally(location, operand),
        (Prefix::Finally, false) | (Prefix::Globally, true) => Pushed::Globally(location, operand),
    }
}

/// An infix operator, pushed.
fn push_infix(op: Infix, sign: bool, f: usize, g: usize, location: usize) -> Pushed
    ensures is { (rows : List Row) → infix_pushed op sign location (pushed_part rows f (left_of op sign)) (pushed_part rows g sign) ≡ stands_for rows result }
    ensures below { (n : ℕ) → f < n → g < n → Below n result }
{
    let left = Signed { index: f, sign };
    let right = Signed { index: g, sign };
    let denied = Signed {
        index: f,
        sign: !sign,
    };
    match (op, sign) {
        (Infix::Implies, true) => Pushed::Either(denied, right),
        (Infix::Implies, false) => Pushed::Both(denied, right),
        (Infix::Or, true) | (Infix::And, false) => Pushed::Either(left, right),
        (Infix::Or, false) | (Infix::And, true) => Pushed::Both(left, right),
        (Infix::Until, true) | (Infix::Release, false) => Pushed::Until(location, left, right),
        (Infix::Until, false) | (Infix::Release, true) => Pushed::Release(location, left, right),
    }
}

impl Signed {
    /// What it is when negation is pushed down.
    pub(crate) fn push(self, rule: &Rule) -> Pushed
        requires { self.index < length (table rule.now) }
        ensures { Pushes (table rule.now) self result }
    {
        let sign = self.sign;
        match rule.parts()[self.index] {
            Part::Constant(value) => Pushed::Fixed(value == sign),
            Part::Letter(letter) => Pushed::Literal(sign, letter),
            Part::Unary(op, f, location) => push_prefix(op, sign, f, location),
            Part::Binary(op, f, g, location) => push_infix(op, sign, f, g, location),
        }
    }

    /// Whether it is carried by the label of now and the set of locations that are owed next.
    pub(crate) fn is_carried(self, rule: &Rule, label: u16, next: u32) -> bool
        requires { self.index < length (table rule.now) }
        ensures { result ≡ carried (part_of (table rule.now) self) label (has next) }
    {
        match self.push(rule) {
            Pushed::Fixed(value) => value,
            Pushed::Literal(sign, letter) => ((label >> letter) % 2 == 1) == sign,
            Pushed::Same(f) => f.is_carried(rule, label, next),
            Pushed::Both(f, g) => {
                f.is_carried(rule, label, next) && g.is_carried(rule, label, next)
            }
            Pushed::Either(f, g) => {
                f.is_carried(rule, label, next) || g.is_carried(rule, label, next)
            }
            Pushed::Next(location, _) => contains(next, location),
            Pushed::Finally(location, f) => {
                contains(next, location) || f.is_carried(rule, label, next)
            }
            Pushed::Globally(location, f) => {
                contains(next, location) && f.is_carried(rule, label, next)
            }
            Pushed::Until(location, f, g) => {
                g.is_carried(rule, label, next)
                    || contains(next, location) && f.is_carried(rule, label, next)
            }
            Pushed::Release(location, f, g) => {
                g.is_carried(rule, label, next)
                    && (contains(next, location) || f.is_carried(rule, label, next))
            }
        }
    }

    /// The set of the locations that it looks for.
    pub(crate) fn mentions(self, rule: &Rule) -> u32
        requires { self.index < length (table rule.now) }
        ensures { (l : ℕ) → l < 32 → has result l ≡ mentions_of (part_of (table rule.now) self) l }
    {
        match self.push(rule) {
            Pushed::Fixed(_) | Pushed::Literal(_, _) => 0,
            Pushed::Same(f) => f.mentions(rule),
            Pushed::Both(f, g) | Pushed::Either(f, g) => f.mentions(rule) | g.mentions(rule),
            Pushed::Next(location, _) => only(location),
            Pushed::Finally(location, f) | Pushed::Globally(location, f) => {
                f.mentions(rule) | only(location)
            }
            Pushed::Until(location, f, g) | Pushed::Release(location, f, g) => {
                f.mentions(rule) | g.mentions(rule) | only(location)
            }
        }
    }

    /// The temporal part of a location within it, if there is one.
    pub(crate) fn find(self, rule: &Rule, location: usize) -> Option<Signed>
        requires { self.index < length (table rule.now) }
        ensures { Sought (table rule.now) self location result }
    {
        let pushed = self.push(rule);
        if pushed.is_own(location) {
            return Some(self);
        }
        match pushed {
            Pushed::Fixed(_) | Pushed::Literal(_, _) => None,
            Pushed::Same(f) | Pushed::Next(_, f) | Pushed::Finally(_, f) | Pushed::Globally(_, f) =>
                f.find(rule, location),
            Pushed::Both(f, g)
            | Pushed::Either(f, g)
            | Pushed::Until(_, f, g)
            | Pushed::Release(_, f, g) => f.find(rule, location).or(g.find(rule, location)),
        }
    }
}

/// How many temporal operators a part has.
pub(crate) fn count_operators(rule: &Rule, index: usize) -> usize
    requires within { index < length (table rule.now) }
    requires few { operators (slice_index_or (formulas (table rule.now)) index (constant false)) ≤ 9 }
    ensures { result ≡ operators (slice_index_or (formulas (table rule.now)) index (constant false)) }
{
    match rule.parts()[index] {
        Part::Constant(_) | Part::Letter(_) => 0,
        Part::Unary(op, f, _) => op.is_temporal() as usize + count_operators(rule, f),
        Part::Binary(op, f, g, _) => {
            count_operators(rule, f) + op.is_temporal() as usize + count_operators(rule, g)
        }
    }
}
