//! What a denial tells.
ghost use Rattle.std.specs.Prelude.{◌≡◌, ℕ, ◌<◌, not, ◌&&◌, ◌||◌};
ghost use Rattle.components.specs.Bits.{has};
ghost use Rattle.rules.specs.Rules.{formula};
ghost use Rattle.unfolding.specs.Pushed.{locations as locations_of, owes, carried, promise};
ghost use Rattle.unfolding.specs.Smallest.{carries as carries_all, smallest, without, mentioned as mentioned_by};
ghost use Rattle.denials.specs.Meaning.{denied};

use crate::bits::{contains, only, select};
use crate::debts::owing;
use crate::parts::count_operators;
use crate::signed::Debt;
use rules::rule::Rule;

impl<'a> super::Denial<'a> {
    /// The denial of a rule.
    pub fn new(rule: &'a Rule) -> super::Denial<'a>
        ensures { denied result ≡ formula rule.now }
    {
        let locations = 1 + count_operators(rule, rule.parts().len() - 1);
        let mut debts = [Debt::default(); 10];
        let mut promises = 0;
        for location in 0..locations {
            let owed = owing(rule, location);
            debts[location] = Debt {
                part: owed.part,
                mentions: owed.part.mentions(rule),
            };
            promises |= select(owed.promise, only(location));
        }
        super::Denial {
            rule,
            locations,
            debts,
            promises,
        }
    }

    /// How many locations there are: one for each temporal operator, and location 0.
    pub fn locations(&self) -> usize
        ensures { result ≡ locations_of (denied self.now) }
    {
        self.locations
    }

    /// The set of the locations that are promises.
    pub fn promises(&self) -> u32
        ensures { (k : ℕ) → k < locations_of (denied self.now) → has result k ≡ promise (denied self.now) k }
    {
        self.promises
    }

    /// The set of the locations that something owed looks for.
    pub fn mentioned(&self, owed: u32) -> u32
        ensures { (l : ℕ) → l < 32 → has result l ≡ mentioned_by (denied self.now) (has owed) l }
    {
        (0..self.locations)
            .filter(|location| contains(owed, *location))
            .fold(0, |union, location| union | self.debts[location].mentions)
    }

    /// Whether a label and a set of locations carry all that is owed.
    pub fn carries(&self, label: u16, owed: u32, next: u32) -> bool
        ensures { result ≡ carries_all (denied self.now) label (has owed) (has next) }
    {
        (0..self.locations).all(|location| self.pays(location, label, owed, next))
    }

    /// Whether what a location owes is carried, where it is owed.
    fn pays(&self, location: usize, label: u16, owed: u32, next: u32) -> bool
        requires { location < locations_of (denied self.now) }
        ensures { result ≡ (not (has owed location) || carried (owes (denied self.now) location) label (has next)) }
    {
        !contains(owed, location) || self.debts[location].part.is_carried(self.rule, label, next)
    }

    /// Whether a location is in a set and can be spared.
    fn spares(&self, location: usize, label: u16, owed: u32, next: u32) -> bool
        ensures { result ≡ (has next location && carries_all (denied self.now) label (has owed) (without location (has next))) }
    {
        contains(next, location) && self.carries(label, owed, next - (next & only(location)))
    }

    /// Whether they do, and would not with any one location less.
    pub fn is_smallest(&self, label: u16, owed: u32, next: u32) -> bool
        ensures { result ≡ smallest (denied self.now) label (has owed) (has next) }
    {
        self.carries(label, owed, next)
            && (0..self.locations).all(|location| !self.spares(location, label, owed, next))
    }
}
