//! A rule denied: negated, with negation pushed down to its letters. Each temporal operator has a location, which owes its part of
//! the denial; location 0 owes the whole. A `Denial` tells which sets of locations a label carries what is owed with.
#![tactic(auto)]

mod bits;
mod debts;
pub mod denial;
mod parts;
mod signed;
