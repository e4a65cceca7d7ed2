//! Rule texts: read into rules, or refused with cause and place, and written out again.
#![tactic(auto)]

pub mod laws;
mod reader;
mod reading;
pub mod rule;

pub use reading::read;
