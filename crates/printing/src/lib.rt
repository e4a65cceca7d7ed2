//! Printing: the answer of a check as lines of text.
#![tactic(auto)]

mod answer;
mod calls;
mod line;
mod refusal;
mod writing;

pub use answer::Answer;
pub use calls::print;
