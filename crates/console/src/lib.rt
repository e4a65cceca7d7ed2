//! The console: what `presscheck` prints for the bytes of a dialogue file and of its input.
#![tactic(auto)]

mod answers;
pub mod laws;
mod lines;
mod response;

pub use response::respond;
