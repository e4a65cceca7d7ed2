//! Dialogues that are kept: drawings, which are changed call by call, and files, which are read where they lie.
#![tactic(auto)]

pub mod call;
pub mod checks;
pub mod drawing;
pub mod file;
pub mod stored;
