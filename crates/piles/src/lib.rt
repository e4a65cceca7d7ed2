//! Dialogues that are built at run time: drawings, files and free dialogues, with any pairs and bars above them.
#![tactic(auto)]

pub mod make;
pub mod named;
pub mod pile;
pub mod questions;
