//! Dialogues: numbered states and events, some states starts, a label at each state, and at most one next state for each state and event.
//! `Dialogue` asks the five questions; free dialogues, bars and pairs answer them here.
#![tactic(auto)]

pub mod bar;
pub mod dialogue;
pub mod free;
pub mod name;
pub mod named;
pub mod pair;
