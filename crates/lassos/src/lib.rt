//! Lassos, the finite form of endless journeys: a list of entries and a lead-in. Which entry each step of the journey
//! reads, when a formula is true at a position, and the proofs, are in `specs/` and `proofs/`.
#![tactic(auto)]
