//! The lists of a check.
use checker::{Checked, Needs, check_pile};
use faults::Fault;
use piles::pile::Pile;
use rules::rule::Rule;
use search::{Frame, Lists, Root, Slot};
use std::alloc::{AllocError, Global};
use unfolding::Press;

/// The memory of a check.
#[derive(Drop)]
pub(crate) struct Memory {
    marks: Vec<u8>,
    slots: Vec<Slot>,
    trail: Vec<Frame>,
    roots: Vec<Root>,
    presses: Vec<Press>,
}

impl Memory {
    /// As much as is needed.
    pub(crate) fn new(heap: Global, needs: Needs) -> Result<Memory, AllocError> {
        Ok(Memory {
            marks: vec![in heap; 0u8; needs.nodes]?,
            slots: vec![in heap; Slot::default(); needs.nodes]?,
            trail: vec![in heap; Frame::default(); needs.nodes]?,
            roots: vec![in heap; Root::default(); needs.nodes]?,
            presses: vec![in heap; Press::default(); needs.presses]?,
        })
    }

    /// Checks a rule against a pile.
    pub(crate) fn check(&mut self, pile: &Pile, rule: &Rule) -> Result<Checked, Fault> {
        let lists = Lists {
            marks: self.marks.as_mut_slice(),
            slots: self.slots.as_mut_slice(),
            trail: self.trail.as_mut_slice(),
            roots: self.roots.as_mut_slice(),
        };
        check_pile(pile, rule, lists, self.presses.as_mut_slice())
    }
}
