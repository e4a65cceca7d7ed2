//! Journeys: labels and a lead-in.
use crate::stop::Stop;
use crate::words::{Words, hex_bytes, label};
use faults::Fault;
use judge::judge;
use judge::labels::{LabelBytes, Labels};
use rules::rule::Rule;
use std::alloc::Global;

#[derive(Drop)]
pub struct Journey {
    pub labels: Vec<u16>,
    pub lead_in: usize,
}

/// What a line is not, that should give a journey.
const WANTED: &str = "a lead-in is wanted, and then labels";

impl Journey {
    /// A lead-in, and a label for each further word.
    pub(crate) fn read(heap: Global, words: &mut Words) -> Result<Journey, Stop> {
        let lead_in = words.number().ok_or(Stop::Unknown(WANTED))?;
        let mut labels = Vec::new(heap);
        for word in words {
            labels.push(label(word).ok_or(Stop::Unknown(WANTED))?)?;
        }
        Ok(Journey { labels, lead_in })
    }

    /// A lead-in, and labels of two bytes each, the least first.
    pub(crate) fn read_hex(heap: Global, words: &mut Words) -> Result<Journey, Stop> {
        let (Some(lead_in), Some(word), true) = (words.number(), words.next(), words.at_end())
        else {
            return Err(Stop::Unknown(WANTED));
        };
        let bytes = hex_bytes(heap, word, WANTED)?;
        let view = LabelBytes {
            bytes: bytes.as_slice(),
        };
        let labels = (0..view.count()).map(|i| view.label(i)).collect(heap)?;
        Ok(Journey { labels, lead_in })
    }

    pub(crate) fn judged_by(&self, rule: &Rule, work: &mut [u8]) -> Result<bool, Fault> {
        judge(rule, &self.labels.as_slice(), self.lead_in, work)
    }
}
