//! The lines on the drawing.
use crate::page::Page;
use crate::stop::Stop;
use crate::words::{Words, number};
use dialogues::named::Named;
use drawings::drawing::Drawing;

/// The event of a dialogue that a word names: by its number, or by its name.
pub(crate) fn event_of<D: Named>(dialogue: &D, word: &[u8]) -> Option<usize> {
    if let Some(n) = number(word) {
        return Some(n as usize);
    }
    (0..64usize).find(|event| {
        dialogue
            .name(*event)
            .is_some_and(|name| name.as_bytes() == word)
    })
}

pub(crate) fn add(drawing: &mut Drawing, words: &mut Words, page: &mut Page) -> Result<(), Stop> {
    let (Some(label), Some(mark), true) = (words.label(), words.number(), words.at_end()) else {
        return Err(Stop::Unknown("add LETTERS MARK"));
    };
    let state = drawing.add(label, mark)?;
    page.answer(state)?;
    Ok(())
}

pub(crate) fn relabel(drawing: &mut Drawing, words: &mut Words) -> Result<(), Stop> {
    let (Some(state), Some(label), Some(mark), true) = (
        words.number(),
        words.label(),
        words.number(),
        words.at_end(),
    ) else {
        return Err(Stop::Unknown("relabel STATE LETTERS MARK"));
    };
    drawing.relabel(state, label, mark)?;
    Ok(())
}

pub(crate) fn join(drawing: &mut Drawing, words: &mut Words) -> Result<(), Stop> {
    let (Some(from), Some(event), Some(to), true) = (
        words.number(),
        next_event(drawing, words),
        words.number(),
        words.at_end(),
    ) else {
        return Err(Stop::Unknown("join FROM EVENT TO"));
    };
    drawing.join(from, event, to)?;
    Ok(())
}

pub(crate) fn cut(drawing: &mut Drawing, words: &mut Words) -> Result<(), Stop> {
    let (Some(from), Some(event), true) = (
        words.number(),
        next_event(drawing, words),
        words.at_end(),
    ) else {
        return Err(Stop::Unknown("cut FROM EVENT"));
    };
    drawing.cut(from, event)?;
    Ok(())
}

fn next_event(drawing: &Drawing, words: &mut Words) -> Option<usize> {
    event_of(drawing, words.next()?)
}
