//! The lines on the kept dialogue.
use crate::drawn::event_of;
use crate::lent::lend;
use crate::page::Page;
use crate::shown::{Marks, OrDash, Text};
use crate::stop::Stop;
use crate::words::{Words, hex_bytes, number};
use dialogues::dialogue::Dialogue;
use dialogues::name::Name;
use dialogues::named::Named;
use drawings::drawing::Drawing;
use loops::loops;
use piles::named::NamedPile;
use piles::pile::Pile;
use search::{Frame, Lengths, Lists, Root, Slot};
use std::alloc::Global;

/// The deepest nesting of a dialogue that is read.
const DEEPEST: usize = 1000;

/// What a line is not, that should give a dialogue.
const WANTED: &str = "drawing, file BYTES, free K, pair EXPR EXPR or bar EVENT EXPR is wanted";

/// A dialogue, with names where all of its parts have them.
#[derive(Drop)]
pub enum Kept {
    Plain(Pile),
    Named(NamedPile),
}

impl Kept {
    fn new(pile: Pile) -> Kept {
        match NamedPile::new(pile) {
            Ok(named) => Kept::Named(named),
            Err(pile) => Kept::Plain(pile),
        }
    }

    fn into_pile(self) -> Pile {
        match self {
            Kept::Plain(pile) => pile,
            Kept::Named(named) => named.into_pile(),
        }
    }

    /// The dialogue itself.
    pub(crate) fn pile(&self) -> &Pile {
        match self {
            Kept::Plain(pile) => pile,
            Kept::Named(named) => named.as_pile(),
        }
    }

    fn event(&self, word: &[u8]) -> Option<usize> {
        match self {
            Kept::Plain(_) => number(word).map(|n| n as usize),
            Kept::Named(named) => event_of(named, word),
        }
    }

    fn name(&self, event: usize) -> Option<Name> {
        match self {
            Kept::Plain(_) => None,
            Kept::Named(named) => named.name(event),
        }
    }

    /// A whole line: a dialogue and nothing behind it.
    pub(crate) fn read(heap: Global, drawing: &Drawing, words: &mut Words) -> Result<Kept, Stop> {
        let pile = read_pile(heap, drawing, words, DEEPEST)?;
        if !words.at_end() {
            return Err(Stop::Unknown(WANTED));
        }
        Ok(Kept::new(pile))
    }
}

/// Reads a dialogue in prefix form, nested no deeper than `depth`.
fn read_pile(
    heap: Global,
    drawing: &Drawing,
    words: &mut Words,
    depth: usize,
) -> Result<Pile, Stop> {
    match next_word(words)? {
        b"drawing" => Ok(Pile::drawn(heap, *drawing)?),
        b"file" => Ok(Pile::filed(hex_bytes(heap, next_word(words)?, WANTED)?)),
        b"free" => read_free(words),
        b"bar" if depth > 0 => {
            let event = next_word(words)?;
            let below = Kept::new(read_pile(heap, drawing, words, depth - 1)?);
            let event = below.event(event).ok_or(Stop::Unknown(WANTED))?;
            Ok(Pile::bar(heap, event, below.into_pile())?)
        }
        b"pair" if depth > 0 => {
            let left = read_pile(heap, drawing, words, depth - 1)?;
            let right = read_pile(heap, drawing, words, depth - 1)?;
            Ok(Pile::pair(heap, left, right)?)
        }
        _ => Err(Stop::Unknown(WANTED)),
    }
}

fn next_word<'a>(words: &mut Words<'a>) -> Result<&'a [u8], Stop> {
    words.next().ok_or(Stop::Unknown(WANTED))
}

fn read_free(words: &mut Words) -> Result<Pile, Stop> {
    let letters = number(next_word(words)?).ok_or(Stop::Unknown(WANTED))?;
    Ok(Pile::open(u32::try_from(letters).unwrap_or(u32::MAX)))
}

/// The questions about a state and an event.
pub(crate) fn ask(kept: &Kept, words: &mut Words, page: &mut Page) -> Result<(), Stop> {
    let (Some(state), Some(word), true) = (words.number(), words.next(), words.at_end()) else {
        return Err(Stop::Unknown("ask STATE EVENT"));
    };
    let event = kept.event(word).ok_or(Stop::Unknown("ask STATE EVENT"))?;
    let pile = kept.pile();
    let start = u8::from(pile.is_start(state));
    let label = pile.label(state);
    let next = OrDash(pile.next(state, event));
    match kept.name(event) {
        Some(name) => page.answer(format_args!(
            "{start} {label} {next} {}",
            Text(name.as_bytes())
        ))?,
        None => page.answer(format_args!("{start} {label} {next} -"))?,
    }
    Ok(())
}

/// The four rooms of `loops`, each what is needed where the line gives none.
fn read_rooms(words: &mut Words, need: usize) -> Option<Lengths> {
    if words.at_end() {
        return Some(Lengths {
            marks: need,
            slots: need,
            trail: need,
            roots: need,
        });
    }
    let rooms = Lengths {
        marks: words.number()?,
        slots: words.number()?,
        trail: words.number()?,
        roots: words.number()?,
    };
    words.at_end().then_some(rooms)
}

/// Marks the states of the kept dialogue.
pub(crate) fn mark_loops(
    heap: Global,
    pile: &Pile,
    words: &mut Words,
    page: &mut Page,
) -> Result<(), Stop> {
    let states = pile.states() as usize;
    let rooms = read_rooms(words, states).ok_or(Stop::Unknown(
        "loops, or loops ROOM ROOM ROOM ROOM",
    ))?;
    let mut marks = lend(heap, 0u8, rooms.marks)?;
    let mut slots = lend(heap, Slot::default(), rooms.slots)?;
    let mut trail = lend(heap, Frame::default(), rooms.trail)?;
    let mut roots = lend(heap, Root::default(), rooms.roots)?;
    let lists = Lists {
        marks: marks.as_mut_slice(),
        slots: slots.as_mut_slice(),
        trail: trail.as_mut_slice(),
        roots: roots.as_mut_slice(),
    };
    let count = loops(pile, lists)?;
    marks.truncate(states);
    page.answer(format_args!("{count} {}", Marks(marks.as_slice())))?;
    Ok(())
}
