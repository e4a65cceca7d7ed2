//! What is kept from line to line, and one line performed.
use crate::asked::{Kept, ask, mark_loops};
use crate::drawn;
use crate::journeys::Journey;
use crate::lent::{lend, room, written};
use crate::page::Page;
use crate::shown::{Hex, Text};
use crate::stop::Stop;
use crate::words::{Words, hex_bytes, split_word};
use dialogues::dialogue::Dialogue;
use drawings::checks::check_file;
use drawings::drawing::Drawing;
use rules::rule::Rule;
use std::alloc::{AllocError, Global};

/// The longest text of a rule.
const LONGEST_RULE: usize = 128;

/// A list of this length takes the file of every drawing.
const LONGEST_FILE: usize = 8192;

/// What a line lacks that should give bytes.
const NO_BYTES: &str = "bytes in hexadecimal are wanted, - for none";

#[derive(Drop)]
pub struct Sheet {
    heap: Global,
    rule: Option<Rule>,
    journey: Option<Journey>,
    drawing: Drawing,
    dialogue: Option<Kept>,
}

impl Sheet {
    pub(crate) fn new(heap: Global) -> Sheet {
        Sheet {
            heap,
            rule: None,
            journey: None,
            drawing: Drawing::new(),
            dialogue: None,
        }
    }

    /// One line; an empty one, and one that begins with `#`, does nothing.
    pub(crate) fn perform(&mut self, line: &[u8], page: &mut Page) -> Result<(), AllocError> {
        if line.is_empty() || line[0] == b'#' {
            return Ok(());
        }
        match self.answer(line, page) {
            Ok(()) => Ok(()),
            Err(Stop::Unknown(why)) => page.unknown(why),
            Err(Stop::Refused(fault)) => page.refusal(fault),
            Err(Stop::Memory(error)) => Err(error),
        }
    }

    /// The lines on the rule and the journey.
    fn answer(&mut self, line: &[u8], page: &mut Page) -> Result<(), Stop> {
        let (command, rest) = split_word(line);
        let mut words = Words::new(rest);
        match command {
            b"rule" => self.read_rule(rest, page),
            b"rule-hex" => {
                let bytes = hex_bytes(self.heap, rest, NO_BYTES)?;
                self.read_rule(bytes.as_slice(), page)
            }
            b"write" => self.write_rule(&mut words, page),
            b"journey" => self.keep_journey(Journey::read(self.heap, &mut words)?, page),
            b"journey-hex" => self.keep_journey(Journey::read_hex(self.heap, &mut words)?, page),
            b"judge" => self.judge_journey(&mut words, page),
            b"help" if line == command => Ok(help(page)?),
            _ => self.draw(command, rest, page),
        }
    }

    /// The lines on the drawing.
    fn draw(&mut self, command: &[u8], rest: &[u8], page: &mut Page) -> Result<(), Stop> {
        let mut words = Words::new(rest);
        let drawing = &mut self.drawing;
        match command {
            b"new" if words.at_end() => *drawing = Drawing::new(),
            b"wipe" if words.at_end() => drawing.wipe(),
            b"add" => return drawn::add(drawing, &mut words, page),
            b"relabel" => drawn::relabel(drawing, &mut words)?,
            b"join" => drawn::join(drawing, &mut words)?,
            b"cut" => drawn::cut(drawing, &mut words)?,
            b"take" => drawing.take(hex_bytes(self.heap, rest, NO_BYTES)?.as_slice())?,
            b"file" => return self.write_file(&mut words, page),
            _ => return self.consult(command, rest, page),
        }
        Ok(page.done()?)
    }

    /// The lines on files and on the kept dialogue.
    fn consult(&mut self, command: &[u8], rest: &[u8], page: &mut Page) -> Result<(), Stop> {
        let mut words = Words::new(rest);
        match command {
            b"fault" => {
                check_file(hex_bytes(self.heap, rest, NO_BYTES)?.as_slice())?;
                Ok(page.answer("good")?)
            }
            b"dialogue" => {
                let kept = Kept::read(self.heap, &self.drawing, &mut words)?;
                self.keep_dialogue(kept, page)
            }
            b"ask" => ask(self.kept()?, &mut words, page),
            b"loops" => mark_loops(self.heap, self.kept()?.pile(), &mut words, page),
            _ => Err(Stop::Unknown("no such line; try help")),
        }
    }

    fn kept(&self) -> Result<&Kept, Stop> {
        self.dialogue
            .as_ref()
            .ok_or(Stop::Unknown("no dialogue is kept"))
    }

    fn rule(&self) -> Result<Rule, Stop> {
        self.rule.ok_or(Stop::Unknown("no rule is kept"))
    }

    fn keep_dialogue(&mut self, kept: Kept, page: &mut Page) -> Result<(), Stop> {
        let states = kept.pile().states();
        let events = kept.pile().events();
        self.dialogue = Some(kept);
        Ok(page.answer(format_args!("{states} {events}"))?)
    }

    fn keep_journey(&mut self, journey: Journey, page: &mut Page) -> Result<(), Stop> {
        page.answer(format_args!("{} {}", journey.labels.len(), journey.lead_in))?;
        self.journey = Some(journey);
        Ok(())
    }

    fn judge_journey(&mut self, words: &mut Words, page: &mut Page) -> Result<(), Stop> {
        let rule = self.rule()?;
        let journey = self
            .journey
            .as_ref()
            .ok_or(Stop::Unknown("no journey is kept"))?;
        let room = room(words, journey.labels.len().saturating_mul(128))?;
        let mut work = lend(self.heap, 0u8, room)?;
        let verdict = journey.judged_by(&rule, work.as_mut_slice())?;
        Ok(page.answer(verdict)?)
    }

    /// A rule is kept once it is written out, for which no memory is asked.
    fn read_rule(&mut self, text: &[u8], page: &mut Page) -> Result<(), Stop> {
        let rule = rules::read(text)?;
        let mut out = [0u8; LONGEST_RULE];
        let count = rule.write(&mut out)?;
        self.rule = Some(rule);
        Ok(page.answer(Text(&out[..count.min(LONGEST_RULE)]))?)
    }

    fn write_rule(&mut self, words: &mut Words, page: &mut Page) -> Result<(), Stop> {
        let rule = self.rule()?;
        let need = rule.write(&mut [0u8; LONGEST_RULE])?;
        let text = written(self.heap, room(words, need)?, |out| rule.write(out))?;
        show_bytes(text.as_slice(), page)
    }

    fn write_file(&mut self, words: &mut Words, page: &mut Page) -> Result<(), Stop> {
        let drawing = &self.drawing;
        let mut out = vec![in self.heap; 0u8; LONGEST_FILE]?;
        let need = drawing.write(out.as_mut_slice())?;
        let file = written(self.heap, room(words, need)?, |out| drawing.write(out))?;
        show_bytes(file.as_slice(), page)
    }
}

/// The answer of a call that wrote bytes: how many, and which.
fn show_bytes(bytes: &[u8], page: &mut Page) -> Result<(), Stop> {
    Ok(page.answer(format_args!("{} {}", bytes.len(), Hex(bytes)))?)
}

/// The lines that are known.
const HELP: [&str; 15] = [
    "rule TEXT                   reads a rule and keeps it",
    "rule-hex BYTES              the same, from bytes in hexadecimal",
    "write [ROOM]                writes the kept rule out, into a list of that length",
    "journey LEAD LETTERS ..     keeps a journey: its lead-in, and a label for each word",
    "journey-hex LEAD BYTES      the same, two bytes for each label, the least first",
    "judge [ROOM]                judges the kept journey by the kept rule",
    "new, wipe                   the drawing anew, or without states",
    "add LETTERS MARK            a state more, and whether it is a start: 0 or 1",
    "relabel STATE LETTERS MARK  another label and start mark",
    "join FROM EVENT TO          a next state; cut FROM EVENT takes it away",
    "take BYTES                  the drawing from a file; file [ROOM] writes it",
    "fault BYTES                 what is wrong with a file",
    "dialogue EXPR               keeps a dialogue: drawing, file BYTES, free K, pair EXPR EXPR, bar EVENT EXPR",
    "ask STATE EVENT             start, label, next state and name",
    "loops [ROOM ROOM ROOM ROOM] marks its states: 0 not reached, 1 reached, 2 able to return to itself",
];

fn help(page: &mut Page) -> Result<(), AllocError> {
    for line in HELP {
        page.detail(line)?;
    }
    page.done()
}
