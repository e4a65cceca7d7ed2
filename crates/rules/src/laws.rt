//! Laws of rule texts. Each is the contract of a function that does nothing.
ghost use Rattle.rules.specs.Laws.{OneFormula, OneAnswer, Shortest, Worked};

/// A text has at most one formula.
pub fn one_formula()
    ensures { OneFormula }
{}

/// What `read` may answer is fixed for each text: one formula or one refusal, and never both.
pub fn one_answer()
    ensures { OneAnswer }
{}

/// The text that `write` gives reads back as the same formula, and is the only shortest text of it.
pub fn shortest_text()
    ensures { Shortest }
{}

/// The worked examples, as one statement over the definitions.
pub fn worked_texts()
    ensures { Worked }
{}
