//! What the answers of the console rest on.
ghost use Rattle.console.specs.Laws.{OneAnswer};
ghost use Rattle.console.specs.Lines.{Splits};

/// An input is its lines, each with its newline, but for one that the last line lacks; and no line holds a newline.
pub fn lines_law()
    ensures { Splits }
{}

/// A line has one right answer, but for the lasso that breaks its rule.
pub fn one_answer()
    ensures { OneAnswer }
{}
