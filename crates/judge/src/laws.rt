//! Laws that the judge rests on. Each is the contract of a function that does nothing.
ghost use Rattle.lassos.specs.Word.{PositionLaw};
ghost use Rattle.judge.specs.Examples.{Examples};

/// On every lasso, truth by the rules of positions is what linear temporal logic says of the endless word that the
/// lasso spells, at every step of it.
pub fn position_law()
    ensures { PositionLaw }
{}

/// The worked examples: texts read, written and refused, and five journeys judged by the rules of their texts.
pub fn worked_examples()
    ensures { Examples }
{}
