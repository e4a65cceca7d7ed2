//! The parts of a rule.
ghost use Rattle.std.specs.Prelude.{◌≡◌, ◌≤◌, take};
ghost use Rattle.rules.specs.Parts.{IsRule};
ghost use Rattle.rules.specs.Rules.{table};

use formulas::Part;

impl super::Rule {
    /// The rule of the first `count` parts.
    pub(crate) fn assemble(parts: [Part; 128], count: usize) -> super::Rule
        requires few { count ≤ 128 }
        requires formed { IsRule (take count parts) }
        ensures { table result ≡ take count parts }
    {
        super::Rule { parts, count }
    }

    /// The parts, operands before their operator and the whole last.
    pub fn parts(&self) -> &[Part]
        ensures value { result.now ≡ table self.now }
        ensures formed { IsRule result.now }
    {
        &self.parts[0..self.count]
    }
}
