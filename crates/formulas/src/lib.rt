//! Rules as formulas of linear temporal logic: their operators, their signs in a text, and the table of parts
//! that a rule is kept in. What a text means, and the proofs, are in `specs/` and `proofs/`.
#![tactic(auto)]

ghost use Rattle.std.specs.Prelude.{◌≡◌, false};
ghost use Rattle.formulas.specs.declared.Part.TheVariants.{Constant};
ghost use Rattle.formulas.specs.Formula.{temporal_prefix, temporal_infix};
ghost use Rattle.formulas.specs.Grammar.{level, left, right};
ghost use Rattle.formulas.specs.Sign.{sign, prefix_sign, infix_sign};

/// An operator that stands before its operand.
#[derive(Clone, Copy, PartialEq, Eq, Debug)]
pub enum Prefix {
    Not,
    Next,
    Finally,
    Globally,
}

impl Prefix {
    /// Whether it is one of X, F and G.
    pub fn is_temporal(self) -> bool
        ensures { result ≡ temporal_prefix self }
    {
        match self {
            Prefix::Not => false,
            Prefix::Next | Prefix::Finally | Prefix::Globally => true,
        }
    }

    /// The byte that it is written as.
    pub fn byte(self) -> u8
        ensures { result ≡ prefix_sign self }
    {
        match self {
            Prefix::Not => b'!',
            Prefix::Next => b'X',
            Prefix::Finally => b'F',
            Prefix::Globally => b'G',
        }
    }
}

/// An operator that stands between its operands.
#[derive(Clone, Copy, PartialEq, Eq, Debug)]
pub enum Infix {
    Implies,
    Or,
    And,
    Until,
    Release,
}

impl Infix {
    /// Whether it is one of U and R.
    pub fn is_temporal(self) -> bool
        ensures { result ≡ temporal_infix self }
    {
        match self {
            Infix::Implies | Infix::Or | Infix::And => false,
            Infix::Until | Infix::Release => true,
        }
    }

    /// The bytes that it is written as.
    pub fn bytes(self) -> &'static [u8]
        ensures { result.now ≡ infix_sign self }
    {
        match self {
            Infix::Implies => b"->",
            Infix::Or => b"|",
            Infix::And => b"&",
            Infix::Until => b"U",
            Infix::Release => b"R",
        }
    }

    /// The level of a text that it joins.
    pub fn level(self) -> usize
        ensures { result ≡ level self }
    {
        match self {
            Infix::Implies => 1,
            Infix::Or => 2,
            Infix::And => 3,
            Infix::Until | Infix::Release => 4,
        }
    }

    /// The level of what stands left of it.
    pub fn left_level(self) -> usize
        ensures { result ≡ left self }
    {
        match self {
            Infix::Implies | Infix::Or => 2,
            Infix::And => 3,
            Infix::Until | Infix::Release => 5,
        }
    }

    /// The level of what stands right of it.
    pub fn right_level(self) -> usize
        ensures { result ≡ right self }
    {
        match self {
            Infix::Implies => 1,
            Infix::Or => 3,
            Infix::Until | Infix::Release | Infix::And => 4,
        }
    }
}

/// What a byte of a rule text is. `->` is one sign of two bytes, a dash and an arrow head.
#[derive(Clone, Copy, PartialEq, Eq, Debug)]
pub enum Sign {
    Blank,
    Open,
    Close,
    Dash,
    Head,
    Constant(bool),
    Letter(u8),
    Before(Prefix),
    Between(Infix),
    Unknown,
}

impl From<u8> for Sign {
    ghost from_gives = { λ byte result. result ≡ sign byte };

    fn from(byte: u8) -> Sign {
        match char::from(byte) {
            'a'..='p' => Sign::Letter(byte - b'a'),
            ' ' => Sign::Blank,
            '(' => Sign::Open,
            ')' => Sign::Close,
            '-' => Sign::Dash,
            '>' => Sign::Head,
            '0' => Sign::Constant(false),
            '1' => Sign::Constant(true),
            '!' => Sign::Before(Prefix::Not),
            'X' => Sign::Before(Prefix::Next),
            'F' => Sign::Before(Prefix::Finally),
            'G' => Sign::Before(Prefix::Globally),
            '|' => Sign::Between(Infix::Or),
            '&' => Sign::Between(Infix::And),
            'U' => Sign::Between(Infix::Until),
            'R' => Sign::Between(Infix::Release),
            _ => Sign::Unknown,
        }
    }
}

/// One part of a rule. Operands are named by their places in the table of parts. A temporal operator has a
/// location, its number among the rule's temporal operators, from the left and from 1; any other has 0.
#[derive(Clone, Copy, PartialEq, Eq, Debug)]
pub enum Part {
    Constant(bool),
    Letter(u8),
    Unary(Prefix, usize, usize),
    Binary(Infix, usize, usize, usize),
}

/// A place that no part has been written to.
impl Default for Part {
    ghost is_default = { λ part. part ≡ Constant false };

    fn default() -> Part {
        Part::Constant(false)
    }
}
