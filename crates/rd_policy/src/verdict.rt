ghost use Rattle.std.specs.Prelude.{Some};

use crate::rule::Effect;
use std::fmt;

/// The rule that decided, by the numbers that name it.
#[derive(Clone, Copy, Debug, PartialEq, Eq, Hash)]
pub enum Label {
    /// A takedown, by its accession and rank; it prints as `T12.1`.
    Takedown(u32, u16),
    /// A rule of a deed, by the deed and its rank; it prints as `R7.10`.
    Deed(u32, u16),
    /// No rule matched; it prints as `D0`.
    Default,
}

impl fmt::Display for Label {
    ghost use Rattle.rd_policy.specs.Verdicts.{label_text};

    ghost output = { λ label. Some (label_text label) };

    fn fmt<W: fmt::Write>(&self, f: &mut fmt::Formatter<W>) -> fmt::Result {
        match self {
            Label::Takedown(accession, rank) => write!(f, "T{accession}.{rank}"),
            Label::Deed(deed, rank) => write!(f, "R{deed}.{rank}"),
            Label::Default => write!(f, "D0"),
        }
    }
}

/// What the rules say of a file, and which rule says it.
#[derive(Clone, Copy, Debug, PartialEq, Eq, Hash)]
pub struct Verdict {
    /// What the desk does with the file.
    pub effect: Effect,
    /// The rule that decided.
    pub label: Label,
}
