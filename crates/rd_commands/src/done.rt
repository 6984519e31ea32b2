ghost use Rattle.std.specs.Prelude.{◌≡◌, ◌≢◌, ◌≤◌};
ghost use Rattle.rd_commands.specs.RefusalLines as spec;
ghost use Rattle.rd_commands.specs.declared.done.Done.TheVariants as done;

use crate::refusal::Refusal;

/// How far a command did what its words ask for.
#[derive(Clone, Copy, Debug, PartialEq, Eq)]
pub enum Done {
    /// Whole.
    Whole,
    /// In part: the output says what was refused, or what is changed.
    InPart,
}

impl Done {
    /// How far this and another part are done.
    pub fn and(self, other: Done) -> Done
        ensures { result ≡ spec.both self other }
    {
        match self {
            Done::Whole => other,
            Done::InPart => Done::InPart,
        }
    }

    /// The exit status, 0 or 1.
    pub fn status(self) -> u8
        ensures most { result ≤ 1 }
        ensures whole { result ≡ 0 → self ≡ done.Whole }
        ensures in_part { result ≢ 0 → self ≡ done.InPart }
    {
        match self {
            Done::Whole => 0,
            Done::InPart => 1,
        }
    }
}

/// `Whole` if nothing was refused, and otherwise the refusal.
pub fn whole(ended: Result<(), Refusal>) -> Result<Done, Refusal>
    ensures { result ≡ spec.whole ended }
{
    match ended {
        Ok(()) => Ok(Done::Whole),
        Err(refused) => Err(refused),
    }
}
