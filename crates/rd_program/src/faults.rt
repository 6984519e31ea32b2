//! Why a command makes or opens no desk, as a refusal of the program.

ghost use Rattle.std.specs.Prelude.{◌≡◌};
ghost use Rattle.rd_program.specs.Faults.{refusal_to_create, refusal_to_open};

use rd_commands::Refusal;
use rd_store::{CreateFault, OpenFault};

/// The refusal of a command that cannot make a desk, by the reason.
pub(crate) fn not_made(fault: CreateFault) -> Refusal
    ensures { result ≡ refusal_to_create fault }
{
    match fault {
        CreateFault::Exists => Refusal::Exists,
        CreateFault::Sql => Refusal::Store,
    }
}

/// The refusal of a command that cannot open a desk, by the reason.
pub(crate) fn not_opened(fault: OpenFault) -> Refusal
    ensures { result ≡ refusal_to_open fault }
{
    match fault {
        OpenFault::NotADesk => Refusal::NotADesk,
        OpenFault::Version => Refusal::Version,
        OpenFault::Inconsistent => Refusal::Inconsistent,
        OpenFault::Sql => Refusal::Store,
    }
}
