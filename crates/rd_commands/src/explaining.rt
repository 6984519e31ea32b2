//! The lines of an explanation, below the line of a refusal.

ghost use Rattle.std.specs.Prelude.{flat_map};
ghost use Rattle.rd_explanations.specs.Explained.{shown_line};
ghost use Rattle.rd_commands.specs.Output.{AppendsPart};
ghost use Rattle.rd_commands.specs.Explaining.{GainsLines};

use crate::output::write_bytes;
use rd_explanations::{Notes, explained};
use std::alloc::Global;
use std::io::Write;

/// Writes what a command has noted, line by line. Where memory runs out nothing is written, a write that fails ends the
/// lines, and nothing reports either.
pub fn tell_notes<E: Write>(alloc: Global, notes: &Notes, errors: &mut E)
    ensures written { AppendsPart (E.contents errors.old) (E.contents errors.new) (flat_map shown_line notes.now.lines.items) }
    ensures lines { GainsLines (E.contents errors.old) (E.contents errors.new) }
{
    if let Ok(bytes) = explained(alloc, notes.lines.as_slice()) {
        let _ = write_bytes(errors, bytes.as_slice());
    }
}
