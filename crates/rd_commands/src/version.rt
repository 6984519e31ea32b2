//! The version of the program.

ghost use Rattle.std.specs.Prelude.{◌≡◌, IfErr, IsTrue, OnErr, OnOk};
ghost use Rattle.std.specs.Io.KnownBytes.{Appends};
ghost use Rattle.rd_commands.specs.Output.{AppendsPart};
ghost use Rattle.rd_commands.specs.Versions.{version_line};

use crate::files::Files;
use crate::output::write_whole;
use crate::refusal::Refusal;
use std::io::Write;

/// The number of the version.
pub(crate) const VERSION: &str = "0.1.0";

/// The line that names the version.
const VERSION_LINE: &[u8] = b"desk 0.1.0\n";

/// Writes the line of the version, and flushes the output.
///
/// It fails with `Device` when a write or the flush fails: then a front part was written.
pub(crate) fn tell_version<F: Files, W: Write>(output: &mut W) -> Result<(), Refusal>
    ensures done { OnOk result (Appends (W.contents output.old) (W.contents output.new) version_line) }
    ensures cut { OnErr result
        (AppendsPart (W.contents output.old) (W.contents output.new) version_line) }
    ensures flushed { OnOk result (IsTrue (F.flushed (W.contents output.new))) }
    ensures device { IfErr result (λ refused. refused ≡ Refusal.Device) }
{
    write_whole::<F, W>(output, VERSION_LINE)
}
