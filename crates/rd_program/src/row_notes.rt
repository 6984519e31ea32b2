//! Has a machine remember the rows of a sheet that an import does not do, for an explanation.

ghost use Rattle.std.specs.Prelude.{◌≡◌};
ghost use Rattle.rd_commands.specs.declared.remembered.RowNote.TheVariants as note;
ghost use Rattle.rd_explanations.specs.declared.words.Reason.TheVariants as reason;
ghost use Rattle.rd_protocol.specs.declared.refusal.Refusal.TheVariants as refusal;

use csv::ByteRecord;
use rd_commands::{Files, RowNote, SheetRow, bad_column};
use rd_desk::{Response, Unavailable};
use rd_explanations::Reason;
use rd_protocol::Refusal;

/// Why the desk does not take in the image of a row that names this deed.
fn reason_of(refused: Refusal, deed: u32) -> Reason
    ensures deed { refused ≡ refusal.NoDeed → result ≡ reason.NoDeed deed }
{
    match refused {
        Refusal::NoDeed => Reason::NoDeed(deed),
        Refusal::DigestDiffers => Reason::Digest,
        Refusal::Conflict => Reason::Conflict,
        Refusal::UnknownKey | Refusal::StaffOnly => Reason::Key,
        _ => Reason::Other,
    }
}

/// What to note of a row whose image the desk refuses, where its file has so many bytes.
fn note_of(row: SheetRow<'_>, found: usize, refused: Refusal) -> RowNote<'_>
    ensures deed { refused ≡ refusal.NoDeed
        → result ≡ note.Refused row.entry.acc (reason.NoDeed row.entry.deed) }
    ensures size { refused ≡ refusal.WrongSize → result ≡ note.Size row.entry.file found row.entry.kind }
{
    match refused {
        Refusal::WrongSize => RowNote::Size {
            file: row.file,
            found,
            kind: row.kind,
        },
        _ => RowNote::Refused(row.acc, reason_of(refused, row.deed)),
    }
}

/// Has a machine remember a row, counted from 1, whose image of so many bytes the desk refuses.
pub(crate) fn note_answer<M: Files>(
    number: u64,
    row: SheetRow,
    found: usize,
    answer: &Result<Response, Unavailable>,
    machine: &M,
) {
    if let Ok(Response::Refused(refused)) = answer {
        machine.note_row(number, note_of(row, found, *refused));
    }
}

/// Has a machine remember a row with a field that is missing or badly written.
pub(crate) fn note_bad_row<M: Files>(row: u64, fields: &ByteRecord, machine: &M) {
    if let Some(column) = bad_column(fields) {
        machine.note_row(row, RowNote::Bad(column));
    }
}
