//! Takes in images, row by row of a sheet, or tells what would become of the rows.

ghost use Rattle.std.specs.Prelude.{◌≡◌, IfErr, IfNone, IfOk, IfSome, IsTrue, OnErr, OnOk, false, true};
ghost use Rattle.std.specs.Io.KnownBytes.{Appends};
ghost use Rattle.csv.specs.Records.{fields_of};
ghost use Rattle.sha2.specs.Sha256.{sha256};
ghost use Rattle.rd_policy.specs.Days.{IsDay};
ghost use Rattle.rd_store.specs.Held.{Reads, desk as desk_in};
ghost use Rattle.rd_desk.specs.Served.{Responds};
ghost use Rattle.rd_desk.specs.Shelving.{WouldAnswer};
ghost use Rattle.rd_commands.specs.Output.{AppendsPart, IsFlushed};
ghost use Rattle.rd_commands.specs.Refusals.{IsDeviceOrMemory};
ghost use Rattle.rd_commands.specs.Sheets.{IsWithin, Says};
ghost use Rattle.rd_program.specs.Asked.{AsksOn};
ghost use Rattle.rd_program.specs.Does.{DoesImport};
ghost use Rattle.rd_program.specs.World.{ChangesClock};
ghost use Rattle.rd_program.specs.Leaves.{GivesBack, IsDayAt, IsSame, LeavesDesk, moment_of};
ghost use Rattle.rd_program.specs.Leaves.{TakesFields, TakesRow, TakesUnlessDry};
ghost use Rattle.rd_program.specs.Rows.{IsBadSheetDue};
ghost use Rattle.rd_program.specs.ImportedRows as spec;
ghost use Rattle.rd_program.specs.Importing.{RefusesImport, RefusesRow, RefusesRows, TellsRow, TellsRows};
ghost use Rattle.rd_program.specs.Importing.{accession_line, done_word as done_word_of, row_line};
ghost use Rattle.rd_program.specs.ImportedRows.{CutsOutcome, ImportsOne, ImportsRows, StopsOne, StopsRows};

use crate::machine::{Machine, file_at, sheet_at};
use crate::open_desk::{day_on_time, open_desk};
use crate::row_notes::{note_answer, note_bad_row};
use csv::{ByteRecord, ReaderBuilder};
use rd_commands::{
    Done, ImportAsk, MachineFault, Refusal, RowNote, SheetRow, is_header, next_row, row_of,
    write_whole,
};
use rd_desk::{Desk, Items, Request, Response, Shelf, Shelved, Unavailable, What};
use sha2::{Digest, Sha256};
use sqlite::Alter;
use std::alloc::Global;
use std::io::Write;

/// Who gives images, and when.
#[derive(Clone, Copy)]
struct Giver {
    /// The SHA-256 of the desk key.
    badge: [u8; 32],
    /// The day, counted from 1970-01-01.
    day: i32,
}

/// What a desk answers that is asked to take in a row's image; `Unavailable` if its store or memory fails.
fn put_image<S: Alter + Drop>(
    alloc: Global,
    row: SheetRow,
    bytes: Vec<u8>,
    giver: Giver,
    desk: &mut Desk<S>,
) -> Result<Response, Unavailable>
    requires day { IsDay giver.day }
    requires within { IsWithin row }
    ensures responds { Responds S.Store desk.old.store desk.new.store giver.day
        (spec.put_of giver.badge row.entry bytes.items) result }
    ensures zone { desk.new.zone ≡ desk.old.zone }
{
    let what = What::PutImage {
        acc: row.acc,
        kind: row.kind,
        deed: row.deed,
        digest: row.digest,
        bytes: Items::of(bytes),
    };
    let badge = Some(giver.badge);
    desk.respond(alloc, giver.day, &Request { badge, what })
}

/// Writes the line of an accession, which says in a word what became of its row, and flushes the output. It
/// fails with `NoMemory`, and with `Device` when a write or the flush fails.
fn tell_accession<M: Machine, W: Write>(
    alloc: Global,
    acc: u32,
    word: &str,
    output: &mut W,
) -> Result<(), Refusal>
    ensures done { OnOk result
        (Appends (W.contents output.old) (W.contents output.new) (accession_line acc word.now)) }
    ensures cut { OnErr result
        (AppendsPart (W.contents output.old) (W.contents output.new) (accession_line acc word.now)) }
    ensures flushed { OnOk result (IsTrue (M.flushed (W.contents output.new))) }
    ensures refused { IfErr result IsDeviceOrMemory }
{
    let mut line = String::new(alloc);
    write!(line, "{acc} {word}\n")?;
    write_whole::<M, W>(output, line.as_bytes())
}

/// Writes the line of a row, counted from 1, which says in a word what became of it, and flushes the output.
/// It fails with `NoMemory`, and with `Device` when a write or the flush fails.
fn tell_row<M: Machine, W: Write>(
    alloc: Global,
    number: u64,
    word: &str,
    output: &mut W,
) -> Result<(), Refusal>
    ensures done { OnOk result
        (Appends (W.contents output.old) (W.contents output.new) (row_line number word.now)) }
    ensures cut { OnErr result
        (AppendsPart (W.contents output.old) (W.contents output.new) (row_line number word.now)) }
    ensures flushed { OnOk result (IsTrue (M.flushed (W.contents output.new))) }
    ensures refused { IfErr result IsDeviceOrMemory }
{
    let mut line = String::new(alloc);
    write!(line, "row {number} {word}\n")?;
    write_whole::<M, W>(output, line.as_bytes())
}

/// The flags of `import`.
#[derive(Clone, Copy)]
pub(crate) struct ImportFlags {
    /// Whether nothing is taken in.
    pub(crate) dry_run: bool,
    /// Whether it goes on after a file that cannot be read.
    pub(crate) keep_going: bool,
}

/// What became of a row, or of all rows.
#[derive(Clone, Copy, PartialEq, Eq)]
pub(crate) enum RowOutcome {
    /// It is done, or would be.
    Done,
    /// It is refused.
    Denied,
    /// Its file could not be read.
    Lost,
}

impl RowOutcome {
    /// The worse of two.
    fn worse(self, other: RowOutcome) -> RowOutcome
        ensures { result ≡ spec.worse self other }
    {
        match (self, other) {
            (RowOutcome::Done, other) => other,
            (RowOutcome::Denied, RowOutcome::Lost) | (RowOutcome::Lost, _) => RowOutcome::Lost,
            (RowOutcome::Denied, RowOutcome::Done | RowOutcome::Denied) => RowOutcome::Denied,
        }
    }
}

/// What the line of an accession says of an image that is taken in, or would be.
fn done_word(dry_run: bool) -> &'static str
    ensures { result.now ≡ done_word_of dry_run }
{
    if dry_run { "would-be-done" } else { "done" }
}

/// What the line of an accession says of an answer.
fn word_by(dry_run: bool, answer: &Response) -> &'static str
    ensures { result.now ≡ spec.word_by dry_run answer.now }
{
    match answer {
        Response::Refused(reason) => reason.name(),
        _ => done_word(dry_run),
    }
}

/// What became of a row, by the answer of the desk.
fn outcome_by(answer: &Response) -> RowOutcome
    ensures { result ≡ spec.outcome_by answer.now }
{
    match answer {
        Response::Refused(_) => RowOutcome::Denied,
        _ => RowOutcome::Done,
    }
}

/// What a desk answers that is asked to take in the image of a row, or, in a dry run, what it would answer
/// after the earlier rows. It fails as `put_image` does.
fn answer_to_row<M: Machine>(
    alloc: Global,
    row: SheetRow,
    bytes: Vec<u8>,
    flags: ImportFlags,
    giver: Giver,
    desk: &mut Desk<M::Disk>,
    shelf: &mut Shelf,
) -> Result<Response, Unavailable>
    requires day { IsDay giver.day }
    requires within { IsWithin row }
    ensures zone { desk.new.zone ≡ desk.old.zone }
    ensures dry { flags.dry_run ≡ true → Reads M.Disk.Store desk.old.store desk.new.store result
        (WouldAnswer shelf.old.images.items shelf.new.images.items (desk_in M.Disk.Store desk.old.store)
        giver.badge (spec.shelved_row row.entry) bytes.items) }
    ensures wet { flags.dry_run ≡ false → Responds M.Disk.Store desk.old.store desk.new.store giver.day
        (spec.put_of giver.badge row.entry bytes.items) result }
    ensures shelf { flags.dry_run ≡ false → shelf.new.images.items ≡ shelf.old.images.items }
{
    if !flags.dry_run {
        return put_image(alloc, row, bytes, giver, desk);
    }
    let digest = row.digest;
    let image = Shelved {
        acc: row.acc,
        kind: row.kind,
        deed: row.deed,
        digest,
    };
    desk.would_take(alloc, &giver.badge, image, bytes.as_slice(), shelf)
}

/// The bytes of the file of a row, counted from 1; `None` if it cannot be read and the run goes on after it.
/// It fails with `Device` when it cannot be read and the run does not go on, and with `NoMemory`.
fn row_bytes<M: Machine>(
    alloc: Global,
    file: &str,
    number: u64,
    flags: ImportFlags,
    machine: &mut M,
) -> Result<Option<Vec<u8>>, Refusal>
    ensures read { IfOk result (λ found. IfSome found
        (λ bytes. IfSome ((M.seen machine.old).files file.now) (λ shown. bytes.items ≡ shown))) }
    ensures lost { IfOk result (λ found. IfNone found (flags.keep_going ≡ true)) }
    ensures goes_on { flags.keep_going ≡ true → IfErr result (λ refusal. refusal ≡ Refusal.NoMemory) }
    ensures same { machine.new ≡ machine.old }
    ensures refused { IfErr result IsDeviceOrMemory }
{
    let fault = match file_at(alloc, file, machine) {
        Ok(bytes) => return Ok(Some(bytes)),
        Err(fault) => fault,
    };
    machine.note_row(number, RowNote::Unread);
    if flags.keep_going && fault == MachineFault::Failed {
        return Ok(None);
    }
    Err(fault.or(Refusal::Device))
}

/// Writes a line with what a desk answers about an accession, or would answer. It fails with `Store` when
/// there is no answer, with `NoMemory`, and with `Device` when a write or the flush fails.
fn tell_outcome<M: Machine, W: Write>(
    alloc: Global,
    acc: u32,
    dry_run: bool,
    answer: Result<Response, Unavailable>,
    output: &mut W,
) -> Result<RowOutcome, Refusal>
    ensures written { IfOk result
        (spec.TellsOutcome acc dry_run answer (W.contents output.old) (W.contents output.new)) }
    ensures cut { OnErr result
        (CutsOutcome acc dry_run answer (W.contents output.old) (W.contents output.new)) }
    ensures flushed { OnOk result (IsTrue (M.flushed (W.contents output.new))) }
    ensures refused { IfErr result (RefusesRow (W.contents output.old) (W.contents output.new)) }
{
    let Ok(answer) = answer else {
        return Err(Refusal::Store);
    };
    tell_accession::<M, W>(alloc, acc, word_by(dry_run, &answer), output)?;
    Ok(outcome_by(&answer))
}

/// Takes a row, and writes its line. Rows are counted from 1. It fails as `row_bytes` and `tell_outcome` do.
fn import_row<W: Write, M: Machine>(
    alloc: Global,
    row: SheetRow,
    number: u64,
    flags: ImportFlags,
    giver: Giver,
    desk: &mut Desk<M::Disk>,
    shelf: &mut Shelf,
    output: &mut W,
    machine: &mut M,
) -> Result<RowOutcome, Refusal>
    requires day { IsDay giver.day }
    requires within { IsWithin row }
    ensures zone { desk.new.zone ≡ desk.old.zone }
    ensures same { machine.new ≡ machine.old }
    ensures dry { flags.dry_run ≡ true → LeavesDesk M.Disk.Store IsSame desk.old.store desk.new.store }
    ensures wet { flags.dry_run ≡ false → LeavesDesk M.Disk.Store (TakesRow giver.badge giver.day row.entry)
        desk.old.store desk.new.store }
    ensures row { IfOk result (λ outcome. (fields : _) → Says fields row.entry
        → ImportsOne M.Disk.Store Appends (M.seen machine.old).files flags giver.badge giver.day number fields
        outcome shelf.old.images.items shelf.new.images.items (W.contents output.old) (W.contents output.new)
        desk.old.store desk.new.store) }
    ensures stopped { OnErr result ((fields : _) → Says fields row.entry
        → StopsOne M.Disk.Store (M.seen machine.old).files flags giver.badge giver.day number
        fields shelf.old.images.items shelf.new.images.items (W.contents output.old) (W.contents output.new)
        desk.old.store desk.new.store) }
    ensures written { IfOk result (TellsRow flags.dry_run (W.contents output.old) (W.contents output.new)) }
    ensures flushed { OnOk result (IsTrue (M.flushed (W.contents output.new))) }
    ensures refused { IfErr result (RefusesRow (W.contents output.old) (W.contents output.new)) }
{
    let Some(bytes) = row_bytes(alloc, row.file, number, flags, machine)? else {
        tell_row::<M, W>(alloc, number, "device", output)?;
        return Ok(RowOutcome::Lost);
    };
    let found = bytes.len();
    let answer = answer_to_row::<M>(alloc, row, bytes, flags, giver, desk, shelf);
    note_answer(number, row, found, &answer, machine);
    tell_outcome::<M, W>(alloc, row.acc, flags.dry_run, answer, output)
}

/// Takes the row with these fields, counted from 1, and writes its line. It fails as `import_row` does.
fn import_fields<W: Write, M: Machine>(
    alloc: Global,
    fields: &ByteRecord,
    number: u64,
    flags: ImportFlags,
    giver: Giver,
    desk: &mut Desk<M::Disk>,
    shelf: &mut Shelf,
    output: &mut W,
    machine: &mut M,
) -> Result<RowOutcome, Refusal>
    requires day { IsDay giver.day }
    ensures zone { desk.new.zone ≡ desk.old.zone }
    ensures same { machine.new ≡ machine.old }
    ensures dry { flags.dry_run ≡ true → LeavesDesk M.Disk.Store IsSame desk.old.store desk.new.store }
    ensures wet { flags.dry_run ≡ false → LeavesDesk M.Disk.Store
        (TakesFields giver.badge giver.day (fields_of fields.now)) desk.old.store desk.new.store }
    ensures row { IfOk result (λ outcome. ImportsOne M.Disk.Store Appends (M.seen machine.old).files flags
        giver.badge giver.day number (fields_of fields.now) outcome shelf.old.images.items
        shelf.new.images.items (W.contents output.old) (W.contents output.new)
        desk.old.store desk.new.store) }
    ensures stopped { OnErr result (StopsOne M.Disk.Store (M.seen machine.old).files flags giver.badge
        giver.day number (fields_of fields.now) shelf.old.images.items shelf.new.images.items
        (W.contents output.old) (W.contents output.new) desk.old.store desk.new.store) }
    ensures written { IfOk result (TellsRow flags.dry_run (W.contents output.old) (W.contents output.new)) }
    ensures flushed { OnOk result (IsTrue (M.flushed (W.contents output.new))) }
    ensures refused { IfErr result (RefusesRow (W.contents output.old) (W.contents output.new)) }
{
    match row_of(fields) {
        Some(row) => import_row(
            alloc, row, number, flags, giver, desk, shelf, output, machine,
        ),
        None => {
            note_bad_row(number, fields, machine);
            tell_row::<M, W>(alloc, number, "bad-row", output)?;
            Ok(RowOutcome::Denied)
        }
    }
}

/// Takes the rows of a sheet in turn, and writes their lines. It fails with `BadSheet` when the header is
/// another, or at a row of another length, with the rows before it done, and as `import_row` does.
fn import_rows<W: Write, M: Machine>(
    alloc: Global,
    sheet: &[u8],
    flags: ImportFlags,
    giver: Giver,
    desk: &mut Desk<M::Disk>,
    output: &mut W,
    machine: &mut M,
) -> Result<RowOutcome, Refusal>
    requires day { IsDay giver.day }
    ensures zone { desk.new.zone ≡ desk.old.zone }
    ensures same { machine.new ≡ machine.old }
    ensures takes { LeavesDesk M.Disk.Store
        (TakesUnlessDry flags.dry_run giver.badge (λ day. day ≡ giver.day)) desk.old.store desk.new.store }
    ensures rows { IfOk result (λ outcome. ImportsRows M.Disk.Store (M.seen machine.old).files flags
        giver.badge giver.day sheet.now (W.contents output.old) (W.contents output.new) outcome
        desk.old.store desk.new.store) }
    ensures stopped { OnErr result (StopsRows M.Disk.Store (M.seen machine.old).files flags giver.badge
        giver.day sheet.now (W.contents output.old) (W.contents output.new) desk.old.store desk.new.store) }
    ensures flushed { OnOk result (IsFlushed M.flushed (W.contents output.old) (W.contents output.new)) }
    ensures bad_sheet { IfErr result (IsBadSheetDue sheet.now) }
    ensures written { IfOk result (TellsRows flags.dry_run (W.contents output.old) (W.contents output.new)) }
    ensures refused { IfErr result (RefusesRows (W.contents output.old) (W.contents output.new)) }
{
    let mut reader = ReaderBuilder::new()
        .has_headers(false)
        .from_reader(alloc, sheet);
    let mut fields = ByteRecord::new(alloc);
    if !next_row(&mut reader, &mut fields)? || !is_header(&fields) {
        return Err(Refusal::BadSheet);
    }
    let mut shelf = Shelf::new(alloc);
    let mut outcome = RowOutcome::Done;
    for number in 1..u64::MAX {
        if !next_row(&mut reader, &mut fields)? {
            return Ok(outcome);
        }
        let row = import_fields(
            alloc, &fields, number, flags, giver, desk, &mut shelf, output, machine,
        )?;
        outcome = outcome.worse(row);
    }
    // No memory holds a sheet of so many rows.
    Err(Refusal::NoMemory)
}

/// How the command ends, by what became of all rows. It fails with `Device` if a row's file was not readable.
fn ended_by(outcome: RowOutcome) -> Result<Done, Refusal>
    ensures ended { IfOk result (λ done. outcome ≡ spec.rows_outcome done) }
    ensures lost { IfErr result (λ refusal. (refusal ≡ Refusal.Device) × (outcome ≡ RowOutcome.Lost)) }
{
    match outcome {
        RowOutcome::Done => Ok(Done::Whole),
        RowOutcome::Denied => Ok(Done::InPart),
        RowOutcome::Lost => Err(Refusal::Device),
    }
}

/// Takes the rows of the sheet that the command names, at the moment that it names. It fails with `Clock`
/// when the clock fails, the moment has no day, or the clock shows a day that is more than one day before
/// that of a recorded check, with `Store` when the checks cannot be read, with `Device` when it cannot read
/// the sheet or, at its end, the file of a row, with `NoMemory`, and as `import_rows` does.
fn import_sheet<W: Write, M: Machine>(
    alloc: Global,
    ask: ImportAsk,
    flags: ImportFlags,
    desk: &mut Desk<M::Disk>,
    output: &mut W,
    machine: &mut M,
) -> Result<Done, Refusal>
    ensures moment { AsksOn M.Disk.Store true ask.entry.when (M.seen machine.old).clock desk.old.zone
        desk.old.store desk.new.store result }
    ensures frame { ChangesClock (M.seen machine.old) (M.seen machine.new) }
    ensures takes { LeavesDesk M.Disk.Store (TakesUnlessDry flags.dry_run (sha256 ask.entry.key.now)
        (IsDayAt (moment_of ask.entry.when.seconds (M.seen machine.old).clock) desk.old.zone))
        desk.old.store desk.new.store }
    ensures rows { IfOk result (λ done. spec.ImportsOn M.Disk.Store (M.seen machine.old).files
        flags (sha256 ask.entry.key.now)
        (IsDayAt (moment_of ask.entry.when.seconds (M.seen machine.old).clock) desk.old.zone)
        ((M.seen machine.old).sheets ask.entry.sheet.now) (W.contents output.old) (W.contents output.new)
        done desk.old.store desk.new.store) }
    ensures stopped { OnErr result (spec.StopsOn M.Disk.Store (M.seen machine.old).files
        flags (sha256 ask.entry.key.now)
        (IsDayAt (moment_of ask.entry.when.seconds (M.seen machine.old).clock) desk.old.zone)
        ((M.seen machine.old).sheets ask.entry.sheet.now) (W.contents output.old) (W.contents output.new)
        desk.old.store desk.new.store) }
    ensures written { IfOk result (λ done. TellsRows flags.dry_run (W.contents output.old)
        (W.contents output.new) (spec.rows_outcome done)) }
    ensures flushed { OnOk result (IsFlushed M.flushed (W.contents output.old) (W.contents output.new)) }
    ensures refused { IfErr result (RefusesImport (W.contents output.old) (W.contents output.new)) }
    ensures bad_sheet { IfErr result (λ refusal. IfSome ((M.seen machine.old).sheets ask.entry.sheet.now)
        (λ bytes. IsBadSheetDue bytes refusal)) }
{
    let day = day_on_time(ask.when, desk, machine)?;
    let sheet = match sheet_at(alloc, ask.sheet, machine) {
        Ok(sheet) => sheet,
        Err(fault) => return Err(fault.or(Refusal::Device)),
    };
    let badge = Sha256::digest(ask.key);
    let giver = Giver { badge, day };
    ended_by(import_rows(alloc, sheet.as_slice(), flags, giver, desk, output, machine)?)
}

/// Takes the images of a sheet into the desk in the file of a store, row by row, or tells what would become
/// of the rows, and writes a line for each that says so. It flushes each line. It fails as `open_desk` does,
/// then as `import_sheet` does. The images taken in before stay.
pub(crate) fn import<W: Write, M: Machine>(
    alloc: Global,
    ask: ImportAsk,
    flags: ImportFlags,
    output: &mut W,
    machine: &mut M,
) -> Result<Done, Refusal>
    ensures does { DoesImport M.Disk.Store (M.seen machine.old) (M.seen machine.new) (W.contents output.old)
        (W.contents output.new) ask.entry flags result }
    ensures refused { IfErr result (RefusesImport (W.contents output.old) (W.contents output.new)) }
    ensures flushed { OnOk result (IsFlushed M.flushed (W.contents output.old) (W.contents output.new)) }
    ensures back { GivesBack (M.seen machine.old).shows (M.seen machine.old).left (M.seen machine.new).left }
{
    let mut desk = open_desk(alloc, ask.store, ask.when.zone, machine)?;
    let imported = import_sheet(alloc, ask, flags, &mut desk, output, machine);
    machine.release(&mut Some(desk.into_store().into_connection()));
    imported
}
