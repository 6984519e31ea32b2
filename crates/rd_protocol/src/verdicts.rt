//! The tables of verdicts and of rehearsals, as CSV.

ghost use Rattle.std.specs.Prelude.{◌≡◌, ◌++◌, IfOk, OnOk, List, ℕ};
ghost use Rattle.std.specs.List.{flat_map};
ghost use Rattle.csv.specs.Writing.{default_writer, row_text};
ghost use Rattle.rd_protocol.specs.VerdictTables.{difference_record, differences_text, verdict_record, verdict_records, verdicts_text};
ghost use Rattle.rd_protocol.specs.Written.{HasWritten};

use crate::catalogue::{
    accession_cells, cell, file_cells, number, ruled_cells, write_cells, write_record,
};
use crate::response::{Difference, FileVerdicts, Verdicts};
use csv::{Writer, WriterBuilder};
use rd_geometry::{Items, NoMemory, Text};
use std::alloc::Global;

/// The names of the columns of verdicts.
const VERDICT_COLUMNS: [&[u8]; 15] = [
    b"accession",
    b"deed",
    b"kind",
    b"slot",
    b"user",
    b"name",
    b"type",
    b"size",
    b"faults",
    b"public",
    b"public_rule",
    b"room",
    b"room_rule",
    b"staff",
    b"staff_rule",
];

/// The names of the columns of a rehearsal.
const DIFFERENCE_COLUMNS: [&[u8]; 8] = [
    b"accession",
    b"slot",
    b"name",
    b"audience",
    b"effect",
    b"rule",
    b"then_effect",
    b"then_rule",
];

/// The cells of a file of an accession, in the order of the columns.
fn verdict_cells(alloc: Global, one: &Verdicts, file: &FileVerdicts) -> Result<[Text; 15], NoMemory>
    ensures { IfOk result (λ cells. cells ≡ verdict_record one.now file.now) }
{
    let heading = accession_cells(alloc, one.accession, one.deed, one.kind)?;
    let cells = file_cells(alloc, one.kind, &file.file)?;
    let public = ruled_cells(alloc, file.public)?;
    let room = ruled_cells(alloc, file.room)?;
    let staff = ruled_cells(alloc, file.staff)?;
    Ok([
        heading.accession,
        heading.deed,
        heading.kind,
        cells.slot,
        cells.user,
        cells.name,
        cells.ty,
        cells.size,
        cells.faults,
        public.effect,
        public.rule,
        room.effect,
        room.rule,
        staff.effect,
        staff.rule,
    ])
}

/// Writes the record of a file of an accession.
fn write_file(
    alloc: Global,
    writer: &mut Writer<Vec<u8>>,
    one: &Verdicts,
    file: &FileVerdicts,
) -> Result<(), NoMemory>
    ensures { (text : List ℕ) → HasWritten writer.old text
        → OnOk result (HasWritten writer.new (text ++ row_text default_writer (verdict_record one.now file.now))) }
{
    let cells = verdict_cells(alloc, one, file)?;
    write_cells(alloc, writer, &cells)
}

/// Writes the records of the files of an accession.
fn write_files(alloc: Global, writer: &mut Writer<Vec<u8>>, one: &Verdicts) -> Result<(), NoMemory>
    ensures { (text : List ℕ) → HasWritten writer.old text
        → OnOk result (HasWritten writer.new (text ++ verdict_records one.now)) }
{
    for file in one.files.as_slice() {
        write_file(alloc, writer, one, file)?;
    }
    Ok(())
}

/// Writes the records of each accession.
fn write_each(
    alloc: Global,
    writer: &mut Writer<Vec<u8>>,
    verdicts: &[Verdicts],
) -> Result<(), NoMemory>
    ensures { (text : List ℕ) → HasWritten writer.old text
        → OnOk result (HasWritten writer.new (text ++ flat_map verdict_records verdicts.now)) }
{
    for one in verdicts {
        write_files(alloc, writer, one)?;
    }
    Ok(())
}

/// The table of verdicts, with a line of the names of its columns. An error is `NoMemory`.
pub(crate) fn verdicts_table(alloc: Global, verdicts: &[Verdicts]) -> Result<Items<u8>, NoMemory>
    ensures { IfOk result (λ table. table ≡ verdicts_text verdicts.now) }
{
    let mut writer = WriterBuilder::new().from_writer(Vec::new(alloc));
    write_record(&mut writer, &VERDICT_COLUMNS)?;
    write_each(alloc, &mut writer, verdicts)?;
    match writer.into_inner() {
        Ok(table) => Ok(Items::of(table)),
        Err(_) => Err(NoMemory),
    }
}

/// The cells of a file and an audience, in the order of the columns.
fn difference_cells(alloc: Global, difference: &Difference) -> Result<[Text; 8], NoMemory>
    ensures { IfOk result (λ cells. cells ≡ difference_record difference.now) }
{
    let accession = number(alloc, Some(difference.accession))?;
    let slot = number(alloc, Some(u32::from(difference.slot)))?;
    let name = cell(alloc, difference.name.as_str())?;
    let audience = cell(alloc, difference.audience.word())?;
    let before = ruled_cells(alloc, difference.before)?;
    let after = ruled_cells(alloc, difference.after)?;
    Ok([
        accession,
        slot,
        name,
        audience,
        before.effect,
        before.rule,
        after.effect,
        after.rule,
    ])
}

/// Writes the record of a file and an audience.
fn write_difference(
    alloc: Global,
    writer: &mut Writer<Vec<u8>>,
    difference: &Difference,
) -> Result<(), NoMemory>
    ensures { (text : List ℕ) → HasWritten writer.old text
        → OnOk result (HasWritten writer.new (text ++ row_text default_writer (difference_record difference.now))) }
{
    let cells = difference_cells(alloc, difference)?;
    write_cells(alloc, writer, &cells)
}

/// Writes the records of differences.
fn write_differences(
    alloc: Global,
    writer: &mut Writer<Vec<u8>>,
    differences: &[Difference],
) -> Result<(), NoMemory>
    ensures { (text : List ℕ) → HasWritten writer.old text
        → OnOk result (HasWritten writer.new (text ++ flat_map (λ difference. row_text default_writer (difference_record difference)) differences.now)) }
{
    for difference in differences {
        write_difference(alloc, writer, difference)?;
    }
    Ok(())
}

/// The table of a rehearsal, with a line of the names of its columns. An error is `NoMemory`.
pub(crate) fn differences_table(
    alloc: Global,
    differences: &[Difference],
) -> Result<Items<u8>, NoMemory>
    ensures { IfOk result (λ table. table ≡ differences_text differences.now) }
{
    let mut writer = WriterBuilder::new().from_writer(Vec::new(alloc));
    write_record(&mut writer, &DIFFERENCE_COLUMNS)?;
    write_differences(alloc, &mut writer, differences)?;
    match writer.into_inner() {
        Ok(table) => Ok(Items::of(table)),
        Err(_) => Err(NoMemory),
    }
}
