//! The table of all listed files, as CSV.

ghost use Rattle.std.specs.Prelude.{◌≡◌, ◌++◌, IfOk, OnOk, List, map, ℕ};
ghost use Rattle.std.specs.Fmt.{decimal};
ghost use Rattle.std.specs.List.{flat_map};
ghost use Rattle.csv.specs.Writing.{default_writer, row_text};
ghost use Rattle.rd_geometry.specs.Kinds.{word_of};
ghost use Rattle.rd_policy.specs.Rules.{effect_word};
ghost use Rattle.rd_policy.specs.Verdicts.{label_text};
ghost use Rattle.rd_protocol.specs.Catalogues.{catalogue_text, faults_text, number_text, record_of, records_text};
ghost use Rattle.rd_protocol.specs.Written.{HasWritten};

use crate::listings::user_number;
use crate::response::{Line, Listing};
use csv::{Writer, WriterBuilder};
use rd_geometry::{Items, Kind, NoMemory, Text};
use rd_policy::Verdict;
use rd_volume::{Found, fault_words};
use std::alloc::Global;

/// The names of the columns.
const COLUMNS: [&[u8]; 11] = [
    b"accession",
    b"deed",
    b"kind",
    b"slot",
    b"user",
    b"name",
    b"type",
    b"size",
    b"faults",
    b"rule",
    b"effect",
];

/// A copy of a text.
pub(crate) fn cell(alloc: Global, text: &str) -> Result<Text, NoMemory>
    ensures { IfOk result (λ cell. cell ≡ text.now) }
{
    Ok(Text::of(String::from_str(alloc, text)?))
}

/// A number in decimal digits, or an empty text if there is none.
pub(crate) fn number(alloc: Global, number: Option<u32>) -> Result<Text, NoMemory>
    ensures { IfOk result (λ cell. cell ≡ number_text number) }
{
    match number {
        Some(number) => Ok(Text::of(number.to_string(alloc)?)),
        None => cell(alloc, ""),
    }
}

/// A user number in decimal digits, or an empty text if there is none.
pub(crate) fn user(alloc: Global, user: Option<u8>) -> Result<Text, NoMemory>
    ensures { IfOk result (λ cell. cell ≡ number_text user) }
{
    number(alloc, user_number(user))
}

/// The words of the faults whose bits are set, with one blank between them.
pub(crate) fn faults(alloc: Global, kind: Kind, faults: u8) -> Result<Text, NoMemory>
    ensures { IfOk result (λ cell. cell ≡ faults_text kind faults) }
{
    let mut words = Vec::new(alloc);
    for word in fault_words(kind, faults) {
        words.push(word)?;
    }
    Ok(Text::of(words.as_slice().join(alloc, " ")?))
}

/// The cells of an accession: its number, its deed's number and the kind of its disk.
#[derive(Drop)]
pub(crate) struct AccessionCells {
    pub(crate) accession: Text,
    pub(crate) deed: Text,
    pub(crate) kind: Text,
}

/// The cells of a file: its slot, user number, name, type, size in bytes and faults.
#[derive(Drop)]
pub(crate) struct FileCells {
    pub(crate) slot: Text,
    pub(crate) user: Text,
    pub(crate) name: Text,
    pub(crate) ty: Text,
    pub(crate) size: Text,
    pub(crate) faults: Text,
}

/// The cells of what the rules say of a file: the effect and the label of the rule.
#[derive(Drop)]
pub(crate) struct RuledCells {
    pub(crate) effect: Text,
    pub(crate) rule: Text,
}

/// The number of an accession, that of its deed, and the word for the kind of its image.
pub(crate) fn accession_cells(
    alloc: Global,
    accession: u32,
    deed: u32,
    kind: Kind,
) -> Result<AccessionCells, NoMemory>
    ensures accession { IfOk result (λ cells. cells.accession ≡ decimal accession) }
    ensures deed { IfOk result (λ cells. cells.deed ≡ decimal deed) }
    ensures kind { IfOk result (λ cells. cells.kind ≡ word_of kind) }
{
    Ok(AccessionCells {
        accession: number(alloc, Some(accession))?,
        deed: number(alloc, Some(deed))?,
        kind: cell(alloc, kind.word())?,
    })
}

/// What the index tells of a file on an image of a kind.
pub(crate) fn file_cells(alloc: Global, kind: Kind, file: &Found) -> Result<FileCells, NoMemory>
    ensures slot { IfOk result (λ cells. cells.slot ≡ decimal file.now.slot) }
    ensures user { IfOk result (λ cells. cells.user ≡ number_text file.now.user) }
    ensures name { IfOk result (λ cells. cells.name ≡ file.now.name) }
    ensures ty { IfOk result (λ cells. cells.ty ≡ file.now.ty) }
    ensures size { IfOk result (λ cells. cells.size ≡ number_text file.now.size) }
    ensures faults { IfOk result (λ cells. cells.faults ≡ faults_text kind file.now.faults) }
{
    Ok(FileCells {
        slot: number(alloc, Some(u32::from(file.slot)))?,
        user: user(alloc, file.user)?,
        name: cell(alloc, file.name.as_str())?,
        ty: cell(alloc, file.ty.as_str())?,
        size: number(alloc, file.size)?,
        faults: faults(alloc, kind, file.faults)?,
    })
}

/// The word for what the desk does with a file, and the label of the rule that decided.
pub(crate) fn ruled_cells(alloc: Global, verdict: Verdict) -> Result<RuledCells, NoMemory>
    ensures effect { IfOk result (λ cells. cells.effect ≡ effect_word verdict.effect) }
    ensures rule { IfOk result (λ cells. cells.rule ≡ label_text verdict.label) }
{
    Ok(RuledCells {
        effect: cell(alloc, verdict.effect.word())?,
        rule: Text::of(verdict.label.to_string(alloc)?),
    })
}

/// The cells of a file of an accession, in the order of the columns.
fn catalogue_cells(alloc: Global, listing: &Listing, line: &Line) -> Result<[Text; 11], NoMemory>
    ensures { IfOk result (λ cells. cells ≡ record_of listing.now line.now) }
{
    let heading = accession_cells(alloc, listing.accession, listing.deed, listing.kind)?;
    let file = file_cells(alloc, listing.kind, &line.file)?;
    let ruled = ruled_cells(alloc, line.verdict)?;
    Ok([
        heading.accession,
        heading.deed,
        heading.kind,
        file.slot,
        file.user,
        file.name,
        file.ty,
        file.size,
        file.faults,
        ruled.rule,
        ruled.effect,
    ])
}

pub(crate) fn write_record(writer: &mut Writer<Vec<u8>>, fields: &[&[u8]]) -> Result<(), NoMemory>
    ensures { (text : List ℕ) → HasWritten writer.old text
        → OnOk result (HasWritten writer.new (text ++ row_text default_writer (map (λ field. field.now) fields.now))) }
{
    match writer.write_fields(fields) {
        Ok(()) => Ok(()),
        Err(_) => Err(NoMemory),
    }
}

/// Writes one record of these cells.
pub(crate) fn write_cells(
    alloc: Global,
    writer: &mut Writer<Vec<u8>>,
    cells: &[Text],
) -> Result<(), NoMemory>
    ensures { (text : List ℕ) → HasWritten writer.old text
        → OnOk result (HasWritten writer.new (text ++ row_text default_writer cells.now)) }
{
    let mut fields = Vec::new(alloc);
    for cell in cells {
        fields.push(cell.as_str().as_bytes())?;
    }
    write_record(writer, fields.as_slice())
}

/// Writes the record of a file of an accession.
fn write_line(
    alloc: Global,
    writer: &mut Writer<Vec<u8>>,
    listing: &Listing,
    line: &Line,
) -> Result<(), NoMemory>
    ensures { (text : List ℕ) → HasWritten writer.old text
        → OnOk result (HasWritten writer.new (text ++ row_text default_writer (record_of listing.now line.now))) }
{
    let cells = catalogue_cells(alloc, listing, line)?;
    write_cells(alloc, writer, &cells)
}

/// Writes the records of the files of an accession.
fn write_listing(
    alloc: Global,
    writer: &mut Writer<Vec<u8>>,
    listing: &Listing,
) -> Result<(), NoMemory>
    ensures { (text : List ℕ) → HasWritten writer.old text
        → OnOk result (HasWritten writer.new (text ++ records_text listing.now)) }
{
    for line in listing.files.as_slice() {
        write_line(alloc, writer, listing, line)?;
    }
    Ok(())
}

/// Writes the records of each accession.
fn write_listings(
    alloc: Global,
    writer: &mut Writer<Vec<u8>>,
    listings: &[Listing],
) -> Result<(), NoMemory>
    ensures { (text : List ℕ) → HasWritten writer.old text
        → OnOk result (HasWritten writer.new (text ++ flat_map records_text listings.now)) }
{
    for listing in listings {
        write_listing(alloc, writer, listing)?;
    }
    Ok(())
}

/// The table, with a line of the names of its columns. An error is `NoMemory`.
pub(crate) fn table(alloc: Global, listings: &[Listing]) -> Result<Items<u8>, NoMemory>
    ensures { IfOk result (λ table. table ≡ catalogue_text listings.now) }
{
    let mut writer = WriterBuilder::new().from_writer(Vec::new(alloc));
    write_record(&mut writer, &COLUMNS)?;
    write_listings(alloc, &mut writer, listings)?;
    match writer.into_inner() {
        Ok(table) => Ok(Items::of(table)),
        Err(_) => Err(NoMemory),
    }
}
