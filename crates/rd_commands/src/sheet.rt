//! The rows of a sheet: a table as CSV with the columns `accession`, `kind`, `deed`, `sha256` and
//! `file`, and in each row an image to take in.

ghost use Rattle.std.specs.Prelude.{◌≡◌, ◌≢◌, ◌↔◌, [], IfErr, IfNone, IfOk, IfSome, IsTrue, Ok, OnOk, Some, false, option_map, true};
ghost use Rattle.csv.specs.Reading.{ReadRecord, ReadsOn, Ready, has_failed, reader_trim, took_first};
ghost use Rattle.csv.specs.Records.{field_at, fields_of};
ghost use Rattle.csv.specs.declared.reader.Trim.TheVariants as trim;
ghost use Rattle.rd_policy.specs.Rules.{IsScope};
ghost use Rattle.rd_commands.specs.Explaining.{IsBadAt};
ghost use Rattle.rd_commands.specs.Sheets as spec;
ghost use Rattle.rd_commands.specs.Sheets.{HasOtherLength, IsBad, IsReadRefusal, IsWithin, Says, header};

use crate::refusal::Refusal;
use csv::{ByteRecord, ErrorKind, Reader};
use rd_explanations::Column;
use rd_protocol::{digest, scope};
use rd_volume::Kind;
use std::str;

/// What a row says of an image.
#[derive(Clone, Copy, Debug)]
pub struct SheetRow<'a> {
    /// The number of its accession, 1 to 999,999.
    pub acc: u32,
    /// Its kind.
    pub kind: Kind,
    /// The number of its deed, 1 to 999,999.
    pub deed: u32,
    /// The SHA-256 that its bytes must have.
    pub digest: [u8; 32],
    /// The path of its file, which is not empty.
    pub file: &'a str,
}

/// The text of the field at a place; `None` if there is none or it is not UTF-8.
fn text_at(fields: &ByteRecord, place: usize) -> Option<&str>
    ensures { option_map (λ text. text.now) result ≡ spec.text_at place (fields_of fields.now) }
{
    str::from_utf8(fields.get(place)?).ok()
}

/// The number of an accession or a deed that the field at a place writes.
fn scope_at(fields: &ByteRecord, place: usize) -> Option<u32>
    ensures value { result ≡ spec.scope_at place (fields_of fields.now) }
    ensures within { IfSome result IsScope }
{
    scope(text_at(fields, place)?)
}

/// The kind that the field at a place names.
fn kind_at(fields: &ByteRecord, place: usize) -> Option<Kind>
    ensures { result ≡ spec.kind_at place (fields_of fields.now) }
{
    Kind::from_word(text_at(fields, place)?)
}

/// The digest that the field at a place writes.
fn digest_at(fields: &ByteRecord, place: usize) -> Option<[u8; 32]>
    ensures { result ≡ spec.digest_at place (fields_of fields.now) }
{
    digest(text_at(fields, place)?)
}

/// The path that the field at a place is, which is not empty.
fn path_at(fields: &ByteRecord, place: usize) -> Option<&str>
    ensures { option_map (λ path. path.now) result ≡ spec.path_at place (fields_of fields.now) }
{
    let path = text_at(fields, place)?;
    if path.is_empty() { None } else { Some(path) }
}

/// What a row says of an image; `None` if a field is missing, is not UTF-8, or is badly written:
/// the numbers, the kind and the digest are written as in paths of HTTP, and the path is not
/// empty.
pub fn row_of(fields: &ByteRecord) -> Option<SheetRow<'_>>
    ensures says { IfSome result (Says (fields_of fields.now)) }
    ensures bad { IfNone result (IsBad (fields_of fields.now)) }
    ensures within { IfSome result IsWithin }
{
    Some(SheetRow {
        acc: scope_at(fields, 0)?,
        kind: kind_at(fields, 1)?,
        deed: scope_at(fields, 2)?,
        digest: digest_at(fields, 3)?,
        file: path_at(fields, 4)?,
    })
}

/// The first column whose field is missing or badly written; `None` if there is none, as in the fields of which `row_of`
/// gives a row.
pub fn bad_column(fields: &ByteRecord) -> Option<Column>
    ensures bad { IfSome result (IsBadAt (fields_of fields.now)) }
    ensures none { IfNone result ((column : Column) → ¬ IsBadAt (fields_of fields.now) column) }
{
    if scope_at(fields, 0).is_none() {
        return Some(Column::Accession);
    }
    if kind_at(fields, 1).is_none() {
        return Some(Column::Kind);
    }
    if scope_at(fields, 2).is_none() {
        return Some(Column::Deed);
    }
    if digest_at(fields, 3).is_none() {
        return Some(Column::Digest);
    }
    if path_at(fields, 4).is_none() {
        return Some(Column::File);
    }
    None
}

/// Whether the field at a place is this name.
fn is_named(fields: &ByteRecord, place: usize, name: &str) -> bool
    ensures { IsTrue result ↔ (field_at (fields_of fields.now) place ≡ Some name.now) }
{
    match fields.get(place) {
        Some(field) => field == name.as_bytes(),
        None => false,
    }
}

/// Whether the fields are the names of the columns.
pub fn is_header(fields: &ByteRecord) -> bool
    ensures { IsTrue result ↔ (fields_of fields.now ≡ header) }
{
    if fields.len() != 5 {
        return false;
    }
    if !is_named(fields, 0, "accession") {
        return false;
    }
    if !is_named(fields, 1, "kind") {
        return false;
    }
    if !is_named(fields, 2, "deed") {
        return false;
    }
    if !is_named(fields, 3, "sha256") {
        return false;
    }
    is_named(fields, 4, "file")
}

/// Why a row is not read: `BadSheet` if it has another number of fields, `NoMemory`, and `Device` for any other error.
fn refusal_of(kind: &ErrorKind) -> Refusal
    ensures { result ≡ spec.refusal_of kind.now }
{
    match kind {
        ErrorKind::UnequalLengths { .. } => Refusal::BadSheet,
        ErrorKind::OutOfMemory => Refusal::NoMemory,
        _ => Refusal::Device,
    }
}

/// Reads the next row of a sheet, and gives whether there is one. If there is, it has as many
/// fields as the first row read.
///
/// It fails with `BadSheet` when a row has another number of fields, with `NoMemory`, and with
/// `Device` when the reader fails, which one over a slice never does. After `BadSheet` the reader goes
/// on with the row after that one. After `NoMemory` or `Device` it has failed: each later call gives
/// `false` and empties the fields.
pub fn next_row(reader: &mut Reader<&[u8]>, fields: &mut ByteRecord) -> Result<bool, Refusal>
    ensures refused { IfErr result IsReadRefusal }
    ensures read { IfOk result (λ found. reader_trim reader.old ≡ trim.None → Ready reader.old
        → ReadRecord (λ rest. Some rest.now) reader.old reader.new found (fields_of fields.new)) }
    ensures reads_on { IfOk result (λ found. found ≡ true → ReadsOn reader.old reader.new) }
    ensures length { IfErr result (λ refusal. Ready reader.old → refusal ≡ Refusal.BadSheet → HasOtherLength reader.old reader.new) }
    ensures goes_on { IfErr result (λ refusal. refusal ≡ Refusal.BadSheet → (has_failed reader.new ≡ false) × ReadsOn reader.old reader.new) }
    ensures ready { reader_trim reader.old ≡ trim.None → OnOk result (took_first reader.new ≡ true) }
    ensures kept { OnOk result (has_failed reader.new ≡ has_failed reader.old) }
    ensures stopped { IfErr result (λ refusal. Ready reader.old → refusal ≢ Refusal.BadSheet → has_failed reader.new ≡ true) }
    ensures over { has_failed reader.old ≡ true → (result ≡ Ok false) × (fields_of fields.new ≡ []) }
{
    match reader.read_byte_record(fields) {
        Ok(found) => Ok(found),
        Err(error) => Err(refusal_of(error.kind())),
    }
}
