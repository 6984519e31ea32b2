//! The walk over the images at an opening, in the order of their accessions. Each is judged and walked from one reading
//! of its row.

ghost use Rattle.std.specs.Prelude.{◌≡◌, ◌++◌, ◌∷◌, [], ⊤, IfOk, IfErr, None, OnOk, Some};
ghost use Rattle.std.specs.List.Sorted.{IsNonDecreasing};
ghost use Rattle.sqlite.specs.Held.{state};
ghost use Rattle.rd_holdings.specs.declared.rows.ImageRow.{ImageRow};
ghost use Rattle.rd_tables.specs.Connections.{Asks, IsClean, IsOpen};
ghost use Rattle.rd_store.specs.Held.{HoldsCommonTables};
ghost use Rattle.rd_store.specs.Opened.{HoldsMarksIf, HoldsMarksOf, LawfulImages, TestsPart};
ghost use Rattle.rd_store.specs.Register.{entry_in};
ghost use Rattle.rd_store.specs.Shown.{as_row};
ghost use Rattle.rd_store.specs.Walked.{AreBatchOf, AreNextOf, AreReadNext, HasDiskOnce, HasFilesOnce, IsImageOnce, IsJudgedImage, IsLawfulAt, IsLawfulDisk, IsReadOf, IsWalk, IsWalkTo, LawfulWalk, StandsOnce, image_columns, last_number};

use crate::columns::has_one_of;
use crate::decode::{bytes_at, digest_at, kind, number_at};
use crate::faults::{OpenFault, StoreFault};
use crate::files::file_rows;
use crate::images::{Heading, survey_of};
use crate::index_checks::show_files;
use crate::marks::{kind_with, marks_at, with_marks};
use crate::opening::are_rising;
use crate::read::read_over;
use crate::row_checks::is_image;
use rd_geometry::{Items, Kind};
use rd_holdings::ImageRow;
use sqlite::types::ToSql;
use sqlite::{Alter, Connection, Row};
use std::alloc::Global;

/// How many rows the texts below ask for, as their LIMIT.
const ROWS_AT_A_TIME: usize = 8;

/// The rows of the first eight images.
fn first_rows<S: Alter>(conn: &mut Connection<S>) -> Result<Vec<Row>, StoreFault>
    requires tables { HoldsCommonTables (state S.Store conn.old) }
    ensures asks { Asks S.Store conn.old conn.new result StoreFault.Sql (λ rows.
        AreNextOf None (state S.Store conn.old).now.trees rows.items) }
{
    read_over(
        conn,
        "SELECT acc, kind, deed, digest, length(bytes), typeof(bytes), bytes FROM image ORDER BY acc LIMIT 8",
        &[],
    )
}

/// The rows of the next eight images after an accession.
fn later_rows<S: Alter>(conn: &mut Connection<S>, acc: u32) -> Result<Vec<Row>, StoreFault>
    requires tables { HoldsCommonTables (state S.Store conn.old) }
    ensures asks { Asks S.Store conn.old conn.new result StoreFault.Sql (λ rows.
        AreNextOf (Some acc) (state S.Store conn.old).now.trees rows.items) }
{
    let key = acc.to_sql();
    read_over(
        conn,
        "SELECT acc, kind, deed, digest, length(bytes), typeof(bytes), bytes FROM image WHERE acc > ?1 ORDER BY acc LIMIT 8",
        &[key],
    )
}

/// The rows of the next eight images after an accession, or of the first eight.
fn next_rows<S: Alter>(conn: &mut Connection<S>, after: Option<u32>) -> Result<Vec<Row>, StoreFault>
    requires tables { HoldsCommonTables (state S.Store conn.old) }
    ensures asks { Asks S.Store conn.old conn.new result StoreFault.Sql (λ rows.
        AreNextOf after (state S.Store conn.old).now.trees rows.items) }
{
    match after {
        Some(acc) => later_rows(conn, acc),
        None => first_rows(conn),
    }
}

/// The rows of the next seven images after an accession, or of the first seven; none after the last. A row with a higher
/// accession shows that no other row has the accession of the one before it. So the eighth shows it of the seventh, and
/// is read again with those that follow. Where fewer than eight come, no row follows the last of them, so it is alone
/// too, and all of them are given.
fn next_images<S: Alter>(
    conn: &mut Connection<S>,
    after: Option<u32>,
) -> Result<Vec<Row>, OpenFault>
    requires tables { HoldsCommonTables (state S.Store conn.old) }
    ensures asks { Asks S.Store conn.old conn.new result OpenFault.Sql (λ rows.
        AreBatchOf after (state S.Store conn.old).now.trees rows.items) }
{
    match next_rows(conn, after) {
        Ok(mut rows) if are_rising(&rows) => {
            rows.truncate(ROWS_AT_A_TIME - 1);
            Ok(rows)
        }
        _ => Err(OpenFault::Sql),
    }
}

/// The image whose row was read, without error bytes.
fn read_image_columns(alloc: Global, row: &Row) -> Result<ImageRow, StoreFault>
    ensures image { IfOk result (λ read. (acc : _) (image : ImageRow) → row.now ≡ image_columns (acc, image) → read ≡ as_row image) }
    ensures fault { IfErr result (λ fault. fault ≡ StoreFault.Sql) }
{
    let kind = kind(number_at(row, 1)?);
    let deed = number_at(row, 2)?;
    let digest = digest_at(row, 3)?;
    let bytes = Items::of(bytes_at(alloc, row, 6)?);
    Ok(ImageRow {
        kind,
        deed,
        digest,
        bytes,
    })
}

/// The entry in the register of the image whose row was read. `marked` are the accessions with error bytes, ascending.
fn read_entry(row: &Row, marked: &[u32]) -> Result<(u32, Heading), StoreFault>
    requires { IsNonDecreasing marked.now }
    ensures entry { IfOk result (λ read. read ≡ entry_in marked.now row.now) }
    ensures fault { IfErr result (λ fault. fault ≡ StoreFault.Sql) }
{
    let number = number_at(row, 0)?;
    let kind = kind_with(has_one_of(row, 0, marked), kind(number_at(row, 1)?));
    let deed = number_at(row, 2)?;
    let digest = digest_at(row, 3)?;
    Ok((number, Heading { kind, deed, digest }))
}

/// The entry in the register and the image, without error bytes, of the row that was read.
fn read_both(
    alloc: Global,
    row: &Row,
    marked: &[u32],
) -> Result<((u32, Heading), ImageRow), OpenFault>
    requires { IsNonDecreasing marked.now }
    ensures entry { IfOk result (λ read. read.0 ≡ entry_in marked.now row.now) }
    ensures image { IfOk result (λ read. (acc : _) (image : ImageRow) → row.now ≡ image_columns (acc, image) → read.1 ≡ as_row image) }
    ensures fault { IfErr result (λ fault. fault ≡ OpenFault.Sql) }
{
    match (read_entry(row, marked), read_image_columns(alloc, row)) {
        (Ok(entry), Ok(image)) => Ok((entry, image)),
        _ => Err(OpenFault::Sql),
    }
}

/// The image of an accession whose row is this, with error bytes if `is_marked`; then it has to be a D64.
fn whole_image<S: Alter>(
    alloc: Global,
    conn: &mut Connection<S>,
    acc: u32,
    row: ImageRow,
    is_marked: bool,
) -> Result<ImageRow, OpenFault>
    requires tables { HoldsCommonTables (state S.Store conn.old) }
    requires marks { HoldsMarksIf is_marked (state S.Store conn.old) }
    requires open_if_clean { IsClean S.Store conn.old → IsOpen S.Store conn.old }
    requires row { IsOpen S.Store conn.old → StandsOnce acc row (state S.Store conn.old).now.trees }
    ensures tests { TestsPart S.Store conn.old conn.new result (HasDiskOnce is_marked acc) (IsLawfulDisk is_marked acc) }
    ensures image { IsOpen S.Store conn.new → IfOk result (λ image. IsImageOnce is_marked acc image (state S.Store conn.old).now.trees) }
{
    if !is_marked {
        return Ok(row);
    }
    if row.kind != Kind::D64 {
        return Err(OpenFault::Inconsistent);
    }
    let Ok(marks) = marks_at(alloc, conn, acc) else {
        return Err(OpenFault::Sql);
    };
    match with_marks(row, marks) {
        Ok(image) => Ok(image),
        Err(_) => Err(OpenFault::Sql),
    }
}

/// Whether the rows of the index for an accession are those of the files of its image, whose row is this. The image has
/// error bytes if `is_marked`.
fn check_files<S: Alter>(
    alloc: Global,
    conn: &mut Connection<S>,
    acc: u32,
    row: ImageRow,
    is_marked: bool,
) -> Result<(), OpenFault>
    requires tables { HoldsCommonTables (state S.Store conn.old) }
    requires marks { HoldsMarksIf is_marked (state S.Store conn.old) }
    requires open_if_clean { IsClean S.Store conn.old → IsOpen S.Store conn.old }
    requires row { IsOpen S.Store conn.old → StandsOnce acc row (state S.Store conn.old).now.trees }
    ensures tests { TestsPart S.Store conn.old conn.new result (HasFilesOnce is_marked acc) (IsLawfulAt is_marked acc) }
{
    let image = whole_image(alloc, conn, acc, row, is_marked)?;
    let Ok(files) = survey_of(alloc, image.kind, image.bytes.as_slice()) else {
        return Err(OpenFault::Sql);
    };
    let Ok(rows) = file_rows(conn, acc) else {
        return Err(OpenFault::Sql);
    };
    if show_files(alloc, &rows, files.as_slice())? {
        Ok(())
    } else {
        Err(OpenFault::Inconsistent)
    }
}

/// The entry in the register of the image whose row was read, if the row is that of an image of one of these deeds, and
/// the rows of the index for it are those of its files. The marked accessions have error bytes.
fn check_image<S: Alter>(
    alloc: Global,
    conn: &mut Connection<S>,
    row: &Row,
    deeds: &[u32],
    marked: &[u32],
) -> Result<(u32, Heading), OpenFault>
    requires tables { HoldsCommonTables (state S.Store conn.old) }
    requires marks { HoldsMarksOf marked.now (state S.Store conn.old) }
    requires open_if_clean { IsClean S.Store conn.old → IsOpen S.Store conn.old }
    requires deeds { IsNonDecreasing deeds.now }
    requires marked { IsNonDecreasing marked.now }
    requires row { IsOpen S.Store conn.old → IsReadOf (state S.Store conn.old).now.trees row.now }
    ensures tests { TestsPart S.Store conn.old conn.new result (IsJudgedImage deeds.now marked.now row.now) (LawfulWalk deeds.now marked.now) }
    ensures entry { IfOk result (λ entry. entry ≡ entry_in marked.now row.now) }
{
    if !is_image(row, deeds) {
        return Err(OpenFault::Inconsistent);
    }
    let (entry, image) = read_both(alloc, row, marked)?;
    check_files(alloc, conn, entry.0, image, has_one_of(row, 0, marked))?;
    Ok(entry)
}

/// Puts an entry after the others.
fn add_entry(entries: &mut Vec<(u32, Heading)>, entry: (u32, Heading)) -> Result<(), OpenFault>
    ensures items { OnOk result (entries.new.items ≡ entries.old.items ++ entry ∷ []) }
    ensures fault { IfErr result (λ fault. fault ≡ OpenFault.Sql) }
{
    match entries.push(entry) {
        Ok(()) => Ok(()),
        Err(_) => Err(OpenFault::Sql),
    }
}

fn last_accession(entries: &[(u32, Heading)]) -> Option<u32>
    ensures { result ≡ last_number entries.now }
{
    Some(entries.last()?.0)
}

/// Puts the entries of the next images, whose rows were read, after the others, if these images are those of a desk with
/// these deeds, and the rows of the index for each are those of its files. The marked accessions have error bytes.
fn walk_rows<S: Alter>(
    alloc: Global,
    conn: &mut Connection<S>,
    rows: &[Row],
    deeds: &[u32],
    marked: &[u32],
    entries: &mut Vec<(u32, Heading)>,
) -> Result<(), OpenFault>
    requires tables { HoldsCommonTables (state S.Store conn.old) }
    requires marks { HoldsMarksOf marked.now (state S.Store conn.old) }
    requires open_if_clean { IsClean S.Store conn.old → IsOpen S.Store conn.old }
    requires deeds { IsNonDecreasing deeds.now }
    requires marked { IsNonDecreasing marked.now }
    requires rows { IsOpen S.Store conn.old → AreReadNext (last_number entries.old.items) (state S.Store conn.old).now.trees rows.now }
    ensures tests { TestsPart S.Store conn.old conn.new result (λ trees. ⊤) (LawfulWalk deeds.now marked.now) }
    ensures walked { IsOpen S.Store conn.new → IfOk result (λ done.
        IsWalkTo deeds.now marked.now (state S.Store conn.old).now.trees entries.old.items → IsWalkTo deeds.now marked.now (state S.Store conn.old).now.trees entries.new.items) }
{
    for row in rows {
        let entry = check_image(alloc, conn, row, deeds, marked)?;
        add_entry(entries, entry)?;
    }
    Ok(())
}

/// The entries in the register of all images, if these are those of a desk with these deeds, and the rows of the index
/// for each are those of its files. The marked accessions have error bytes. It asks 1,000,000 times at most: each time
/// but the last gives one image or more, and there are 999,999 accessions.
pub(crate) fn walk_images<S: Alter>(
    alloc: Global,
    conn: &mut Connection<S>,
    deeds: &[u32],
    marked: &[u32],
) -> Result<Vec<(u32, Heading)>, OpenFault>
    requires tables { HoldsCommonTables (state S.Store conn.old) }
    requires marks { HoldsMarksOf marked.now (state S.Store conn.old) }
    requires open_if_clean { IsClean S.Store conn.old → IsOpen S.Store conn.old }
    requires deeds { IsNonDecreasing deeds.now }
    requires marked { IsNonDecreasing marked.now }
    ensures tests { TestsPart S.Store conn.old conn.new result (LawfulImages deeds.now) (LawfulWalk deeds.now marked.now) }
    ensures walked { IsOpen S.Store conn.new → IfOk result (λ entries. IsWalk marked.now (state S.Store conn.old).now.trees entries.items) }
{
    let mut entries = Vec::new(alloc);
    for _ in 0..1_000_000_u32 {
        let rows = next_images(conn, last_accession(&entries))?;
        if rows.is_empty() {
            return Ok(entries);
        }
        walk_rows(alloc, conn, &rows, deeds, marked, &mut entries)?;
    }
    Err(OpenFault::Sql)
}
