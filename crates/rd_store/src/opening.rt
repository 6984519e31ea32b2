ghost use Rattle.std.specs.Prelude.{◌≡◌, All, IfOk, IfErr, MatchBool, map, true, ⊤};
ghost use Rattle.std.specs.List.Sorted.{IsNonDecreasing};
ghost use Rattle.sqlite.specs.Held.{state};
ghost use Rattle.sqlite.specs.Order.{column};
ghost use Rattle.sqlite_trees.specs.View.{is_int};
ghost use Rattle.rd_tables.specs.Asked.{AreRising, IsListed};
ghost use Rattle.rd_tables.specs.Spellings.{HaveRowids, map_of, natural};
ghost use Rattle.rd_store.specs.Register.{listed, number_of, register_of};
ghost use Rattle.rd_store.specs.RowColumns.{comes_before};
ghost use Rattle.rd_store.specs.Spelled.{HasVersion, HaveOwnRowids, deed_spelling, desk_of, unmarked};
ghost use Rattle.rd_tables.specs.Connections.{Asks, IsOpen};
ghost use Rattle.rd_store.specs.Held.{HoldsCommonTables, HoldsTables};
ghost use Rattle.rd_store.specs.Opened.{AreKeys, AreNumbers, HoldsListed, HoldsMarksOf, IsConsistent, IsConsistentAs, IsSoundAt, LawfulChecks, LawfulCommon, LawfulDeeds, LawfulGiven, LawfulKeys, LawfulOthers, LawfulRules, HaveOtherRowids, Tests, TestsPart, listing_query, listing_text, listing_tree};
ghost use Rattle.rd_store.specs.Walked.{IsWalk, LawfulCommonWalk, LawfulGivenWalk};

use crate::columns::int_at;
use crate::faults::OpenFault;
use crate::image_walk::walk_images;
use crate::images::{Heading, read_numbers};
use crate::index_checks::check_filed;
use crate::read::read_over;
use crate::register::Register;
use crate::row_checks::{are_checks, are_deeds, are_keys, are_marks, are_rules, have_error_bytes};
use sqlite::types::ValueRef;
use sqlite::{Alter, Connection, Row};
use std::alloc::Global;

/// A table all of whose rows are read at once when a desk is opened.
#[derive(Clone, Copy)]
pub(crate) enum TableListing {
    Deeds,
    Rules,
    Keys,
    Checks,
    Files,
    Marks,
}

/// The text that asks for all rows of a table, each with its rowid first. The number of a deed and the accession
/// of error bytes are rowids, since each is an INTEGER PRIMARY KEY.
fn listing_text(table: TableListing) -> &'static str
    ensures { result.now ≡ listing_text table }
{
    match table {
        TableListing::Deeds => "SELECT num, donor, signed FROM deed ORDER BY num",
        TableListing::Rules =>
            "SELECT rowid, band, scope, rank, audiences, day_from, day_until, how, number, word, effect FROM rule ORDER BY rowid",
        TableListing::Keys => "SELECT rowid, digest, audience FROM badge ORDER BY rowid",
        TableListing::Checks => "SELECT rowid, acc, day, outcome FROM checked ORDER BY rowid",
        TableListing::Files => "SELECT rowid, acc FROM found ORDER BY rowid",
        TableListing::Marks => "SELECT acc, length(bytes), typeof(bytes) FROM marks ORDER BY acc",
    }
}

/// Whether the first column of a row is a number.
fn has_id(row: &Row) -> bool
    ensures { MatchBool result (is_int (column row.now 0) ≡ true) (¬ (is_int (column row.now 0) ≡ true)) }
{
    matches!(row.get_ref(0), Ok(ValueRef::Int(_)))
}

/// Whether the first column of a row is a number, and that of the next is one above it.
fn is_before(row: &Row, next: &Row) -> bool
    ensures { result ≡ comes_before row.now next.now }
{
    match int_at(row, 0) {
        Some(id) => match int_at(next, 0) {
            Some(next) => id < next,
            None => false,
        },
        None => false,
    }
}

/// Whether the first column of each row is a number.
fn have_ids(rows: &[Row]) -> bool
    ensures { MatchBool result (All (λ row. is_int (column row 0) ≡ true) rows.now) (¬ All (λ row. is_int (column row 0) ≡ true) rows.now) }
{
    rows.iter().all(has_id)
}

/// Whether the first column of each row is a number above that of the row before.
pub(crate) fn are_rising(rows: &[Row]) -> bool
    ensures { MatchBool result (AreRising rows.now) (¬ AreRising rows.now) }
{
    let mut at = 1;
    while at < rows.len() {
        if !is_before(&rows[at - 1], &rows[at]) {
            return false;
        }
        at += 1;
    }
    have_ids(rows)
}

/// All rows of a table.
pub(crate) fn read_listing<S: Alter>(
    conn: &mut Connection<S>,
    table: TableListing,
) -> Result<Vec<Row>, OpenFault>
    requires tables { HoldsListed table (state S.Store conn.old) }
    ensures asks { Asks S.Store conn.old conn.new result OpenFault.Sql (λ rows.
        IsListed (listing_query table) ((state S.Store conn.old).now.trees (listing_tree table)) rows.items) }
    ensures rising { IfOk result (λ rows. AreRising rows.items) }
{
    match read_over(conn, listing_text(table), &[]) {
        Ok(rows) if are_rising(&rows) => Ok(rows),
        _ => Err(OpenFault::Sql),
    }
}

/// The numbers of the deeds, if their rows are those of a desk.
fn check_deeds<S: Alter>(alloc: Global, conn: &mut Connection<S>) -> Result<Vec<u32>, OpenFault>
    requires tables { HoldsCommonTables (state S.Store conn.old) }
    ensures tests { Tests S.Store conn.old conn.new result LawfulDeeds }
    ensures numbers { IsOpen S.Store conn.new → IfOk result (λ numbers.
        AreKeys (map_of deed_spelling ((state S.Store conn.old).now.trees 1)) numbers.items) }
    ensures ascending { IfOk result (λ numbers. IsNonDecreasing numbers.items) }
{
    let rows = read_listing(conn, TableListing::Deeds)?;
    if !are_deeds(&rows) {
        return Err(OpenFault::Inconsistent);
    }
    match read_numbers(alloc, &rows) {
        Ok(numbers) => Ok(numbers),
        Err(_) => Err(OpenFault::Sql),
    }
}

/// Whether the rows of the rules are those of a desk with these accessions and deeds.
fn check_rules<S: Alter>(
    conn: &mut Connection<S>,
    accessions: &[u32],
    deeds: &[u32],
) -> Result<(), OpenFault>
    requires tables { HoldsCommonTables (state S.Store conn.old) }
    requires accessions { IsNonDecreasing accessions.now }
    requires deeds { IsNonDecreasing deeds.now }
    requires sound { IsSoundAt (state S.Store conn.old) }
    ensures tests { Tests S.Store conn.old conn.new result (LawfulRules accessions.now deeds.now) }
    ensures rowids { IsOpen S.Store conn.new → IfOk result (λ done. HaveRowids ((state S.Store conn.old).now.trees 3)) }
{
    let rows = read_listing(conn, TableListing::Rules)?;
    if !are_rules(&rows, accessions, deeds) {
        return Err(OpenFault::Inconsistent);
    }
    Ok(())
}

/// Whether the rows of the desk keys are those of a desk.
fn check_keys<S: Alter>(conn: &mut Connection<S>) -> Result<(), OpenFault>
    requires tables { HoldsCommonTables (state S.Store conn.old) }
    requires sound { IsSoundAt (state S.Store conn.old) }
    ensures tests { Tests S.Store conn.old conn.new result LawfulKeys }
    ensures rowids { IsOpen S.Store conn.new → IfOk result (λ done. HaveRowids ((state S.Store conn.old).now.trees 5)) }
{
    let rows = read_listing(conn, TableListing::Keys)?;
    if !are_keys(&rows) {
        return Err(OpenFault::Inconsistent);
    }
    Ok(())
}

/// Whether the rows of the checks are those of a desk with these accessions.
fn check_checks<S: Alter>(conn: &mut Connection<S>, accessions: &[u32]) -> Result<(), OpenFault>
    requires tables { HoldsCommonTables (state S.Store conn.old) }
    requires accessions { IsNonDecreasing accessions.now }
    requires sound { IsSoundAt (state S.Store conn.old) }
    ensures tests { Tests S.Store conn.old conn.new result (LawfulChecks accessions.now) }
    ensures rowids { IsOpen S.Store conn.new → IfOk result (λ done. HaveRowids ((state S.Store conn.old).now.trees 7)) }
{
    let rows = read_listing(conn, TableListing::Checks)?;
    if !are_checks(&rows, accessions) {
        return Err(OpenFault::Inconsistent);
    }
    Ok(())
}

/// The numbers of the deeds and the entries of the images in the register, if these are those of a desk, and the rows of
/// the index for each image are those of its files. The marked accessions have error bytes.
fn check_deeds_and_images<S: Alter>(
    alloc: Global,
    conn: &mut Connection<S>,
    marked: &[u32],
) -> Result<(Vec<u32>, Vec<(u32, Heading)>), OpenFault>
    requires tables { HoldsCommonTables (state S.Store conn.old) }
    requires marks { HoldsMarksOf marked.now (state S.Store conn.old) }
    requires marked { IsNonDecreasing marked.now }
    ensures tests { TestsPart S.Store conn.old conn.new result LawfulGiven (LawfulGivenWalk marked.now) }
    ensures numbers { IsOpen S.Store conn.new → IfOk result (λ given.
        AreNumbers (state S.Store conn.old).now.trees given.0.items (map number_of given.1.items)) }
    ensures walked { IsOpen S.Store conn.new → IfOk result (λ given.
        IsWalk marked.now (state S.Store conn.old).now.trees given.1.items) }
    ensures ascending { IfOk result (λ given. IsNonDecreasing given.0.items) }
{
    let deeds = check_deeds(alloc, conn)?;
    let entries = walk_images(alloc, conn, &deeds, marked)?;
    Ok((deeds, entries))
}

/// Whether all other rows are those of a desk with these accessions and deeds.
fn check_others<S: Alter>(
    conn: &mut Connection<S>,
    accessions: &[u32],
    deeds: &[u32],
) -> Result<(), OpenFault>
    requires tables { HoldsCommonTables (state S.Store conn.old) }
    requires accessions { IsNonDecreasing accessions.now }
    requires deeds { IsNonDecreasing deeds.now }
    requires sound { IsSoundAt (state S.Store conn.old) }
    ensures tests { Tests S.Store conn.old conn.new result (LawfulOthers accessions.now deeds.now) }
    ensures rowids { IsOpen S.Store conn.new → IfOk result (λ done. HaveOtherRowids (state S.Store conn.old).now.trees) }
{
    check_rules(conn, accessions, deeds)?;
    check_keys(conn)?;
    check_checks(conn, accessions)
}

/// Whether numbers ascend.
fn ascend(numbers: &[u32]) -> bool
    ensures { MatchBool result (IsNonDecreasing numbers.now) (¬ IsNonDecreasing numbers.now) }
{
    numbers.is_sorted()
}

/// The accessions of a register, ascending.
fn accessions_in(alloc: Global, register: &Register) -> Result<Vec<u32>, OpenFault>
    ensures numbers { IfOk result (λ numbers. numbers.items ≡ map number_of (listed register.now)) }
    ensures ascending { IfOk result (λ numbers. IsNonDecreasing numbers.items) }
    ensures fault { IfErr result (λ fault. fault ≡ OpenFault.Sql) }
{
    match register.accessions(alloc) {
        Ok(numbers) if ascend(&numbers) => Ok(numbers),
        _ => Err(OpenFault::Sql),
    }
}

/// The accessions and the register, if the rows of the tables that each version has are those of a desk, but for rows of
/// the index that are for no accession. The marked accessions have error bytes.
fn check_common<S: Alter>(
    alloc: Global,
    conn: &mut Connection<S>,
    marked: &[u32],
) -> Result<(Vec<u32>, Register), OpenFault>
    requires tables { HoldsCommonTables (state S.Store conn.old) }
    requires marks { HoldsMarksOf marked.now (state S.Store conn.old) }
    requires marked { IsNonDecreasing marked.now }
    requires sound { IsSoundAt (state S.Store conn.old) }
    ensures tests { TestsPart S.Store conn.old conn.new result LawfulCommon (LawfulCommonWalk marked.now) }
    ensures rowids { IsOpen S.Store conn.new → IfOk result (λ common. HaveOtherRowids (state S.Store conn.old).now.trees) }
    ensures walked { IsOpen S.Store conn.new → IfOk result (λ common.
        IsWalk marked.now (state S.Store conn.old).now.trees (listed common.1)) }
    ensures numbers { IfOk result (λ common. common.0.items ≡ map number_of (listed common.1)) }
    ensures ascending { IfOk result (λ common. IsNonDecreasing common.0.items) }
{
    let (deeds, entries) = check_deeds_and_images(alloc, conn, marked)?;
    let register = Register::of(entries);
    let accessions = accessions_in(alloc, &register)?;
    check_others(conn, &accessions, &deeds)?;
    Ok((accessions, register))
}

/// The rows of error bytes, if each has as many as a 1541 disk has blocks, and the accessions in them, ascending. Whether
/// these accessions stand is judged once all are known.
fn read_marks<S: Alter>(
    alloc: Global,
    conn: &mut Connection<S>,
) -> Result<(Vec<Row>, Vec<u32>), OpenFault>
    requires tables { HoldsTables (state S.Store conn.old) }
    ensures tests { TestsPart S.Store conn.old conn.new result (λ trees. ⊤) IsConsistent }
    ensures listed { IsOpen S.Store conn.new → IfOk result (λ marks.
        IsListed (listing_query TableListing.Marks) ((state S.Store conn.old).now.trees 11) marks.0.items) }
    ensures numbers { IfOk result (λ marks. marks.1.items ≡ map (λ row. natural (column row 0)) marks.0.items) }
    ensures ascending { IfOk result (λ marks. IsNonDecreasing marks.1.items) }
{
    let rows = read_listing(conn, TableListing::Marks)?;
    if !have_error_bytes(&rows) {
        return Err(OpenFault::Inconsistent);
    }
    match read_numbers(alloc, &rows) {
        Ok(numbers) => Ok((rows, numbers)),
        Err(_) => Err(OpenFault::Sql),
    }
}

/// The register of a desk, if the rows are those of one.
pub(crate) fn check_rows<S: Alter>(
    alloc: Global,
    conn: &mut Connection<S>,
) -> Result<Register, OpenFault>
    requires tables { HoldsTables (state S.Store conn.old) }
    requires sound { IsSoundAt (state S.Store conn.old) }
    requires version { IsOpen S.Store conn.old → HasVersion 2 ((state S.Store conn.old).now.trees 0) }
    ensures tests { Tests S.Store conn.old conn.new result IsConsistent }
    ensures rowids { IsOpen S.Store conn.new → IfOk result (λ register. HaveOwnRowids (state S.Store conn.old).now.trees) }
    ensures listed { IsOpen S.Store conn.new → IfOk result (λ register.
        listed register ≡ register_of (desk_of (state S.Store conn.old).now.trees).images) }
{
    let (rows, marked) = read_marks(alloc, conn)?;
    let (accessions, register) = check_common(alloc, conn, &marked)?;
    if !are_marks(&rows, &accessions) {
        return Err(OpenFault::Inconsistent);
    }
    check_filed(conn, &accessions)?;
    Ok(register)
}

/// The register of a desk, if the rows are those of one in the tables of version 1.
pub(crate) fn check_first_rows<S: Alter>(
    alloc: Global,
    conn: &mut Connection<S>,
) -> Result<Register, OpenFault>
    requires tables { HoldsCommonTables (state S.Store conn.old) }
    requires sound { IsSoundAt (state S.Store conn.old) }
    requires version { IsOpen S.Store conn.old → HasVersion 1 ((state S.Store conn.old).now.trees 0) }
    ensures tests { Tests S.Store conn.old conn.new result (λ trees. IsConsistentAs 1 (unmarked trees)) }
    ensures rowids { IsOpen S.Store conn.new → IfOk result (λ register. HaveOwnRowids (state S.Store conn.old).now.trees) }
    ensures listed { IsOpen S.Store conn.new → IfOk result (λ register.
        listed register ≡ register_of (desk_of (unmarked (state S.Store conn.old).now.trees)).images) }
{
    let (accessions, register) = check_common(alloc, conn, &[])?;
    check_filed(conn, &accessions)?;
    Ok(register)
}
