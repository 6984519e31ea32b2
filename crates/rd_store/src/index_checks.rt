//! Whether rows of the index are those of files, and for accessions that are there.

ghost use Rattle.std.specs.Prelude.{◌≡◌, IfOk, IfErr, MatchBool};
ghost use Rattle.std.specs.List.Sorted.{IsNonDecreasing};
ghost use Rattle.sqlite.specs.Held.{state};
ghost use Rattle.rd_store.specs.RowColumns.{IsContentsRow, IsFileRow, IsNameRow, ShowFiles};
ghost use Rattle.rd_store.specs.Codes.{units_code};
ghost use Rattle.rd_tables.specs.Connections.{IsOpen};
ghost use Rattle.rd_store.specs.Held.{HoldsCommonTables};
ghost use Rattle.rd_store.specs.Opened.{AreFiledUnder, AreListed, Tests};

use crate::codes;
use crate::columns::{has_bytes, has_just, has_or_null, has_text};
use crate::faults::OpenFault;
use crate::opening::{TableListing, read_listing};
use crate::row_checks::are_filed;
use rd_volume::Found;
use sqlite::{Alter, Connection, Row};
use std::alloc::Global;

/// Whether a row shows at which slot a file is, and its name, type and user.
fn shows_name(row: &Row, file: &Found) -> bool
    ensures { MatchBool result (IsNameRow file.now row.now) (¬ IsNameRow file.now row.now) }
{
    has_just(row, 0, u32::from(file.slot))
        && has_text(row, 1, file.name.as_str())
        && has_text(row, 2, file.ty.as_str())
        && has_or_null(row, 3, codes::of_user(file.user))
}

/// Whether a row shows the rest of a file, whose units these bytes spell.
fn shows_contents(row: &Row, file: &Found, units: &[u8]) -> bool
    requires { units.now ≡ units_code file.now.units }
    ensures { MatchBool result (IsContentsRow file.now row.now) (¬ IsContentsRow file.now row.now) }
{
    has_just(row, 4, codes::of_class(file.served_class))
        && has_or_null(row, 5, file.size)
        && has_just(row, 6, u32::from(file.faults))
        && has_bytes(row, 7, units)
        && has_just(row, 8, u32::from(file.last_len))
}

/// Whether a row shows a file.
fn shows_file(alloc: Global, row: &Row, file: &Found) -> Result<bool, OpenFault>
    ensures shows { IfOk result (λ shows. MatchBool shows (IsFileRow file.now row.now) (¬ IsFileRow file.now row.now)) }
    ensures fault { IfErr result (λ fault. fault ≡ OpenFault.Sql) }
{
    match codes::of_units(alloc, file.units.as_slice()) {
        Ok(units) => Ok(shows_name(row, file) && shows_contents(row, file, &units)),
        Err(_) => Err(OpenFault::Sql),
    }
}

/// Whether rows show files, one by one.
pub(crate) fn show_files(alloc: Global, rows: &[Row], files: &[Found]) -> Result<bool, OpenFault>
    ensures show { IfOk result (λ show. MatchBool show (ShowFiles files.now rows.now) (¬ ShowFiles files.now rows.now)) }
    ensures fault { IfErr result (λ fault. fault ≡ OpenFault.Sql) }
{
    if rows.len() != files.len() {
        return Ok(false);
    }
    for at in 0..files.len() {
        if !shows_file(alloc, &rows[at], &files[at])? {
            return Ok(false);
        }
    }
    Ok(true)
}

/// Whether each row of the index is for one of these accessions, which ascend.
pub(crate) fn check_filed<S: Alter>(
    conn: &mut Connection<S>,
    accessions: &[u32],
) -> Result<(), OpenFault>
    requires tables { HoldsCommonTables (state S.Store conn.old) }
    requires accessions { IsNonDecreasing accessions.now }
    ensures tests { Tests S.Store conn.old conn.new result (AreFiledUnder accessions.now) }
    ensures listed { IsOpen S.Store conn.new → IfOk result (λ done. AreListed (state S.Store conn.old).now.trees) }
{
    let rows = read_listing(conn, TableListing::Files)?;
    if !are_filed(&rows, accessions) {
        return Err(OpenFault::Inconsistent);
    }
    Ok(())
}
