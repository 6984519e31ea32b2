//! The index of the files: a row for each file of each image.

ghost use Rattle.std.specs.Prelude.{◌≡◌, ◌<◌, ◌+◌, ◌∷◌, [], AllPairs, IfOk, IfErr, Option, get_or, length, map, pos};
ghost use Rattle.std.specs.FinMap.{get};
ghost use Rattle.std.specs.Option.{option_to_list};
ghost use Rattle.sqlite.specs.Held.{state};
ghost use Rattle.sqlite.specs.Order.{column};
ghost use Rattle.sqlite.specs.declared.types.Value.TheVariants.{Int};
ghost use Rattle.sqlite_value.specs.Order.{bytes};
ghost use Rattle.rd_volume.specs.declared.found.Found.{Found as FoundFile};
ghost use Rattle.rd_tables.specs.Asked.{IsPicked};
ghost use Rattle.rd_tables.specs.Queries.{files_query};
ghost use Rattle.rd_tables.specs.Spellings.{natural};
ghost use Rattle.rd_store.specs.Codes.{number_in, units_code, units_in};
ghost use Rattle.rd_tables.specs.Connections.{Asks, Moves};
ghost use Rattle.rd_store.specs.Held.{HoldsCommonTables, HoldsDesk, IsDeskWith, desk, Reads};
ghost use Rattle.rd_store.specs.Index.{AreFilesIn, IsFileIn, IsFiledTo};
ghost use Rattle.rd_store.specs.Spelled.{file_in, file_shown, index_of};

use crate::codes;
use crate::decode::{class, number_at, some_number_at, text_at, units};
use crate::faults::StoreFault;
use crate::read::read_over;
use crate::store::Store;
use rd_geometry::{Items, Text};
use rd_volume::Found;
use sqlite::types::{ToSql, ValueRef};
use sqlite::{Alter, Connection, Error, ErrorCode, Row, Transaction, params};
use std::alloc::Global;

/// The rows of the index for an accession, by slot.
pub(crate) fn file_rows<S: Alter>(
    conn: &mut Connection<S>,
    acc: u32,
) -> Result<Vec<Row>, StoreFault>
    requires tables { HoldsCommonTables (state S.Store conn.old) }
    ensures asks { Asks S.Store conn.old conn.new result StoreFault.Sql (λ rows.
        IsPicked files_query (Int (pos acc) ∷ []) ((state S.Store conn.old).now.trees 9) rows.items) }
{
    let key = acc.to_sql();
    read_over(
        conn,
        "SELECT slot, name, ty, user_no, served, size, faults, units, last_len FROM found WHERE acc = ?1 ORDER BY slot",
        &[key],
    )
}

/// The number below 65,536 in a column.
fn u16_at(row: &Row, at: usize) -> Result<u16, StoreFault>
    ensures value { IfOk result (λ number. number ≡ natural (column row.now at)) }
    ensures fault { IfErr result (λ fault. fault ≡ StoreFault.Sql) }
{
    u16::try_from(number_at(row, at)?).map_err(|_| StoreFault::Sql)
}

/// The number below 256 in a column.
#[inline(always)]
fn byte_at(row: &Row, at: usize) -> Result<u8, StoreFault>
    ensures value { IfOk result (λ number. number ≡ natural (column row.now at)) }
    ensures fault { IfErr result (λ fault. fault ≡ StoreFault.Sql) }
{
    u8::try_from(number_at(row, at)?).map_err(|_| StoreFault::Sql)
}

/// The user in a column that may be NULL.
fn user_at(row: &Row, at: usize) -> Result<Option<u8>, StoreFault>
    ensures value { IfOk result (λ user. user ≡ number_in (column row.now at)) }
    ensures fault { IfErr result (λ fault. fault ≡ StoreFault.Sql) }
{
    match some_number_at(row, at)? {
        Some(_) => Ok(Some(byte_at(row, at)?)),
        None => Ok(None),
    }
}

/// The units in a column.
#[inline(always)]
fn units_at(alloc: Global, row: &Row, at: usize) -> Result<Items<u16>, StoreFault>
    ensures value { IfOk result (λ items. items ≡ units_in (bytes (column row.now at))) }
    ensures fault { IfErr result (λ fault. fault ≡ StoreFault.Sql) }
{
    match row.get_ref(at) {
        Ok(ValueRef::Blob(bytes)) => Ok(Items::of(units(alloc, bytes)?)),
        _ => Err(StoreFault::Sql),
    }
}

/// The file that a row shows.
#[inline(always)]
fn read_file(alloc: Global, row: &Row) -> Result<Found, StoreFault>
    ensures file { IfOk result (λ file. file ≡ file_in row.now) }
    ensures fault { IfErr result (λ fault. fault ≡ StoreFault.Sql) }
{
    let slot = u16_at(row, 0)?;
    let name = Text::of(text_at(row, 1)?);
    let ty = Text::of(text_at(row, 2)?);
    let user = user_at(row, 3)?;
    let served_class = class(number_at(row, 4)?);
    let size = some_number_at(row, 5)?;
    let faults = byte_at(row, 6)?;
    let units = units_at(alloc, row, 7)?;
    let last_len = u16_at(row, 8)?;
    Ok(Found {
        slot,
        name,
        ty,
        user,
        served_class,
        size,
        faults,
        units,
        last_len,
    })
}

/// The files that rows show.
pub(crate) fn read_files(alloc: Global, rows: &[Row]) -> Result<Vec<Found>, StoreFault>
    ensures files { IfOk result (λ files. files.items ≡ map file_in rows.now) }
    ensures fault { IfErr result (λ fault. fault ≡ StoreFault.Sql) }
{
    let mut files = Vec::new(alloc);
    for row in rows {
        let file = read_file(alloc, row)?;
        if files.push(file).is_err() {
            return Err(StoreFault::Sql);
        }
    }
    Ok(files)
}

/// The file that the first of some rows shows, `None` where there are none.
fn first_file(alloc: Global, rows: &[Row]) -> Result<Option<Found>, StoreFault>
    ensures file { IfOk result (λ read. (found : Option FoundFile) → rows.now ≡ map file_shown (option_to_list found) → read ≡ found) }
    ensures fault { IfErr result (λ fault. fault ≡ StoreFault.Sql) }
{
    match rows.first() {
        Some(row) => Ok(Some(read_file(alloc, row)?)),
        None => Ok(None),
    }
}

/// Inserts the row of a file into the index, inside a transaction: the next of its accession's files. The bytes
/// are the code of its units.
fn insert_row<S: Alter>(
    tx: &mut Transaction<'_, S>,
    acc: u32,
    file: &Found,
    units: &[u8],
) -> Result<usize, Error>
    requires units { units.now ≡ units_code file.now.units }
    ensures same_reference { tx.new.conn.ghost_name ≡ tx.old.conn.ghost_name }
    ensures moves { (desk : _) (images : _) (files : _) (count : _) → count < length files → get_or files count file.now ≡ file.now
        → AllPairs (λ f g. f.slot < g.slot) files → Moves S.Store tx.old.conn.now tx.new.conn.now
        (IsDeskWith desk (IsFiledTo images acc files count)) (IsDeskWith desk (IsFiledTo images acc files (count + 1))) result }
{
    let slot = u32::from(file.slot);
    let name = file.name.as_str();
    let ty = file.ty.as_str();
    let user = codes::of_user(file.user);
    let is_served = codes::of_class(file.served_class);
    let faults = u32::from(file.faults);
    let last = u32::from(file.last_len);
    tx.execute(
        "INSERT INTO found (acc, slot, name, ty, user_no, served, size, faults, units, last_len) VALUES (?1, ?2, ?3, ?4, ?5, ?6, ?7, ?8, ?9, ?10)",
        params![
            acc, slot, name, ty, user, is_served, file.size, faults, units, last
        ],
    )
}

/// Puts one of an accession's files into the index, inside a transaction; those before it stand there.
fn insert_file<S: Alter>(
    alloc: Global,
    tx: &mut Transaction<'_, S>,
    acc: u32,
    files: &[Found],
    at: usize,
) -> Result<usize, Error>
    requires inside { at < length files.now }
    requires ascending { AllPairs (λ f g. f.slot < g.slot) files.now }
    ensures same_reference { tx.new.conn.ghost_name ≡ tx.old.conn.ghost_name }
    ensures moves { (desk : _) (images : _) → Moves S.Store tx.old.conn.now tx.new.conn.now
        (IsDeskWith desk (IsFiledTo images acc files.now at)) (IsDeskWith desk (IsFiledTo images acc files.now (at + 1))) result }
{
    let file = &files[at];
    match codes::of_units(alloc, file.units.as_slice()) {
        Ok(units) => insert_row(tx, acc, file, &units),
        Err(_) => Err(Error::SqliteFailure(ErrorCode::OutOfMemory)),
    }
}

/// Puts an accession's files into the index, inside a transaction.
pub(crate) fn insert_files<S: Alter>(
    alloc: Global,
    tx: &mut Transaction<'_, S>,
    acc: u32,
    files: &[Found],
) -> Result<(), Error>
    requires ascending { AllPairs (λ f g. f.slot < g.slot) files.now }
    ensures same_reference { tx.new.conn.ghost_name ≡ tx.old.conn.ghost_name }
    ensures moves { (desk : _) (images : _) → Moves S.Store tx.old.conn.now tx.new.conn.now
        (IsDeskWith desk (IsFiledTo images acc files.now 0)) (IsDeskWith desk (IsFiledTo images acc files.now (length files.now))) result }
{
    for at in 0..files.len() {
        insert_file(alloc, tx, acc, files, at)?;
    }
    Ok(())
}

impl<S: Alter> Store<S> {
    /// The files of the image of an accession, 1 to 999,999, by slot, as `survey` gives them; none
    /// if there is no such accession. They come from the index; it reads no image.
    ///
    /// It fails with `Sql`.
    pub fn found(&mut self, alloc: Global, acc: u32) -> Result<Vec<Found>, StoreFault>
        ensures reads { Reads S.Store self.old self.new result (λ files.
            AreFilesIn (get (desk S.Store self.old).images acc) files.items) }
        ensures fault { IfErr result (λ fault. fault ≡ StoreFault.Sql) }
    {
        let rows = file_rows(&mut self.conn, acc)?;
        read_files(alloc, &rows)
    }

    /// The row of the index for a slot of an accession.
    fn slot_rows(&mut self, acc: u32, slot: u16) -> Result<Vec<Row>, StoreFault>
        ensures holds { HoldsDesk (state S.Store self.old) }
        ensures reads { Reads S.Store self.old self.new result (λ rows.
            rows.items ≡ map file_shown (option_to_list (get (index_of (state S.Store self.old).now.trees) (record { acc = acc; slot = slot })))) }
        ensures fault { IfErr result (λ fault. fault ≡ StoreFault.Sql) }
    {
        let first = acc.to_sql();
        let second = u32::from(slot).to_sql();
        self.query(
            "SELECT slot, name, ty, user_no, served, size, faults, units, last_len FROM found WHERE acc = ?1 AND slot = ?2",
            &[first, second],
        )
    }

    /// The file at a slot, 0 to 5,463, of the image of an accession, 1 to 999,999, as `survey` gives it; `None` if
    /// there is no such file or accession. It comes from the index; it reads no image.
    ///
    /// It fails with `Sql`.
    pub fn found_at(
        &mut self,
        alloc: Global,
        acc: u32,
        slot: u16,
    ) -> Result<Option<Found>, StoreFault>
        ensures reads { Reads S.Store self.old self.new result (IsFileIn (get (desk S.Store self.old).images acc) slot) }
        ensures fault { IfErr result (λ fault. fault ≡ StoreFault.Sql) }
    {
        let rows = self.slot_rows(acc, slot)?;
        first_file(alloc, &rows)
    }
}
