ghost use Rattle.std.specs.Prelude.{◌≡◌, ◌≢◌, true, IfOk, IfErr, Some};
ghost use Rattle.sqlite.specs.Held.{state};
ghost use Rattle.sqlite.specs.Steps.{over_memory};
ghost use Rattle.rd_tables.specs.Schemas.{desk_schema, first_schema, has_desk_columns};
ghost use Rattle.rd_tables.specs.Connections.{IsOpen};
ghost use Rattle.rd_store.specs.Held.{HoldsDesk};
ghost use Rattle.rd_store.specs.Migrated.{IsHeldFirst, IsHeldIn, IsRegisterIn, RefusesEach};
ghost use Rattle.rd_store.specs.Opened.{IsNamed, IsNoDesk, IsResting, IsSaid, IsSettledAt, IsSoundAt, NamesDesk, Says, TestsDatabase, TestsDesk};
ghost use Rattle.rd_store.specs.Register.{IsRegisterOf};

use crate::create::make_first_tables;
use crate::faults::{OpenFault, Refused};
use crate::opening::{check_first_rows, check_rows};
use crate::register::Register;
use crate::store::Store;
use crate::version::{Version, known_version};
use rd_tables::{has_desk_columns, has_foreign_desk, is_blank, same_schema};
use sqlite::{Alter, Connection, MemStore};
use std::alloc::Global;

/// A new desk in memory, whose tables are declared as those of each desk.
fn sample(alloc: Global) -> Result<Connection<MemStore>, OpenFault>
    ensures schema { IfOk result (λ conn. (state over_memory conn).now.schema ≡ desk_schema) }
    ensures fault { IfErr result (λ fault. fault ≡ OpenFault.Sql) }
{
    let Ok(conn) = Connection::open_in_memory(alloc) else {
        return Err(OpenFault::Sql);
    };
    match Store::create(conn, &[0; 32]) {
        Ok(store) => Ok(store.into_connection()),
        Err(
            Refused {
                fault: _,
                conn: _conn,
            },
        ) => Err(OpenFault::Sql),
    }
}

/// A database in memory with the tables of version 1.
fn first_sample(alloc: Global) -> Result<Connection<MemStore>, OpenFault>
    ensures schema { IfOk result (λ conn. (state over_memory conn).now.schema ≡ first_schema) }
    ensures fault { IfErr result (λ fault. fault ≡ OpenFault.Sql) }
{
    let Ok(mut conn) = Connection::open_in_memory(alloc) else {
        return Err(OpenFault::Sql);
    };
    if !is_blank(conn.schema()) || !conn.is_autocommit() {
        return Err(OpenFault::Sql);
    }
    match make_first_tables(&mut conn) {
        Ok(()) => Ok(conn),
        Err(_) => Err(OpenFault::Sql),
    }
}

/// The register of the desk of a database that says version 2, if it is one.
fn judge_second<S: Alter>(alloc: Global, conn: &mut Connection<S>) -> Result<Register, OpenFault>
    requires rests { IsResting (state S.Store conn.old) }
    requires sound { IsSoundAt (state S.Store conn.old) }
    requires desk { IsOpen S.Store conn.old → has_desk_columns (state S.Store conn.old).now.schema ≡ true }
    requires said { IsOpen S.Store conn.old → Says (IsSaid (Some Version.Second)) (state S.Store conn.old).now }
    ensures tests { TestsDesk S.Store conn.old conn.new result }
    ensures listed { IsOpen S.Store conn.new → IfOk result (IsRegisterIn Version.Second (state S.Store conn.old).now.trees) }
    ensures no_desk { IfErr result (λ fault. fault ≢ OpenFault.NotADesk) }
{
    let second = sample(alloc)?;
    if !same_schema(conn.schema(), second.schema()) {
        return Err(OpenFault::Sql);
    }
    check_rows(alloc, conn)
}

/// The register of the desk of a database that says version 1, if it is one.
fn judge_first<S: Alter>(alloc: Global, conn: &mut Connection<S>) -> Result<Register, OpenFault>
    requires rests { IsResting (state S.Store conn.old) }
    requires sound { IsSoundAt (state S.Store conn.old) }
    requires desk { IsOpen S.Store conn.old → has_desk_columns (state S.Store conn.old).now.schema ≡ true }
    requires said { IsOpen S.Store conn.old → Says (IsSaid (Some Version.First)) (state S.Store conn.old).now }
    ensures tests { TestsDatabase S.Store conn.old conn.new result (λ register. IsHeldFirst) RefusesEach }
    ensures listed { IsOpen S.Store conn.new → IfOk result (IsRegisterIn Version.First (state S.Store conn.old).now.trees) }
    ensures no_desk { IfErr result (λ fault. fault ≢ OpenFault.NotADesk) }
{
    let first = first_sample(alloc)?;
    if !same_schema(conn.schema(), first.schema()) {
        return Err(OpenFault::Sql);
    }
    check_first_rows(alloc, conn)
}

/// The register of the desk of a database, if it is one of the version that it says.
fn judge_as<S: Alter>(
    alloc: Global,
    conn: &mut Connection<S>,
    version: Version,
) -> Result<Register, OpenFault>
    requires rests { IsResting (state S.Store conn.old) }
    requires sound { IsSoundAt (state S.Store conn.old) }
    requires desk { IsOpen S.Store conn.old → has_desk_columns (state S.Store conn.old).now.schema ≡ true }
    requires said { IsOpen S.Store conn.old → Says (IsSaid (Some version)) (state S.Store conn.old).now }
    ensures tests { TestsDatabase S.Store conn.old conn.new result (λ register. IsHeldIn version) RefusesEach }
    ensures listed { IsOpen S.Store conn.new → IfOk result (IsRegisterIn version (state S.Store conn.old).now.trees) }
    ensures no_desk { IfErr result (λ fault. fault ≢ OpenFault.NotADesk) }
{
    match version {
        Version::First => judge_first(alloc, conn),
        Version::Second => judge_second(alloc, conn),
    }
}

/// The register of the desk of a database with a table `desk`, if it is one of version 2.
fn judge_tables<S: Alter>(alloc: Global, conn: &mut Connection<S>) -> Result<Register, OpenFault>
    requires settled { IsSettledAt (state S.Store conn.old) }
    requires sound { IsSoundAt (state S.Store conn.old) }
    requires desk { has_desk_columns (state S.Store conn.old).now.schema ≡ true }
    ensures tests { TestsDesk S.Store conn.old conn.new result }
    ensures listed { IsOpen S.Store conn.new → IfOk result (IsRegisterIn Version.Second (state S.Store conn.old).now.trees) }
    ensures no_desk { IfErr result (λ fault. fault ≢ OpenFault.NotADesk) }
{
    let said = known_version(conn)?;
    let Some(version) = said else {
        return Err(OpenFault::Version);
    };
    match version {
        Version::First => Err(OpenFault::Version),
        Version::Second => judge_second(alloc, conn),
    }
}

/// The version and the register of the desk whose database has a table `desk`.
fn judge_each_tables<S: Alter>(
    alloc: Global,
    conn: &mut Connection<S>,
) -> Result<(Version, Register), OpenFault>
    requires settled { IsSettledAt (state S.Store conn.old) }
    requires sound { IsSoundAt (state S.Store conn.old) }
    requires desk { has_desk_columns (state S.Store conn.old).now.schema ≡ true }
    ensures tests { TestsDatabase S.Store conn.old conn.new result (λ found. IsHeldIn found.0) RefusesEach }
    ensures listed { IsOpen S.Store conn.new → IfOk result (λ found. IsRegisterIn found.0 (state S.Store conn.old).now.trees found.1) }
    ensures no_desk { IfErr result (λ fault. fault ≢ OpenFault.NotADesk) }
{
    let said = known_version(conn)?;
    let Some(version) = said else {
        return Err(OpenFault::Version);
    };
    let register = judge_as(alloc, conn, version)?;
    Ok((version, register))
}

/// Whether there is a table `desk` with its columns, and none whose columns SQL does not show.
fn find_desk<S: Alter>(conn: &Connection<S>) -> Result<(), OpenFault>
    ensures found { IfOk result (λ done. IsNamed (state S.Store conn.now).now.schema) }
    ensures none { IfErr result (λ fault. IsNoDesk fault (state S.Store conn.now).now.schema) }
{
    if has_foreign_desk(conn.schema()) {
        return Err(OpenFault::Sql);
    }
    if !has_desk_columns(conn.schema()) {
        return Err(OpenFault::NotADesk);
    }
    Ok(())
}

/// The register of the desk that a database holds, if it is one of version 2.
pub(crate) fn judge<S: Alter>(
    alloc: Global,
    conn: &mut Connection<S>,
) -> Result<Register, OpenFault>
    requires settled { IsSettledAt (state S.Store conn.old) }
    requires sound { IsSoundAt (state S.Store conn.old) }
    ensures tests { TestsDesk S.Store conn.old conn.new result }
    ensures names { NamesDesk conn.old conn.new result }
    ensures kept { IfOk result (λ register. HoldsDesk (state S.Store conn.new)) }
    ensures listed { IfOk result (IsRegisterOf S.Store conn.new) }
{
    find_desk(conn)?;
    judge_tables(alloc, conn)
}

/// The version and the register of the desk that a database holds.
pub(crate) fn judge_each<S: Alter>(
    alloc: Global,
    conn: &mut Connection<S>,
) -> Result<(Version, Register), OpenFault>
    requires settled { IsSettledAt (state S.Store conn.old) }
    requires sound { IsSoundAt (state S.Store conn.old) }
    ensures tests { TestsDatabase S.Store conn.old conn.new result (λ found. IsHeldIn found.0) RefusesEach }
    ensures listed { IsOpen S.Store conn.new → IfOk result (λ found. IsRegisterIn found.0 (state S.Store conn.old).now.trees found.1) }
    ensures names { NamesDesk conn.old conn.new result }
{
    find_desk(conn)?;
    judge_each_tables(alloc, conn)
}
