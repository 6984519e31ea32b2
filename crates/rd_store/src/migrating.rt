//! Bringing a desk from the tables of version 1 to those of version 2.

ghost use Rattle.std.specs.Prelude.{◌≡◌, IfOk, IfErr, false};
ghost use Rattle.sqlite.specs.Held.{state};
ghost use Rattle.rd_tables.specs.Connections.{IsOpen, Moves, RestsIn, Turns};
ghost use Rattle.rd_store.specs.Held.{HoldsDesk, IsOf};
ghost use Rattle.rd_store.specs.Migrated.{IsFirst, IsHalfway, IsMigrated, IsNotMigrated, first_desk};
ghost use Rattle.rd_store.specs.Opened.{IsSettledAt, IsSoundAt};
ghost use Rattle.rd_store.specs.Register.{IsRegisterOf};

use crate::create::create_text;
use crate::faults::OpenFault;
use crate::register::Register;
use crate::validation::judge_each;
use crate::version::Version;
use sqlite::{Alter, Connection, Error, Transaction};
use std::alloc::Global;

/// Makes the table of error bytes.
fn make_marks<S: Alter>(tx: &mut Transaction<'_, S>) -> Result<usize, Error>
    ensures same_reference { tx.new.conn.ghost_name ≡ tx.old.conn.ghost_name }
    ensures moves { (desk : _) → Moves S.Store tx.old.conn.now tx.new.conn.now (IsFirst desk) (IsHalfway desk) result }
{
    tx.execute(create_text(7), &[])
}

/// Writes version 2 into the row of `desk`, whose table of error bytes stands.
fn set_version<S: Alter>(tx: &mut Transaction<'_, S>) -> Result<usize, Error>
    ensures same_reference { tx.new.conn.ghost_name ≡ tx.old.conn.ghost_name }
    ensures moves { (desk : _) → Moves S.Store tx.old.conn.now tx.new.conn.now (IsHalfway desk) (IsOf desk) result }
{
    tx.execute("UPDATE desk SET version = 2", &[])
}

/// Makes tables of version 1 those of version 2, inside a transaction.
fn write_second_tables<S: Alter>(tx: &mut Transaction<'_, S>) -> Result<usize, Error>
    ensures same_reference { tx.new.conn.ghost_name ≡ tx.old.conn.ghost_name }
    ensures moves { (desk : _) → Moves S.Store tx.old.conn.now tx.new.conn.now (IsFirst desk) (IsOf desk) result }
{
    make_marks(tx)?;
    set_version(tx)
}

/// Makes tables of version 1 those of version 2, in one transaction.
fn write_version<S: Alter>(conn: &mut Connection<S>) -> Result<(), Error>
    requires mode { conn.old.in_transaction ≡ false }
    requires start { IsOpen S.Store conn.old → RestsIn (IsFirst (first_desk (state S.Store conn.old).now.trees)) (state S.Store conn.old) }
    ensures turns { Turns S.Store conn.old conn.new (IsOf (first_desk (state S.Store conn.old).now.trees)) result }
{
    let mut tx = conn.transaction();
    write_second_tables(&mut tx)?;
    tx.commit()
}

/// Makes tables of version 1 those of version 2, where no transaction has begun. The register stays.
fn bring_up<S: Alter>(conn: &mut Connection<S>, register: Register) -> Result<Register, OpenFault>
    requires start { IsOpen S.Store conn.old → RestsIn (IsFirst (first_desk (state S.Store conn.old).now.trees)) (state S.Store conn.old) }
    ensures turns { Turns S.Store conn.old conn.new (IsOf (first_desk (state S.Store conn.old).now.trees)) result }
    ensures same { IfOk result (λ brought. brought ≡ register) }
    ensures fault { IfErr result (λ fault. fault ≡ OpenFault.Sql) }
{
    if !conn.is_autocommit() {
        return Err(OpenFault::Sql);
    }
    match write_version(conn) {
        Ok(()) => Ok(register),
        Err(_) => Err(OpenFault::Sql),
    }
}

/// Tests a database for a desk, brings tables of version 1 to version 2, and gives the register.
pub(crate) fn migrate<S: Alter>(
    alloc: Global,
    conn: &mut Connection<S>,
) -> Result<Register, OpenFault>
    requires settled { IsSettledAt (state S.Store conn.old) }
    requires sound { IsSoundAt (state S.Store conn.old) }
    ensures migrated { IfOk result (λ register. IsMigrated S.Store conn.old conn.new) }
    ensures holds { IfOk result (λ register. HoldsDesk (state S.Store conn.new)) }
    ensures listed { IfOk result (IsRegisterOf S.Store conn.new) }
    ensures refused { IfErr result (λ fault. IsNotMigrated S.Store conn.old conn.new fault) }
{
    let (version, register) = judge_each(alloc, conn)?;
    match version {
        Version::First => bring_up(conn, register),
        Version::Second => Ok(register),
    }
}
