ghost use Rattle.std.specs.Prelude.{◌≡◌, false, IfOk, IfErr};
ghost use Rattle.sqlite.specs.Held.{Held, state};
ghost use Rattle.sqlite_trees.specs.declared.memory.MemStore.{MemStore};
ghost use Rattle.rd_store.specs.Created.{IsCreated, IsNotCreated};
ghost use Rattle.sqlite.specs.Steps.{over_memory};
ghost use Rattle.rd_tables.specs.Connections.{IsClean, IsOpen};
ghost use Rattle.rd_store.specs.Held.{HoldsDesk, IsAtRest};
ghost use Rattle.rd_store.specs.Migrated.{IsMigrated, IsNotMigrated};
ghost use Rattle.rd_store.specs.Opened.{IsNotOpened, IsOpened};

use crate::faults::{CreateFault, OpenFault, Refused};
use crate::image_cache::KeptImage;
use crate::register::Register;
use crate::{create, migrating, validation};
use rd_tables::{has_desk as has_desk_table, is_blank};
use sqlite::{Alter, Connection};
use std::alloc::Global;
use std::marker::Model;

/// The tables of a desk over a connection: deeds, images, some with error bytes, an index of their files, rules,
/// desk keys and checks. Beside them it keeps a register in memory, 44 bytes for each accession: the kind of its
/// image, its deed and its SHA-256; and the image that was asked for last, if it was asked for twice in a row.
#[derive(Drop)]
pub struct Store<S: Alter> {
    pub(crate) conn: Connection<S>,
    pub(crate) register: Register,
    pub(crate) last: KeptImage,
}

impl<S: Alter> Model for Store<S> {
    ghost use Rattle.sqlite.specs.Held.{Held, held_code, state};
    ghost use Rattle.rd_store.specs.Held.{HoldsDesk};
    ghost use Rattle.rd_store.specs.Register.{IsRegisterOf};
    ghost use Rattle.rd_store.specs.ImageCache.{IsLastOf};

    ghost Value = { Held S };

    ghost coded = { held_code S.code };

    ghost view = { λ store. store.conn };

    ghost invariant = { λ store. HoldsDesk (state S.Store store.conn) × IsRegisterOf S.Store store.conn store.register × IsLastOf S.Store store.conn store.last };
}

impl<S: Alter> Store<S> {
    /// Makes a desk with one staff key, given by its SHA-256, in a database without tables. The connection
    /// is outside a transaction.
    ///
    /// It fails with `Exists` if there is a table `desk`, and with `Sql` if there is another table or a view,
    /// if the database fails, or if memory runs out.
    pub fn create(
        mut conn: Connection<S>,
        staff: &[u8; 32],
    ) -> Result<Store<S>, Refused<CreateFault, S>>
        requires outside { conn.in_transaction ≡ false }
        ensures created { IfOk result (λ store. IsCreated S.Store conn store staff.now) }
        ensures refused { IfErr result (λ refused. IsNotCreated S.Store conn refused.conn staff.now refused.fault) }
    {
        if has_desk_table(conn.schema()) {
            return Err(Refused {
                fault: CreateFault::Exists,
                conn,
            });
        }
        if !is_blank(conn.schema()) || !conn.is_autocommit() {
            return Err(Refused {
                fault: CreateFault::Sql,
                conn,
            });
        }
        match create::write_desk(&mut conn, staff) {
            Ok(()) => Ok(Store {
                conn,
                register: Register::empty(),
                last: KeptImage::Unasked,
            }),
            Err(_) => Err(Refused {
                fault: CreateFault::Sql,
                conn,
            }),
        }
    }

    /// Opens the desk that a database holds. The connection is outside a transaction.
    ///
    /// It fails with `NotADesk` if there is no table `desk` with the columns of one; then with
    /// `Version` if that table, wherever it stands, does not have its one row, or the row says
    /// another version than 2 (`migrate` opens a desk of version 1 too); then with `Sql` if there is
    /// another table, view or index, or a table is missing or declared in another way; and then with
    /// `Inconsistent` if the rows are not those of a desk. It fails with `Sql` at any time if the
    /// database fails or memory runs out, and before all else if SQL does not show the columns of a
    /// table `desk`, because it does not understand something on it, such as a trigger. `Sql` also
    /// comes in place of `Version` if `id` is not the rowid of that table.
    pub fn open(alloc: Global, mut conn: Connection<S>) -> Result<Store<S>, Refused<OpenFault, S>>
        requires outside { conn.in_transaction ≡ false }
        ensures opened { IfOk result (λ store. IsOpened S.Store conn store) }
        ensures refused { IfErr result (λ refused. IsNotOpened S.Store conn refused.conn refused.fault) }
    {
        let _outside = conn.is_autocommit();
        match validation::judge(alloc, &mut conn) {
            Ok(register) => Ok(Store {
                conn,
                register,
                last: KeptImage::Unasked,
            }),
            Err(fault) => Err(Refused { fault, conn }),
        }
    }

    /// Opens the desk that a database holds, after bringing tables of version 1 to version 2. It tests the rows as
    /// `open` does, and walks each image once. Then in one transaction it makes an empty table of error bytes and sets
    /// the version. The desk stays the same, and a crash leaves it in tables of version 1 or of version 2. There is no
    /// way back to version 1. It leaves tables of version 2 as they are. The connection is outside a transaction.
    ///
    /// It fails as `open` does: with `Version` if the row says neither 1 nor 2, with `Inconsistent` if the rows are
    /// not those of a desk of their version, and with `Sql`, for instance if the tables are not those of the
    /// version that the row says. The database is then as it was.
    pub fn migrate(
        alloc: Global,
        mut conn: Connection<S>,
    ) -> Result<Store<S>, Refused<OpenFault, S>>
        requires outside { conn.in_transaction ≡ false }
        ensures migrated { IfOk result (λ store. IsMigrated S.Store conn store) }
        ensures refused { IfErr result (λ refused. IsNotMigrated S.Store conn refused.conn refused.fault) }
    {
        let _outside = conn.is_autocommit();
        match migrating::migrate(alloc, &mut conn) {
            Ok(register) => Ok(Store {
                conn,
                register,
                last: KeptImage::Unasked,
            }),
            Err(fault) => Err(Refused { fault, conn }),
        }
    }

    /// Gives the connection back, with the rows of the desk.
    pub fn into_connection(self) -> Connection<S>
        ensures same { result ≡ self }
        ensures holds { HoldsDesk (state S.Store result) }
    {
        let Store {
            conn,
            register: _,
            last: _,
        } = self;
        conn
    }

    /// Does nothing. Its contract says what holds between two calls: while the connection is open,
    /// its tables are those of a desk, the desk is a lawful one, the files of each of its images can
    /// be listed, and a crash leaves that desk and nothing else.
    pub fn between_calls(&self)
        ensures { IsAtRest S.Store self.now }
    {
        let _ = &self.conn;
    }
}

/// Law: in memory no disk can fail, so each connection is open at all times. What a call promises of a
/// connection that is open and clean then holds without a premise.
pub fn memory_stays_open()
    ensures open { (conn : Held MemStore) → IsOpen over_memory conn }
    ensures clean { (conn : Held MemStore) → IsClean over_memory conn }
{}
