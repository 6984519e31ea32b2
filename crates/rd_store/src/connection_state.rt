ghost use Rattle.std.specs.Prelude.{◌≡◌, false, IfErr, OnErr, OnOk, true, ⊤};
ghost use Rattle.sqlite.specs.Held.{state};
ghost use Rattle.rd_tables.specs.Connections.{Asks};
ghost use Rattle.rd_store.specs.Held.{HoldsDesk, Reads};

use crate::faults::StoreFault;
use crate::store::Store;
use sqlite::{Alter, Connection};

/// Makes sure that a connection is open: SQL prepares a query, and does not run it. What is answered from memory
/// alone begins with this, since of a connection that a fault of the disk has shut nothing is known.
///
/// It fails with `Sql`.
pub(crate) fn stays_open<S: Alter>(conn: &mut Connection<S>) -> Result<(), StoreFault>
    requires holds { HoldsDesk (state S.Store conn.old) }
    ensures asks { Asks S.Store conn.old conn.new result StoreFault.Sql (λ done. ⊤) }
    ensures kept { HoldsDesk (state S.Store conn.new) }
{
    match conn.prepare("SELECT bytes FROM marks WHERE acc = ?1") {
        Ok(_) => Ok(()),
        Err(_) => Err(StoreFault::Sql),
    }
}

impl<S: Alter> Store<S> {
    /// Makes sure that the connection is outside a transaction. An open one is; for one that a fault of the disk has
    /// shut it is unknown.
    ///
    /// It fails with `Sql`.
    pub(crate) fn outside_transaction(&self) -> Result<(), StoreFault>
        ensures outside { OnOk result (self.now.in_transaction ≡ false) }
        ensures inside { OnErr result (self.now.in_transaction ≡ true) }
        ensures fault { IfErr result (λ fault. fault ≡ StoreFault.Sql) }
    {
        if self.conn.is_autocommit() {
            Ok(())
        } else {
            Err(StoreFault::Sql)
        }
    }

    /// Makes sure that the connection is open: SQL prepares a query, and does not run it. What is answered from memory
    /// alone begins with this, since of a connection that a fault of the disk has shut nothing is known.
    ///
    /// It fails with `Sql`.
    pub(crate) fn stays_open(&mut self) -> Result<(), StoreFault>
        ensures reads { Reads S.Store self.old self.new result (λ done. ⊤) }
        ensures fault { IfErr result (λ fault. fault ≡ StoreFault.Sql) }
    {
        stays_open(&mut self.conn)
    }
}
