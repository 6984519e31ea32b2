ghost use Rattle.std.specs.Prelude.{IsTrue, ◌≡◌, IfErr};
ghost use Rattle.sqlite.specs.Given.{IsPlain};
ghost use Rattle.sqlite.specs.Held.{state};
ghost use Rattle.sqlite.specs.Listing.{understood};
ghost use Rattle.sqlite.specs.State.{Shown};
ghost use Rattle.sqlite.specs.Values.{bound};
ghost use Rattle.rd_tables.specs.Schemas.{desk_schema};
ghost use Rattle.rd_tables.specs.Connections.{Asks, IsReadable};
ghost use Rattle.rd_store.specs.Held.{HoldsTables, HoldsDesk, Reads};

use crate::faults::StoreFault;
use crate::store::Store;
use sqlite::types::ValueRef;
use sqlite::{Alter, Connection, Row};

/// All rows that a query shows, over the tables that stand.
pub(crate) fn read_over<S: Alter>(
    conn: &mut Connection<S>,
    sql: &str,
    params: &[ValueRef<'_>],
) -> Result<Vec<Row>, StoreFault>
    requires readable { IsTrue (state S.Store conn.old).is_open → IsReadable sql.now (state S.Store conn.old) }
    ensures asks { Asks S.Store conn.old conn.new result StoreFault.Sql (λ rows.
        Shown sql.now (bound params.now) (state S.Store conn.old) (state S.Store conn.new) rows.items) }
{
    match conn.query_all(sql, params) {
        Ok(rows) => Ok(rows),
        Err(_) => Err(StoreFault::Sql),
    }
}

/// All rows that a query over the tables of a desk shows.
pub(crate) fn read_all<S: Alter>(
    conn: &mut Connection<S>,
    sql: &str,
    params: &[ValueRef<'_>],
) -> Result<Vec<Row>, StoreFault>
    requires tables { HoldsTables (state S.Store conn.old) }
    requires plain { IsPlain (understood desk_schema sql.now) }
    ensures asks { Asks S.Store conn.old conn.new result StoreFault.Sql (λ rows.
        Shown sql.now (bound params.now) (state S.Store conn.old) (state S.Store conn.new) rows.items) }
{
    read_over(conn, sql, params)
}

impl<S: Alter> Store<S> {
    /// All rows that a query over the tables of the desk shows.
    ///
    /// It fails with `Sql`.
    pub(crate) fn query(
        &mut self,
        sql: &str,
        params: &[ValueRef<'_>],
    ) -> Result<Vec<Row>, StoreFault>
        requires plain { IsPlain (understood desk_schema sql.now) }
        ensures holds { HoldsDesk (state S.Store self.old) }
        ensures reads { Reads S.Store self.old self.new result (λ rows.
            Shown sql.now (bound params.now) (state S.Store self.old) (state S.Store self.new) rows.items) }
        ensures fault { IfErr result (λ fault. fault ≡ StoreFault.Sql) }
    {
        read_all(&mut self.conn, sql, params)
    }
}
