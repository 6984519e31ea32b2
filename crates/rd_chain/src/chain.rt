ghost use Rattle.std.specs.Prelude.{◌≡◌, ◌∷◌, [], false, IfOk, IfErr, length, map};
ghost use Rattle.sqlite.specs.Held.{Held, state};
ghost use Rattle.rd_tables.specs.Connections.{IsOpen};
ghost use Rattle.rd_chain.specs.Held.{Appends, HoldsChain, IsAtRest, IsCreated, IsFullFor, IsNotCreated, IsNotOpened, IsOpened, ReadsAfter, lines};
ghost use Rattle.rd_chain.specs.Rows.{IsChain};

use crate::faults::{ChainFault, CreateFault, OpenFault, Refused};
use crate::read::{SummedLine, judge, later_rows, summed_lines};
use crate::schema::is_history;
use crate::sum::End;
use crate::write::{write_lines, write_table};
use rd_tables::is_blank;
use sqlite::{Alter, Connection};
use std::alloc::Global;
use std::marker::Model;

/// A chain of lines over a connection, whose database has one table and nothing else:
///
/// `CREATE TABLE history (seq INTEGER PRIMARY KEY, line TEXT NOT NULL, sum BLOB NOT NULL) STRICT`
///
/// The numbers are 1, 2, .. without a gap, at most 999,999,999, and each sum is that of `next_sum`. In memory it keeps
/// the number and the sum of the last line.
#[derive(Drop)]
pub struct Chain<S: Alter> {
    pub(crate) conn: Connection<S>,
    pub(crate) end: End,
}

impl<S: Alter> Model for Chain<S> {
    ghost use Rattle.sqlite.specs.Held.{Held, held_code, state};
    ghost use Rattle.rd_chain.specs.Held.{HoldsChain};
    ghost use Rattle.rd_chain.specs.Inside.{IsEndOf};

    ghost Value = { Held S };

    ghost coded = { held_code S.code };

    ghost view = { λ chain. chain.conn };

    ghost invariant = { λ chain. HoldsChain (state S.Store chain.conn) × IsEndOf S.Store chain.conn chain.end };
}

impl<S: Alter> Chain<S> {
    /// Makes a chain without lines in a database without tables, in one transaction. The connection is outside a
    /// transaction.
    ///
    /// It fails with `Occupied` if there is a table, an index or a view, and with `Sql` if the database fails, or if
    /// memory runs out.
    pub fn create(mut conn: Connection<S>) -> Result<Chain<S>, Refused<CreateFault, S>>
        requires outside { conn.in_transaction ≡ false }
        ensures created { IfOk result (λ chain. IsCreated S.Store conn chain) }
        ensures refused { IfErr result (λ refused. IsNotCreated S.Store conn refused.conn refused.fault) }
    {
        if !is_blank(conn.schema()) {
            return Err(Refused {
                fault: CreateFault::Occupied,
                conn,
            });
        }
        let _outside = conn.is_autocommit();
        match write_table(&mut conn) {
            Ok(()) => Ok(Chain {
                conn,
                end: End::start(),
            }),
            Err(_) => Err(Refused {
                fault: CreateFault::Sql,
                conn,
            }),
        }
    }

    /// Opens the chain that a database holds. It reads all lines at once. The connection is outside a transaction.
    ///
    /// It fails with `NotAChain` unless the database has the one table, declared as `create` declares it, and nothing
    /// else; then with `Broken` if its rows are not those of lines; and with `Sql` if the database fails, or if memory
    /// runs out.
    pub fn open(mut conn: Connection<S>) -> Result<Chain<S>, Refused<OpenFault, S>>
        requires outside { conn.in_transaction ≡ false }
        ensures opened { IfOk result (λ chain. IsOpened S.Store IsChain conn chain) }
        ensures refused { IfErr result (λ refused. IsNotOpened S.Store IsChain conn refused.conn refused.fault) }
    {
        if !is_history(conn.schema()) {
            return Err(Refused {
                fault: OpenFault::NotAChain,
                conn,
            });
        }
        let _outside = conn.is_autocommit();
        match judge(&mut conn) {
            Ok(end) => Ok(Chain { conn, end }),
            Err(fault) => Err(Refused { fault, conn }),
        }
    }

    /// How many lines there are, which is the number of the last. It is answered from memory.
    pub fn last(&self) -> u32
        ensures { IsOpen S.Store self.now → result ≡ length (lines S.Store self.now) }
    {
        self.end.number
    }

    /// The lines after a number, which is 0 for all lines; of more than 200 the first 200.
    ///
    /// It fails with `Sql` if the database fails, or if memory runs out.
    pub fn lines_after(&mut self, alloc: Global, number: u32) -> Result<Vec<SummedLine>, ChainFault>
        ensures { ReadsAfter S.Store self.old self.new number result }
    {
        let rows = later_rows(&mut self.conn, number)?;
        summed_lines(alloc, &rows)
    }

    /// Puts lines at the end, in one transaction: all of them, or none. After `Ok` they are durable.
    ///
    /// It fails with `Full` where there would be more than 999,999,999 lines, and with `Sql`.
    pub fn append_all(&mut self, lines: &[&str]) -> Result<(), ChainFault>
        ensures appends { Appends S.Store self.old self.new (map (λ line. line.now) lines.now) result }
        ensures full { IsFullFor S.Store self.old self.new (length lines.now) result }
    {
        if !self.end.has_room(lines.len()) {
            return Err(ChainFault::Full);
        }
        if !self.conn.is_autocommit() {
            return Err(ChainFault::Sql);
        }
        match write_lines(&mut self.conn, &self.end, lines) {
            Ok(end) => {
                self.end = end;
                Ok(())
            }
            Err(_) => Err(ChainFault::Sql),
        }
    }

    /// Puts a line at the end. After `Ok` it is durable.
    ///
    /// It fails with `Full` where there would be more than 999,999,999 lines, and with `Sql`.
    pub fn append(&mut self, line: &str) -> Result<(), ChainFault>
        ensures appends { Appends S.Store self.old self.new (line.now ∷ []) result }
        ensures full { IsFullFor S.Store self.old self.new 1 result }
    {
        self.append_all(&[line])
    }

    /// Gives the connection back, with the lines in its database.
    pub fn into_connection(self) -> Connection<S>
        ensures same { result ≡ self }
        ensures holds { HoldsChain (state S.Store result) }
    {
        let Chain { conn, end: _ } = self;
        conn
    }

    /// Does nothing. Its contract says what holds between two calls: while the connection is open, its database is
    /// the chain of its lines, and a crash leaves them and nothing else.
    pub fn between_calls(&self)
        ensures { IsAtRest S.Store self.now }
    {
        let _ = &self.conn;
    }
}
