use sqlite::{Alter, Connection};

/// Why a call on a chain fails. If the connection is still open, all is then as it was.
#[derive(Clone, Copy, Debug, PartialEq, Eq)]
pub enum ChainFault {
    /// There would be more than 999,999,999 lines.
    Full,
    /// The database failed, or memory ran out; the fault does not say which of the two.
    Sql,
}

/// Why `create` makes no chain.
#[derive(Clone, Copy, Debug, PartialEq, Eq)]
pub enum CreateFault {
    /// There is a table, an index or a view.
    Occupied,
    /// The database failed, or memory ran out.
    Sql,
}

/// Why `open` opens no chain.
#[derive(Clone, Copy, Debug, PartialEq, Eq)]
pub enum OpenFault {
    /// The database has not the one table of a chain alone, declared as `create` declares it.
    NotAChain,
    /// The numbers are not 1, 2, .. without a gap, at most 999,999,999, or a sum is not that of its line and the sum
    /// before it.
    Broken,
    /// The database failed, or memory ran out.
    Sql,
}

/// Why a connection does not become a chain, and the connection.
pub struct Refused<F, S: Alter> {
    /// Why.
    pub fault: F,
    /// The connection. If it is open, its database is as it was.
    pub conn: Connection<S>,
}
