use sqlite::{Alter, Connection};

/// Why a call of the store fails. If the connection is still open, all is then as it was. If a
/// fault of the disk has shut a connection that was open, and the disk has returned what was
/// written, opening again finds the desk before or after the call.
#[derive(Clone, Copy, Debug, PartialEq, Eq, Hash)]
pub enum StoreFault {
    /// The database failed, or memory ran out; the fault does not say which of the two.
    Sql,
    /// What the call refers to is not there.
    Missing,
    /// Something else stands there, or no staff key would be left.
    Conflict,
}

/// Why `create` makes no desk.
#[derive(Clone, Copy, Debug, PartialEq, Eq, Hash)]
pub enum CreateFault {
    /// There is a table `desk`, perhaps one whose columns SQL does not show, because it does not
    /// understand something on it, such as a trigger.
    Exists,
    /// There are other tables or views, the database failed, or memory ran out.
    Sql,
}

/// Why `open` or `migrate` opens no desk.
#[derive(Clone, Copy, Debug, PartialEq, Eq, Hash)]
pub enum OpenFault {
    /// There is no table `desk` with the columns of one. A table `desk` whose columns SQL does not
    /// show gives `Sql` instead.
    NotADesk,
    /// The table `desk` does not have its one row, or the row says another version than 2; for
    /// `migrate`, another than 1 and 2.
    Version,
    /// The rows are not those of a desk: a value is out of its range, what it refers to is not there, no staff key is
    /// there, error bytes are not 683 or stand where no D64 does, or the index of the files is not that of the images.
    Inconsistent,
    /// Tables are declared in another way, the database failed, or memory ran out.
    Sql,
}

/// Why a connection does not become a store, and the connection.
pub struct Refused<F, S: Alter> {
    /// Why.
    pub fault: F,
    /// The connection. If it is open, its database is as it was.
    pub conn: Connection<S>,
}
