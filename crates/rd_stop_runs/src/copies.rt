//! Copies a desk from one database to another, in a function without a clause, so that a proof of a run does not carry
//! those of the store.

use rd_store::{CreateFault, Refused, Store};
use sqlite::{Alter, Connection};
use std::alloc::Global;

/// Copies the desk of a store over a connection to another database, and gives the store of the copy.
///
/// It fails with the reason and the connection.
pub(crate) fn copy<S: Alter + Drop>(
    alloc: Global,
    from: &mut Store<S>,
    conn: Connection<S>,
) -> Result<Store<S>, (CreateFault, Connection<S>)> {
    if !conn.is_autocommit() {
        return Err((CreateFault::Sql, conn));
    }
    match from.copy(alloc, conn) {
        Ok(store) => Ok(store),
        Err(Refused { fault, conn }) => Err((fault, conn)),
    }
}
