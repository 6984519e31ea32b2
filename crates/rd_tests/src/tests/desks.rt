//! Desks in memory, and what memory is refused for, tried once more.

use super::tables::{number, tables_of};
use rd_fakes::desk::{
    Memory, create, desk_over, into_connection, into_store, made, new_connection, new_store, opened,
};
use rd_geometry::NoMemory;
use rd_samples::days::CENTRAL;
use rd_store::{CreateFault, Store};
use sqlite::{Connection, MemStore};
use std::alloc::Global;
use std::process::Abort;
use std::test::Fail;

/// Asks how many tables and indexes stand.
const MADE: &str = "SELECT count(*) FROM sqlite_master";

fn connection_again(alloc: Global) -> Result<Connection<MemStore>, NoMemory> {
    match new_connection(alloc) {
        Ok(conn) => Ok(conn),
        Err(NoMemory) => new_connection(alloc),
    }
}

/// The store of a new desk with one staff key. What memory is refused for is tried once more: the first time leaves no
/// table.
pub(super) fn new_store_again(rt: &impl Abort, alloc: Global) -> Result<Store<MemStore>, Fail> {
    match create(connection_again(alloc)?) {
        Ok(store) => Ok(store),
        Err((fault, mut conn)) => {
            assert_eq!(rt; fault, CreateFault::Sql);
            assert_eq!(rt; number(&mut conn, MADE)?, 0);
            Ok(made(conn)?)
        }
    }
}

/// A desk with one staff key, and with the clocks of central Europe.
pub(super) fn new_desk(alloc: Global) -> Result<Memory, Fail> {
    Ok(desk_over(new_store(alloc)?, CENTRAL)?)
}

/// The same. What memory is refused for is tried once more.
pub(super) fn new_desk_again(rt: &impl Abort, alloc: Global) -> Result<Memory, Fail> {
    Ok(desk_over(new_store_again(rt, alloc)?, CENTRAL)?)
}

/// A desk has the tables of another.
pub(super) fn assert_tables(
    rt: &impl Abort,
    alloc: Global,
    desk: Memory,
    other: Memory,
) -> Result<Memory, Fail> {
    let mut conn = into_connection(into_store(desk));
    let mut kept = into_connection(into_store(other));
    assert_eq!(rt; tables_of(alloc, &mut conn)?, tables_of(alloc, &mut kept)?);
    Ok(desk_over(opened(alloc, conn)?, CENTRAL)?)
}
