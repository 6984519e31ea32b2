//! Stores and desks, most of them in memory, whose staff key is that of the samples.
//!
//! Each call of the crates below has a function without a clause, so that the proof of a caller does not carry what
//! all its calls say.

use rd_desk::Desk;
use rd_geometry::NoMemory;
use rd_policy::{Zone, ZoneFault};
use rd_samples::keys::STAFF_DIGEST;
use rd_store::{CreateFault, OpenFault, Refused, Store};
use sqlite::{Alter, Connection, MemStore};
use std::alloc::Global;

/// A desk in memory.
pub type Memory = Desk<MemStore>;

/// A connection to an empty database in memory.
pub fn new_connection(alloc: Global) -> Result<Connection<MemStore>, NoMemory> {
    Ok(Connection::open_in_memory(alloc)?)
}

/// Makes a store with one staff key over a connection.
///
/// It fails with the reason and the connection.
pub fn create<S: Alter>(conn: Connection<S>) -> Result<Store<S>, (CreateFault, Connection<S>)> {
    if !conn.is_autocommit() {
        return Err((CreateFault::Sql, conn));
    }
    match Store::create(conn, &STAFF_DIGEST) {
        Ok(store) => Ok(store),
        Err(Refused { fault, conn }) => Err((fault, conn)),
    }
}

/// The same, but it fails with the reason alone.
pub fn made<S: Alter + Drop>(conn: Connection<S>) -> Result<Store<S>, CreateFault> {
    match create(conn) {
        Ok(store) => Ok(store),
        Err((fault, _)) => Err(fault),
    }
}

/// A new store in memory with one staff key.
pub fn new_store(alloc: Global) -> Result<Store<MemStore>, CreateFault> {
    match new_connection(alloc) {
        Ok(conn) => made(conn),
        Err(NoMemory) => Err(CreateFault::Sql),
    }
}

/// Opens the store that a database holds.
///
/// It fails with the reason and the connection.
pub fn open<S: Alter>(
    alloc: Global,
    conn: Connection<S>,
) -> Result<Store<S>, (OpenFault, Connection<S>)> {
    if !conn.is_autocommit() {
        return Err((OpenFault::Sql, conn));
    }
    match Store::open(alloc, conn) {
        Ok(store) => Ok(store),
        Err(Refused { fault, conn }) => Err((fault, conn)),
    }
}

/// The same, but it fails with the reason alone.
pub fn opened<S: Alter + Drop>(alloc: Global, conn: Connection<S>) -> Result<Store<S>, OpenFault> {
    match open(alloc, conn) {
        Ok(store) => Ok(store),
        Err((fault, _)) => Err(fault),
    }
}

/// Opens the store that a database holds, and brings it to the newest version.
///
/// It fails with the reason and the connection.
pub fn migrate<S: Alter>(
    alloc: Global,
    conn: Connection<S>,
) -> Result<Store<S>, (OpenFault, Connection<S>)> {
    if !conn.is_autocommit() {
        return Err((OpenFault::Sql, conn));
    }
    match Store::migrate(alloc, conn) {
        Ok(store) => Ok(store),
        Err(Refused { fault, conn }) => Err((fault, conn)),
    }
}

/// The desk over a store, with clocks by a rule.
pub fn desk_over<S: Alter + Drop>(store: Store<S>, rule: &str) -> Result<Desk<S>, ZoneFault> {
    let zone = Zone::read(rule)?;
    Ok(Desk::new(store, zone))
}

pub fn into_store<S: Alter>(desk: Desk<S>) -> Store<S> {
    desk.into_store()
}

pub fn into_connection<S: Alter>(store: Store<S>) -> Connection<S> {
    store.into_connection()
}
