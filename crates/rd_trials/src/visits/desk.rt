//! A desk in memory, and what goes out at a visit.

use anyhow::{Context, Result, bail};
use rd_desk::Desk;
use rd_fakes::desk::{Memory, into_connection, into_store, migrate, new_store, open as open_store};
use rd_fakes::wire::{Fragile, Plan, door_of};
use rd_http::{Ended, MemoryDoor, Served, WireFault, serve_many, serve_one};
use rd_policy::Zone;
use rd_store::{OpenFault, Store};
use sqlite::{Connection, MemStore};
use std::alloc::Global;

// Each call of the crates below has a function without a clause, so that a proof carries what only
// one of them says.

/// A desk whose staff key is `abc`.
pub(crate) fn new_desk(alloc: Global, zone: Zone) -> Result<Memory> {
    match new_store(alloc) {
        Ok(store) => Ok(Desk::new(store, zone)),
        Err(_) => bail!("no store"),
    }
}

/// The desk with clocks that run by another rule.
pub(crate) fn with_zone(desk: Memory, zone: Zone) -> Memory {
    Desk::new(desk.into_store(), zone)
}

/// Serves the next visit that comes through a door.
fn serve_next(alloc: Global, door: &mut MemoryDoor, desk: &mut Memory) -> Served {
    serve_many(alloc, door, desk, 1)
}

/// What went out at the only visit of a door.
fn out_of(alloc: Global, door: &MemoryDoor) -> Result<Vec<u8>> {
    match door.visits() {
        [visit] => Ok(Vec::from_slice(alloc, visit.out())?),
        _ => bail!("no visit left, or several"),
    }
}

/// How the visit of a run of one ends.
fn ending_of(served: Served) -> Option<Result<(), WireFault>> {
    let Served {
        visits,
        read_faults,
        write_faults,
        ended,
    } = served;
    match (visits, read_faults, write_faults, ended) {
        (1, 0, 0, Ended::Count) => Some(Ok(())),
        (1, 1, 0, Ended::Count) => Some(Err(WireFault::Read)),
        (1, 0, 1, Ended::Count) => Some(Err(WireFault::Write)),
        (0, 0, 0, Ended::Clock) => Some(Err(WireFault::Clock)),
        _ => None,
    }
}

/// How a visit through a door in memory ends when these bytes come, and what goes out.
pub(crate) fn visit_in_memory(
    alloc: Global,
    desk: &mut Memory,
    seconds: i64,
    came: &[u8],
) -> Result<(Result<(), WireFault>, Vec<u8>)> {
    let mut door = door_of(alloc, seconds, Vec::from_slice(alloc, came)?)?;
    let served = serve_next(alloc, &mut door, desk);
    let ending = ending_of(served).context("no run of one visit")?;
    Ok((ending, out_of(alloc, &door)?))
}

/// How a visit over a connection with this behaviour ends when these bytes come, and what goes
/// out.
pub(crate) fn visit(
    alloc: Global,
    desk: &mut Memory,
    seconds: i64,
    came: &[u8],
    plan: Plan,
) -> (Result<(), WireFault>, Vec<u8>) {
    let mut wire = Fragile::new(alloc, came, plan);
    let ending = serve_one(alloc, &mut wire, seconds, desk);
    (ending, wire.out)
}

/// A desk, or its tables alone.
#[derive(Drop)]
pub(crate) enum Stage {
    Open(Memory),
    Tables(Connection<MemStore>),
    /// Neither, while one becomes the other.
    Bare,
}

impl Stage {
    pub(crate) fn into_tables(self) -> Option<Connection<MemStore>> {
        match self {
            Stage::Open(desk) => Some(into_connection(into_store(desk))),
            Stage::Tables(conn) => Some(conn),
            Stage::Bare => None,
        }
    }
}

/// How tables open as a desk.
#[derive(Clone, Copy)]
pub(crate) enum Opening {
    Well,
    Fault(OpenFault),
    /// They do not open, because a transaction is open.
    Inside,
}

/// How the desk that tables hold is taken.
#[derive(Clone, Copy, PartialEq, Eq)]
pub(crate) enum Opener {
    /// It is opened as it is.
    Open,
    /// It is opened too where it is of an earlier version, and is then of this one.
    Migrate,
}

fn opened(
    alloc: Global,
    conn: Connection<MemStore>,
    opener: Opener,
) -> Result<Store<MemStore>, (OpenFault, Connection<MemStore>)> {
    match opener {
        Opener::Open => open_store(alloc, conn),
        Opener::Migrate => migrate(alloc, conn),
    }
}

/// Opens the desk that tables hold.
pub(crate) fn open(
    alloc: Global,
    conn: Connection<MemStore>,
    zone: Zone,
    opener: Opener,
) -> (Stage, Opening) {
    if !conn.is_autocommit() {
        return (Stage::Tables(conn), Opening::Inside);
    }
    match opened(alloc, conn, opener) {
        Ok(store) => (Stage::Open(Desk::new(store, zone)), Opening::Well),
        Err((fault, conn)) => (Stage::Tables(conn), Opening::Fault(fault)),
    }
}
