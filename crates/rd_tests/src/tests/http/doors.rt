//! Doors in memory.

use rd_fakes::desk::Memory;
use rd_geometry::NoMemory;
use rd_http::{Door, MemoryDoor, Served, serve_many};
use std::alloc::Global;

// The calls of the code under test have a helper each, without a clause, so that the proof of a test does not
// carry what all its calls say.

/// What went out at a visit, as text. Visits are counted from 0.
pub(super) fn out_of(alloc: Global, door: &MemoryDoor, n: usize) -> Result<String, NoMemory> {
    Ok(match door.visits().get(n) {
        Some(visit) => String::from_utf8_lossy(alloc, visit.out())?,
        None => String::from_str(alloc, "no such visit")?,
    })
}

/// Serves visits, as many as `count`.
pub(super) fn run<D: Door>(alloc: Global, door: &mut D, desk: &mut Memory, count: u32) -> Served {
    serve_many(alloc, door, desk, count)
}
