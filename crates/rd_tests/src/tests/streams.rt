//! Visits over streams, through one door one after the other: what is sent to whom, when a visit begins, and how long a
//! stream may wait.

mod notes;
mod sent;
mod waits;

use rd_fakes::desk::Memory;
use rd_http::{Clock, Ended, Listener, Served, StreamDoor, TimeLimits, serve_in_memory};
use std::alloc::Global;

/// How a run went that ended by its count: how many visits there were, and how many reads and writes failed.
fn served(visits: u32, read_faults: u32, write_faults: u32) -> Served {
    Served {
        visits,
        read_faults,
        write_faults,
        ended: Ended::Count,
    }
}

/// Serves so many visitors of a listener through a new door, with a clock and how long they may take.
fn serve<L: Listener, C: Clock + Copy + Drop>(
    alloc: Global,
    listener: L,
    clock: C,
    limits: TimeLimits,
    desk: &mut Memory,
    count: u32,
) -> Served {
    let mut door = StreamDoor::with_limits(alloc, listener, clock, limits);
    serve_in_memory(alloc, &mut door, desk, count)
}
