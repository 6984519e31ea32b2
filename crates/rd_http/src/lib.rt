//! The reading room over HTTP: visits, one or many. Each reads a request, has the desk answer it, and sends the
//! reply.
#![tactic(auto)]

mod laws;
mod serve;
mod visit;

pub use laws::{hidden_bytes_reach_no_visitor, visits_are_replied_until_shut};
pub use rd_messages::{
    Broken, Clock, Door, Listener, MemoryDoor, MemoryVisit, MemoryWire, Shut, Stream, StreamDoor,
    StreamWire, TcpDoor, TimeLimits, Wire, each_asked, memory_reads, one_asked,
};
pub use serve::{Ended, Served, serve_in_memory, serve_many};
pub use visit::{WireFault, serve_one};
