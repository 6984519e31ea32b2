//! Messages over HTTP: the bytes that come become a request, and a reply the bytes that go; and the wires and
//! doors that they pass. It names no database.
#![tactic(auto)]

mod answer;
mod bodies;
mod body;
mod enquiry;
mod fault;
mod fields;
mod framing;
mod head;
mod kept_router;
mod limits;
mod lingering;
mod memory;
mod method;
mod pace;
pub mod read_request;
mod reply;
mod request_laws;
mod route;
mod stream;
mod table;
mod taking;
mod target;
mod tcp;
mod values;
mod wire;
mod workspace;
mod write;

pub use answer::{send, with_challenge};
pub use fault::RequestFault;
pub use limits::{LONGEST_BODY, LONGEST_HEAD, LONGEST_REQUEST, MOST_FIELDS};
pub use memory::{MemoryDoor, MemoryVisit, MemoryWire, memory_reads};
pub use pace::{Clock, TimeLimits};
pub use request_laws::{each_asked, one_asked, shown_rules_are_sent_back};
pub use stream::{Listener, Stream};
pub use tcp::{StreamDoor, StreamWire, TcpDoor};
pub use wire::{Broken, Door, Shut, Wire};
pub use workspace::Workspace;
