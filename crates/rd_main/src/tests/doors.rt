//! Visits at the doors of the real machine.

use super::folders::Folder;
use rd_fakes::desk::{desk_over, new_store};
use rd_host::Host;
use rd_http::{Door, Ended, Served, TimeLimits, serve_in_memory};
use rd_program::{Machine, Place};
use rd_samples::days::CENTRAL;
use std::alloc::Global;
use std::io::{Read, Write};
use std::net::{TcpListener, TcpStream};
use std::os::unix::net::UnixStream;
use std::test::Fail;
use std::time::{Duration, Instant};

/// A visit of a visitor who never ends.
struct Visit {
    label: &'static str,
    /// How many seconds the request may take.
    request: u64,
    /// What the visitor sends.
    sent: &'static str,
    /// At how many visits a read fails.
    read_faults: u32,
    /// What the visitor reads.
    reply: &'static str,
    /// For how many milliseconds the desk waits at least, and what is more than it waits. That is less than the usual
    /// time of a request.
    waits: (u64, u64),
}

const VISITS: [Visit; 3] = [
    Visit {
        label: "a request",
        request: 60,
        sent: "GET /images HTTP/1.1\r\n\r\n",
        read_faults: 0,
        reply: "HTTP/1.1 200 OK\r\nContent-Type: application/json\r\nContent-Length: 13\r\nConnection: close\r\n\r\n{\"images\":[]}",
        waits: (0, 8_000),
    },
    Visit {
        label: "no byte",
        request: 1,
        sent: "",
        read_faults: 1,
        reply: "",
        waits: (900, 8_000),
    },
    Visit {
        label: "half a line",
        request: 1,
        sent: "GET /images",
        read_faults: 1,
        reply: "",
        waits: (900, 8_000),
    },
];

/// How a visit went.
#[derive(Debug, Drop)]
struct Visited {
    served: Served,
    waited: Duration,
    read: Vec<u8>,
}

impl Visited {
    /// Whether it went so.
    fn is(&self, visit: &Visit) -> bool {
        let served = Served {
            visits: 1,
            read_faults: visit.read_faults,
            write_faults: 0,
            ended: Ended::Count,
        };
        let (least, too_long) = visit.waits;
        self.served == served
            && self.read.as_slice() == visit.reply.as_bytes()
            && Duration::from_millis(least) <= self.waited
            && self.waited < Duration::from_millis(too_long)
    }
}

/// Serves one visit of a desk without images.
fn serve_visit<D: Door>(alloc: Global, door: &mut D) -> Result<Served, Fail> {
    let mut desk = desk_over(new_store(alloc)?, CENTRAL)?;
    Ok(serve_in_memory(alloc, door, &mut desk, 1))
}

/// A visitor who has connected sends their bytes; then they are served; then they read what has come.
fn make_visit<D: Door, C: Read + Write + Drop>(
    rt: &HostRuntime,
    door: &mut D,
    mut client: C,
    sent: &str,
) -> Result<Visited, Fail> {
    client.write_all(sent.as_bytes())?;
    let start = Instant::now(rt)?;
    let served = serve_visit(rt.alloc(), door)?;
    let waited = start.elapsed(rt)?;
    let mut read = Vec::new(rt.alloc());
    client.read_to_end(&mut read)?;
    Ok(Visited {
        served,
        waited,
        read,
    })
}

/// The usual limits, but so many seconds for a request.
fn limits(request: u64) -> TimeLimits {
    TimeLimits {
        request: Duration::from_secs(request),
        ..TimeLimits::usual()
    }
}

#[test]
fn a_visitor_at_a_socket_is_served_in_time(rt: HostRuntime) -> Result<(), Fail> {
    let folder = Folder::new(&rt)?;
    let path = folder.path("door")?;
    for visit in &VISITS {
        let mut host = Host::new(&rt);
        let door = host.listen(Place::Socket(path.as_str()), limits(visit.request))?;
        let client = UnixStream::connect(&rt, path.as_str())?;
        let visited = make_visit(&rt, door, client, visit.sent)?;
        assert!(rt; visited.is(visit), "{}: {visited:?}", visit.label);
    }
    Ok(())
}

/// A port at which nobody listens.
fn free_port(rt: &HostRuntime) -> Result<u16, Fail> {
    let listener = TcpListener::bind(rt, "127.0.0.1:0")?;
    Ok(listener.local_addr()?.port())
}

#[test]
fn a_visitor_at_a_port_is_served_in_time(rt: HostRuntime) -> Result<(), Fail> {
    for visit in &VISITS {
        let port = free_port(&rt)?;
        let mut host = Host::new(&rt);
        let door = host.listen(Place::Port(port), limits(visit.request))?;
        let client = TcpStream::connect(&rt, ("127.0.0.1", port))?;
        let visited = make_visit(&rt, door, client, visit.sent)?;
        assert!(rt; visited.is(visit), "{}: {visited:?}", visit.label);
    }
    Ok(())
}
