//! Visitors who send or take too little, over TCP and over a Unix socket, in one process.

use super::cases::{
    Came, FOR_HELLO, FOR_LONG, HELLO, LONG, Wanted, assert_visits, bytes_of, filled_desk, text_of,
};
use rd_fakes::desk::Memory;
use rd_http::{Clock, Ended, Listener, Served, StreamDoor, TimeLimits, serve_in_memory};
use rd_samples::days::AFTER;
use rd_samples::table;
use std::alloc::{AllocGlobal, Global};
use std::io::{ErrorKind, Read, Write};
use std::net::{TcpListener, TcpStream};
use std::os::unix::net::{SocketAddr, SocketAddrExt, UnixListener, UnixStream};
use std::process;
use std::process::Abort;
use std::test::Fail;
use std::time::Duration;

/// A clock that goes on by so many milliseconds each time somebody looks, and what it has shown last.
#[derive(Clone, Copy)]
struct Ticking {
    step: u64,
    shown: u64,
}

impl Clock for Ticking {
    fn now(&mut self) -> Option<i64> {
        Some(AFTER)
    }

    fn milliseconds(&mut self) -> Option<u64> {
        self.shown = self.shown.checked_add(self.step)?;
        Some(self.shown)
    }
}

/// What a client reads of a reply.
#[derive(Clone, Copy)]
enum Got {
    /// This, and no more.
    Whole(Wanted),
    /// Some of its bytes, but no more than a connection holds back.
    Part,
}

/// A visit: its name, by how many milliseconds the clock goes on each time, how many milliseconds a request may take,
/// what the client sends before it is served, how the run goes, and what the client gets. The client never ends.
type Call = (&'static str, u64, u64, Came, Served, Got);

/// How many bytes a connection holds back.
const HELD: usize = 16_384;

const NOTHING: Got = Got::Whole(Wanted::Texts(&[]));

const HALF: Came = Came::Text("GET /images");

const CALLS: &[Call] = table![
    ("in time", 1, 10_000, FOR_HELLO, served!(1, 0, 0, Count), Got::Whole(HELLO));
    ("no byte", 0, 50, Came::Text(""), served!(1, 1, 0, Count), NOTHING);
    ("half a line, and then no byte", 0, 50, HALF, served!(1, 1, 0, Count), NOTHING);
    ("half a line in time, and the rest too late", 6_000, 10_000, HALF, served!(1, 1, 0, Count), NOTHING);
    ("a request too late", 20_000, 10_000, FOR_HELLO, served!(1, 1, 0, Count), NOTHING);
    ("a reply that is cut off", 40_000, 1_000_000, FOR_LONG, served!(1, 0, 1, Count), Got::Part);
];

/// How one visit at a listener goes.
fn serve_call<L: Listener>(alloc: Global, desk: &mut Memory, listener: L, call: &Call) -> Served {
    let (_, step, request, ..) = call;
    let clock = Ticking {
        step: *step,
        shown: 1_000_000,
    };
    let limits = TimeLimits {
        request: Duration::from_millis(*request),
        ..TimeLimits::usual()
    };
    let mut door = StreamDoor::with_limits(alloc, listener, clock, limits);
    serve_in_memory(alloc, &mut door, desk, 1)
}

/// What a client has read when the visit is over. A visit that ends with bytes unread resets the connection.
fn read_of<R: AllocGlobal, C: Read>(rt: &R, client: &mut C) -> Result<Vec<u8>, Fail> {
    let mut read = Vec::new(rt.alloc());
    match client.read_to_end(&mut read) {
        Err(error) if error.kind() != ErrorKind::ConnectionReset => Err(error.into()),
        _ => Ok(read),
    }
}

/// A client that has connected sends its bytes; then it is served; then it reads what has come.
fn assert_call<R, L, C>(
    rt: &R,
    desk: &mut Memory,
    (listener, mut client): (L, C),
    call: &Call,
) -> Result<(), Fail>
where
    R: AllocGlobal + Abort,
    L: Listener,
    C: Read + Write + Drop,
{
    let (label, _, _, came, served, got) = call;
    client.write_all(bytes_of(rt.alloc(), *came)?.as_slice())?;
    assert_eq!(rt;
        serve_call(rt.alloc(), desk, listener, call),
        *served,
        "{label}"
    );
    let read = read_of(rt, &mut client)?;
    match got {
        Got::Whole(wanted) => {
            let read = String::from_utf8_lossy(rt.alloc(), read.as_slice())?;
            assert_eq!(rt; read, text_of(rt.alloc(), *wanted)?, "{label}");
        }
        Got::Part => assert!(rt; 0 < read.len() && read.len() <= HELD, "{label}"),
    }
    Ok(())
}

#[test]
fn a_visitor_at_a_port_has_a_limit(rt: HostRuntime) -> Result<(), Fail> {
    let mut desk = filled_desk(&rt, rt.alloc())?;
    assert_visits(&rt, rt.alloc(), &mut desk, LONG)?;
    for call in CALLS {
        let listener = TcpListener::bind(&rt, "127.0.0.1:0")?;
        let client = TcpStream::connect(&rt, listener.local_addr()?)?;
        assert_call(&rt, &mut desk, (listener, client), call)?;
    }
    Ok(())
}

#[test]
fn a_visitor_at_a_socket_has_a_limit(rt: HostRuntime) -> Result<(), Fail> {
    let mut desk = filled_desk(&rt, rt.alloc())?;
    assert_visits(&rt, rt.alloc(), &mut desk, LONG)?;
    let name = format!(in rt.alloc(); "desk-test-{}", process::id(rt.process()))?;
    for call in CALLS {
        let address = SocketAddr::from_abstract_name(name.as_bytes())?;
        let listener = UnixListener::bind_addr(&rt, &address)?;
        let client = UnixStream::connect_addr(&rt, &address)?;
        assert_call(&rt, &mut desk, (listener, client), call)?;
    }
    Ok(())
}
