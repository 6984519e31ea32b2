//! Visits over TCP, in one process.

use super::cases::{
    BAD_HEAD, CLOSED, Came, FOR_HELLO, FOR_LONG, HELLO, LONG, Wanted, assert_visits, bytes_of,
    filled_desk, text_of,
};
use rd_fakes::desk::Memory;
use rd_http::{Clock, Ended, Served, TcpDoor, serve_in_memory};
use rd_samples::cpm::scattered_file;
use rd_samples::days::{AFTER, BEFORE};
use rd_samples::table;
use std::alloc::AllocGlobal;
use std::io::{Read, Write};
use std::net::{Net, Shutdown, TcpListener, TcpStream};
use std::process::Abort;
use std::test::Fail;

/// A clock that stands still, or fails.
#[derive(Clone, Copy)]
struct Standing(Option<i64>);

impl Clock for Standing {
    fn now(&mut self) -> Option<i64> {
        self.0
    }

    fn milliseconds(&mut self) -> Option<u64> {
        Some(0)
    }
}

/// A visit over TCP: its name, what the clock shows, what the client sends, how the run goes, and what the
/// client reads.
type Call = (&'static str, Option<i64>, Came, Served, Wanted);

const CALLS: &[Call] = table![
    ("a denial", Some(BEFORE), FOR_HELLO, served!(1, 0, 0, Count), CLOSED);
    ("a file", Some(AFTER), FOR_HELLO, served!(1, 0, 0, Count), HELLO);
    ("nothing sent", Some(AFTER), Came::Text(""), served!(1, 0, 0, Count), BAD_HEAD);
    ("no day", Some(i64::MIN), Came::Text(""), served!(0, 0, 0, Clock), Wanted::Texts(&[]));
    ("no clock", None, Came::Text(""), served!(0, 0, 0, Shut), Wanted::Texts(&[]));
];

/// A client connects, sends its bytes and ends; then it is served; then it reads the reply.
fn assert_call<R>(rt: &R, desk: &mut Memory, call: &Call) -> Result<(), Fail>
where
    R: Net<Listener = TcpListener, Stream = TcpStream> + AllocGlobal + Abort,
{
    let (label, clock, came, served, out) = call;
    let read = read_after(rt, desk, label, *clock, *came, *served)?;
    let read = String::from_utf8_lossy(rt.alloc(), read.as_slice())?;
    assert_eq!(rt; read, text_of(rt.alloc(), *out)?, "{label}");
    Ok(())
}

/// What the client of a visit has read.
fn read_after<R>(
    rt: &R,
    desk: &mut Memory,
    label: &str,
    clock: Option<i64>,
    came: Came,
    served: Served,
) -> Result<Vec<u8>, Fail>
where
    R: Net<Listener = TcpListener, Stream = TcpStream> + AllocGlobal + Abort,
{
    let listener = TcpListener::bind(rt, "127.0.0.1:0")?;
    let mut client = TcpStream::connect(rt, listener.local_addr()?)?;
    client.write_all(bytes_of(rt.alloc(), came)?.as_slice())?;
    client.shutdown(Shutdown::Write)?;
    let mut door = TcpDoor::new(rt.alloc(), listener, Standing(clock));
    assert_eq!(rt;
        serve_in_memory(rt.alloc(), &mut door, desk, 1),
        served,
        "{label}"
    );
    let mut read = Vec::new(rt.alloc());
    client.read_to_end(&mut read)?;
    Ok(read)
}

#[test]
fn visits_come_over_tcp(rt: HostRuntime) -> Result<(), Fail> {
    let mut desk = filled_desk(&rt, rt.alloc())?;
    for call in CALLS {
        assert_call(&rt, &mut desk, call)?;
    }
    Ok(())
}

const HEAD_OF_LONG: &str =
    "HTTP/1.1 200 OK\r\nContent-Type: application/octet-stream\r\nContent-Length: 16384\r\nConnection: close\r\n\r\n";

/// The reply is longer than what a connection over TCP holds back, 16,384 bytes, so it is sent in parts.
#[test]
fn a_reply_longer_than_what_is_held_back_comes_over_tcp(rt: HostRuntime) -> Result<(), Fail> {
    let mut desk = filled_desk(&rt, rt.alloc())?;
    assert_visits(&rt, rt.alloc(), &mut desk, LONG)?;
    let read = read_after(
        &rt,
        &mut desk,
        "a long file",
        Some(AFTER),
        FOR_LONG,
        served!(1, 0, 0, Count),
    )?;
    let mut file = scattered_file(rt.alloc())?;
    file.truncate(16_384);
    let mut wanted = Vec::from_slice(rt.alloc(), HEAD_OF_LONG.as_bytes())?;
    wanted.extend_from_slice(file.as_slice())?;
    assert!(rt; read == wanted);
    Ok(())
}
