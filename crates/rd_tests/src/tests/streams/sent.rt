//! What goes out to two visitors of one door: to each their own reply, and nothing of the other's.

use super::notes::{Hand, Manner, Notes, Visitor, Visitors};
use super::{serve, served};
use crate::tests::desks::new_desk;
use rd_fakes::desk::Memory;
use rd_geometry::NoMemory;
use rd_http::{Clock, Listener, Served, TimeLimits};
use rd_samples::days::AFTER;
use std::alloc::{AllocGlobal, Global};
use std::io::{Read, Write};
use std::net::{TcpListener, TcpStream};
use std::os::unix::net::{SocketAddr, SocketAddrExt, UnixListener, UnixStream};
use std::process;
use std::process::Abort;
use std::test::Fail;
use std::time::Duration;

const FOR_DEEDS: &[u8] = b"GET /staff/deeds HTTP/1.1\r\nDesk-Key: abc\r\n\r\n";

const HALF_A_REQUEST: &[u8] = b"GET /staff/deeds HTTP/1.1\r\nDesk";

const FOR_IMAGES: &[u8] = b"GET /images HTTP/1.1\r\n\r\n";

const IMAGES: &str =
    "HTTP/1.1 200 OK\r\nContent-Type: application/json\r\nContent-Length: 13\r\nConnection: close\r\n\r\n{\"images\":[]}";

/// So many deeds have donors of 1,000 bytes: a reply with all of them fills what a connection holds back twice, and
/// nearly once more.
const DEEDS: u32 = 45;

/// A clock that stands still.
#[derive(Clone, Copy)]
struct Standing;

impl Clock for Standing {
    fn now(&mut self) -> Option<i64> {
        Some(AFTER)
    }

    fn milliseconds(&mut self) -> Option<u64> {
        Some(0)
    }
}

/// A visitor who takes no time, and whose stream takes all.
const QUICK: Manner = Manner {
    idle: 0,
    seconds: AFTER,
    read_time: 0,
    write_time: 0,
    most_taken: usize::MAX,
    writes: usize::MAX,
    stays: false,
};

/// A request that puts a deed.
fn deed(alloc: Global, number: u32) -> Result<Vec<u8>, NoMemory> {
    let donor = "x".repeat(alloc, 1_000)?;
    let body = format!(in alloc; "{{\"donor\":\"{donor}\",\"signed\":\"2019-05-04\"}}")?;
    let length = body.len();
    let request = format!(in alloc;
        "PUT /deeds/{number} HTTP/1.1\r\nDesk-Key: abc\r\nContent-Length: {length}\r\n\r\n{body}"
    )?;
    Ok(request.into_bytes())
}

/// A desk with these deeds.
fn filled_desk(rt: &impl Abort, alloc: Global) -> Result<Memory, Fail> {
    let mut desk = new_desk(alloc)?;
    for number in 1..=DEEDS {
        let notes = Notes::new(alloc, AFTER);
        let request = deed(alloc, number)?;
        let visitors = [(request.as_slice(), QUICK)];
        assert_eq!(rt;
            run(alloc, &mut desk, &notes, &visitors, 1),
            served(1, 0, 0)
        );
    }
    Ok(desk)
}

/// The reply that has them.
fn all_deeds(alloc: Global) -> Result<String, NoMemory> {
    let donor = "x".repeat(alloc, 1_000)?;
    let mut body = String::from_str(alloc, "{\"deeds\":[")?;
    for number in 1..=DEEDS {
        let comma = if number == 1 { "" } else { "," };
        write!(
            body,
            "{comma}{{\"accessions\":0,\"deed\":{number},\"donor\":\"{donor}\",\"rules\":[],\"signed\":\"2019-05-04\"}}"
        )?;
    }
    body.push_str("]}")?;
    let length = body.len();
    Ok(format!(in alloc;
        "HTTP/1.1 200 OK\r\nContent-Type: application/json\r\nContent-Length: {length}\r\nConnection: close\r\n\r\n{body}"
    )?)
}

/// How a run of so many of these visitors goes, through one door.
fn run<'a>(
    alloc: Global,
    desk: &mut Memory,
    notes: &'a Notes,
    visitors: &'a [Visitor<'a>],
    count: u32,
) -> Served {
    let listener = Visitors::new(notes, visitors);
    let limits = TimeLimits::usual();
    serve(alloc, listener, Hand(notes), limits, desk, count)
}

/// How the run of two visitors goes, and what goes out to both.
fn sent_to(alloc: Global, desk: &mut Memory, first: Manner) -> Result<(Served, String), NoMemory> {
    let notes = Notes::new(alloc, AFTER);
    let visitors = [(FOR_DEEDS, first), (FOR_IMAGES, QUICK)];
    let went = run(alloc, desk, &notes, &visitors, 2);
    let out = notes.out();
    Ok((went, String::from_utf8_lossy(alloc, out.as_slice())?))
}

/// The front of a reply, and the reply of the second visitor.
fn front_and_images(alloc: Global, front: &str) -> Result<String, NoMemory> {
    let mut both = String::from_str(alloc, front)?;
    both.push_str(IMAGES)?;
    Ok(both)
}

#[test]
fn a_short_reply_after_a_long_one_is_alone(rt: HostRuntime) -> Result<(), Fail> {
    let alloc = rt.alloc();
    let mut desk = filled_desk(&rt, alloc)?;
    let (went, out) = sent_to(alloc, &mut desk, QUICK)?;
    assert_eq!(rt; went, served(2, 0, 0));
    let long = all_deeds(alloc)?;
    let wanted = front_and_images(alloc, long.as_str())?;
    assert!(rt; out == wanted);
    Ok(())
}

/// A request that takes too long has no reply, and the next one has its own.
#[test]
fn a_visit_after_a_request_that_is_cut_off_is_whole(rt: HostRuntime) -> Result<(), Fail> {
    let alloc = rt.alloc();
    let mut desk = filled_desk(&rt, alloc)?;
    let slow = Manner {
        read_time: 6_000,
        ..QUICK
    };
    let (went, out) = sent_to(alloc, &mut desk, slow)?;
    assert_eq!(rt; went, served(2, 1, 0));
    assert_eq!(rt; out.as_str(), IMAGES);
    Ok(())
}

/// A stream takes 10,000 bytes, and then fails: what was held back for it goes to nobody.
#[test]
fn a_visit_after_a_write_that_fails_is_whole(rt: HostRuntime) -> Result<(), Fail> {
    let alloc = rt.alloc();
    let mut desk = filled_desk(&rt, alloc)?;
    let failing = Manner {
        most_taken: 10_000,
        writes: 1,
        ..QUICK
    };
    let (went, out) = sent_to(alloc, &mut desk, failing)?;
    assert_eq!(rt; went, served(2, 0, 1));
    let mut long = all_deeds(alloc)?.into_bytes();
    long.truncate(10_000);
    let front = String::from_utf8_lossy(alloc, long.as_slice())?;
    let wanted = front_and_images(alloc, front.as_str())?;
    assert!(rt; out == wanted);
    Ok(())
}

/// What the first of two clients does: it reads its reply, it stops in the midst of its request, or it goes away before
/// its reply comes.
#[derive(Clone, Copy)]
enum First {
    Reads,
    Stops,
    Goes,
}

impl First {
    /// What it sends.
    fn request(self) -> &'static [u8] {
        match self {
            First::Stops => HALF_A_REQUEST,
            First::Reads | First::Goes => FOR_DEEDS,
        }
    }

    /// How the run of both goes.
    fn run(self) -> Served {
        match self {
            First::Reads => served(2, 0, 0),
            First::Stops => served(2, 1, 0),
            First::Goes => served(2, 0, 1),
        }
    }

    /// What it reads.
    fn reply(self, alloc: Global) -> Result<String, NoMemory> {
        match self {
            First::Reads => all_deeds(alloc),
            First::Stops | First::Goes => Ok(String::new(alloc)),
        }
    }
}

/// Two clients send, and are then served through one door: what each of them reads.
fn assert_replies<R, L, C>(
    rt: &R,
    does: First,
    listener: L,
    mut first: C,
    mut second: C,
) -> Result<(), Fail>
where
    R: AllocGlobal + Abort,
    L: Listener,
    C: Read + Write + Drop,
{
    let alloc = rt.alloc();
    let mut desk = filled_desk(rt, alloc)?;
    first.write_all(does.request())?;
    second.write_all(FOR_IMAGES)?;
    let stays = match does {
        First::Goes => {
            drop(first);
            None
        }
        First::Reads | First::Stops => Some(first),
    };
    let limits = TimeLimits {
        request: Duration::from_millis(200),
        ..TimeLimits::usual()
    };
    let went = serve(alloc, listener, Standing, limits, &mut desk, 2);
    assert_eq!(rt; went, does.run());
    let mut read = Vec::new(alloc);
    if let Some(mut first) = stays {
        first.read_to_end(&mut read)?;
    }
    let wanted = does.reply(alloc)?;
    assert!(rt; read.as_slice() == wanted.as_bytes());
    read.clear();
    second.read_to_end(&mut read)?;
    assert!(rt; read.as_slice() == IMAGES.as_bytes());
    Ok(())
}

/// In each of three cases the second client reads its own reply, and nothing of the first one's.
#[test]
fn two_clients_at_a_port_read_their_own_replies(rt: HostRuntime) -> Result<(), Fail> {
    for does in [First::Reads, First::Stops, First::Goes] {
        let listener = TcpListener::bind(&rt, "127.0.0.1:0")?;
        let first = TcpStream::connect(&rt, listener.local_addr()?)?;
        let second = TcpStream::connect(&rt, listener.local_addr()?)?;
        assert_replies(&rt, does, listener, first, second)?;
    }
    Ok(())
}

#[test]
fn two_clients_at_a_socket_read_their_own_replies(rt: HostRuntime) -> Result<(), Fail> {
    let name = format!(in rt.alloc(); "desk-two-{}", process::id(rt.process()))?;
    let address = SocketAddr::from_abstract_name(name.as_bytes())?;
    for does in [First::Reads, First::Stops, First::Goes] {
        let listener = UnixListener::bind_addr(&rt, &address)?;
        let first = UnixStream::connect_addr(&rt, &address)?;
        let second = UnixStream::connect_addr(&rt, &address)?;
        assert_replies(&rt, does, listener, first, second)?;
    }
    Ok(())
}
