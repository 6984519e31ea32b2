//! Where visits come to the machine: a port of its own, or a Unix socket at a path.

use rd_http::{Listener, Stream};
use std::fs;
use std::fs::Permissions;
use std::io::{Error, ErrorKind, Result, Write};
use std::net::{Ipv4Addr, TcpListener, TcpStream};
use std::os::unix::fs::{FileTypeExt, MetadataExt, PermissionsExt};
use std::os::unix::net::{UnixListener, UnixStream};
use std::time::Duration;

/// Who may use a Unix socket: its owner and its group.
const SOCKET_MODE: u32 = 0o660;

/// The stream of a visitor at a port or at a Unix socket.
#[derive(Drop)]
pub enum HostStream {
    Port(TcpStream),
    Socket(UnixStream),
}

impl Write for HostStream {
    fn write(&mut self, buf: &[u8]) -> Result<usize> {
        match self {
            HostStream::Port(stream) => stream.write(buf),
            HostStream::Socket(stream) => stream.write(buf),
        }
    }

    fn flush(&mut self) -> Result<()> {
        match self {
            HostStream::Port(stream) => stream.flush(),
            HostStream::Socket(stream) => stream.flush(),
        }
    }
}

impl Stream for HostStream {
    fn read_within(&mut self, into: &mut [u8], time: Duration) -> Result<usize> {
        match self {
            HostStream::Port(stream) => stream.read_within(into, time),
            HostStream::Socket(stream) => stream.read_within(into, time),
        }
    }

    fn limit_writes(&self, time: Duration) -> Result<()> {
        match self {
            HostStream::Port(stream) => stream.limit_writes(time),
            HostStream::Socket(stream) => stream.limit_writes(time),
        }
    }

    fn end_writes(&self) -> Result<()> {
        match self {
            HostStream::Port(stream) => stream.end_writes(),
            HostStream::Socket(stream) => stream.end_writes(),
        }
    }
}

/// Which file it is: its device, and its number there.
type FileNumber = (u64, u64);

/// A Unix socket, and the file by which visitors find it. Where it ends, the file goes first, so that no other desk can
/// have taken the path by then, and the socket shuts after that. A file that somebody has put in its place stays.
pub struct HostSocket {
    rt: HostRuntime,
    path: String,
    file: FileNumber,
    listener: UnixListener,
}

impl Drop for HostSocket {
    fn drop(self) {
        let HostSocket {
            rt,
            path,
            file,
            listener,
        } = self;
        if number_at(&rt, path.as_str()).is_ok_and(|found| found == file) {
            let _ = fs::remove_file(&rt, path.as_str());
        }
        drop(listener);
    }
}

/// What waits for visitors at a port, or at a Unix socket.
#[derive(Drop)]
pub enum HostListener {
    Port(TcpListener),
    Socket(HostSocket),
}

impl Listener for HostListener {
    type Stream = HostStream;

    fn next(&self) -> Result<HostStream> {
        match self {
            HostListener::Port(listener) => Ok(HostStream::Port(listener.next()?)),
            HostListener::Socket(socket) => Ok(HostStream::Socket(socket.listener.next()?)),
        }
    }
}

/// What waits at a port of the machine itself. It fails when the port cannot be opened.
pub(crate) fn at_port(rt: &HostRuntime, port: u16) -> Result<HostListener> {
    let listener = TcpListener::bind(rt, (Ipv4Addr::LOCALHOST, port))?;
    Ok(HostListener::Port(listener))
}

/// Whether there is a Unix socket at a path at which nobody answers.
fn is_left_over(rt: &HostRuntime, path: &str) -> bool {
    match fs::symlink_metadata(rt, path) {
        Ok(found) if found.file_type().is_socket() => match UnixStream::connect(rt, path) {
            Ok(_) => false,
            Err(error) => error.kind() == ErrorKind::ConnectionRefused,
        },
        _ => false,
    }
}

/// Which file is at a path. A link is a file of its own.
fn number_at(rt: &HostRuntime, path: &str) -> Result<FileNumber> {
    let found = fs::symlink_metadata(rt, path)?;
    Ok((found.dev(), found.ino()))
}

/// What waits at a Unix socket at a path, which its owner and its group may use. A socket at which nobody answers gives
/// way; anything else that is there stays. No other desk may be starting at the path meanwhile: between the look and the
/// new socket, its own would be taken for one that was left.
///
/// It fails when the path is empty, when there is something else at it, when the socket cannot be made, and when memory
/// runs out.
pub(crate) fn at_socket(rt: &HostRuntime, path: &str) -> Result<HostListener> {
    if path.is_empty() {
        return Err(Error::from(ErrorKind::InvalidInput));
    }
    let name = String::from_str(rt.alloc(), path)?;
    if is_left_over(rt, path) {
        fs::remove_file(rt, path)?;
    }
    let listener = UnixListener::bind(rt, path)?;
    let file = number_at(rt, path)?;
    let socket = HostSocket {
        rt: *rt,
        path: name,
        file,
        listener,
    };
    fs::set_permissions(rt, path, Permissions::from_mode(SOCKET_MODE))?;
    Ok(HostListener::Socket(socket))
}
