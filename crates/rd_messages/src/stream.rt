//! The streams of visitors, over TCP or over a Unix socket.

ghost use Rattle.std.specs.Duration.{as_nanos};
ghost use Rattle.std.specs.Io.{ReadsAtMost};
ghost use Rattle.std.specs.Prelude.{◌≡◌, ◌∷◌, ◌++◌, IfSome, List, None, Option, Some, [], ℕ};

use std::io::{Read, Result, Write};
use std::net::{Shutdown, TcpListener, TcpStream};
use std::os::unix::net::{UnixListener, UnixStream};
use std::time::Duration;

/// A stream between the desk and a visitor.
pub trait Stream: Write + Drop {
    /// How many nanoseconds each of its reads so far might wait, in their order, if the stream shows that; the streams
    /// of a machine do not.
    ghost waits: { Self → Option (List ℕ) } = { λ _. None };

    /// Reads once, waits for so long at most, and gives how many bytes came. A read that has waited for so long fails.
    ///
    /// It fails when the time is zero, when the system refuses it, and when the read fails.
    fn read_within(&mut self, into: &mut [u8], time: Duration) -> Result<usize>
        ensures bound { ReadsAtMost result into.new }
        ensures waits { IfSome (waits self.old) (λ waited. waits self.new ≡ Some (waited ++ as_nanos time ∷ [])) };

    /// Sets how long each write from now on waits at most. A write that has waited for so long without sending a byte
    /// fails.
    ///
    /// It fails when the time is zero, and when the system refuses it.
    fn limit_writes(&self, time: Duration) -> Result<()>;

    /// Shows the visitor that no more bytes follow. It fails when the stream does.
    fn end_writes(&self) -> Result<()>;
}

/// Where the streams of visitors come from.
pub trait Listener: Drop {
    /// The stream of a visitor.
    type Stream: Stream;

    /// Waits for the next visitor, and gives their stream. It fails when the listener does.
    fn next(&self) -> Result<Self::Stream>;
}

impl Stream for TcpStream {
    fn read_within(&mut self, into: &mut [u8], time: Duration) -> Result<usize> {
        self.set_read_timeout(Some(time))?;
        self.read(into)
    }

    fn limit_writes(&self, time: Duration) -> Result<()> {
        self.set_write_timeout(Some(time))
    }

    fn end_writes(&self) -> Result<()> {
        self.shutdown(Shutdown::Write)
    }
}

impl Stream for UnixStream {
    fn read_within(&mut self, into: &mut [u8], time: Duration) -> Result<usize> {
        self.set_read_timeout(Some(time))?;
        self.read(into)
    }

    fn limit_writes(&self, time: Duration) -> Result<()> {
        self.set_write_timeout(Some(time))
    }

    fn end_writes(&self) -> Result<()> {
        self.shutdown(Shutdown::Write)
    }
}

impl Listener for TcpListener {
    type Stream = TcpStream;

    fn next(&self) -> Result<TcpStream> {
        let (stream, _) = self.accept()?;
        Ok(stream)
    }
}

impl Listener for UnixListener {
    type Stream = UnixStream;

    fn next(&self) -> Result<UnixStream> {
        let (stream, _) = self.accept()?;
        Ok(stream)
    }
}
