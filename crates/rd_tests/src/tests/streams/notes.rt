//! A clock, a listener and streams in memory, which note what they are asked.

use rd_http::{Clock, Listener, Stream};
use std::alloc::Global;
use std::cell::Cell;
use std::io;
use std::io::{ErrorKind, Write};
use std::time::Duration;

/// How many bytes a read gives at most.
const READ_BYTES: usize = 10;

/// What a clock shows, and what the streams beside it were asked: at which millisecond a read or a write began, and for
/// how many milliseconds it might wait (a write, if the stream was told since the one before), and when a stream was
/// ended; and all bytes that went out.
#[derive(Drop)]
pub(super) struct Notes {
    alloc: Global,
    seconds: Cell<i64>,
    shown: Cell<u64>,
    write_limit: Cell<Option<Duration>>,
    asked: Cell<String>,
    out: Cell<Vec<u8>>,
}

impl Notes {
    /// Nothing is noted, and the clock shows these seconds.
    pub(super) fn new(alloc: Global, seconds: i64) -> Notes {
        Notes {
            alloc,
            seconds: Cell::new(seconds),
            shown: Cell::new(0),
            write_limit: Cell::new(None),
            asked: Cell::new(String::new(alloc)),
            out: Cell::new(Vec::new(alloc)),
        }
    }

    /// What was asked so far; it forgets that.
    pub(super) fn asked(&self) -> String {
        self.asked.replace(String::new(self.alloc))
    }

    /// What went out so far; it forgets that.
    pub(super) fn out(&self) -> Vec<u8> {
        self.out.replace(Vec::new(self.alloc))
    }

    /// Lets so many milliseconds pass.
    fn pass(&self, milliseconds: u64) {
        self.shown
            .set(self.shown.get().saturating_add(milliseconds));
    }

    /// Notes what was asked, and the time that was given for it.
    fn note(&self, word: &str, limit: Option<Duration>) {
        let at = self.shown.get();
        let mut asked = self.asked();
        let _ = match limit {
            Some(limit) => write!(asked, "{at} {word} {}\n", limit.as_millis()),
            None => write!(asked, "{at} {word}\n"),
        };
        self.asked.set(asked);
    }
}

/// The clock of these notes.
#[derive(Clone, Copy)]
pub(super) struct Hand<'a>(pub(super) &'a Notes);

impl Clock for Hand<'_> {
    fn now(&mut self) -> Option<i64> {
        Some(self.0.seconds.get())
    }

    fn milliseconds(&mut self) -> Option<u64> {
        Some(self.0.shown.get())
    }
}

/// How a visitor behaves.
#[derive(Clone, Copy)]
pub(super) struct Manner {
    /// How many milliseconds pass before they come.
    pub idle: u64,
    /// What the clock shows once they have come, in seconds.
    pub seconds: i64,
    /// How many milliseconds a read takes, and a write.
    pub read_time: u64,
    pub write_time: u64,
    /// How many bytes a write takes at most, and how many writes there are before one fails.
    pub most_taken: usize,
    pub writes: usize,
    /// Whether a byte comes at each read once the stream was ended.
    pub stays: bool,
}

/// A stream from which these bytes come.
#[derive(Drop)]
pub(super) struct Noting<'a> {
    notes: &'a Notes,
    to_come: &'a [u8],
    manner: Manner,
    ended: Cell<bool>,
}

impl Write for Noting<'_> {
    fn write(&mut self, buf: &[u8]) -> io::Result<usize> {
        self.notes
            .note("write", self.notes.write_limit.replace(None));
        self.notes.pass(self.manner.write_time);
        if self.manner.writes == 0 {
            return Err(io::Error::from(ErrorKind::Other));
        }
        self.manner.writes -= 1;
        let count = buf.len().min(self.manner.most_taken);
        let mut out = self.notes.out();
        let kept = out.extend_from_slice(&buf[..count]);
        self.notes.out.set(out);
        kept?;
        Ok(count)
    }

    fn flush(&mut self) -> io::Result<()> {
        Ok(())
    }
}

impl Stream for Noting<'_> {
    fn read_within(&mut self, into: &mut [u8], time: Duration) -> io::Result<usize> {
        self.notes.note("read", Some(time));
        self.notes.pass(self.manner.read_time);
        if self.ended.get() && self.manner.stays && !into.is_empty() {
            into[0] = b'x';
            return Ok(1);
        }
        let count = self.to_come.len().min(into.len()).min(READ_BYTES);
        into[..count].copy_from_slice(&self.to_come[..count]);
        self.to_come = &self.to_come[count..];
        Ok(count)
    }

    fn limit_writes(&self, time: Duration) -> io::Result<()> {
        self.notes.write_limit.set(Some(time));
        Ok(())
    }

    fn end_writes(&self) -> io::Result<()> {
        self.notes.note("end", None);
        self.ended.set(true);
        Ok(())
    }
}

/// A visitor: the bytes that they send, and how they behave.
pub(super) type Visitor<'a> = (&'a [u8], Manner);

/// A listener to which these visitors come, one after the other.
#[derive(Drop)]
pub(super) struct Visitors<'a> {
    notes: &'a Notes,
    left: Cell<&'a [Visitor<'a>]>,
}

impl<'a> Visitors<'a> {
    pub(super) fn new(notes: &'a Notes, left: &'a [Visitor<'a>]) -> Visitors<'a> {
        Visitors {
            notes,
            left: Cell::new(left),
        }
    }
}

impl<'a> Listener for Visitors<'a> {
    type Stream = Noting<'a>;

    fn next(&self) -> io::Result<Noting<'a>> {
        let Some(((to_come, manner), rest)) = self.left.get().split_first() else {
            return Err(io::Error::from(ErrorKind::Other));
        };
        self.left.set(rest);
        self.notes.pass(manner.idle);
        self.notes.seconds.set(manner.seconds);
        Ok(Noting {
            notes: self.notes,
            to_come: *to_come,
            manner: *manner,
            ended: Cell::new(false),
        })
    }
}
