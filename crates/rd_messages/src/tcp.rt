//! Visits over the streams of a listener: TCP, or a Unix socket.

ghost use Rattle.std.specs.Duration.{as_nanos};
ghost use Rattle.std.specs.Io.{ReadsAtMost, WritesAtMost};
ghost use Rattle.std.specs.Io.KnownBytes.{Appends, Keeps, ReadConsumes, WriteAppends};
ghost use Rattle.std.specs.Prelude.{◌≡◌, ◌↔◌, ◌≤◌, ◌+◌, ◌<◌, ◌++◌, None, Some, [], true, false, length, take, vec_len, IfOk, IfSome, IsErr, OnOk};
ghost use Rattle.rd_protocol.specs.BodyPieces.{pieces_left};
ghost use Rattle.rd_messages.specs.Waits.{ReadsInTime, TimeLasts, next_of};
ghost use Rattle.rd_messages.specs.Sent.{PutsFront, put_so_far};
ghost use Rattle.rd_messages.specs.Streams.{limits_of};

use crate::lingering::linger;
use crate::pace::{Clock, Pace, TimeLimits};
use crate::stream::{Listener, Stream};
use crate::wire::{Broken, Door, Shut, Wire};
use rd_protocol::BodyPieces;
use std::alloc::Global;
use std::mem;
use std::net::TcpListener;

/// How many bytes a connection holds back at most.
const MOST_HELD: usize = 16_384;

/// A connection over a stream, and whether a read and whether a write of it has failed. An interrupted
/// call counts as failed, and so does what a visitor takes too long for.
///
/// It holds back up to 16,384 bytes that were put, so that a file's many short slices take few
/// system calls. It sends them as soon as it may hold no more; `flush` sends the last of them. If
/// there is no memory for them, it sends what is put at once, as many bytes in a write.
#[derive(Drop)]
pub struct StreamWire<S, C> {
    stream: S,
    pace: Pace<C>,
    /// The room for what it holds back: `MOST_HELD` bytes, or none if there is no memory for them.
    room: Vec<u8>,
    /// How many bytes at the front of the room it holds back.
    held: usize,
    read_failed: bool,
    write_failed: bool,
    ghost within: { held ≤ vec_len room },
    ghost most: { vec_len room ≤ 16384 },
}

/// Reads once, while the time of the request lasts, and gives how many bytes came.
///
/// It fails with `Broken` when the time is over, and when the read fails.
fn read_in_time<S: Stream, C: Clock>(
    stream: &mut S,
    pace: &mut Pace<C>,
    into: &mut [u8],
) -> Result<usize, Broken>
    ensures bound { ReadsAtMost result into.new }
    ensures waits { IfSome (next_of (C.times pace.old.clock)) (λ at. IfSome (S.waits stream.old) (λ before.
        ReadsInTime pace.old.limits.request pace.old.admitted at before (S.waits stream.new))) }
    ensures lasts { IfSome (next_of (C.times pace.old.clock)) (λ at. IfOk result (λ _.
        TimeLasts pace.old.limits.request pace.old.admitted at)) }
    ensures limits { pace.new.limits ≡ pace.old.limits }
    ensures admitted { pace.new.admitted ≡ pace.old.admitted }
    ensures replying { pace.new.replying ≡ pace.old.replying }
{
    let time = pace.for_read().ok_or(Broken)?;
    stream.read_within(into, time).map_err(|_| Broken)
}

/// Writes once, while the time of the reply lasts, and gives how many bytes went.
///
/// It fails with `Broken` when the time is over, and when the write fails.
fn write_in_time<S: Stream, C: Clock>(
    stream: &mut S,
    pace: &mut Pace<C>,
    bytes: &[u8],
) -> Result<usize, Broken>
    ensures bound { WritesAtMost result bytes.now }
    ensures bytes { WriteAppends (S.Write.contents stream.old) (S.Write.contents stream.new) result bytes.now }
    ensures lasts { IfSome pace.old.replying (λ began. IfSome (next_of (C.times pace.old.clock)) (λ at. IfOk result (λ _.
        TimeLasts pace.old.limits.reply began at))) }
{
    let time = pace.for_write().ok_or(Broken)?;
    stream.limit_writes(time).map_err(|_| Broken)?;
    stream.write(bytes).map_err(|_| Broken)
}

/// Writes bytes, all of them and in their order, while the time of the reply lasts.
///
/// It fails with `Broken` when the time is over, and when a write fails or takes no byte.
fn send<S: Stream, C: Clock>(stream: &mut S, pace: &mut Pace<C>, bytes: &[u8]) -> Result<(), Broken>
    ensures { OnOk result (Appends (S.Write.contents stream.old) (S.Write.contents stream.new) bytes.now) }
{
    let mut sent = 0;
    while sent < bytes.len() {
        match write_in_time(stream, pace, &bytes[sent..]) {
            Ok(count) if count > 0 => sent += count,
            _ => return Err(Broken),
        }
    }
    Ok(())
}

/// The room for what a connection holds back, in a list that may have it already: `MOST_HELD` bytes, or none if there
/// is no memory for them.
fn room_in(mut room: Vec<u8>) -> Vec<u8>
    ensures { vec_len result ≤ 16384 }
{
    match room.resize(MOST_HELD, 0) {
        Ok(()) => room,
        Err(_) => {
            room.clear();
            room
        }
    }
}

impl<S: Stream, C: Clock + Drop> StreamWire<S, C> {
    /// A connection over a stream on which nothing has failed yet. It holds bytes back in the list
    /// `room`; what that list has now is never sent.
    fn new(stream: S, pace: Pace<C>, room: Vec<u8>) -> StreamWire<S, C>
        ensures take { result.read_failed ≡ false }
        ensures put { result.write_failed ≡ false }
        ensures unsent { result.held ≡ 0 }
        ensures stream { result.stream ≡ stream }
        ensures time { result.pace ≡ pace }
    {
        StreamWire {
            stream,
            pace,
            room: room_in(room),
            held: 0,
            read_failed: false,
            write_failed: false,
        }
    }

    /// Keeps whether a write has failed, and hands that on.
    fn tell(&mut self, sent: Result<(), Broken>) -> Result<(), Broken>
        requires { self.old.write_failed ≡ false }
        ensures sent { result ≡ sent }
        ensures failed { IsErr sent ↔ (self.new.write_failed ≡ true) }
        ensures reads_unchanged { self.new.read_failed ≡ self.old.read_failed }
        ensures held { self.new.held ≡ self.old.held }
        ensures room { self.new.room ≡ self.old.room }
        ensures stream { self.new.stream ≡ self.old.stream }
    {
        if sent.is_err() {
            self.write_failed = true;
        }
        sent
    }

    /// Sends what is held back.
    ///
    /// It fails with `Broken` when the time of the reply is over, and when a write fails or takes no byte.
    #[cold]
    #[inline(never)]
    fn send_held(&mut self) -> Result<(), Broken>
        requires { self.old.write_failed ≡ false }
        ensures sent { self.new.held ≡ 0 }
        ensures bytes { OnOk result (Appends (S.Write.contents self.old.stream) (S.Write.contents self.new.stream)
            (take self.old.held self.old.room.items)) }
        ensures kept { OnOk result (Keeps
            (put_so_far (S.Write.contents self.old.stream) self.old.held self.old.room.items)
            (put_so_far (S.Write.contents self.new.stream) self.new.held self.new.room.items)) }
        ensures room { vec_len self.new.room ≡ vec_len self.old.room }
        ensures failed { IsErr result ↔ (self.new.write_failed ≡ true) }
        ensures reads_unchanged { self.new.read_failed ≡ self.old.read_failed }
    {
        let sent = send(&mut self.stream, &mut self.pace, &self.room[..self.held]);
        self.held = 0;
        self.tell(sent)
    }

    /// Makes room for a byte at least: where there is none, it sends what is held back.
    ///
    /// It fails with `Broken` when the time of the reply is over, and when a write fails or takes no byte.
    fn make_room(&mut self) -> Result<(), Broken>
        requires ready { self.old.write_failed ≡ false }
        requires room { 0 < vec_len self.old.room }
        ensures room { IfOk result (λ _. self.new.held < vec_len self.new.room) }
        ensures kept { OnOk result (Keeps
            (put_so_far (S.Write.contents self.old.stream) self.old.held self.old.room.items)
            (put_so_far (S.Write.contents self.new.stream) self.new.held self.new.room.items)) }
        ensures failed { IsErr result ↔ (self.new.write_failed ≡ true) }
        ensures reads_unchanged { self.new.read_failed ≡ self.old.read_failed }
    {
        if self.held < self.room.len() {
            return Ok(());
        }
        self.send_held()
    }

    /// Sends these bytes, and gives how many they are. Nothing is held back.
    ///
    /// It fails with `Broken` when the time of the reply is over, and when a write fails or takes no byte.
    fn put_at_once(&mut self, bytes: &[u8]) -> Result<usize, Broken>
        requires ready { self.old.write_failed ≡ false }
        requires none { self.old.held ≡ 0 }
        ensures count { IfOk result (λ count. count ≡ length bytes.now) }
        ensures bytes { OnOk result (Appends
            (put_so_far (S.Write.contents self.old.stream) self.old.held self.old.room.items)
            (put_so_far (S.Write.contents self.new.stream) self.new.held self.new.room.items)
            bytes.now) }
        ensures failed { IsErr result ↔ (self.new.write_failed ≡ true) }
        ensures reads_unchanged { self.new.read_failed ≡ self.old.read_failed }
    {
        let sent = send(&mut self.stream, &mut self.pace, bytes);
        self.tell(sent)?;
        Ok(bytes.len())
    }

    /// Holds bytes back, for which there is room.
    #[inline]
    fn hold(&mut self, bytes: &[u8])
        requires { self.old.held + length bytes.now ≤ vec_len self.old.room }
        ensures held { take self.new.held self.new.room.items ≡ take self.old.held self.old.room.items ++ bytes.now }
        ensures count { self.new.held ≡ self.old.held + length bytes.now }
        ensures stream { S.Write.contents self.new.stream ≡ S.Write.contents self.old.stream }
        ensures unchanged { self.new.write_failed ≡ self.old.write_failed }
        ensures reads_unchanged { self.new.read_failed ≡ self.old.read_failed }
    {
        let start = self.held;
        let end = start + bytes.len();
        self.room[start..end].copy_from_slice(bytes);
        self.held = end;
    }

    /// Holds pieces of a body back, from the front of those that are left: of a file as many as there is room for, but
    /// never the last.
    #[inline]
    fn hold_front_of(&mut self, pieces: &mut BodyPieces<'_>)
        ensures held { PutsFront (pieces_left pieces.old) (pieces_left pieces.new)
            (Some (take self.old.held self.old.room.items)) (Some (take self.new.held self.new.room.items)) }
        ensures stream { self.new.stream ≡ self.old.stream }
        ensures unchanged { self.new.write_failed ≡ self.old.write_failed }
        ensures reads_unchanged { self.new.read_failed ≡ self.old.read_failed }
    {
        let count = pieces.copy_front(&mut self.room[self.held..]);
        self.held += count;
    }

    /// Holds back as many bytes from the front of a slice as there is room for, and gives how many. Where there is no
    /// room, it sends what it holds back before. Without memory for any room, it sends at once what it would hold back.
    ///
    /// It fails with `Broken` when the time of the reply is over, and when a write fails or takes no byte.
    #[cold]
    #[inline(never)]
    fn put_front(&mut self, bytes: &[u8]) -> Result<usize, Broken>
        requires ready { self.old.write_failed ≡ false }
        requires some { 0 < length bytes.now }
        ensures bound { WritesAtMost result bytes.now }
        ensures some { IfOk result (λ count. 0 < count) }
        ensures bytes { IfOk result (λ count. Appends
            (put_so_far (S.Write.contents self.old.stream) self.old.held self.old.room.items)
            (put_so_far (S.Write.contents self.new.stream) self.new.held self.new.room.items) (take count bytes.now)) }
        ensures failed { IsErr result ↔ (self.new.write_failed ≡ true) }
        ensures reads_unchanged { self.new.read_failed ≡ self.old.read_failed }
    {
        if self.room.is_empty() {
            return self.put_at_once(&bytes[..bytes.len().min(MOST_HELD)]);
        }
        self.make_room()?;
        let count = bytes.len().min(self.room.len() - self.held);
        self.hold(&bytes[..count]);
        Ok(count)
    }
}

impl<S: Stream, C: Clock + Drop> Wire for StreamWire<S, C> {
    ghost came = { λ _. None };

    ghost incoming = { λ _. None };

    ghost outgoing = { λ _. None };

    ghost read_failed = { λ wire. wire.read_failed };

    ghost write_failed = { λ wire. wire.write_failed };

    ghost unsent = { λ wire. wire.held };

    fn take(&mut self, into: &mut [u8]) -> Result<usize, Broken>
        requires { self.old.read_failed ≡ false }
        ensures bound { ReadsAtMost result into.new }
        ensures bytes { ReadConsumes None None result into.new }
        ensures failed { IsErr result ↔ (self.new.read_failed ≡ true) }
        ensures writes_unchanged { self.new.write_failed ≡ self.old.write_failed }
        ensures waits { IfSome (next_of (C.times self.old.pace.clock)) (λ at. IfSome (S.waits self.old.stream) (λ before.
            ReadsInTime self.old.pace.limits.request self.old.pace.admitted at before (S.waits self.new.stream))) }
        ensures lasts { IfSome (next_of (C.times self.old.pace.clock)) (λ at. IfOk result (λ _.
            TimeLasts self.old.pace.limits.request self.old.pace.admitted at)) }
        ensures limits { self.new.pace.limits ≡ self.old.pace.limits }
        ensures admitted { self.new.pace.admitted ≡ self.old.pace.admitted }
        ensures replying { self.new.pace.replying ≡ self.old.pace.replying }
    {
        match read_in_time(&mut self.stream, &mut self.pace, into) {
            Ok(count) => Ok(count),
            Err(_) => {
                self.read_failed = true;
                Err(Broken)
            }
        }
    }

    #[inline]
    fn put(&mut self, bytes: &[u8]) -> Result<usize, Broken>
        requires { self.old.write_failed ≡ false }
        ensures bound { WritesAtMost result bytes.now }
        ensures some { IfOk result (λ n. n ≡ 0 → length bytes.now ≡ 0) }
        ensures bytes { WriteAppends None None result bytes.now }
        ensures failed { IsErr result ↔ (self.new.write_failed ≡ true) }
        ensures reads_unchanged { self.new.read_failed ≡ self.old.read_failed }
        ensures sent { IfOk result (λ count. Appends
            (put_so_far (S.Write.contents self.old.stream) self.old.held self.old.room.items)
            (put_so_far (S.Write.contents self.new.stream) self.new.held self.new.room.items) (take count bytes.now)) }
    {
        if bytes.len() <= self.room.len() - self.held {
            self.hold(bytes);
            return Ok(bytes.len());
        }
        self.put_front(bytes)
    }

    #[tactic(auto, using(crate::proofs::SentBytes::untold_put, crate::proofs::SentBytes::put_pieces))]
    fn put_front_of(&mut self, pieces: &mut BodyPieces<'_>)
        requires { self.old.write_failed ≡ false }
        ensures bytes { PutsFront (pieces_left pieces.old) (pieces_left pieces.new) None None }
        ensures working { self.new.write_failed ≡ false }
        ensures reads_unchanged { self.new.read_failed ≡ self.old.read_failed }
        ensures sent { PutsFront (pieces_left pieces.old) (pieces_left pieces.new)
            (put_so_far (S.Write.contents self.old.stream) self.old.held self.old.room.items)
            (put_so_far (S.Write.contents self.new.stream) self.new.held self.new.room.items) }
    {
        self.hold_front_of(pieces);
    }

    fn flush(&mut self) -> Result<(), Broken>
        requires { self.old.write_failed ≡ false }
        ensures sent { self.new.held ≡ 0 }
        ensures failed { IsErr result ↔ (self.new.write_failed ≡ true) }
        ensures reads_unchanged { self.new.read_failed ≡ self.old.read_failed }
        ensures kept { OnOk result (Keeps
            (put_so_far (S.Write.contents self.old.stream) self.old.held self.old.room.items)
            (put_so_far (S.Write.contents self.new.stream) self.new.held self.new.room.items)) }
    {
        self.send_held()
    }
}

/// A door through which the visitors of a listener come, each at the moment that a clock shows. It
/// shuts when the listener or the clock fails.
///
/// The list in which a connection holds bytes back goes from one connection to the next, and what
/// lingering connections still send is read into one array.
#[derive(Drop)]
pub struct StreamDoor<L, C> {
    alloc: Global,
    listener: L,
    clock: C,
    limits: TimeLimits,
    spare: Vec<u8>,
    leftover: [u8; 16_384],
    has_shut: bool,
}

/// A door at a port.
pub type TcpDoor<C> = StreamDoor<TcpListener, C>;

impl<L: Listener, C: Clock + Copy + Drop> StreamDoor<L, C> {
    /// The door of a listener, with a clock and the usual limits. It takes no memory; its connections take some for
    /// what they hold back.
    pub fn new(alloc: Global, listener: L, clock: C) -> StreamDoor<L, C>
        ensures ready { ⟦<StreamDoor<L, C> as Door>⟧.has_shut result ≡ false }
        ensures request { as_nanos (limits_of result).request ≡ 10_000_000_000 }
        ensures write { as_nanos (limits_of result).write ≡ 10_000_000_000 }
        ensures reply { as_nanos (limits_of result).reply ≡ 60_000_000_000 }
    {
        StreamDoor::with_limits(alloc, listener, clock, TimeLimits::usual())
    }

    /// The door of a listener, with a clock, and how long its visitors may take. It takes memory as that of `new` does.
    pub fn with_limits(alloc: Global, listener: L, clock: C, limits: TimeLimits) -> StreamDoor<L, C>
        ensures ready { ⟦<StreamDoor<L, C> as Door>⟧.has_shut result ≡ false }
        ensures limits { limits_of result ≡ limits }
    {
        StreamDoor {
            alloc,
            listener,
            clock,
            limits,
            spare: Vec::new(alloc),
            leftover: [0; 16_384],
            has_shut: false,
        }
    }

    /// How long each of its visitors may take.
    pub fn limits(&self) -> TimeLimits
        ensures { result ≡ limits_of self.now }
    {
        self.limits
    }
}

/// The next visitor of a listener, and the moment and the millisecond that a clock shows then; `None` if one of them
/// fails.
fn next_visitor<L: Listener, C: Clock>(listener: &L, clock: &mut C) -> Option<(i64, u64, L::Stream)>
    ensures at { IfSome (next_of (C.times clock.old)) (λ at. IfSome result (λ visitor. visitor.1 ≡ at)) }
    ensures ends { C.times clock.old ≡ Some [] → result ≡ None }
{
    let stream = listener.next().ok()?;
    let moment = clock.now()?;
    let millisecond = clock.milliseconds()?;
    Some((moment, millisecond, stream))
}

impl<L: Listener, C: Clock + Copy + Drop> Door for StreamDoor<L, C> {
    type Conn = StreamWire<L::Stream, C>;

    ghost so_far = { λ _. None };

    ghost coming = { λ _. None };

    ghost has_shut = { λ door. door.has_shut };

    fn admit(&mut self) -> Result<(i64, StreamWire<L::Stream, C>), Shut>
        ensures ready { IfOk result (λ visit. visit.1.read_failed ≡ false) }
        ensures write_ready { IfOk result (λ visit. visit.1.write_failed ≡ false) }
        ensures unsent { IfOk result (λ visit. visit.1.held ≡ 0) }
        ensures time { IfOk result (λ visit. visit.1.pace.limits ≡ self.old.limits) }
        ensures clock { IfOk result (λ visit. visit.1.pace.clock ≡ self.new.clock) }
        ensures unwritten { IfOk result (λ visit. visit.1.pace.replying ≡ None) }
        ensures admitted { IfSome (next_of (C.times self.old.clock)) (λ at. IfOk result (λ visit.
            visit.1.pace.admitted ≡ at)) }
        ensures no_time { C.times self.old.clock ≡ Some [] → IsErr result }
        ensures shut { IsErr result ↔ (self.new.has_shut ≡ true) }
        ensures stays { self.old.has_shut ≡ true → IsErr result }
    {
        if self.has_shut {
            return Err(Shut);
        }
        match next_visitor(&self.listener, &mut self.clock) {
            Some((moment, millisecond, stream)) => {
                let room = mem::replace(&mut self.spare, Vec::new(self.alloc));
                let pace = Pace::new(self.clock, self.limits, millisecond);
                Ok((moment, StreamWire::new(stream, pace, room)))
            }
            None => {
                self.has_shut = true;
                Err(Shut)
            }
        }
    }

    fn leave(&mut self, conn: StreamWire<L::Stream, C>) {
        let StreamWire {
            mut stream,
            room,
            ..
        } = conn;
        self.spare = room;
        if stream.end_writes().is_ok() {
            linger(&mut stream, &mut self.leftover, &mut self.clock);
        }
    }
}
