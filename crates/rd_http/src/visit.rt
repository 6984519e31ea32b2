//! One visit: it reads a request, has the desk answer it, and writes the reply.

ghost use Rattle.std.specs.Prelude.{◌≡◌, ◌≤◌, ℕ, List, false, IfSome, length};
ghost use Rattle.rd_policy.specs.Days.{IsDay};
ghost use Rattle.rd_policy.specs.Zones.{day_number};
ghost use Rattle.rd_store.specs.Held.{IsOpen, Lasts, desk as tables};
ghost use Rattle.rd_http.specs.Hidden.{HidesFromVisitor};
ghost use Rattle.rd_messages.specs.Readings.{Fits, IsReading};
ghost use Rattle.rd_messages.specs.ReplyText.{reply_bytes};
ghost use Rattle.rd_http.specs.Visits.{IsAnswer, IsServed, Visits};

use rd_desk::{Desk, Reply, unavailable};
use rd_messages::read_request::{Reading, read_request};
use rd_messages::{Broken, Wire, Workspace, send, with_challenge};
use sqlite::Alter;
use std::alloc::Global;

/// Why a visit ended before its reply had gone out.
#[derive(Clone, Copy, Debug, PartialEq, Eq)]
pub enum WireFault {
    /// A read failed. Nothing was written, and nothing has changed.
    Read,
    /// A write failed or took no byte. A front part of the reply went out, and what a command did
    /// stands.
    Write,
    /// The moment has no day. Nothing was read or written, and nothing has changed.
    Clock,
}

/// The reply to what was read, and the line that only this reply has in its head: at most 40 bytes,
/// or none.
fn answer_to<S: Alter>(
    alloc: Global,
    day: i32,
    desk: &mut Desk<S>,
    reading: Reading,
) -> (&'static str, Reply)
    requires day { IsDay day }
    requires fits { Fits reading }
    ensures answers { (stream : List ℕ) → IsReading stream reading
        → IsAnswer S.Store stream desk.old.store desk.new.store day (reply_bytes result.0.now result.1) }
    ensures short { length result.0.now ≤ 40 }
    ensures lasts { Lasts S.Store desk.old.store desk.new.store }
    ensures zone { desk.new.zone ≡ desk.old.zone }
{
    match reading {
        Reading::Request(request) => with_challenge(desk.answer_on(alloc, day, &request)),
        Reading::Fault(fault) => (fault.line(), fault.reply()),
        Reading::NoMemory => with_challenge(unavailable()),
    }
}

/// Serves one visit as `serve_one` does, in a workspace that visits before it may have used.
pub(crate) fn serve_visit<S: Alter, W: Wire>(
    alloc: Global,
    workspace: &mut Workspace,
    wire: &mut W,
    seconds: i64,
    desk: &mut Desk<S>,
) -> Result<(), WireFault>
    requires ready { W.read_failed wire.old ≡ false }
    requires write_ready { W.write_failed wire.old ≡ false }
    ensures served { IsServed S.Store W.Wire seconds desk.old.zone wire.old wire.new desk.old.store desk.new.store result }
    ensures zone { desk.new.zone ≡ desk.old.zone }
{
    let Ok(day) = desk.day(seconds) else {
        return Err(WireFault::Clock);
    };
    let Ok(reading) = read_request(alloc, workspace, wire) else {
        return Err(WireFault::Read);
    };
    let (line, reply) = answer_to(alloc, day, desk, reading);
    match send(wire, line, reply) {
        Ok(()) => Ok(()),
        Err(Broken) => Err(WireFault::Write),
    }
}

/// Serves one visit at a moment, in seconds since 1970-01-01T00:00:00 UTC: reads one request, and
/// no byte beyond what a head and a body may have (270,336), has the desk answer it, and writes
/// the reply. If the bytes are no request, the reply says why; if memory runs out or the store
/// fails, it says that the desk is unavailable. Unless the staff asks what only they may, the reply
/// depends on nothing that is hidden from the visitor, or is 503 (`hidden`).
///
/// It fails with `Clock` exactly when the moment has no day, with `Read` exactly when a read
/// fails, and with `Write` exactly when a write fails or takes no byte, including the last one,
/// which sends what the wire held back. After a fault it does not read or write.
pub fn serve_one<S: Alter, W: Wire>(
    alloc: Global,
    wire: &mut W,
    seconds: i64,
    desk: &mut Desk<S>,
) -> Result<(), WireFault>
    requires ready { W.read_failed wire.old ≡ false }
    requires write_ready { W.write_failed wire.old ≡ false }
    ensures served { IsServed S.Store W.Wire seconds desk.old.zone wire.old wire.new desk.old.store desk.new.store result }
    ensures hidden { IfSome (W.incoming wire.old) (λ stream.
        Visits (λ text. IsOpen S.Store desk.new.store
        → HidesFromVisitor stream (tables S.Store desk.old.store) (day_number seconds desk.old.zone) text)
        desk.old.store desk.new.store (W.outgoing wire.old) (W.outgoing wire.new) result) }
    ensures zone { desk.new.zone ≡ desk.old.zone }
{
    let mut workspace = Workspace::new();
    serve_visit(alloc, &mut workspace, wire, seconds, desk)
}
