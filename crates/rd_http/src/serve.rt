//! Visits one after the other.

ghost use Rattle.std.specs.Prelude.{◌≡◌, ◌≤◌, ◌<◌, ◌+◌, false, IfSome};
ghost use Rattle.sqlite.specs.Steps.{over_memory};
ghost use Rattle.rd_store.specs.Held.{IsOpen, desk as tables};
ghost use Rattle.rd_http.specs.Hidden.{RepliesAndHides};
ghost use Rattle.rd_http.specs.Runs.{HasRun, IsNext, IsRunOf};
ghost use Rattle.rd_http.specs.Visits.{IsReplied};

use crate::visit::{WireFault, serve_visit};
use rd_desk::Desk;
use rd_messages::{Door, Workspace};
use rd_store::memory_stays_open;
use sqlite::{Alter, MemStore};
use std::alloc::Global;

/// Why a run of visits ended.
#[derive(Clone, Copy, Debug, PartialEq, Eq)]
pub enum Ended {
    /// It served as many visits as the caller asked for.
    Count,
    /// The moment of the next visit has no day.
    Clock,
    /// The door has shut.
    Shut,
}

/// How a run of visits went.
#[derive(Clone, Copy, Debug, PartialEq, Eq)]
pub struct Served {
    /// How many visits it served, including those with a fault.
    pub visits: u32,
    /// At how many of them a read failed.
    pub read_faults: u32,
    /// At how many of them a write failed.
    pub write_faults: u32,
    /// Why it ended.
    pub ended: Ended,
}

impl Served {
    ghost use Rattle.rd_http.specs.Runs.{counted};

    /// A run that has served no visit yet.
    const NONE: Served = Served {
        visits: 0,
        read_faults: 0,
        write_faults: 0,
        ended: Ended::Count,
    };

    /// The run after one more visit, which ended so.
    fn with(self, ending: Result<(), WireFault>) -> Served
        requires room { self.visits < 4_294_967_295 }
        requires faults { self.read_faults + self.write_faults ≤ self.visits }
        ensures { result ≡ counted ending self }
    {
        match ending {
            Ok(()) => Served {
                visits: self.visits + 1,
                ..self
            },
            Err(WireFault::Read) => Served {
                visits: self.visits + 1,
                read_faults: self.read_faults + 1,
                ..self
            },
            Err(WireFault::Write) => Served {
                visits: self.visits + 1,
                write_faults: self.write_faults + 1,
                ..self
            },
            Err(WireFault::Clock) => Served {
                ended: Ended::Clock,
                ..self
            },
        }
    }
}

/// Serves one visit more of a run that goes on; or ends it, because the door has shut or the moment of the visit has no
/// day.
fn serve_next<S: Alter, D: Door>(
    alloc: Global,
    workspace: &mut Workspace,
    door: &mut D,
    desk: &mut Desk<S>,
    served: Served,
) -> Served
    requires counting { served.ended ≡ Ended.Count }
    requires room { served.visits < 4_294_967_295 }
    requires faults { served.read_faults + served.write_faults ≤ served.visits }
    ensures next { IsNext S.Store D.Door desk.old.zone door.old door.new desk.old.store desk.new.store served result }
    ensures heard { ((conn : _) → D.Conn.read_failed conn ≡ false) → served.read_faults ≡ 0 → result.read_faults ≡ 0 }
    ensures zone { desk.new.zone ≡ desk.old.zone }
{
    let Ok((seconds, mut conn)) = door.admit() else {
        return Served {
            ended: Ended::Shut,
            ..served
        };
    };
    let ending = serve_visit(alloc, workspace, &mut conn, seconds, desk);
    door.leave(conn);
    served.with(ending)
}

/// Serves up to `count` visits one after the other, each at the moment at which the door admits
/// it. A failed read or write ends only its own visit. A moment that has no day ends the run, and
/// its visit does not count; a door that shuts ends the run too. Each admitted visit leaves by the
/// door. Whatever a visitor asks, the reply to them depends on nothing that is hidden from them, or
/// is 503 (`hidden`), unless the staff asks what only they may.
pub fn serve_many<S: Alter, D: Door>(
    alloc: Global,
    door: &mut D,
    desk: &mut Desk<S>,
    count: u32,
) -> Served
    ensures run { IsRunOf S.Store D.Door count desk.old.zone door.old door.new desk.old.store desk.new.store result }
    ensures replied { IsOpen S.Store desk.new.store → IfSome (D.so_far door.old) (λ begun.
        HasRun IsReplied desk.old.zone begun (D.so_far door.new) (D.coming door.old) (D.coming door.new) result (tables S.Store desk.old.store) (tables S.Store desk.new.store)) }
    ensures hidden { IsOpen S.Store desk.new.store → IfSome (D.so_far door.old) (λ begun.
        HasRun RepliesAndHides desk.old.zone begun (D.so_far door.new) (D.coming door.old) (D.coming door.new) result (tables S.Store desk.old.store) (tables S.Store desk.new.store)) }
    ensures heard { ((conn : _) → D.Conn.read_failed conn ≡ false) → result.read_faults ≡ 0 }
    ensures zone { desk.new.zone ≡ desk.old.zone }
{
    let mut workspace = Workspace::new();
    let mut served = Served::NONE;
    while served.visits < count && served.ended == Ended::Count {
        served = serve_next(alloc, &mut workspace, door, desk, served);
    }
    served
}

/// `serve_many` over a desk in memory, where no disk can fail.
pub fn serve_in_memory<D: Door>(
    alloc: Global,
    door: &mut D,
    desk: &mut Desk<MemStore>,
    count: u32,
) -> Served
    ensures run { IsRunOf over_memory D.Door count desk.old.zone door.old door.new desk.old.store desk.new.store result }
    ensures replied { IfSome (D.so_far door.old) (λ begun.
        HasRun IsReplied desk.old.zone begun (D.so_far door.new) (D.coming door.old) (D.coming door.new) result (tables over_memory desk.old.store) (tables over_memory desk.new.store)) }
    ensures hidden { IfSome (D.so_far door.old) (λ begun.
        HasRun RepliesAndHides desk.old.zone begun (D.so_far door.new) (D.coming door.old) (D.coming door.new) result (tables over_memory desk.old.store) (tables over_memory desk.new.store)) }
    ensures heard { ((conn : _) → D.Conn.read_failed conn ≡ false) → result.read_faults ≡ 0 }
    ensures zone { desk.new.zone ≡ desk.old.zone }
{
    memory_stays_open();
    serve_many(alloc, door, desk, count)
}
