ghost use Rattle.std.specs.Prelude.{◌≡◌, ◌⊎◌, ⊤, IfErr, IfOk, IfSome, IsSomeAnd, IsTrue, OnErr, OnOk, false};
ghost use Rattle.std.specs.Io.KnownBytes.{Appends, Keeps};
ghost use Rattle.std.specs.String.{string_bytes};
ghost use Rattle.rd_store.specs.Held.{Lasts};
ghost use Rattle.rd_commands.specs.Serving.{place_of};
ghost use Rattle.rd_commands.specs.RefusalLines.{whole};
ghost use Rattle.rd_program.specs.Does.{DoesServe};
ghost use Rattle.rd_program.specs.Asked.{IsStillOrRead};
ghost use Rattle.rd_program.specs.Leaves.{GivesBack};
ghost use Rattle.rd_program.specs.OnTime.{IsOnTimeBy};
ghost use Rattle.rd_program.specs.Doors.{MayAsk};
ghost use Rattle.rd_program.specs.World.{ChangesDoors};
ghost use Rattle.rd_program.specs.World.Wanted.{DoorAt};
ghost use Rattle.rd_program.specs.Visiting.{RunsVisits};
ghost use Rattle.rd_commands.specs.Output.{AppendsPart};
ghost use Rattle.rd_commands.specs.Refusals.{IsDeviceOrMemory};
ghost use Rattle.rd_program.specs.Serving as spec;
ghost use Rattle.rd_program.specs.Serving.{AreLimitsOf, RefusesVisits, listening_at, served_line};

use crate::machine::Machine;
use crate::open_desk::{clock_shown, is_late, open_desk};
use rd_commands::{Place, Refusal, ServeAsk, Timeouts, write_whole};
use rd_desk::Desk;
use rd_http::{Ended, Served, TimeLimits, serve_many};
use std::alloc::{AllocError, Global};
use std::io::Write;
use std::time::Duration;

/// The line that says at which port visits come. It fails when memory runs out.
fn port_line(alloc: Global, port: u16) -> Result<String, AllocError>
    ensures { IfOk result (λ line. string_bytes line ≡ spec.listening_line port) }
{
    let mut line = String::new(alloc);
    write!(line, "listening 127.0.0.1:{port}\n")?;
    Ok(line)
}

/// The line that says at the Unix socket of which path visits come. It fails when memory runs out.
fn socket_line(alloc: Global, path: &str) -> Result<String, AllocError>
    ensures { IfOk result (λ line. string_bytes line ≡ spec.listening_on path.now) }
{
    let mut line = String::new(alloc);
    write!(line, "listening {path}\n")?;
    Ok(line)
}

/// The line that says where visits come. It fails when memory runs out.
fn place_line(alloc: Global, place: Place) -> Result<String, AllocError>
    ensures { IfOk result (λ line. string_bytes line ≡ listening_at (place_of place.entry)) }
{
    match place {
        Place::Port(port) => port_line(alloc, port),
        Place::Socket(path) => socket_line(alloc, path),
    }
}

/// Writes where visits come, and flushes. It fails with `NoMemory`, and `Device` if a write or flush fails.
fn tell_listening<M: Machine, W: Write>(
    alloc: Global,
    place: Place,
    output: &mut W,
) -> Result<(), Refusal>
    ensures done { OnOk result
        (Appends (W.contents output.old) (W.contents output.new) (listening_at (place_of place.entry))) }
    ensures cut { OnErr result
        (AppendsPart (W.contents output.old) (W.contents output.new) (listening_at (place_of place.entry))) }
    ensures refused { IfErr result IsDeviceOrMemory }
{
    let line = place_line(alloc, place)?;
    write_whole::<M, W>(output, line.as_bytes())
}

/// Writes how many visits it served, and flushes the output. It fails as `tell_listening` does.
fn tell_served<M: Machine, W: Write>(
    alloc: Global,
    count: u32,
    output: &mut W,
) -> Result<(), Refusal>
    ensures done { OnOk result (Appends (W.contents output.old) (W.contents output.new) (served_line count)) }
    ensures cut { OnErr result
        (AppendsPart (W.contents output.old) (W.contents output.new) (served_line count)) }
    ensures flushed { OnOk result (IsTrue (M.flushed (W.contents output.new))) }
    ensures refused { IfErr result IsDeviceOrMemory }
{
    let mut line = String::new(alloc);
    write!(line, "served {count}\n")?;
    write_whole::<M, W>(output, line.as_bytes())
}

/// How long a visitor may take, from so many seconds.
fn time_limits(timeouts: Timeouts) -> TimeLimits
    ensures { AreLimitsOf timeouts result }
{
    TimeLimits {
        request: Duration::from_secs(u64::from(timeouts.request)),
        write: Duration::from_secs(u64::from(timeouts.write)),
        reply: Duration::from_secs(u64::from(timeouts.reply)),
    }
}

/// Serves visits at the place that the command names, unless the clock is not trusted and shows a day that is
/// more than one day before that of a recorded check. It fails with `Clock` then, with `Store` when the
/// checks cannot be read, with `Device` when it cannot open the place or a write fails, and with `NoMemory`.
fn serve_visits<W: Write, M: Machine>(
    alloc: Global,
    ask: ServeAsk,
    desk: &mut Desk<M::Disk>,
    output: &mut W,
    machine: &mut M,
) -> Result<Served, Refusal>
    ensures listening { OnOk result
        (Appends (W.contents output.old) (W.contents output.new) (listening_at (place_of ask.entry.place))) }
    ensures refused { IfErr result
        (RefusesVisits (place_of ask.entry.place) (W.contents output.old) (W.contents output.new)) }
    ensures count { IfOk result (λ served. served.ended ≡ Ended.Count → served.visits ≡ ask.entry.count) }
    ensures lasts { IfOk result (λ _. Lasts M.Disk.Store desk.old.store desk.new.store) }
    ensures unserved { IfErr result (λ _. IsStillOrRead M.Disk.Store desk.old.store desk.new.store) }
    ensures lent { spec.WritesOnceLent (M.seen machine.old).shows (M.seen machine.new).limits
        (W.contents output.old) (W.contents output.new) }
    ensures frame { ChangesDoors (M.seen machine.old) (M.seen machine.new) }
    ensures asked { MayAsk (M.seen machine.old).wanted (DoorAt (place_of ask.entry.place))
        (M.seen machine.new).wanted ⊤ }
    ensures limits { IfOk result (λ _. IsTrue (M.seen machine.old).shows
        → IsSomeAnd (M.seen machine.new).limits (AreLimitsOf ask.entry.timeouts)) }
    ensures visits { IfOk result (λ served. IfSome ((M.seen machine.old).doors (place_of ask.entry.place))
        (λ before. IsSomeAnd ((M.seen machine.new).doors (place_of ask.entry.place)) (λ after.
        RunsVisits M.Disk.Store M.Door.so_far M.Door.coming desk.old.zone before after served
        desk.old.store desk.new.store))) }
    ensures on_time { ask.entry.is_trusting ≡ false → OnOk result
        (IsOnTimeBy M.Disk.Store (M.seen machine.old).clock desk.old.zone desk.old.store desk.new.store) }
    ensures begun_on_time { ask.entry.is_trusting ≡ false
        → OnErr result (Keeps (W.contents output.old) (W.contents output.new)
        ⊎ IsOnTimeBy M.Disk.Store (M.seen machine.old).clock desk.old.zone desk.old.store desk.new.store) }
{
    let shown = clock_shown(ask.is_trusting, machine);
    let late = is_late(shown, desk)?;
    if late {
        return Err(Refusal::Clock);
    }
    let door = match machine.listen(ask.place, time_limits(ask.timeouts)) {
        Ok(door) => door,
        Err(fault) => return Err(fault.or(Refusal::Device)),
    };
    tell_listening::<M, W>(alloc, ask.place, output)?;
    Ok(serve_many(alloc, door, desk, ask.count))
}

/// Writes how many visits a run served, or fails as the run ended. It fails with `Clock` when a moment has no
/// day, with `Device` when the door shuts or a write fails, and with `NoMemory`.
fn tell_ended<M: Machine, W: Write>(
    alloc: Global,
    served: Served,
    output: &mut W,
) -> Result<(), Refusal>
    ensures done { OnOk result
        (Appends (W.contents output.old) (W.contents output.new) (served_line served.visits)) }
    ensures count { OnOk result (served.ended ≡ Ended.Count) }
    ensures flushed { OnOk result (IsTrue (M.flushed (W.contents output.new))) }
    ensures refused { IfErr result
        (spec.RefusesToEnd served.ended served.visits (W.contents output.old) (W.contents output.new)) }
{
    match served.ended {
        Ended::Count => tell_served::<M, W>(alloc, served.visits, output),
        Ended::Clock => Err(Refusal::Clock),
        Ended::Shut => Err(Refusal::Device),
    }
}

/// Serves visits of the desk in the file of a store. It writes where they come and, at the end, how many
/// there were, and flushes each line. It fails as `open_desk` does, then as `serve_visits` does, with
/// `Device` when the door shuts, and with `Clock` when a moment has no day.
pub(crate) fn serve<W: Write, M: Machine>(
    alloc: Global,
    ask: ServeAsk,
    output: &mut W,
    machine: &mut M,
) -> Result<(), Refusal>
    ensures does { DoesServe M.Disk.Store (M.seen machine.old) (M.seen machine.new) (W.contents output.old)
        (W.contents output.new) M.Door.so_far M.Door.coming ask.entry (whole result) }
    ensures refused { IfErr result (λ refusal. spec.RefusesServe refusal (place_of ask.entry.place)
        ask.entry.count (W.contents output.old) (W.contents output.new)) }
    ensures flushed { OnOk result (IsTrue (M.flushed (W.contents output.new))) }
    ensures back { GivesBack (M.seen machine.old).shows (M.seen machine.old).left (M.seen machine.new).left }
{
    let mut desk = open_desk(alloc, ask.store, ask.zone, machine)?;
    let served = serve_visits(alloc, ask, &mut desk, output, machine);
    machine.release(&mut Some(desk.into_store().into_connection()));
    tell_ended::<M, W>(alloc, served?, output)
}
