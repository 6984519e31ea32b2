//! Opens the desk in the file of a store, and finds the day on which to ask it.

ghost use Rattle.std.specs.Prelude.{◌≡◌, ◌⊎◌, Err, None, Ok, Some, false, true};
ghost use Rattle.std.specs.Prelude.{IfErr, IfOk, IfSome, IsSome, IsTrue, MatchBool};
ghost use Rattle.rd_program.specs.Doors.{AsksPath};
ghost use Rattle.rd_program.specs.Asked.{IsClockOn, IsStillOrRead};
ghost use Rattle.rd_program.specs.Leaves.{GivesBack, IsDayAt, LeavesUnopened, moment_of};
ghost use Rattle.rd_program.specs.OnTime.{IsBehind, IsBehindOn, IsOnTime, IsOnTimeBy, must_be_on_time};
ghost use Rattle.rd_program.specs.World.{ChangesClock, OpensStore};
ghost use Rattle.rd_program.specs.Serving.{IsClockRefusal, IsDayless, IsOpenRefusal};
ghost use Rattle.rd_store.specs.Held.{IsOpen, Keeps, desk as desk_in};
ghost use Rattle.rd_store.specs.Migrated.{IsMigrated};
ghost use Rattle.rd_policy.specs.Days.{HasDay, IsDay};
ghost use Rattle.rd_policy.specs.Zones.{day_number};

use crate::faults::not_opened;
use crate::machine::Machine;
use rd_commands::{MachineFault, Refusal, WhenAsk};
use rd_desk::Desk;
use rd_policy::{DayFault, Zone};
use rd_store::{Refused, Store};
use sqlite::Alter;
use std::alloc::Global;

/// Why there is no connection to the store at a path: there is no file, and then no desk; or the store
/// failed, or memory ran out. It leaves the machine as it was.
fn not_connected<M: Machine>(fault: MachineFault, store: &str, machine: &mut M) -> Refusal
    ensures absent { result ≡ Refusal.NotADesk → (M.seen machine.old).stands store.now ≡ None }
    ensures one_of { (result ≡ Refusal.NotADesk) ⊎ ((result ≡ Refusal.Store) ⊎ (result ≡ Refusal.NoMemory)) }
    ensures memory { result ≡ Refusal.NoMemory → fault ≡ MachineFault.NoMemory }
    ensures same { machine.new ≡ machine.old }
{
    match fault {
        MachineFault::NoMemory => Refusal::NoMemory,
        MachineFault::Failed => {
            if machine.is_missing(store) {
                Refusal::NotADesk
            } else {
                Refusal::Store
            }
        }
    }
}

/// Opens the desk in the file of a store, without clocks. It brings a store of version 1 to version 2. It
/// fails with `NotADesk`, `Version`, `Inconsistent` and `Store`, and with `NoMemory`.
pub(crate) fn open_store<M: Machine>(
    alloc: Global,
    store: &str,
    machine: &mut M,
) -> Result<Store<M::Disk>, Refusal>
    ensures opened { IfOk result (λ opened. IfSome ((M.seen machine.old).stands store.now)
        (λ before. IsMigrated M.Disk.Store before opened)) }
    ensures there { IfOk result
        (λ _. IsTrue (M.seen machine.old).shows → IsSome ((M.seen machine.old).stands store.now)) }
    ensures frame { OpensStore (M.seen machine.old) (M.seen machine.new) }
    ensures asked { AsksPath (M.seen machine.old).wanted store.now (M.seen machine.new).wanted }
    ensures back { IfErr result
        (λ _. GivesBack (M.seen machine.old).shows (M.seen machine.old).left (M.seen machine.new).left) }
    ensures refused { IfErr result IsOpenRefusal }
    ensures left { IfErr result (LeavesUnopened M.Disk.Store (M.seen machine.old).left
        ((M.seen machine.old).stands store.now) (M.seen machine.new).left) }
{
    let conn = match machine.connect(store, false, false) {
        Ok(conn) => conn,
        Err(fault) => return Err(not_connected(fault, store, machine)),
    };
    match Store::migrate(alloc, conn) {
        Ok(store) => Ok(store),
        Err(Refused { fault, conn }) => {
            machine.release(&mut Some(conn));
            Err(not_opened(fault))
        }
    }
}

/// Opens the desk in the file of a store, with the clocks of a zone, and fails, as `open_store` does.
pub(crate) fn open_desk<M: Machine>(
    alloc: Global,
    store: &str,
    zone: Zone,
    machine: &mut M,
) -> Result<Desk<M::Disk>, Refusal>
    ensures zone { IfOk result (λ desk. desk.zone ≡ zone) }
    ensures opened { IfOk result (λ desk. IfSome ((M.seen machine.old).stands store.now)
        (λ before. IsMigrated M.Disk.Store before desk.store)) }
    ensures there { IfOk result
        (λ _. IsTrue (M.seen machine.old).shows → IsSome ((M.seen machine.old).stands store.now)) }
    ensures frame { OpensStore (M.seen machine.old) (M.seen machine.new) }
    ensures asked { AsksPath (M.seen machine.old).wanted store.now (M.seen machine.new).wanted }
    ensures back { IfErr result
        (λ _. GivesBack (M.seen machine.old).shows (M.seen machine.old).left (M.seen machine.new).left) }
    ensures refused { IfErr result IsOpenRefusal }
    ensures left { IfErr result (LeavesUnopened M.Disk.Store (M.seen machine.old).left
        ((M.seen machine.old).stands store.now) (M.seen machine.new).left) }
{
    match open_store(alloc, store, machine) {
        Ok(store) => Ok(Desk::new(store, zone)),
        Err(refused) => Err(refused),
    }
}

/// The seconds that the machine's clock shows. It fails with `Clock`, and with `NoMemory`.
fn clock_seconds<M: Machine>(machine: &mut M) -> Result<i64, Refusal>
    ensures shown { IfOk result (λ seconds. IfSome (M.seen machine.old).clock (λ moment. seconds ≡ moment)) }
    ensures sure { IfSome (M.seen machine.old).clock (λ moment. result ≡ Ok moment) }
    ensures frame { ChangesClock (M.seen machine.old) (M.seen machine.new) }
    ensures refused { IfErr result IsClockRefusal }
{
    match machine.now() {
        Ok(seconds) => Ok(seconds),
        Err(fault) => Err(fault.or(Refusal::Clock)),
    }
}

/// The seconds of the moment that the words name, or else of `clock_seconds`. It fails as that does.
fn seconds_of<M: Machine>(named: Option<i64>, machine: &mut M) -> Result<i64, Refusal>
    ensures asked { IfOk result
        (λ seconds. IfSome (moment_of named (M.seen machine.old).clock) (λ moment. seconds ≡ moment)) }
    ensures named { IfSome named (λ seconds. result ≡ Ok seconds) }
    ensures sure { IfSome (moment_of named (M.seen machine.old).clock) (λ seconds. result ≡ Ok seconds) }
    ensures frame { ChangesClock (M.seen machine.old) (M.seen machine.new) }
    ensures refused { IfErr result IsClockRefusal }
{
    match named {
        Some(seconds) => Ok(seconds),
        None => clock_seconds(machine),
    }
}

/// The day on which to ask a desk, by its clocks, counted from 1970-01-01: that of the moment that the words
/// name, in seconds since 1970-01-01T00:00:00 UTC, or of the machine's clock. It fails with `Clock` when the
/// clock fails or the moment has no day, and with `NoMemory`.
pub(crate) fn visit_day<S: Alter, M: Machine>(
    named: Option<i64>,
    desk: &Desk<S>,
    machine: &mut M,
) -> Result<i32, Refusal>
    ensures day { IfOk result (IsDayAt (moment_of named (M.seen machine.old).clock) desk.now.zone) }
    ensures frame { ChangesClock (M.seen machine.old) (M.seen machine.new) }
    ensures in_range { IfOk result IsDay }
    ensures named { IfSome named (λ seconds. (HasDay seconds → result ≡ Ok (day_number seconds desk.now.zone))
        × (¬ HasDay seconds → result ≡ Err Refusal.Clock)) }
    ensures dayless { IsDayless (moment_of named (M.seen machine.old).clock) result }
    ensures sure { IfSome (moment_of named (M.seen machine.old).clock)
        (λ seconds. HasDay seconds → result ≡ Ok (day_number seconds desk.now.zone)) }
    ensures refused { IfErr result IsClockRefusal }
{
    let seconds = seconds_of(named, machine)?;
    match desk.day(seconds) {
        Ok(day) => Ok(day),
        Err(DayFault::OutOfRange) => Err(Refusal::Clock),
        Err(DayFault::NoMemory) => Err(Refusal::NoMemory),
    }
}

/// Whether a desk has recorded a check more than one day later. It changes nothing. It fails with `Store`.
fn is_behind<S: Alter>(day: i32, desk: &mut Desk<S>) -> Result<bool, Refusal>
    requires day { IsDay day }
    ensures keeps { Keeps S.Store desk.old.store desk.new.store }
    ensures zone { desk.new.zone ≡ desk.old.zone }
    ensures behind { IfOk result (λ behind. IsOpen S.Store desk.new.store → MatchBool behind
        (IsBehind day (desk_in S.Store desk.old.store)) (IsOnTime day (desk_in S.Store desk.old.store))) }
    ensures refused { IfErr result (λ refusal. refusal ≡ Refusal.Store) }
{
    match desk.has_check_after(day + 1) {
        Ok(behind) => Ok(behind),
        Err(_) => Err(Refusal::Store),
    }
}

/// The day on which to ask a desk what depends on the day, as `visit_day` gives it: if the words name no
/// moment and do not trust the clock, no check of a later day than the one after it is recorded. It fails as
/// `visit_day` does, with `Clock` when such a check is recorded, and with `Store`.
pub(crate) fn day_on_time<S: Alter, M: Machine>(
    when: WhenAsk,
    desk: &mut Desk<S>,
    machine: &mut M,
) -> Result<i32, Refusal>
    ensures day { IfOk result (IsDayAt (moment_of when.seconds (M.seen machine.old).clock) desk.old.zone) }
    ensures on_time { IfOk result (λ day. IsTrue (must_be_on_time when.seconds when.is_trusting)
        → IsOpen S.Store desk.new.store → IsOnTime day (desk_in S.Store desk.old.store)) }
    ensures reads { IsStillOrRead S.Store desk.old.store desk.new.store }
    ensures zone { desk.new.zone ≡ desk.old.zone }
    ensures frame { ChangesClock (M.seen machine.old) (M.seen machine.new) }
    ensures in_range { IfOk result IsDay }
    ensures dayless { IsDayless (moment_of when.seconds (M.seen machine.old).clock) result }
    ensures clock { IfErr result (IsClockOn S.Store true when.seconds desk.old.store desk.new.store) }
    ensures late { IfErr result (IsBehindOn S.Store true (must_be_on_time when.seconds when.is_trusting)
        (moment_of when.seconds (M.seen machine.old).clock) desk.old.zone desk.old.store desk.new.store) }
    ensures untouched { must_be_on_time when.seconds when.is_trusting ≡ false
        → desk.new.store ≡ desk.old.store }
    ensures refused { IfErr result (λ refusal. IsClockRefusal refusal ⊎ (refusal ≡ Refusal.Store)) }
{
    let day = visit_day(when.seconds, desk, machine)?;
    if when.seconds.is_some() || when.is_trusting {
        return Ok(day);
    }
    let behind = is_behind(day, desk)?;
    if behind {
        return Err(Refusal::Clock);
    }
    Ok(day)
}

/// What the machine's clock shows; `None` if it fails, or if it is trusted and nobody need look.
pub(crate) fn clock_shown<M: Machine>(is_trusting: bool, machine: &mut M) -> Option<i64>
    ensures shown { IfSome result (λ moment. IfSome (M.seen machine.old).clock (λ found. moment ≡ found)) }
    ensures trusted { IsTrue is_trusting → result ≡ None }
    ensures sure { is_trusting ≡ false → IfSome (M.seen machine.old).clock (λ moment. result ≡ Some moment) }
    ensures frame { ChangesClock (M.seen machine.old) (M.seen machine.new) }
{
    if is_trusting {
        return None;
    }
    match machine.now() {
        Ok(seconds) => Some(seconds),
        Err(_) => None,
    }
}

/// Whether an open desk has recorded a check of a later day than the one after a moment's day; no if there is
/// no moment, or it has no day: each visit finds that too. It changes nothing, and fails with `Store`.
pub(crate) fn is_late<S: Alter>(shown: Option<i64>, desk: &mut Desk<S>) -> Result<bool, Refusal>
    ensures moment { IfOk result (λ late. IsTrue late → IsSome shown) }
    ensures reads { IsStillOrRead S.Store desk.old.store desk.new.store }
    ensures zone { desk.new.zone ≡ desk.old.zone }
    ensures on_time { IfOk result
        (λ late. late ≡ false → IsOnTimeBy S.Store shown desk.old.zone desk.old.store desk.new.store) }
    ensures refused { IfErr result (λ refusal. refusal ≡ Refusal.Store) }
{
    match shown {
        Some(seconds) => match desk.day(seconds) {
            Ok(day) => is_behind(day, desk),
            Err(_) => Ok(false),
        },
        None => Ok(false),
    }
}
