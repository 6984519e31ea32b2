//! Visits in memory: a caller gives beforehand what comes, and sees afterwards what went out.

ghost use Rattle.std.specs.Prelude.{◌≡◌, ◌<◌, ◌≤◌, Some, [], false, length, take, drop, IfOk};

use crate::wire::{Broken, Door, Shut, Wire};
use rd_geometry::{Items, NoMemory};
use std::alloc::Global;
use std::marker::Model;
use std::vec::IntoIter;

/// Copies as many bytes as both slices hold to the front of the second, and gives their number.
fn copy_front(from: &[u8], into: &mut [u8]) -> usize
    ensures from { result ≤ length from.now }
    ensures into { result ≤ length into.new }
    ensures copied { take result into.new ≡ take result from.now }
    ensures stops { result ≡ 0 → 0 < length into.new → from.now ≡ [] }
{
    let count = from.len().min(into.len());
    into[..count].copy_from_slice(&from[..count]);
    count
}

/// A connection in memory. Its reads never fail, and a write fails only when there is no memory
/// for its bytes.
#[derive(Drop)]
pub struct MemoryWire {
    came: Items<u8>,
    taken: usize,
    out: Vec<u8>,
    write_failed: bool,
    ghost within: { taken ≤ length came },
}

impl Wire for MemoryWire {
    ghost came = { λ wire. Some wire.came };

    ghost incoming = { λ wire. Some (drop wire.taken wire.came) };

    ghost outgoing = { λ wire. Some wire.out.items };

    ghost read_failed = { λ _. false };

    ghost write_failed = { λ wire. wire.write_failed };

    ghost unsent = { λ _. 0 };

    fn take(&mut self, into: &mut [u8]) -> Result<usize, Broken> {
        let count = copy_front(&self.came.as_slice()[self.taken..], into);
        self.taken += count;
        Ok(count)
    }

    fn put(&mut self, bytes: &[u8]) -> Result<usize, Broken> {
        if self.out.extend_from_slice(bytes).is_err() {
            self.write_failed = true;
            return Err(Broken);
        }
        Ok(bytes.len())
    }

    fn flush(&mut self) -> Result<(), Broken> {
        Ok(())
    }
}

/// Law: no read of a connection in memory fails.
pub fn memory_reads()
    ensures { (wire : _) → ⟦<MemoryWire as Wire>⟧.read_failed wire ≡ false }
{}

/// A visit in memory that is over.
#[derive(Drop)]
pub struct MemoryVisit {
    moment: i64,
    conn: MemoryWire,
}

impl Model for MemoryVisit {
    ghost use Rattle.std.specs.Prelude.{false};
    ghost use Rattle.rd_messages.specs.DoorVisits.{Visit};

    ghost Value = { Visit };

    ghost view = { λ visit. record {
      moment = visit.moment;
      came = visit.conn.came;
      out = visit.conn.out.items;
      read_failed = false;
      write_failed = visit.conn.write_failed;
    } };
}

impl MemoryVisit {
    /// The moment at which it was admitted, in seconds since 1970-01-01T00:00:00 UTC.
    pub fn moment(&self) -> i64
        ensures { result ≡ self.now.moment }
    {
        self.moment
    }

    /// All bytes that came, read or not.
    pub fn came(&self) -> &[u8]
        ensures { result.now ≡ self.now.came }
    {
        self.conn.came.as_slice()
    }

    /// The bytes that went out.
    pub fn out(&self) -> &[u8]
        ensures { result.now ≡ self.now.out }
    {
        self.conn.out.as_slice()
    }

    /// Whether a read failed: in memory none does.
    pub fn read_failed(&self) -> bool
        ensures shown { result ≡ self.now.read_failed }
        ensures never { result ≡ false }
    {
        let _conn = &self.conn;
        false
    }

    /// Whether a write failed, because there was no memory for it.
    pub fn write_failed(&self) -> bool
        ensures { result ≡ self.now.write_failed }
    {
        self.conn.write_failed
    }
}

/// A door through which visits with given moments and bytes come. Contracts see it as its visits
/// so far, those to come, and whether it has shut.
#[derive(Drop)]
pub struct MemoryDoor {
    alloc: Global,
    over: Vec<MemoryVisit>,
    under_way: Option<i64>,
    to_come: IntoIter<(i64, Items<u8>)>,
    has_shut: bool,
}

impl Model for MemoryDoor {
    ghost use Rattle.std.specs.Prelude.{◌≡◌, ◌+◌, ◌≤◌, length, vec_len, vec_capacity};
    ghost use Rattle.std.specs.Option.{option_to_list};
    ghost use Rattle.std.specs.Vec.Iter.{into_iter_items, into_iter_len};
    ghost use Rattle.rd_messages.specs.MemoryDoors.{DoorView};

    ghost Value = { DoorView };

    ghost view = { λ door. record {
      so_far = record { visits = door.over.items; under_way = door.under_way };
      coming = into_iter_items door.to_come;
      has_shut = door.has_shut;
    } };

    // The list of visits that are over has room for the one under way and for those to come.
    ghost invariant = { λ door.
        vec_len door.over + length (option_to_list door.under_way) + into_iter_len door.to_come ≤ vec_capacity door.over };
}

impl MemoryDoor {
    ghost use Rattle.rd_messages.specs.MemoryDoors.{fresh_door_view};

    /// The door of these visits, in order: the moment of each, in seconds since
    /// 1970-01-01T00:00:00 UTC, and the bytes that come. Later calls take memory only for the
    /// bytes that go out.
    ///
    /// It fails with `NoMemory` when memory runs out.
    pub fn new(alloc: Global, visits: Vec<(i64, Items<u8>)>) -> Result<MemoryDoor, NoMemory>
        ensures { IfOk result (λ door. door ≡ fresh_door_view visits.items) }
    {
        let over = Vec::with_capacity(alloc, visits.len())?;
        Ok(MemoryDoor {
            alloc,
            over,
            under_way: None,
            to_come: visits.into_iter(),
            has_shut: false,
        })
    }

    /// The visits that are over, in order.
    pub fn visits(&self) -> &[MemoryVisit]
        ensures { result.now ≡ self.now.so_far.visits }
    {
        self.over.as_slice()
    }
}

impl Door for MemoryDoor {
    type Conn = MemoryWire;

    ghost so_far = { λ door. Some door.so_far };

    ghost coming = { λ door. Some door.coming };

    ghost has_shut = { λ door. door.has_shut };

    fn admit(&mut self) -> Result<(i64, MemoryWire), Shut> {
        if self.has_shut || self.under_way.is_some() {
            self.has_shut = true;
            return Err(Shut);
        }
        let Some((moment, came)) = self.to_come.next() else {
            self.has_shut = true;
            return Err(Shut);
        };
        self.under_way = Some(moment);
        let conn = MemoryWire {
            came,
            taken: 0,
            out: Vec::new(self.alloc),
            write_failed: false,
        };
        Ok((moment, conn))
    }

    fn leave(&mut self, conn: MemoryWire) {
        if let Some(moment) = self.under_way.take() {
            let kept = self.over.push(MemoryVisit { moment, conn }).is_ok();
            prove!(kept);
        }
    }
}
