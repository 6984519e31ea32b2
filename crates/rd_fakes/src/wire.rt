//! Connections and doors in memory.

ghost use Rattle.std.specs.Prelude.{◌≡◌, None, false};

use rd_geometry::{Items, NoMemory};
use rd_http::{Broken, Door, MemoryDoor, Shut, Wire};
use std::alloc::{AllocError, Global};

/// How a connection behaves.
#[derive(Clone, Copy, PartialEq, Eq)]
pub struct Plan {
    /// How many bytes a read gives at most.
    pub most_given: usize,
    /// How many reads there are before one fails.
    pub reads: usize,
    /// How many bytes a write takes at most.
    pub most_taken: usize,
    /// How many writes there are before one fails.
    pub writes: usize,
    /// How many bytes it takes before a write takes none.
    pub room: usize,
    /// Whether a flush is one of the writes. If not, none fails.
    pub flush_is_a_write: bool,
}

/// The plan of a connection at which nothing fails.
pub const WHOLE: Plan = Plan {
    most_given: usize::MAX,
    reads: usize::MAX,
    most_taken: usize::MAX,
    writes: usize::MAX,
    room: usize::MAX,
    flush_is_a_write: false,
};

/// A connection at which some bytes come, and which behaves by a plan.
#[derive(Drop)]
pub struct Fragile<'a> {
    to_come: &'a [u8],
    /// The bytes that went out.
    pub out: Vec<u8>,
    plan: Plan,
    read_failed: bool,
    write_failed: bool,
}

impl<'a> Fragile<'a> {
    pub fn new(alloc: Global, came: &'a [u8], plan: Plan) -> Fragile<'a>
        ensures ready { result.read_failed ≡ false }
        ensures write_ready { result.write_failed ≡ false }
    {
        Fragile {
            to_come: came,
            out: Vec::new(alloc),
            plan,
            read_failed: false,
            write_failed: false,
        }
    }
}

impl Wire for Fragile<'_> {
    ghost came = { λ _. None };

    ghost incoming = { λ _. None };

    ghost outgoing = { λ _. None };

    ghost read_failed = { λ wire. wire.read_failed };

    ghost write_failed = { λ wire. wire.write_failed };

    ghost unsent = { λ _. 0 };

    fn take(&mut self, into: &mut [u8]) -> Result<usize, Broken> {
        if self.plan.reads == 0 {
            self.read_failed = true;
            return Err(Broken);
        }
        self.plan.reads -= 1;
        let count = self.to_come.len().min(into.len()).min(self.plan.most_given);
        into[..count].copy_from_slice(&self.to_come[..count]);
        self.to_come = &self.to_come[count..];
        Ok(count)
    }

    fn put(&mut self, bytes: &[u8]) -> Result<usize, Broken> {
        let count = bytes.len().min(self.plan.most_taken).min(self.plan.room);
        if self.plan.writes == 0
            || count == 0
            || self.out.extend_from_slice(&bytes[..count]).is_err()
        {
            self.write_failed = true;
            return Err(Broken);
        }
        self.plan.writes -= 1;
        self.plan.room -= count;
        Ok(count)
    }

    fn flush(&mut self) -> Result<(), Broken> {
        if !self.plan.flush_is_a_write {
            return Ok(());
        }
        if self.plan.writes == 0 {
            self.write_failed = true;
            return Err(Broken);
        }
        self.plan.writes -= 1;
        Ok(())
    }
}

/// A door through which such connections come, each at its moment, with the same bytes on each.
#[derive(Drop)]
pub struct Visitors<'a> {
    alloc: Global,
    came: &'a [u8],
    to_come: &'a [(i64, Plan)],
    /// The connections that have left.
    pub over: Vec<Fragile<'a>>,
    has_shut: bool,
}

impl<'a> Visitors<'a> {
    pub fn new(alloc: Global, came: &'a [u8], plans: &'a [(i64, Plan)]) -> Visitors<'a> {
        Visitors {
            alloc,
            came,
            to_come: plans,
            over: Vec::new(alloc),
            has_shut: false,
        }
    }
}

impl<'a> Door for Visitors<'a> {
    type Conn = Fragile<'a>;

    ghost so_far = { λ _. None };

    ghost coming = { λ _. None };

    ghost has_shut = { λ door. door.has_shut };

    fn admit(&mut self) -> Result<(i64, Fragile<'a>), Shut> {
        if !self.has_shut {
            if let Some((visit, rest)) = self.to_come.split_first() {
                self.to_come = rest;
                return Ok((visit.0, Fragile::new(self.alloc, self.came, visit.1)));
            }
        }
        self.has_shut = true;
        Err(Shut)
    }

    fn leave(&mut self, conn: Fragile<'a>) {
        let _ = self.over.push(conn);
    }
}

// The calls of the code under test have a function each, without a clause, so that the proof of a caller does not
// carry what all its calls say.

/// Adds a visit: its moment, and the bytes that come.
pub fn add_visit(
    visits: &mut Vec<(i64, Items<u8>)>,
    seconds: i64,
    came: Vec<u8>,
) -> Result<(), AllocError> {
    visits.push((seconds, Items::of(came)))?;
    Ok(())
}

/// A door through which these visits come, at which nothing fails.
pub fn new_door(alloc: Global, visits: Vec<(i64, Items<u8>)>) -> Result<MemoryDoor, NoMemory> {
    MemoryDoor::new(alloc, visits)
}

/// Such a door of one visit.
pub fn door_of(alloc: Global, seconds: i64, came: Vec<u8>) -> Result<MemoryDoor, NoMemory> {
    let mut visits = Vec::new(alloc);
    add_visit(&mut visits, seconds, came)?;
    new_door(alloc, visits)
}
