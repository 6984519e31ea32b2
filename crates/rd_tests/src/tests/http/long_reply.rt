//! Writes to a connection in memory that are longer together than any reply of the other tests.

ghost use Rattle.std.specs.Prelude.{◌≡◌, false};

use rd_fakes::wire::door_of;
use rd_http::{Broken, Door, MemoryDoor, MemoryWire, Wire};
use rd_samples::days::AFTER;
use std::test::Fail;

/// How many bytes are put at once.
const PART: usize = 10_000;

/// How many times they are put: 6 MB in all.
const PARTS: usize = 600;

/// A connection at which no write has failed.
#[derive(Drop)]
struct Working<W: Wire + Drop> {
    wire: W,
    ghost works: { W.write_failed wire ≡ false },
}

/// Puts a part. It gives the connection, and how many bytes of the part it took.
fn put_part<W: Wire + Drop>(
    working: Working<W>,
    part: &[u8],
) -> Result<(Working<W>, usize), Broken> {
    let Working { mut wire } = working;
    let taken = wire.put(part)?;
    Ok((Working { wire }, taken))
}

/// Puts a part again and again. It gives the connection, and how many bytes it took in all.
fn put_parts<W: Wire + Drop>(
    mut working: Working<W>,
    part: &[u8],
) -> Result<(Working<W>, usize), Broken> {
    let mut all = 0usize;
    for _ in 0..PARTS {
        let (next, taken) = put_part(working, part)?;
        working = next;
        all = all.saturating_add(taken);
    }
    Ok((working, all))
}

/// The connection of the next visit of a door.
fn admitted(door: &mut MemoryDoor) -> Result<Working<MemoryWire>, Fail> {
    let Ok((_, wire)) = door.admit() else {
        return Err(Fail::new("the door has shut"));
    };
    Ok(Working { wire })
}

/// Ends the visit of a connection, which is the one visit of a door. It gives how many bytes went out.
fn left(door: &mut MemoryDoor, working: Working<MemoryWire>) -> usize {
    door.leave(working.wire);
    match door.visits() {
        [visit] => visit.out().len(),
        _ => 0,
    }
}

/// A connection in memory takes each byte while there is memory, however many it has taken. No clause says so.
#[test]
fn six_megabytes_go_out_over_a_door_in_memory(rt: HostRuntime) -> Result<(), Fail> {
    let mut door = door_of(rt.alloc(), AFTER, Vec::new(rt.alloc()))?;
    let part = vec![in rt.alloc(); b'A'; PART]?;
    let (working, taken) = put_parts(admitted(&mut door)?, part.as_slice())?;
    assert_eq!(rt; taken, PART * PARTS);
    assert_eq!(rt; left(&mut door, working), PART * PARTS);
    Ok(())
}
