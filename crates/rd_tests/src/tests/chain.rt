//! A chain in memory: what it tells, and which databases are opened as one.

use rd_chain::{Chain, OpenFault, Refused};
use sqlite::{Connection, MemStore};
use std::alloc::Global;
use std::test::Fail;

/// Three lines, and the beginning of the sum of each, by the module hashlib of Python.
const LINES: [&str; 3] = ["first", "second", "third"];

const SUMS: [[u8; 4]; 3] = [
    [0x3d, 0xb4, 0xb4, 0xeb],
    [0xde, 0x1e, 0x86, 0x98],
    [0x2f, 0x45, 0xbd, 0xc0],
];

/// What is done to the database of these lines, and why it is no chain then.
const CHANGES: [(&str, Option<OpenFault>); 9] = [
    ("UPDATE history SET line = line", None),
    (
        "UPDATE history SET line = 'Second' WHERE seq = 2",
        Some(OpenFault::Broken),
    ),
    (
        "UPDATE history SET sum = X'00' WHERE seq = 3",
        Some(OpenFault::Broken),
    ),
    ("UPDATE history SET seq = seq + 10", Some(OpenFault::Broken)),
    ("DELETE FROM history WHERE seq = 2", Some(OpenFault::Broken)),
    (
        "INSERT INTO history VALUES (0, 'zeroth', X'00')",
        Some(OpenFault::Broken),
    ),
    ("DELETE FROM history WHERE seq = 3", None),
    (
        "CREATE INDEX by_line ON history (line)",
        Some(OpenFault::NotAChain),
    ),
    ("DROP TABLE history", Some(OpenFault::NotAChain)),
];

fn chain_of(alloc: Global, lines: &[&str]) -> Option<Chain<MemStore>> {
    let conn = Connection::open_in_memory(alloc).ok()?;
    match Chain::create(conn) {
        Ok(mut chain) => {
            chain.append_all(lines).ok()?;
            Some(chain)
        }
        Err(
            Refused {
                fault: _,
                conn: _conn,
            },
        ) => None,
    }
}

fn opened(conn: Connection<MemStore>) -> Result<Chain<MemStore>, OpenFault> {
    if !conn.is_autocommit() {
        return Err(OpenFault::Sql);
    }
    match Chain::open(conn) {
        Ok(chain) => Ok(chain),
        Err(Refused { fault, conn: _conn }) => Err(fault),
    }
}

#[test]
fn what_is_opened(rt: HostRuntime) -> Result<(), Fail> {
    for (change, wanted) in CHANGES {
        let Some(chain) = chain_of(rt.alloc(), &LINES) else {
            return Err(Fail::new("no chain"));
        };
        let mut conn = chain.into_connection();
        assert!(rt; conn.execute_batch(change).is_ok(), "{change}");
        assert_eq!(rt; opened(conn).err(), wanted, "{change}");
    }
    Ok(())
}

#[test]
fn what_is_told(rt: HostRuntime) -> Result<(), Fail> {
    let Some(chain) = chain_of(rt.alloc(), &LINES) else {
        return Err(Fail::new("no chain"));
    };
    let Ok(mut chain) = opened(chain.into_connection()) else {
        return Err(Fail::new("not opened"));
    };
    assert_eq!(rt; chain.last(), 3);
    for after in [0, 1, 2, 3, 4_000_000_000] {
        let Ok(found) = chain.lines_after(rt.alloc(), after) else {
            return Err(Fail::new("no lines"));
        };
        assert_eq!(rt; found.len(), LINES.len().saturating_sub(after as usize));
        for (line, at) in found.iter().zip(after as usize..) {
            assert_eq!(rt; Some(line.number as usize), at.checked_add(1));
            assert_eq!(rt;
                Some(line.line.as_slice()),
                LINES.get(at).map(|text| text.as_bytes())
            );
            assert_eq!(rt; line.sum.get(..4), SUMS.get(at).map(|sum| sum.as_slice()));
        }
    }
    Ok(())
}

#[test]
fn two_hundred_at_once(rt: HostRuntime) -> Result<(), Fail> {
    let Some(mut chain) = chain_of(rt.alloc(), &["line"; 201]) else {
        return Err(Fail::new("no chain"));
    };
    for (after, first, count) in [(0, 1, 200), (1, 2, 200), (2, 3, 199), (200, 201, 1)] {
        let Ok(found) = chain.lines_after(rt.alloc(), after) else {
            return Err(Fail::new("no lines"));
        };
        assert_eq!(rt; found.len(), count);
        assert_eq!(rt; found[0].number, first);
    }
    Ok(())
}
