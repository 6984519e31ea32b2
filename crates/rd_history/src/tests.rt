//! Histories in memory: which lines are opened as one, and that what was put stands when it is opened again.

use crate::{Cause, Change, Entry, History, changes_may_come, settle};
use rd_chain::{Chain, OpenFault, Refused};
use rd_geometry::Text;
use rd_policy::Band;
use rd_store::Store;
use sqlite::{Connection, MemStore};
use std::alloc::{AllocError, Global};
use std::test::Fail;

const NONE_STANDS: &str = r#"{"begin":0}"#;

const ONE_STANDS: &str = r#"{"begin":1}"#;

const TWO_STAND: &str = r#"{"begin":2}"#;

const DEED: &str = r#"{"deed":{"deed":7,"donor":"A. Curator","signed":"2019-05-04"}}"#;

const DROP: &str = r#"{"drop_rule":{"deed":7,"rank":10}}"#;

const DIGEST: &str = "2222222222222222222222222222222222222222222222222222222222222222";

const VOID: &str = r#"{"void":"conflict"}"#;

/// A case, what entries change, and why these are no history.
type Case<'a> = (&'a str, &'a [&'a str], Option<OpenFault>);

const CASES: [Case<'_>; 10] = [
    ("none", &[], None),
    ("two bases", &[NONE_STANDS, ONE_STANDS, DEED], None),
    ("taken back", &[DEED, VOID, DROP, VOID, DEED], None),
    (
        "taken back behind a base",
        &[ONE_STANDS, DEED, DEED, VOID],
        None,
    ),
    (
        "a base is short",
        &[TWO_STAND, DEED],
        Some(OpenFault::Broken),
    ),
    (
        "a base in a base",
        &[TWO_STAND, NONE_STANDS],
        Some(OpenFault::Broken),
    ),
    (
        "a drop in a base",
        &[ONE_STANDS, DROP],
        Some(OpenFault::Broken),
    ),
    (
        "of a base",
        &[ONE_STANDS, DEED, VOID],
        Some(OpenFault::Broken),
    ),
    ("twice", &[DEED, VOID, VOID], Some(OpenFault::Broken)),
    (
        "no change",
        &[DEED, r#"{"deed":{}}"#],
        Some(OpenFault::Broken),
    ),
];

const BASES_TAKEN_BACK: [Case<'_>; 3] = [
    ("first", &[VOID], Some(OpenFault::Broken)),
    (
        "in a base",
        &[TWO_STAND, DEED, VOID],
        Some(OpenFault::Broken),
    ),
    (
        "of an empty base",
        &[NONE_STANDS, VOID],
        Some(OpenFault::Broken),
    ),
];

fn line_of(alloc: Global, change: &str, number: u32) -> Result<String, AllocError> {
    let (before, between, after) = (
        r#"{"badge":null,"change":"#,
        r#","moment":0,"note":"","number":"#,
        r#","staff":""}"#,
    );
    format!(in alloc; "{before}{change}{between}{number}{after}")
}

fn new_chain(alloc: Global) -> Result<Chain<MemStore>, Fail> {
    let Ok(conn) = Connection::open_in_memory(alloc) else {
        return Err(Fail::new("no connection"));
    };
    match Chain::create(conn) {
        Ok(chain) => Ok(chain),
        Err(
            Refused {
                fault: _,
                conn: _conn,
            },
        ) => Err(Fail::new("no chain")),
    }
}

fn opened(alloc: Global, conn: Connection<MemStore>) -> Result<History<MemStore>, OpenFault> {
    if !conn.is_autocommit() {
        return Err(OpenFault::Sql);
    }
    match History::open(alloc, conn) {
        Ok(history) => Ok(history),
        Err(Refused { fault, conn: _conn }) => Err(fault),
    }
}

fn put(alloc: Global, chain: &mut Chain<MemStore>, change: &str, number: u32) -> Result<(), Fail> {
    let Ok(line) = line_of(alloc, change, number) else {
        return Err(Fail::new("no line"));
    };
    match chain.append(line.as_str()) {
        Ok(()) => Ok(()),
        Err(_) => Err(Fail::new("not put")),
    }
}

/// A chain of lines with these changes, the first of them with this number.
fn chain_of(alloc: Global, changes: &[&str], first: u32) -> Result<Chain<MemStore>, Fail> {
    let mut chain = new_chain(alloc)?;
    for (change, number) in changes.iter().zip(first..) {
        put(alloc, &mut chain, change, number)?;
    }
    Ok(chain)
}

#[test]
fn which_lines_are_a_history(rt: HostRuntime) -> Result<(), Fail> {
    for (case, changes, wanted) in CASES {
        let chain = chain_of(rt.alloc(), changes, 1)?;
        assert_eq!(rt;
            opened(rt.alloc(), chain.into_connection()).err(),
            wanted,
            "{case}"
        );
    }
    for (case, changes, wanted) in BASES_TAKEN_BACK {
        let chain = chain_of(rt.alloc(), changes, 1)?;
        assert_eq!(rt;
            opened(rt.alloc(), chain.into_connection()).err(),
            wanted,
            "{case}"
        );
    }
    let second = chain_of(rt.alloc(), &[DEED], 2)?;
    let found = opened(rt.alloc(), second.into_connection()).err();
    assert_eq!(rt; found, Some(OpenFault::Broken), "a first number of 2");
    Ok(())
}

#[test]
fn more_lines_than_a_page(rt: HostRuntime) -> Result<(), Fail> {
    for (last, wanted) in [(VOID, None), ("1", Some(OpenFault::Broken))] {
        let mut chain = chain_of(rt.alloc(), &[DEED; 200], 1)?;
        put(rt.alloc(), &mut chain, last, 201)?;
        assert_eq!(rt;
            opened(rt.alloc(), chain.into_connection()).err(),
            wanted,
            "{last}"
        );
    }
    Ok(())
}

/// A history that was opened again, if it has so many entries, of which the last may be taken back or not.
fn again(
    alloc: Global,
    history: History<MemStore>,
    count: u32,
    ends_in_change: bool,
) -> Result<History<MemStore>, Fail> {
    match opened(alloc, history.into_connection()) {
        Ok(again) if again.last() == count && again.ends_in_change() == ends_in_change => Ok(again),
        _ => Err(Fail::new("not as it was put")),
    }
}

#[test]
fn what_is_put_stands_again(rt: HostRuntime) -> Result<(), Fail> {
    changes_may_come();
    let alloc = rt.alloc();
    let Ok(history) = opened(alloc, new_chain(alloc)?.into_connection()) else {
        return Err(Fail::new("no history"));
    };
    let mut history = again(alloc, history, 0, false)?;
    let entry = Entry {
        badge: None,
        change: Change::DropRule {
            band: Band::Deed,
            scope: 7,
            rank: 10,
        },
        moment: 0,
        note: Text::of(String::new(alloc)),
        number: 1,
        staff: Text::of(String::new(alloc)),
    };
    assert!(rt; history.append(alloc, entry).is_ok());
    let mut history = again(alloc, history, 1, true)?;
    let Ok(Some(last)) = history.last_entry(alloc) else {
        return Err(Fail::new("no last entry"));
    };
    assert!(rt;
        matches!(
            last.change,
            Change::DropRule {
                scope: 7,
                rank: 10,
                ..
            }
        )
    );
    Ok(())
}

/// A case, the change of the last entry, and whether a store that has one key, of the staff, has it taken back.
const LAST: [(&str, &str, bool); 5] = [
    (
        "a key that stands",
        r#"{"key":{"audience":"staff","digest":"DIGEST"}}"#,
        false,
    ),
    (
        "a key of another audience",
        r#"{"key":{"audience":"room","digest":"DIGEST"}}"#,
        true,
    ),
    (
        "a key that was not dropped",
        r#"{"drop_key":{"digest":"DIGEST"}}"#,
        true,
    ),
    ("a deed that is not there", DEED, true),
    ("a rule that is not there is dropped", DROP, false),
];

fn new_store(alloc: Global) -> Result<Store<MemStore>, Fail> {
    let Ok(conn) = Connection::open_in_memory(alloc) else {
        return Err(Fail::new("no connection"));
    };
    match Store::create(conn, &[0x22; 32]) {
        Ok(store) => Ok(store),
        Err(
            rd_store::Refused {
                fault: _,
                conn: _conn,
            },
        ) => Err(Fail::new("no store")),
    }
}

#[test]
fn the_last_change_is_taken_back_where_it_does_not_stand(rt: HostRuntime) -> Result<(), Fail> {
    let (alloc, mut store) = (rt.alloc(), new_store(rt.alloc())?);
    for (case, change, is_lost) in LAST {
        let Ok(change) = change.replace(alloc, "DIGEST", DIGEST) else {
            return Err(Fail::new("no change"));
        };
        let chain = chain_of(alloc, &[change.as_str()], 1)?;
        let Ok(mut history) = opened(alloc, chain.into_connection()) else {
            return Err(Fail::new(case));
        };
        assert!(rt;
            settle(alloc, 5, &mut store, &mut history).is_ok(),
            "{case}"
        );
        assert_eq!(rt; history.last() == 2, is_lost, "{case}");
        let Ok(Some(last)) = history.last_entry(alloc) else {
            return Err(Fail::new(case));
        };
        let is_void = matches!(last.change, Change::Void(Cause::Lost)) && last.moment == 5;
        assert_eq!(rt; is_void, is_lost, "{case}");
        assert!(rt;
            settle(alloc, 6, &mut store, &mut history).is_ok(),
            "{case}: again"
        );
        assert_eq!(rt; history.last() == 2, is_lost, "{case}: again");
    }
    Ok(())
}
