//! Runs of visits in memory.

use super::cases::{CLOSED, FOR_HELLO, HELLO, Wanted, bytes_of, filled_desk, text_of};
use super::doors::{out_of, run};
use rd_fakes::wire::{add_visit, new_door};
use rd_http::{Ended, MemoryDoor, Served};
use rd_samples::days::{AFTER, BEFORE};
use rd_samples::table;
use std::alloc::Global;
use std::process::Abort;
use std::test::Fail;

/// Visits that ask for one file: their name, their moments, the runs of them, and what goes out at each.
type Run = (
    &'static str,
    &'static [i64],
    &'static [(u32, Served)],
    &'static [Wanted],
);

const RUNS: &[Run] = table![
    ("two of two", &[BEFORE, AFTER], &[(2, served!(2, 0, 0, Count))], &[CLOSED, HELLO]);
    ("three of two", &[BEFORE, AFTER], &[(3, served!(2, 0, 0, Shut)), (3, served!(0, 0, 0, Shut))], &[CLOSED, HELLO]);
    ("one by one", &[AFTER, BEFORE], &[(1, served!(1, 0, 0, Count)), (1, served!(1, 0, 0, Count)), (1, served!(0, 0, 0, Shut))], &[HELLO, CLOSED]);
    ("none of one", &[AFTER], &[(0, served!(0, 0, 0, Count)), (1, served!(1, 0, 0, Count))], &[HELLO]);
    ("a moment without a day", &[AFTER, i64::MAX, BEFORE], &[(3, served!(1, 0, 0, Clock)), (1, served!(1, 0, 0, Count))], &[HELLO, Wanted::Texts(&[]), CLOSED]);
];

/// A door of visits at these moments.
fn door_at(alloc: Global, moments: &[i64]) -> Result<MemoryDoor, Fail> {
    let mut visits = Vec::new(alloc);
    for seconds in moments {
        add_visit(&mut visits, *seconds, bytes_of(alloc, FOR_HELLO)?)?;
    }
    Ok(new_door(alloc, visits)?)
}

fn assert_run(rt: &impl Abort, alloc: Global, case: &Run) -> Result<(), Fail> {
    let (label, moments, runs, outs) = case;
    let mut desk = filled_desk(rt, alloc)?;
    let mut door = door_at(alloc, *moments)?;
    for (count, wanted) in *runs {
        assert_eq!(rt;
            run(alloc, &mut door, &mut desk, *count),
            *wanted,
            "{label}"
        );
    }
    for (n, wanted) in outs.iter().enumerate() {
        assert_eq!(rt;
            out_of(alloc, &door, n)?,
            text_of(alloc, *wanted)?,
            "{label}: {n}"
        );
    }
    Ok(())
}

#[test]
fn visits_are_served_in_turn(rt: HostRuntime) -> Result<(), Fail> {
    for case in RUNS {
        assert_run(&rt, rt.alloc(), case)?;
    }
    Ok(())
}
