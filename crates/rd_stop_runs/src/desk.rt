//! Desks over two files in memory.
//!
//! Each call of the crates below has a function without a clause, so that a proof carries the
//! clauses of one call alone.

use crate::commands::{Command, request_of};
use anyhow::{Result, bail, ensure};
use rd_desk::{Desk, Reply, Request};
use rd_fakes::desk::desk_over;
use rd_samples::days::{AFTER, CENTRAL};
use rd_store::{CreateFault, OpenFault, Store};
use sqlite::Alter;
use std::alloc::Global;

/// Why no desk is made, in words.
pub(crate) fn words_of_create(fault: CreateFault) -> &'static str {
    match fault {
        CreateFault::Exists => "exists",
        CreateFault::Sql => "sql",
    }
}

/// Why no desk opens, in words.
pub(crate) fn words_of_open(fault: OpenFault) -> &'static str {
    match fault {
        OpenFault::NotADesk => "not-a-desk",
        OpenFault::Version => "version",
        OpenFault::Inconsistent => "inconsistent",
        OpenFault::Sql => "sql",
    }
}

/// The desk over a store, with the clocks of central Europe.
pub(crate) fn desk_of<S: Alter + Drop>(store: Store<S>) -> Result<Desk<S>> {
    match desk_over(store, CENTRAL) {
        Ok(desk) => Ok(desk),
        Err(_) => bail!("no zone"),
    }
}

/// The reply to a request at the first moment of 2030.
fn reply_to<S: Alter + Drop>(
    alloc: Global,
    desk: &mut Desk<S>,
    request: &Request,
) -> Result<Reply> {
    ensure!(request.fits(), "a request is past its limits");
    ensure!(desk.day(AFTER).is_ok(), "the moment has no day");
    Ok(desk.answer(alloc, AFTER, request))
}

/// The status of the reply to a command of the staff.
pub(crate) fn status_of<S: Alter + Drop>(
    alloc: Global,
    desk: &mut Desk<S>,
    command: Command,
) -> Result<u16> {
    let request = request_of(alloc, command)?;
    let reply = reply_to(alloc, desk, &request)?;
    Ok(reply.status)
}

/// Has a desk carry out commands of the staff.
///
/// It fails where a reply has another status than 200.
pub(crate) fn give_all<S: Alter + Drop>(
    alloc: Global,
    desk: &mut Desk<S>,
    commands: &[Command],
) -> Result<()> {
    for command in commands {
        let status = status_of(alloc, desk, *command)?;
        ensure!(status == 200, "a command has status {status}");
    }
    Ok(())
}
