//! The databases from which runs start. Each but the empty one has its last changes in its log
//! alone.

use crate::commands::{Command, Sample};
use crate::desk::{desk_of, give_all, words_of_create, words_of_open};
use crate::drive::Sort;
use crate::files::{FilesStore, Pair, USUAL_FRAMES, close, connect, into_files, options};
use anyhow::{Result, bail, ensure};
use rd_fakes::desk::{into_connection, into_store, made, migrate};
use rd_policy::Audience;
use rd_samples::rules::{CLOSED, OPEN, TAKEDOWN};
use rd_store::Store;
use sqlite::{Alter, Connection, Error, Options};
use std::alloc::Global;

/// The number from which the bases make the salts of their logs.
const SALT: u64 = 1;

/// A database from which runs start.
#[derive(Clone, Copy)]
pub(crate) enum Base {
    /// Two empty files.
    Empty,
    /// Files whose tables were dropped. The drops are in the log.
    Bare,
    /// A desk with two keys, two deeds and two rules. The last rule is in the log.
    Desk,
    /// The same files, and behind the log a piece of a page that was not written whole.
    Torn,
    /// The desk with an image. The last rule is in the log.
    Image,
    /// The same rows. The image is in the log.
    Logged,
    /// The same with a check of the image on the day of the requests. The check is in the log.
    Checked,
    /// The desk with an image, a takedown of it, and another key of the staff. The key is in the log.
    Takedown,
    /// The desk with an image, and each page with a sum. The last rule is in the log.
    Summed,
    /// The desk with three images and a third deed, in the tables of version 1. The deed is in the
    /// log.
    First,
}

/// How the files of a base are made.
#[derive(Clone, Copy)]
struct Plan {
    /// Whether each page of the database ends in a sum.
    has_sums: bool,
    /// The commands for a new desk, and then statements. What they change is in the database.
    commands: &'static [Command],
    statements: &'static [&'static str],
    /// The last change, which is in the log.
    last: Last,
    /// Whether a piece of a page that was not written whole stands behind the log.
    is_torn: bool,
}

/// The last change of a base.
#[derive(Clone, Copy)]
enum Last {
    Commands(&'static [Command]),
    Statements(&'static [&'static str]),
}

const ROOM_KEY: Command = Command::PutKey("hello", Audience::Room);

const CURATOR: Command = Command::PutDeed {
    num: 7,
    donor: "A. Curator",
    signed: 18_020,
};

const DONOR: Command = Command::PutDeed {
    num: 8,
    donor: "B. Donor",
    signed: 18_321,
};

const CLOSED_RULE: Command = Command::PutRule(CLOSED);

const OPEN_RULE: Command = Command::PutRule(OPEN);

const PROGRAM: Command = Command::PutImage(12, Sample::Program);

const WITH_RULES: &[Command] = &[ROOM_KEY, CURATOR, DONOR, CLOSED_RULE, OPEN_RULE];

const WITH_IMAGE: &[Command] = &[ROOM_KEY, CURATOR, DONOR, CLOSED_RULE, OPEN_RULE, PROGRAM];

const DESK: Plan = Plan {
    has_sums: false,
    commands: &[ROOM_KEY, CURATOR, DONOR, CLOSED_RULE],
    statements: &[],
    last: Last::Commands(&[OPEN_RULE]),
    is_torn: false,
};

/// Its last change drops all tables.
const BARE: Plan = Plan {
    commands: WITH_RULES,
    last: Last::Statements(&[
        "DROP TABLE marks",
        "DROP TABLE found",
        "DROP TABLE checked",
        "DROP TABLE badge",
        "DROP TABLE rule",
        "DROP TABLE image",
        "DROP TABLE deed",
        "DROP TABLE desk",
    ]),
    ..DESK
};

const TORN: Plan = Plan {
    is_torn: true,
    ..DESK
};

const IMAGE: Plan = Plan {
    commands: &[ROOM_KEY, CURATOR, DONOR, CLOSED_RULE, PROGRAM],
    ..DESK
};

const LOGGED: Plan = Plan {
    commands: WITH_RULES,
    last: Last::Commands(&[PROGRAM]),
    ..DESK
};

const CHECKED: Plan = Plan {
    commands: WITH_IMAGE,
    last: Last::Commands(&[Command::Check(12)]),
    ..DESK
};

const TAKEN_DOWN: Plan = Plan {
    commands: &[
        ROOM_KEY,
        CURATOR,
        DONOR,
        CLOSED_RULE,
        OPEN_RULE,
        PROGRAM,
        Command::PutRule(TAKEDOWN),
    ],
    last: Last::Commands(&[Command::PutKey("other", Audience::Staff)]),
    ..DESK
};

const SUMMED: Plan = Plan {
    has_sums: true,
    ..IMAGE
};

/// Its statements make the tables those of version 1, and its last change puts a third deed.
const FIRST: Plan = Plan {
    commands: &[
        ROOM_KEY,
        CURATOR,
        DONOR,
        CLOSED_RULE,
        OPEN_RULE,
        PROGRAM,
        Command::PutImage(13, Sample::Looped),
        Command::PutImage(15, Sample::Record),
    ],
    statements: &["DROP TABLE marks", "UPDATE desk SET version = 1"],
    last: Last::Statements(&[
        "INSERT INTO deed (num, donor, signed) VALUES (9, 'C. Donor', 18628)",
    ]),
    ..DESK
};

/// How the files of a base are made; `None` for two empty ones.
fn plan_of(base: Base) -> Option<Plan> {
    match base {
        Base::Empty => None,
        Base::Bare => Some(BARE),
        Base::Desk => Some(DESK),
        Base::Torn => Some(TORN),
        Base::Image => Some(IMAGE),
        Base::Logged => Some(LOGGED),
        Base::Checked => Some(CHECKED),
        Base::Takedown => Some(TAKEN_DOWN),
        Base::Summed => Some(SUMMED),
        Base::First => Some(FIRST),
    }
}

/// Connects to the database in two files. Where they are new, its pages get sums if that is asked for.
fn connection(
    alloc: Global,
    pair: &Pair,
    how: Options,
    new_has_sums: bool,
) -> Result<Connection<FilesStore>> {
    let files = pair.files(alloc, Sort::AnyBytes, None)?;
    match connect(alloc, files, how, new_has_sums) {
        Ok(conn) => Ok(conn),
        Err((error, _)) => bail!("no database: {error}"),
    }
}

/// A new store with one staff key, in new files.
fn new_store(alloc: Global, has_sums: bool) -> Result<Store<FilesStore>> {
    let how = options(SALT, USUAL_FRAMES);
    let conn = connection(alloc, &Pair::empty(alloc), how, has_sums)?;
    match made(conn) {
        Ok(store) => Ok(store),
        Err(fault) => bail!("no desk: {}", words_of_create(fault)),
    }
}

/// The store in two files.
fn store_in(alloc: Global, pair: &Pair, how: Options) -> Result<Store<FilesStore>> {
    let conn = connection(alloc, pair, how, false)?;
    match migrate(alloc, conn) {
        Ok(store) => Ok(store),
        Err((fault, _)) => bail!("no desk: {}", words_of_open(fault)),
    }
}

/// The store in two files at which nothing stops, to read it.
pub(crate) fn standing_store(alloc: Global, pair: &Pair) -> Result<Store<FilesStore>> {
    store_in(alloc, pair, pair.options(SALT))
}

/// The files of a connection, with all pages in the database.
fn copied(conn: Connection<FilesStore>) -> Result<Pair> {
    let pair = Pair::kept(&close(conn))?;
    ensure!(!pair.has_logged(), "pages are left in the log");
    Ok(pair)
}

/// The files of a connection, with its pages in the log.
fn kept_in_log(conn: Connection<FilesStore>) -> Result<Pair> {
    let pair = Pair::kept(&into_files(conn))?;
    ensure!(pair.has_logged(), "no pages are in the log");
    Ok(pair)
}

/// The connection of a store after commands of the staff.
fn after_commands<S: Alter + Drop>(
    alloc: Global,
    store: Store<S>,
    commands: &[Command],
) -> Result<Connection<S>> {
    let mut desk = desk_of(store)?;
    give_all(alloc, &mut desk, commands)?;
    Ok(into_connection(into_store(desk)))
}

fn execute<S: Alter>(conn: &mut Connection<S>, sql: &str) -> Result<usize, Error> {
    conn.execute(sql, &[])
}

/// A connection to the database in two files after statements.
fn after_statements(
    alloc: Global,
    pair: &Pair,
    statements: &[&str],
) -> Result<Connection<FilesStore>> {
    let mut conn = connection(alloc, pair, options(SALT, USUAL_FRAMES), false)?;
    for sql in statements {
        execute(&mut conn, *sql)?;
    }
    Ok(conn)
}

/// The files of a base before its last change, with all pages in the database.
fn begun(alloc: Global, plan: Plan) -> Result<Pair> {
    let store = new_store(alloc, plan.has_sums)?;
    let pair = copied(after_commands(alloc, store, plan.commands)?)?;
    ensure!(
        pair.has_sums() == plan.has_sums,
        "the pages have sums, or none, as they must not"
    );
    if plan.statements.is_empty() {
        return Ok(pair);
    }
    copied(after_statements(alloc, &pair, plan.statements)?)
}

/// The files of a base after its last change, which is in the log.
fn ended(alloc: Global, pair: &Pair, last: Last) -> Result<Pair> {
    kept_in_log(match last {
        Last::Statements(statements) => after_statements(alloc, pair, statements)?,
        Last::Commands(commands) => {
            let store = store_in(alloc, pair, options(SALT, USUAL_FRAMES))?;
            after_commands(alloc, store, commands)?
        }
    })
}

pub(crate) fn files_of(alloc: Global, base: Base) -> Result<Pair> {
    let Some(plan) = plan_of(base) else {
        return Ok(Pair::empty(alloc));
    };
    let pair = ended(alloc, &begun(alloc, plan)?, plan.last)?;
    if plan.is_torn {
        return Ok(pair.torn()?);
    }
    Ok(pair)
}
