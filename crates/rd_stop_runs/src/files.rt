//! The two files of a database.

use crate::drive::{Drive, Sort};
use rand_pcg::Pcg32;
use sqlite::{Connection, Error, ErrorCode, FileStore, Files, Options};
use sqlite_disk::Fuse;
use std::alloc::{AllocError, Global};

/// The two files of a database. Each stops after so many calls.
pub(crate) type Drives = Files<Fuse<Drive>>;

/// A store over two such files.
pub(crate) type FilesStore = FileStore<Fuse<Drive>>;

/// One of the two files.
#[derive(Clone, Copy, PartialEq, Eq)]
pub(crate) enum File {
    Database,
    Log,
}

impl File {
    /// Its name in the output.
    pub(crate) fn name(self) -> &'static str {
        match self {
            File::Database => "database file",
            File::Log => "log",
        }
    }

    /// How many of its calls went through.
    pub(crate) fn calls(self, files: &Drives) -> u64 {
        match self {
            File::Database => files.db.inner().calls,
            File::Log => files.log.inner().calls,
        }
    }
}

/// How often two files synced, together.
pub(crate) fn syncs_of(files: &Drives) -> u64 {
    let (db, log) = (files.db.inner().syncs, files.log.inner().syncs);
    db.saturating_add(log)
}

/// Whether neither of two files has changed since its last sync.
pub(crate) fn are_settled(files: &Drives) -> bool {
    files.db.inner().is_settled() && files.log.inner().is_settled()
}

/// Whether two files hold what they were made with: no change, and no sync of one.
pub(crate) fn are_untouched(files: &Drives) -> bool {
    syncs_of(files) == 0 && are_settled(files)
}

/// A stop: of which file, and how many of its calls go through before.
#[derive(Clone, Copy)]
pub(crate) struct Stop {
    pub(crate) file: File,
    pub(crate) calls: u64,
}

/// How many calls of a file go through under a stop.
fn calls_of(file: File, stop: Option<Stop>) -> u64 {
    match stop {
        Some(stop) if stop.file == file => stop.calls,
        _ => u64::MAX,
    }
}

/// How many bytes a page has, and a log at least in which there is one.
const PAGE_BYTES: usize = 4_096;

/// At which byte a database file says how many bytes its pages end in that hold no row, and how many those of a sum are.
const SUM_PLACE: usize = 20;

const SUM_BYTES: u8 = 8;

/// How many bytes stand behind the last page of a torn log: less than a page has.
const TORN_BYTES: usize = 3_000;

/// How many pages two files of so many bytes hold at most.
fn pages_in(log: usize, db: usize) -> usize {
    (log / PAGE_BYTES).saturating_add(db / PAGE_BYTES)
}

/// How many pages two files hold at most.
pub(crate) fn pages_of(files: &Drives) -> usize {
    pages_in(files.log.inner().size(), files.db.inner().size())
}

/// The bytes of a database's two files.
#[derive(Drop)]
pub(crate) struct Pair {
    log: Vec<u8>,
    db: Vec<u8>,
}

impl Pair {
    /// Two empty files.
    pub(crate) fn empty(alloc: Global) -> Pair {
        Pair {
            log: Vec::new(alloc),
            db: Vec::new(alloc),
        }
    }

    /// The same bytes.
    pub(crate) fn copy(&self) -> Result<Pair, AllocError> {
        Ok(Pair {
            log: Vec::from_slice(*self.log.allocator(), self.log.as_slice())?,
            db: Vec::from_slice(*self.db.allocator(), self.db.as_slice())?,
        })
    }

    /// The same bytes, and behind those of the log some of a page that was not written whole.
    pub(crate) fn torn(&self) -> Result<Pair, AllocError> {
        let mut pair = self.copy()?;
        let len = pair.log.len().saturating_add(TORN_BYTES);
        pair.log.resize(len, 0xa5)?;
        Ok(pair)
    }

    /// Whether both have the same bytes.
    pub(crate) fn is_same(&self, other: &Pair) -> bool {
        self.log.as_slice() == other.log.as_slice() && self.db.as_slice() == other.db.as_slice()
    }

    /// Whether pages are in the log.
    pub(crate) fn has_logged(&self) -> bool {
        self.log.len() >= PAGE_BYTES
    }

    /// Whether the pages of the database file end in sums.
    pub(crate) fn has_sums(&self) -> bool {
        match self.db.get(SUM_PLACE) {
            Some(byte) => *byte == SUM_BYTES,
            None => false,
        }
    }

    /// How many pages both hold at most.
    fn pages(&self) -> usize {
        pages_in(self.log.len(), self.db.len())
    }

    /// How a connection reads both without a change. Only their own pages have room in memory, since making room takes
    /// time.
    pub(crate) fn options(&self, salt: u64) -> Options {
        Options {
            cache_pages: self.pages(),
            ..options(salt, USUAL_FRAMES)
        }
    }

    /// Files in memory with these bytes, of a sort and under a stop.
    pub(crate) fn files(
        &self,
        alloc: Global,
        sort: Sort,
        stop: Option<Stop>,
    ) -> Result<Drives, AllocError> {
        let log = Drive::new(alloc, self.log.as_slice(), sort)?;
        let db = Drive::new(alloc, self.db.as_slice(), sort)?;
        Ok(Files {
            log: Fuse::new(log, calls_of(File::Log, stop)),
            db: Fuse::new(db, calls_of(File::Database, stop)),
        })
    }

    /// What a crash leaves that loses nothing.
    pub(crate) fn kept(files: &Drives) -> Result<Pair, AllocError> {
        Ok(Pair {
            log: files.log.inner().kept()?,
            db: files.db.inner().kept()?,
        })
    }

    /// What a crash leaves that loses all changes since the last syncs.
    pub(crate) fn lost(files: &Drives) -> Result<Pair, AllocError> {
        Ok(Pair {
            log: files.log.inner().lost()?,
            db: files.db.inner().lost()?,
        })
    }

    /// What a crash leaves that keeps a part of them. Draws say which.
    pub(crate) fn part(files: &Drives, draws: &mut Pcg32) -> Result<Pair, AllocError> {
        Ok(Pair {
            log: files.log.inner().part(draws)?,
            db: files.db.inner().part(draws)?,
        })
    }
}

/// How many pages have room in memory where no more is said: all of a base.
const CACHE_PAGES: usize = 512;

/// How many pages the log holds, where no more is said, when a commit copies it into the database.
pub(crate) const USUAL_FRAMES: usize = 1_000;

/// How a connection reads and writes: from which number it makes the salts of its log, and how many
/// pages the log holds when a commit copies it into the database before it writes.
pub(crate) fn options(salt: u64, frames: usize) -> Options {
    Options {
        cache_pages: CACHE_PAGES,
        checkpoint_frames: frames,
        ..Options::new(salt)
    }
}

/// Connects to the database in two files. Where they are new, its pages get sums if that is asked for.
///
/// It fails with the error and the files.
pub(crate) fn connect(
    alloc: Global,
    files: Drives,
    options: Options,
    new_has_sums: bool,
) -> Result<Connection<FilesStore>, (Error, Drives)> {
    if !files.may_be_used() {
        return Err((Error::SqliteFailure(ErrorCode::SystemIoFailure), files));
    }
    match Connection::open_files_with(alloc, files, options, new_has_sums) {
        Ok(conn) => Ok(conn),
        Err((error, left)) => Err((error, left.into_files())),
    }
}

/// The files of a connection, with the log as it is. What is not committed is left out.
pub(crate) fn into_files(conn: Connection<FilesStore>) -> Drives {
    conn.into_store().close()
}

/// The files of a connection that is closed: as far as they do not stop, the log is copied into the
/// database.
pub(crate) fn close(conn: Connection<FilesStore>) -> Drives {
    match conn.close_files() {
        Ok(files) => files,
        Err((_, store)) => store.close(),
    }
}
