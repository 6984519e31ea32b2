ghost use Rattle.std.specs.Io.KnownBytes.{Keeps};
ghost use Rattle.std.specs.Prelude.{◌≡◌, IfOk, IsTrue, None, OnOk, false, refl, true};
ghost use Rattle.rd_messages.specs.Streams.{limits_of};
ghost use Rattle.rd_program.specs.World.{nothing_shown};

use crate::places::{HostListener, at_port, at_socket};
use rd_http::{Clock, Door, StreamDoor, TimeLimits};
use rd_program::{
    Files, Line, Machine, MachineFault, Place, Refusal, Remembered, RowNote, Said, SystemFault,
    Why, WriteFault, connect_fault, exit_code, explain, read_front, read_some, run,
};
use rd_tables::is_blank;
use rd_volume::Kind;
use sqlite::{Connection, FileFrom, FileStore, Options, Wary};
use sqlite_std_file::OpenError;
use std::alloc::{AllocError, Global};
use std::fs::{File, OpenOptions};
use std::hash::{BuildHasher, RandomState};
use std::io::{BufWriter, ErrorKind, Read, Write};
use std::os::unix::fs::OpenOptionsExt;
use std::process::ExitCode;
use std::time::{Instant, SystemTime, UNIX_EPOCH};
use std::{env, fs, io};

/// The most bytes that a sheet may have: 64 MiB.
const SHEET_LIMIT: u64 = 67_108_864;

/// How many bytes of an image are read at a time.
const PART: usize = 4_096;

/// How many frames the log of a store has at least when the next command that writes first copies them into the store's
/// file. With 1 the log alone has no more than the last command, once a command has been given.
const COPIED_FRAMES: usize = 1;

/// Which byte of a database says how many bytes at the end of each page are kept free.
const KEPT_FREE_AT: usize = 20;

/// How many bytes of a page its sum takes.
const SUM_LENGTH: u8 = 8;

/// What keeps the bytes of a store: a file of the machine and its log. It is wary: where a crash interrupts a write of a
/// page, it trusts no byte of that page.
pub type HostDisk = FileStore<FileFrom<Wary>>;

/// Whether SQLite takes the path for something other than a file, as it does `:memory:` and what begins with `file:`.
fn is_no_file(path: &str) -> bool {
    path == ":memory:" || path.starts_with("file:")
}

/// The fault of the machine where the file of a store is not opened. It keeps what is said of its path: that another program
/// uses it, that it is no ordinary file of one name, or what else the system said.
fn not_opened(error: OpenError, path: &str, remembered: &Remembered) -> MachineFault {
    match error {
        OpenError::OutOfMemory => MachineFault::NoMemory,
        OpenError::Io(error) => {
            let said = match error.kind() {
                ErrorKind::Unsupported => Said::Unfit,
                kind => Said::of(kind),
            };
            remembered.keep(path, said);
            MachineFault::from(error)
        }
        OpenError::Busy => {
            remembered.keep(path, Said::Taken);
            MachineFault::Failed
        }
        OpenError::HotJournal => MachineFault::Failed,
    }
}

/// Opens the store in the file at a path, or makes it, with a sum at the end of each page or without.
///
/// It fails with `NoMemory`, and with `Failed` when it cannot open the file, when the file holds no sound database, and
/// when the path is no file's.
fn open_store(
    rt: &HostRuntime,
    path: &str,
    new_has_sums: bool,
    remembered: &Remembered,
) -> Result<Connection<HostDisk>, MachineFault>
    ensures outside { IfOk result (λ conn. conn.in_transaction ≡ false) }
{
    if is_no_file(path) {
        return Err(MachineFault::Failed);
    }
    let files = match sqlite_std_file::open(rt, path, Wary) {
        Ok(files) => files,
        Err(error) => return Err(not_opened(error, path, remembered)),
    };
    let options = Options {
        checkpoint_frames: COPIED_FRAMES,
        ..Options::new(RandomState::new(rt)?.hash_one(&0u8))
    };
    match Connection::open_files_with(rt.alloc(), files, options, new_has_sums) {
        Ok(conn) => Ok(conn),
        Err((error, _)) => Err(connect_fault(error)),
    }
}

/// Whether the file at a path begins as a database whose pages do not end in sums, as its byte 20 says. It looks at no more
/// than that byte and those before it, and only in an ordinary file; one with fewer bytes is no database yet, nor is one
/// whose first byte is 0, which a crash leaves while a database is made.
///
/// It fails when it cannot read the file.
fn is_without_sums(rt: &HostRuntime, path: &str) -> Result<bool, MachineFault> {
    let Ok(found) = fs::metadata(rt, path) else {
        return Ok(false);
    };
    if !found.is_file() {
        return Ok(false);
    }
    let mut file = fs::open(rt, path)?;
    let head = read_front(rt.alloc(), KEPT_FREE_AT + 1, &mut file)?;
    Ok(head.len() > KEPT_FREE_AT && head[0] != 0 && head[KEPT_FREE_AT] != SUM_LENGTH)
}

/// Makes an empty file that its owner alone may open. It answers false where something is at the path already, to which it
/// does nothing.
///
/// It fails when the file cannot be made.
fn make_file(rt: &HostRuntime, path: &str) -> io::Result<bool> {
    let made = OpenOptions::new()
        .write(true)
        .create_new(true)
        .mode(0o600)
        .open(rt, path);
    match made {
        Ok(_file) => Ok(true),
        Err(error) if error.kind() == ErrorKind::AlreadyExists => Ok(false),
        Err(error) => Err(error),
    }
}

/// The clock of the machine.
#[derive(Clone, Copy)]
pub struct HostClock {
    rt: HostRuntime,
    /// When the clock was made.
    start: Instant,
}

impl Clock for HostClock {
    fn now(&mut self) -> Option<i64> {
        seconds_now(&self.rt)
    }

    fn milliseconds(&mut self) -> Option<u64> {
        u64::try_from(self.start.elapsed(&self.rt).ok()?.as_millis()).ok()
    }
}

/// What opens doors at places of the machine itself.
pub trait Places<D: Door> {
    /// A door at a place, for visitors who may take so long. It fails when the place cannot be opened.
    fn open(&self, place: Place, limits: TimeLimits) -> io::Result<D>;
}

/// The places of the machine that the program runs on.
#[derive(Drop)]
pub struct HostPlaces<'a> {
    rt: &'a HostRuntime,
}

/// A door of that machine.
pub type HostDoor = StreamDoor<HostListener, HostClock>;

impl Places<HostDoor> for HostPlaces<'_> {
    /// It also fails when the clock fails.
    fn open(&self, place: Place, limits: TimeLimits) -> io::Result<HostDoor>
        ensures { IfOk result (λ door. limits_of door ≡ limits) }
    {
        let listener = match place {
            Place::Port(port) => at_port(self.rt, port)?,
            Place::Socket(path) => at_socket(self.rt, path)?,
        };
        let clock = HostClock {
            rt: *self.rt,
            start: Instant::now(self.rt)?,
        };
        Ok(StreamDoor::with_limits(self.rt.alloc(), listener, clock, limits))
    }
}

/// The bytes with which the file of each database begins that is not empty.
const DATABASE_HEAD: &[u8] = b"SQLite format 3\0";

/// The machine that the program runs on.
#[derive(Drop)]
pub struct Host<'a, D: Door + Drop, P: Places<D> + Drop> {
    rt: &'a HostRuntime,
    places: P,
    /// What it remembers for an explanation.
    remembered: Remembered,
    /// The doors that it has lent, the last one at the end.
    doors: Vec<D>,
}

impl<'a> Host<'a, HostDoor, HostPlaces<'a>> {
    /// The machine of the process.
    pub fn new(rt: &'a HostRuntime) -> Host<'a, HostDoor, HostPlaces<'a>> {
        Host {
            rt,
            places: HostPlaces { rt },
            remembered: Remembered::new(rt.alloc()),
            doors: Vec::new(rt.alloc()),
        }
    }
}

/// The seconds since 1970-01-01T00:00:00 UTC; `None` if the clock fails or shows a time before
/// that.
fn seconds_now(rt: &HostRuntime) -> Option<i64> {
    let now = SystemTime::now(rt).ok()?;
    i64::try_from(now.duration_since(UNIX_EPOCH).ok()?.as_secs()).ok()
}

/// The front of a file: at most one byte more than the largest image has, so that a huge file or a device that never
/// ends does no harm. It comes through an array, since `read_to_end` would fill the room of all bytes with zeros first.
fn front_of_file(rt: &HostRuntime, alloc: Global, path: &str) -> io::Result<Vec<u8>> {
    let mut file = fs::open(rt, path)?;
    let limit = Kind::largest_size() + 1;
    let mut bytes = Vec::with_capacity(alloc, limit)?;
    let mut part = [0; PART];
    while bytes.len() < limit {
        let room = PART.min(limit - bytes.len());
        let count = read_some(&mut file, &mut part[..room])?;
        if count == 0 {
            return Ok(bytes);
        }
        bytes.extend_from_slice(&part[..count])?;
    }
    Ok(bytes)
}

/// All bytes of a sheet. It reads at most one byte more than a sheet may have.
fn whole_sheet(rt: &HostRuntime, alloc: Global, path: &str) -> io::Result<Vec<u8>> {
    let mut bytes = Vec::new(alloc);
    let count = fs::open(rt, path)?
        .take(SHEET_LIMIT + 1)
        .read_to_end(&mut bytes)?;
    if count as u64 > SHEET_LIMIT {
        return Err(io::Error::from(ErrorKind::FileTooLarge));
    }
    Ok(bytes)
}

/// Makes a file with these bytes where nothing is.
fn write_file(rt: &HostRuntime, path: &str, bytes: &[u8]) -> io::Result<()> {
    let mut file = File::create_new(rt, path)?;
    file.write_all(bytes)?;
    file.flush()
}

/// The path of a name in a folder. It fails when memory runs out.
fn path_in(alloc: Global, folder: &str, name: &str) -> Result<String, AllocError> {
    let mut path = String::from_str(alloc, folder)?;
    path.push_str("/")?;
    path.push_str(name)?;
    Ok(path)
}

/// The path of the folder that a path is in.
fn folder_of(path: &str) -> &str {
    match path.rfind('/') {
        Some(0) => "/",
        Some(end) => &path[..end],
        None => ".",
    }
}

/// Whether the log of a database stands beside a file. An empty one holds no page.
fn has_log(rt: &HostRuntime, path: &str) -> io::Result<bool> {
    let real = fs::canonicalize(rt, path)?;
    let log = format!(in rt.alloc(); "{}-wal", real.as_str())?;
    Ok(fs::symlink_metadata(rt, log.as_str()).is_ok_and(|found| found.len() > 0))
}

/// Whether a file is empty, begins as a database, or has a log beside it that is not empty: no other file is opened as a
/// database, since a log would be left there. Where such a log is, a crash may have left the first page in part, or none of
/// it as it was: `sqlite` tells that from another file. Of what is no file, such as a folder or a pipe, nothing is read:
/// `sqlite` says what it is.
fn may_be_database(rt: &HostRuntime, path: &str) -> io::Result<bool> {
    if !fs::metadata(rt, path)?.is_file() {
        return Ok(true);
    }
    let mut head = Vec::new(rt.alloc());
    fs::open(rt, path)?
        .take(DATABASE_HEAD.len() as u64)
        .read_to_end(&mut head)?;
    if head.is_empty() || head.as_slice() == DATABASE_HEAD {
        return Ok(true);
    }
    has_log(rt, path)
}

impl<D: Door + Drop, P: Places<D> + Drop> Host<'_, D, P> {
    /// Keeps what the system said of a path, and gives the fault of the machine.
    fn keep_fault(&self, path: &str, error: io::Error) -> MachineFault {
        self.remembered.keep(path, Said::of(error.kind()));
        MachineFault::from(error)
    }

    /// Keeps what the system said of a place for visits, and gives the fault of the machine.
    fn keep_place(&self, place: Place, error: io::Error) -> MachineFault {
        if let Ok(name) = place_name(self.rt.alloc(), place) {
            self.remembered.keep(name.as_str(), Said::of(error.kind()));
        }
        MachineFault::from(error)
    }
}

/// What an explanation calls a place for visits. It fails when memory runs out.
fn place_name(alloc: Global, place: Place) -> Result<String, AllocError> {
    match place {
        Place::Port(port) => {
            let mut name = String::new(alloc);
            write!(name, "port {port}")?;
            Ok(name)
        }
        Place::Socket(path) => String::from_str(alloc, path),
    }
}

impl<D: Door + Drop, P: Places<D> + Drop> Files for Host<'_, D, P> {
    ghost file_bytes = { λ _ _. None };

    ghost sheet_bytes = { λ _ _. None };

    fn flush<W: Write>(output: &mut W) -> Result<(), MachineFault>
        ensures bytes { Keeps (W.contents output.old) (W.contents output.new) }
        ensures flushed { OnOk result (IsTrue true) }
    {
        match output.flush() {
            Ok(()) => Ok(()),
            Err(_) => Err(MachineFault::Failed),
        }
    }

    /// Reads at most one byte more than the largest image has, so that a huge file or a device that
    /// never ends does no harm.
    fn read_file(&mut self, alloc: Global, path: &str) -> Result<Vec<u8>, MachineFault> {
        match front_of_file(self.rt, alloc, path) {
            Ok(bytes) => Ok(bytes),
            Err(error) => Err(self.keep_fault(path, error)),
        }
    }

    /// Reads at most one byte more than a sheet may have, so that a device that never ends does no harm here either.
    fn read_sheet(&mut self, alloc: Global, path: &str) -> Result<Vec<u8>, MachineFault> {
        match whole_sheet(self.rt, alloc, path) {
            Ok(bytes) => Ok(bytes),
            Err(error) => Err(self.keep_fault(path, error)),
        }
    }

    fn last_fault(&self) -> Option<SystemFault> {
        self.remembered.last_fault()
    }

    fn note_row(&self, row: u64, note: RowNote) {
        self.remembered.note_row(row, note);
    }

    fn noted_rows(&self, _alloc: Global) -> Vec<Line> {
        self.remembered.noted_rows()
    }
}

impl<'a, D: Door + Drop, P: Places<D> + Drop> Machine for Host<'a, D, P> {
    type Disk = HostDisk;

    type Door = D;

    ghost seen = { λ _. nothing_shown };

    /// It also fails where the path of the folder is empty, which is no folder's.
    fn write_new(
        &mut self,
        alloc: Global,
        folder: &str,
        name: &str,
        bytes: &[u8],
    ) -> Result<(), WriteFault> {
        if folder.is_empty() {
            self.remembered.keep("''", Said::Missing);
            return Err(WriteFault::Failed);
        }
        let Ok(path) = path_in(alloc, folder, name) else {
            return Err(WriteFault::NoMemory);
        };
        match write_file(self.rt, path.as_str(), bytes) {
            Ok(()) => Ok(()),
            Err(error) if error.kind() == ErrorKind::AlreadyExists => {
                self.remembered.keep(path.as_str(), Said::Standing);
                Err(WriteFault::Exists)
            }
            Err(error) => match self.keep_fault(path.as_str(), error) {
                MachineFault::NoMemory => Err(WriteFault::NoMemory),
                MachineFault::Failed => Err(WriteFault::Failed),
            },
        }
    }

    fn is_missing(&mut self, path: &str) -> bool {
        if path.is_empty() || is_no_file(path) {
            return false;
        }
        match fs::symlink_metadata(self.rt, path) {
            Ok(_) => false,
            Err(error) => {
                error.kind() == ErrorKind::NotFound
                    && fs::metadata(self.rt, folder_of(path)).is_ok_and(|found| found.is_dir())
            }
        }
    }

    fn is_ordinary(&self, path: &str) -> bool {
        fs::metadata(self.rt, path).is_ok_and(|found| found.is_file())
    }

    /// It opens no file that is there, is neither empty nor a database, and has no log beside it. One that goes away
    /// between this look and the opening is made anew, empty. It also fails where sums are asked for and a database
    /// without them is there, in which nothing stands: it would keep its kind.
    fn connect(
        &mut self,
        path: &str,
        makes: bool,
        new_has_sums: bool,
    ) -> Result<Connection<HostDisk>, MachineFault> {
        match may_be_database(self.rt, path) {
            Ok(true) => {}
            Ok(false) => {
                self.remembered.keep(path, Said::NoStore);
                return Err(MachineFault::Failed);
            }
            Err(error) if makes && error.kind() == ErrorKind::NotFound => {}
            Err(error) => return Err(self.keep_fault(path, error)),
        }
        let is_plain = new_has_sums && is_without_sums(self.rt, path)?;
        let conn = open_store(self.rt, path, new_has_sums, &self.remembered)?;
        if is_plain && is_blank(conn.schema()) {
            let _ = conn.close();
            return Err(MachineFault::Failed);
        }
        Ok(conn)
    }

    /// What was committed stands already, so a fault of closing loses nothing.
    fn release(&mut self, conn: &mut Option<Connection<HostDisk>>) {
        if let Some(conn) = conn.take() {
            let _ = conn.close();
        }
    }

    /// It makes the file before the database opens it, so that it never takes one that is there.
    fn connect_new(
        &mut self,
        path: &str,
        has_sums: bool,
    ) -> Result<Option<Connection<HostDisk>>, MachineFault> {
        if is_no_file(path) {
            return Err(MachineFault::Failed);
        }
        let is_made = match make_file(self.rt, path) {
            Ok(is_made) => is_made,
            Err(error) => return Err(self.keep_fault(path, error)),
        };
        if !is_made {
            self.remembered.keep(path, Said::Standing);
            return Ok(None);
        }
        match open_store(self.rt, path, has_sums, &self.remembered) {
            Ok(conn) => Ok(Some(conn)),
            Err(fault) => {
                let _ = fs::remove_file(self.rt, path);
                Err(fault)
            }
        }
    }

    fn release_new(&mut self, conn: &mut Option<Connection<HostDisk>>) {
        self.release(conn);
    }

    fn now(&mut self) -> Result<i64, MachineFault> {
        seconds_now(self.rt).ok_or(MachineFault::Failed)
    }

    fn listen(&mut self, place: Place, limits: TimeLimits) -> Result<&mut D, MachineFault> {
        let door = match self.places.open(place, limits) {
            Ok(door) => door,
            Err(error) => return Err(self.keep_place(place, error)),
        };
        let last = self.doors.len();
        if self.doors.push(door).is_err() {
            return Err(MachineFault::NoMemory);
        }
        Ok(&mut self.doors[last])
    }

    ghost gives = { λ _. (refl, refl) };
}

/// A writer, and what the system said when it last did not take what was written.
#[derive(Drop)]
struct RecordingWriter<W: Write + Drop> {
    inner: W,
    said: Option<Said>,
}

impl<W: Write + Drop> RecordingWriter<W> {
    /// Keeps what the system said of a call that failed. One that was interrupted is made again, and is no fault.
    fn note(&mut self, error: &io::Error) {
        if error.kind() != ErrorKind::Interrupted {
            self.said = Some(Said::of(error.kind()));
        }
    }
}

impl<W: Write + Drop> Write for RecordingWriter<W> {
    fn write(&mut self, buf: &[u8]) -> io::Result<usize> {
        let written = self.inner.write(buf);
        if let Err(error) = &written {
            self.note(error);
        }
        written
    }

    fn flush(&mut self) -> io::Result<()> {
        let flushed = self.inner.flush();
        if let Err(error) = &flushed {
            self.note(error);
        }
        flushed
    }
}

/// The words after the program's name.
///
/// It fails with `Usage` when a word is not text, with `NoMemory`, and with `Device` when the
/// system does not give the words.
fn words_of(rt: &HostRuntime) -> Result<Vec<String>, Refusal> {
    match env::args(rt) {
        Ok(words) => Ok(words.skip(1).collect(rt.alloc())?),
        Err(error) => Err(match error.kind() {
            ErrorKind::InvalidData => Refusal::Usage,
            ErrorKind::OutOfMemory => Refusal::NoMemory,
            _ => Refusal::Device,
        }),
    }
}

/// The words as slices. It fails when memory runs out.
fn slices_of(alloc: Global, words: &[String]) -> Result<Vec<&str>, AllocError> {
    words.iter().map(|word| word.as_str()).collect(alloc)
}

/// What remembers for an explanation what the system said of the output of the process.
trait Hears {
    /// Keeps what the system said when standard output last did not take what was written.
    fn keep_output(&self, said: Said);
}

impl<D: Door + Drop, P: Places<D> + Drop> Hears for Host<'_, D, P> {
    fn keep_output(&self, said: Said) {
        self.remembered.keep("standard output", said);
    }
}

// It takes a machine of any kind: where a type with several lifetimes, as `Host` has, is passed for a type parameter, the
// call's signature may not name `'static`, and a zone that words tell holds it.

/// Runs the program on these words and a machine, on the input and the outputs of the process, and gives its exit status.
///
/// It fails with `NoMemory`.
fn run_on<M: Machine + Hears>(
    rt: &HostRuntime,
    words: &[&str],
    machine: &mut M,
) -> Result<u8, Refusal> {
    let mut stdout = RecordingWriter {
        inner: rt.stdout(),
        said: None,
    };
    let Ok(mut output) = BufWriter::new(rt.alloc(), &mut stdout) else {
        return Err(Refusal::NoMemory);
    };
    let mut why = Why::UNKNOWN;
    let status = run(
        rt.alloc(),
        words,
        &mut rt.stdin(),
        &mut output,
        &mut rt.stderr(),
        machine,
        &mut why,
    );
    drop(output);
    if let Some(said) = stdout.said {
        machine.keep_output(said);
    }
    explain(rt.alloc(), &why, machine, &mut rt.stderr());
    Ok(status)
}

/// Runs the program on these words and a machine of the process with doors of any kind, as `run_on` does.
///
/// It fails with `NoMemory`.
fn run_with_doors<D: Door + Drop, P: Places<D> + Drop>(
    rt: &HostRuntime,
    words: &[&str],
    host: &mut Host<'_, D, P>,
) -> Result<u8, Refusal> {
    run_on(rt, words, host)
}

/// Runs the program on the process's words, input and outputs, and gives its exit status.
///
/// It fails as `words_of` does, and with `NoMemory`.
fn run_here(rt: &HostRuntime) -> Result<u8, Refusal> {
    let words = words_of(rt)?;
    let words = slices_of(rt.alloc(), words.as_slice())?;
    run_with_doors(rt, words.as_slice(), &mut Host::new(rt))
}

/// Runs the program in the process, writes why if it cannot run, and gives its exit status.
pub fn start(rt: &HostRuntime) -> ExitCode {
    exit_code(run_here(rt), &mut rt.stderr())
}
