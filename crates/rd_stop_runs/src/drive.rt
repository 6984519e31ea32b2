//! A file in memory that notes its changes since its last sync, and counts its calls and syncs.

ghost use Rattle.std.specs.Prelude.{◌≡◌, length, true, false, refl, is_ok, OnOk};
ghost use Rattle.sqlite_disk.specs.Disk.{CountsFault, Cut, Holds, Torn, Mixed};
ghost use Rattle.sqlite_disk.specs.Refusal.{finds_no_room};

use crate::bytes::{resize, write_over};
use crate::steps::{Step, apply_all, keep_part, note_length, note_write};
use rand_pcg::Pcg32;
use sqlite_disk::{Disk, Tally, digest_of};
use std::alloc::{AllocError, Global};
use std::io;
use std::io::ErrorKind;

/// What a crash does to a file.
#[derive(Clone, Copy, PartialEq, Eq)]
pub(crate) enum Sort {
    /// It may leave any bytes where it interrupts a write, so a commit has to sync twice.
    AnyBytes,
    /// It leaves each byte that was there at the last sync old or new, so a commit may sync once.
    OldOrNew,
    /// As `AnyBytes`. But the file forgets its syncs: a crash may lose what it has synced.
    Forgetful,
}

impl Sort {
    /// What the output says of it.
    pub(crate) fn words(self) -> &'static str {
        match self {
            Sort::AnyBytes => "a crash leaves any bytes",
            Sort::OldOrNew => "a crash leaves old or new bytes",
            Sort::Forgetful => "syncs are forgotten",
        }
    }
}

/// A file in memory.
///
/// Its contract says that a crash leaves it as it is. What else a crash leaves, `lost` and `part`
/// give, of which no contract speaks.
#[derive(Drop)]
pub(crate) struct Drive {
    bytes: Vec<u8>,
    /// What it held at its last sync.
    synced: Vec<u8>,
    /// Its changes since then.
    steps: Vec<Step>,
    is_bytewise: bool,
    is_forgetful: bool,
    /// Whether no sync has failed.
    is_usable: bool,
    /// How many calls failed.
    faults: u64,
    /// How many calls found bytes that have another digest.
    caught: u64,
    /// How many calls came.
    pub(crate) calls: u64,
    /// How many of them were syncs.
    pub(crate) syncs: u64,
}

impl Drive {
    /// A file that holds these bytes and has synced them.
    pub(crate) fn new(alloc: Global, bytes: &[u8], sort: Sort) -> Result<Drive, AllocError> {
        Ok(Drive {
            bytes: Vec::from_slice(alloc, bytes)?,
            synced: Vec::from_slice(alloc, bytes)?,
            steps: Vec::new(alloc),
            is_bytewise: sort == Sort::OldOrNew,
            is_forgetful: sort == Sort::Forgetful,
            is_usable: true,
            faults: 0,
            caught: 0,
            calls: 0,
            syncs: 0,
        })
    }

    /// How many bytes it holds.
    pub(crate) fn size(&self) -> usize {
        self.bytes.len()
    }

    /// Whether it has not changed since its last sync.
    pub(crate) fn is_settled(&self) -> bool {
        self.steps.is_empty()
    }

    /// What a crash leaves that loses nothing.
    pub(crate) fn kept(&self) -> Result<Vec<u8>, AllocError> {
        Vec::from_slice(*self.bytes.allocator(), self.bytes.as_slice())
    }

    /// What a crash leaves that loses all changes since the last sync.
    pub(crate) fn lost(&self) -> Result<Vec<u8>, AllocError> {
        Vec::from_slice(*self.synced.allocator(), self.synced.as_slice())
    }

    /// What a crash leaves that keeps a part of them. Draws say which.
    pub(crate) fn part(&self, draws: &mut Pcg32) -> Result<Vec<u8>, AllocError> {
        let any_from = if self.is_bytewise {
            self.synced.len()
        } else {
            0
        };
        let mut file = self.lost()?;
        keep_part(&mut file, self.steps.as_slice(), any_from, draws)?;
        Ok(file)
    }
}

/// Counts a call that fails.
fn count(outcome: Result<(), AllocError>, faults: &mut u64) -> io::Result<()>
    ensures variant { is_ok result ≡ is_ok outcome }
    ensures kind { finds_no_room result ≡ false }
    ensures faults { CountsFault result faults.old faults.new }
{
    if outcome.is_err() {
        *faults = faults.saturating_add(1);
        return Err(io::Error::from(ErrorKind::OutOfMemory));
    }
    Ok(())
}

/// Notes a write, and makes it.
fn write(
    file: &mut Vec<u8>,
    steps: &mut Vec<Step>,
    at: usize,
    bytes: &[u8],
) -> Result<(), AllocError>
    ensures written { OnOk result (Holds file.new.items at bytes.now) }
    ensures others { Torn at (length bytes.now) file.old.items file.new.items }
    ensures mixed { Mixed at bytes.now file.old.items file.new.items }
{
    note_write(*file.allocator(), steps, at, bytes)?;
    write_over(file, at, bytes)
}

/// Notes a change of the length, and makes it.
fn set_length(file: &mut Vec<u8>, steps: &mut Vec<Step>, len: usize) -> Result<(), AllocError>
    ensures len { OnOk result (length file.new.items ≡ len) }
    ensures others { Cut len file.old.items file.new.items }
{
    note_length(steps, len)?;
    resize(file, len)
}

/// Makes the changes of a file in what it has synced, unless it forgets them.
fn settle(
    is_forgetful: bool,
    synced: &mut Vec<u8>,
    steps: &mut Vec<Step>,
) -> Result<(), AllocError> {
    if is_forgetful {
        return Ok(());
    }
    apply_all(synced, steps.as_slice())?;
    steps.clear();
    Ok(())
}

impl Disk for Drive {
    ghost seen = { λ f. f.bytes.items };

    ghost may_leave = { λ f c. c ≡ f.bytes.items };

    ghost is_usable = { λ f. f.is_usable };

    ghost faults = { λ f. f.faults };

    ghost is_clean = { λ _. true };

    ghost tally_of = { λ f. record { caught = f.caught; refused = 0 } };

    ghost key_of = { λ _. 0 };

    ghost is_fair = { λ _ _. true };

    ghost is_mixing = { λ f. f.is_bytewise };

    ghost fair_if_clean = { λ _ _ _. refl };

    ghost seen_may_stay = { λ _. refl };

    fn mixes(&self) -> bool {
        self.is_bytewise
    }

    fn key(&self) -> u64 {
        0
    }

    fn tally(&self) -> Tally {
        Tally {
            caught: self.caught,
            refused: 0,
        }
    }

    fn may_be_used(&self) -> bool {
        self.is_usable
    }

    fn len(&mut self) -> io::Result<usize> {
        self.calls = self.calls.saturating_add(1);
        Ok(self.bytes.len())
    }

    fn read_at(&mut self, at: usize, buf: &mut [u8]) -> io::Result<()> {
        self.calls = self.calls.saturating_add(1);
        if at > self.bytes.len() || buf.len() > self.bytes.len() - at {
            return Err(ErrorKind::UnexpectedEof.into());
        }
        buf.copy_from_slice(&self.bytes[at..at + buf.len()]);
        Ok(())
    }

    fn read_checked(&mut self, key: u64, want: u64, at: usize, buf: &mut [u8]) -> io::Result<()> {
        self.read_at(at, buf)?;
        if digest_of(key, buf) != want {
            self.faults = self.faults.saturating_add(1);
            self.caught = self.caught.saturating_add(1);
            return Err(ErrorKind::InvalidData.into());
        }
        Ok(())
    }

    fn write_at(&mut self, at: usize, bytes: &[u8]) -> io::Result<()> {
        self.calls = self.calls.saturating_add(1);
        let done = write(&mut self.bytes, &mut self.steps, at, bytes);
        count(done, &mut self.faults)
    }

    fn set_len(&mut self, len: usize) -> io::Result<()> {
        self.calls = self.calls.saturating_add(1);
        let done = set_length(&mut self.bytes, &mut self.steps, len);
        count(done, &mut self.faults)
    }

    fn sync(&mut self) -> io::Result<()> {
        self.calls = self.calls.saturating_add(1);
        self.syncs = self.syncs.saturating_add(1);
        self.is_usable = false;
        let done = settle(self.is_forgetful, &mut self.synced, &mut self.steps);
        count(done, &mut self.faults)?;
        self.is_usable = true;
        Ok(())
    }
}
