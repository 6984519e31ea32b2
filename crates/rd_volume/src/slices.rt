ghost use Rattle.std.specs.Prelude.{◌≡◌, ◌<◌, ◌≤◌, All, length, take};
ghost use Rattle.rd_volume.specs.Disks.{disk_bytes, disk_kind};
ghost use Rattle.rd_volume.specs.Kinds.{room_of, unit_count_of};

use crate::disk::Disk;

/// The pieces of a sound file, in order: for each of its units a slice of the image.
#[derive(Debug, Drop)]
pub struct Pieces<'a> {
    disk: Disk<'a>,
    units: &'a [u16],
    last_len: u16,
    ghost inside: { All (λ unit. unit < unit_count_of (disk_kind disk)) units.now },
    ghost last: { last_len ≤ room_of (disk_kind disk) },
}

impl<'a> Pieces<'a> {
    ghost use Rattle.rd_volume.specs.Fronts.{AreOfFront};
    ghost use Rattle.rd_volume.specs.PiecesLeft.{pieces_left};
    ghost use Rattle.rd_volume.specs.Volumes.{pieces_of};

    /// The pieces of a file with these units; the last unit holds `last_len` of its bytes.
    pub(crate) fn of(disk: Disk<'a>, units: &'a [u16], last_len: u16) -> Pieces<'a>
        requires inside { All (λ unit. unit < unit_count_of (disk_kind disk)) units.now }
        requires last { last_len ≤ room_of (disk_kind disk) }
        ensures { pieces_left result
            ≡ pieces_of (disk_kind disk.entry) (disk_bytes disk.entry) units.entry.now last_len }
    {
        Pieces {
            disk,
            units,
            last_len,
        }
    }

    /// Copies pieces to the front of a slice, one after the other: as many as have room there, but never the last. It
    /// gives how many bytes they have. They do not come again.
    pub fn copy_front(&mut self, into: &mut [u8]) -> usize
        ensures within { result ≤ length into.new }
        ensures copied { AreOfFront (pieces_left self.old) (pieces_left self.new) (take result into.new) }
    {
        let before_last = self.units.len().saturating_sub(1);
        let count = self.disk.copy_bodies(&self.units[..before_last], into);
        self.units = &self.units[count..];
        self.disk.room() * count
    }
}

impl<'a> Iterator for Pieces<'a> {
    ghost use Rattle.std.specs.Iterator.{YieldsFirstBy, item_count};
    ghost use Rattle.rd_volume.specs.PiecesLeft.{pieces_left};

    type Item = &'a [u8];

    ghost next_gives = { YieldsFirstBy (λ piece. piece.now) pieces_left };

    ghost remaining = { item_count pieces_left };

    fn next(&mut self) -> Option<&'a [u8]> {
        let (unit, rest) = self.units.split_first()?;
        let body = self.disk.body(*unit);
        self.units = rest;
        if rest.is_empty() {
            return Some(&body[..self.last_len as usize]);
        }
        Some(body)
    }
}
