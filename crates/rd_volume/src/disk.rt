ghost use Rattle.std.specs.Prelude.{◌≡◌, ◌*◌, ◌<◌, ◌≤◌, All, flat_map, length, take};
ghost use Rattle.rd_geometry.specs.Images.{bytes_of, kind_of};
ghost use Rattle.rd_volume.specs.Kinds.{room_of, unit_count_of};
ghost use Rattle.rd_volume.specs.Volumes.{body_of};

use crate::cbm::{body, copy_blocks};
use crate::cpm::copy_sectors;
use crate::kinds::room;
use rd_geometry::{CbmDisk, CpmDisk, Geometry, Image, Kind};

/// A disk of either kind.
#[derive(Debug, Drop)]
pub(crate) enum Disk<'a> {
    /// A CP/M disk.
    Cpm(CpmDisk<'a>),
    /// A 1541 disk, with error bytes in its image or without.
    Cbm(CbmDisk<'a>),
}

impl<'a> Disk<'a> {
    ghost use Rattle.rd_volume.specs.Disks.{disk_bytes, disk_kind};

    pub(crate) fn of(image: &Image<'a>) -> Disk<'a>
        ensures kind { disk_kind result ≡ kind_of image.now }
        ensures bytes { disk_bytes result ≡ bytes_of image.now }
    {
        match image.kind() {
            Kind::Cpm8 => Disk::Cpm(CpmDisk::of(image).unwrap()),
            Kind::D64 | Kind::D64e => Disk::Cbm(CbmDisk::of(image).unwrap()),
        }
    }

    /// The bytes of a unit that can hold bytes of a file, as a slice of the image.
    pub(crate) fn body(&self, n: u16) -> &'a [u8]
        requires { n < unit_count_of (disk_kind self.now) }
        ensures value { result.now ≡ body_of (disk_kind self.now) (disk_bytes self.now) n }
        ensures sized { length result.now ≡ room_of (disk_kind self.now) }
    {
        match self {
            Disk::Cpm(disk) => disk.unit(n),
            Disk::Cbm(disk) => body(disk, n),
        }
    }

    /// How many bytes of a file a unit holds at most.
    pub(crate) fn room(&self) -> usize
        ensures { result ≡ room_of (disk_kind self.now) }
    {
        match self {
            Disk::Cpm(_) => usize::from(room(Kind::Cpm8)),
            Disk::Cbm(disk) => usize::from(room(disk.kind())),
        }
    }

    /// Copies what units hold of a file to the front of a slice, one after the other: of as many units as have room
    /// there. It gives how many these are.
    pub(crate) fn copy_bodies(&self, units: &[u16], into: &mut [u8]) -> usize
        requires { All (λ unit. unit < unit_count_of (disk_kind self.now)) units.now }
        ensures count { result ≤ length units.now }
        ensures within { room_of (disk_kind self.now) * result ≤ length into.new }
        ensures copied { take (room_of (disk_kind self.now) * result) into.new
            ≡ flat_map (body_of (disk_kind self.now) (disk_bytes self.now)) (take result units.now) }
    {
        match self {
            Disk::Cpm(disk) => copy_sectors(disk, units, into),
            Disk::Cbm(disk) => copy_blocks(disk, units, into),
        }
    }
}
