ghost use Rattle.std.specs.Prelude.{◌≡◌, ◌<◌, ℕ, List, [], AllPairs, IfOk, Some, length, slice_index_or};
ghost use Rattle.rd_geometry.specs.declared.kind.Kind.{Kind};
ghost use Rattle.rd_geometry.specs.declared.kind.Kind.TheVariants.{Cpm8};
ghost use Rattle.rd_volume.specs.Founds.{Fits, IsSoundFile};
ghost use Rattle.rd_volume.specs.Needed.{AgreesOnNeeded, TellTheSame};
ghost use Rattle.rd_volume.specs.Reports.{IsReport};
ghost use Rattle.rd_volume.specs.Volumes.{AreFounds, IsFound, contents_of, pieces_of};
ghost use Rattle.rd_volume.specs.declared.found.Found.{Found};

use crate::found::Found;
use crate::reports::Report;
use crate::{cbm, cpm};
use rd_geometry::{CbmDisk, CpmDisk, Geometry, Items, NoMemory};
use std::alloc::Global;

/// A disk with files, of either kind.
pub trait Volume<'a>: Geometry<'a> {
    /// The kind of the disk.
    ghost volume_kind: { Self → Kind };

    /// The files of the disk, by ascending slot. It fails only when memory runs out.
    fn survey(&self, alloc: Global) -> Result<Items<Found>, NoMemory>
        ensures { IfOk result (AreFounds (volume_kind self.now) (Self.image_bytes self.now)) };

    /// Counts what the disk has on it. It fails only when memory runs out.
    fn report(&self, alloc: Global) -> Result<Report, NoMemory>
        ensures { IfOk result (IsReport (volume_kind self.now) (Self.image_bytes self.now)) };

    /// Piece `i` of a sound file: the bytes of the file that its unit `i`, counted from 0, holds, as a
    /// slice of the image.
    fn piece(&self, found: &Found, i: usize) -> &'a [u8]
        requires sound { IsSoundFile found.now }
        requires fits { Fits (volume_kind self.now) found.now }
        requires below { i < length found.now.units }
        ensures { let pieces = pieces_of (volume_kind self.now) (Self.image_bytes self.now)
            found.now.units found.now.last_len in result.now ≡ slice_index_or pieces i [] };

    /// The slots of the files ascend, and so no two are the same.
    ghost ascending: { (disk : Self) (founds : List Found)
        → AreFounds (volume_kind disk) (Self.image_bytes disk) founds
        → AllPairs (λ f g. f.slot < g.slot) founds };

    /// Each file lies in the image.
    ghost fitting: { (disk : Self) (found : Found)
        → IsFound (volume_kind disk) (Self.image_bytes disk) found → Fits (volume_kind disk) found };

    /// A sound file is as long as its pieces together.
    ghost total: { (disk : Self) (found : Found)
        → IsFound (volume_kind disk) (Self.image_bytes disk) found → IsSoundFile found
        → found.size ≡ Some (length (contents_of (volume_kind disk) (Self.image_bytes disk) found)) };

    /// An image that agrees with the disk's image on the needed bytes has the same files, and the
    /// same bytes in the served ones, whichever files are served and whatever its other bytes are.
    ghost needed_suffice: { (disk : Self) (image served : List ℕ)
        → AgreesOnNeeded (volume_kind disk) image (Self.image_bytes disk) served
        → TellTheSame (volume_kind disk) image (Self.image_bytes disk) served };
}

impl<'a> Volume<'a> for CpmDisk<'a> {
    ghost use Rattle.rd_geometry.specs.CpmDisks.{cpm_bytes};

    ghost volume_kind = { λ _. Cpm8 };

    fn survey(&self, alloc: Global) -> Result<Items<Found>, NoMemory> {
        let _sized = &self;
        let files = rd_cpm::files(alloc, self)?;
        Ok(Items::of(cpm::tell_files(alloc, files)?))
    }

    fn report(&self, alloc: Global) -> Result<Report, NoMemory> {
        cpm::report(alloc, self)
    }

    fn piece(&self, found: &Found, i: usize) -> &'a [u8] {
        let units = found.units.as_slice();
        let body = self.unit(units[i]);
        if i + 1 < units.len() {
            return body;
        }
        &body[..found.last_len as usize]
    }

    ghost use Rattle.rd_volume.specs.Laws.{cpm_fits, cpm_total};

    ghost ascending = { λ disk founds are. are.ascending };

    ghost fitting = { λ disk. cpm_fits (cpm_bytes disk) };

    ghost total = { λ disk. cpm_total (cpm_bytes disk) };

    ghost use Rattle.rd_volume.specs.NeededLaw.{tell_the_same};

    ghost needed_suffice = { λ disk image served. tell_the_same Cpm8 image (cpm_bytes disk) served };
}

impl<'a> Volume<'a> for CbmDisk<'a> {
    ghost use Rattle.rd_geometry.specs.CbmDisks.{cbm_bytes, cbm_kind};

    ghost volume_kind = { cbm_kind };

    fn survey(&self, alloc: Global) -> Result<Items<Found>, NoMemory> {
        let _sized = &self;
        let files = rd_cbm::files(alloc, self)?;
        Ok(Items::of(cbm::tell_files(alloc, files)?))
    }

    fn report(&self, alloc: Global) -> Result<Report, NoMemory> {
        cbm::report(alloc, self)
    }

    fn piece(&self, found: &Found, i: usize) -> &'a [u8] {
        let units = found.units.as_slice();
        let body = cbm::body(self, units[i]);
        if i + 1 < units.len() {
            return body;
        }
        &body[..found.last_len as usize]
    }

    ghost use Rattle.rd_volume.specs.Laws.{cbm_fits, cbm_total};

    ghost ascending = { λ disk founds are. are.ascending };

    ghost fitting = { λ disk. cbm_fits (cbm_kind disk) disk.cbm (cbm_bytes disk) };

    ghost total = { λ disk. cbm_total (cbm_kind disk) disk.cbm (cbm_bytes disk) };

    ghost use Rattle.rd_volume.specs.NeededLaw.{tell_the_same};

    ghost needed_suffice = { λ disk image served. tell_the_same (cbm_kind disk) image (cbm_bytes disk) served };
}
