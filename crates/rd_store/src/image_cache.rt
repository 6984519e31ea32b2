//! The image that was asked for last, in memory, for a reader who takes one file of a disk after the other.

ghost use Rattle.std.specs.Prelude.{◌≡◌, IfErr, IfOk, MatchBool, MatchOption, Some};
ghost use Rattle.std.specs.FinMap.{FinMap, get};
ghost use Rattle.std.specs.Ordering.{nat_cmp};
ghost use Rattle.rd_holdings.specs.declared.rows.ImageRow.{ImageRow as Image};
ghost use Rattle.rd_store.specs.Held.{desk, Reads};
ghost use Rattle.rd_store.specs.ImageCache.{IsAmong, IsKept, IsOnlyAskedFor};

use crate::connection_state::stays_open;
use crate::faults::StoreFault;
use crate::store::Store;
use rd_geometry::Items;
use rd_holdings::ImageRow;
use sqlite::Alter;
use std::alloc::Global;

/// What is kept of the image that was read last, or copied from memory. It is copied only where it is asked for twice
/// in a row: a reader who goes from disk to disk costs no copy. A read that fails changes nothing here.
#[derive(Drop)]
pub(crate) enum KeptImage {
    /// No image was asked for.
    Unasked,
    /// This accession was asked for last, and its image is not kept: another was asked for before it, or none, or
    /// there was no memory for a copy, or the accession has no image.
    AskedFor(u32),
    /// This accession was asked for last, twice in a row or more, and has this image.
    Kept(u32, ImageRow),
}

fn copy_of(alloc: Global, image: &ImageRow) -> Result<ImageRow, StoreFault>
    ensures copy { IfOk result (λ copy. copy ≡ image.now) }
    ensures fault { IfErr result (λ fault. fault ≡ StoreFault.Sql) }
{
    match Vec::from_slice(alloc, image.bytes.as_slice()) {
        Ok(bytes) => Ok(ImageRow {
            kind: image.kind,
            deed: image.deed,
            digest: image.digest,
            bytes: Items::of(bytes),
        }),
        Err(_) => Err(StoreFault::Sql),
    }
}

impl KeptImage {
    /// What to keep of an accession that is asked for again: a copy of its image or, where memory runs out, only the
    /// accession.
    fn kept_copy(alloc: Global, acc: u32, image: &ImageRow) -> KeptImage
        ensures { (images : FinMap nat_cmp Image) → get images acc ≡ Some image.now → IsAmong result images }
    {
        match copy_of(alloc, image) {
            Ok(copy) => KeptImage::Kept(acc, copy),
            Err(_) => KeptImage::AskedFor(acc),
        }
    }

    /// Whether an accession was asked for last and its image is not kept.
    fn was_only_asked_for(&self, acc: u32) -> bool
        ensures { MatchBool result (IsOnlyAskedFor acc self.now) (¬ IsOnlyAskedFor acc self.now) }
    {
        match self {
            KeptImage::AskedFor(last) => *last == acc,
            _ => false,
        }
    }

    /// The image of an accession, `None` where it is not kept.
    fn kept(&self, acc: u32) -> Option<&ImageRow>
        ensures { MatchOption result (¬ IsKept acc self.now) (λ image. self.now ≡ KeptImage.Kept acc image.now) }
    {
        match self {
            KeptImage::Kept(last, image) if *last == acc => Some(image),
            _ => None,
        }
    }

    /// Notes what the table has at an accession. An image that is asked for again is kept from here on.
    fn note(&mut self, alloc: Global, acc: u32, found: &Option<ImageRow>)
        ensures { (images : FinMap nat_cmp Image) → found.now ≡ get images acc → IsAmong self.new images }
    {
        *self = match found {
            Some(image) if self.was_only_asked_for(acc) => KeptImage::kept_copy(alloc, acc, image),
            _ => KeptImage::AskedFor(acc),
        };
    }
}

impl<S: Alter> Store<S> {
    /// The image of an accession, 1 to 999,999; `None` where there is none. The answer is that of `image`. This
    /// function is for callers who ask for one accession again and again, as a reader does who takes file after file
    /// of a disk: an image that is asked for twice in a row is kept in memory from then on, and read from there until
    /// a caller asks here for another. If there is no memory to keep it, it is read from its row each time.
    ///
    /// It fails with `Sql`.
    pub fn cached_image(&mut self, alloc: Global, acc: u32) -> Result<Option<ImageRow>, StoreFault>
        ensures reads { Reads S.Store self.old self.new result (λ found.
            found ≡ get (desk S.Store self.old).images acc) }
        ensures fault { IfErr result (λ fault. fault ≡ StoreFault.Sql) }
    {
        if let Some(image) = self.last.kept(acc) {
            stays_open(&mut self.conn)?;
            return Ok(Some(copy_of(alloc, image)?));
        }
        let found = self.image(alloc, acc)?;
        self.last.note(alloc, acc, &found);
        Ok(found)
    }
}
