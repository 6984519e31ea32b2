//! What a desk would answer to a request to take in an image, after images that it would have taken in before. Nothing
//! changes.

ghost use Rattle.std.specs.Prelude.{◌≡◌, ◌++◌, ◌∷◌, IfOk, OnErr, [], option_map};
ghost use Rattle.std.specs.FinMap.{get};
ghost use Rattle.rd_store.specs.Held.{Reads, desk};
ghost use Rattle.rd_desk.specs.Shelving as spec;
ghost use Rattle.rd_desk.specs.Shelving.{IsFaultOfImage, ShelvesAs, WouldAnswer, on_shelf, shelved_of};

use crate::asking::{Unavailable, audience, has_deed};
use rd_geometry::Kind;
use rd_policy::Audience;
use rd_protocol::{Refusal, Response, has_digest};
use rd_store::Store;
use sqlite::Alter;
use std::alloc::Global;

/// What a desk asks of an image that stands, or would stand: its accession, its kind, its deed and its SHA-256.
#[derive(Clone, Copy, PartialEq, Eq, Debug)]
pub struct Shelved {
    /// The accession.
    pub acc: u32,
    /// The kind.
    pub kind: Kind,
    /// The number of the deed.
    pub deed: u32,
    /// The SHA-256 that was given for the bytes.
    pub digest: [u8; 32],
}

/// The images that would have been taken in, one of each accession.
#[derive(Drop)]
pub struct Shelf {
    /// The images, the latest one last.
    pub images: Vec<Shelved>,
}

impl Shelf {
    /// No image. It takes no memory.
    pub fn new(alloc: Global) -> Shelf
        ensures { result.images.items ≡ [] }
    {
        Shelf {
            images: Vec::new(alloc),
        }
    }

    /// What would stand at an accession.
    fn at(&self, acc: u32) -> Option<Shelved>
        ensures { result ≡ on_shelf self.now.images.items acc }
    {
        for image in &self.images {
            if image.acc == acc {
                return Some(*image);
            }
        }
        None
    }

    /// Adds an image at the end. It fails when memory runs out.
    fn add(&mut self, image: Shelved) -> Result<(), Unavailable>
        ensures added { IfOk result (λ _. self.new.images.items ≡ self.old.images.items ++ image ∷ []) }
        ensures same { OnErr result (self.new.images.items ≡ self.old.images.items) }
    {
        match self.images.push(image) {
            Ok(()) => Ok(()),
            Err(_) => Err(Unavailable),
        }
    }
}

/// What stands at an accession.
fn stood_at<S: Alter>(
    store: &mut Store<S>,
    alloc: Global,
    acc: u32,
) -> Result<Option<Shelved>, Unavailable>
    ensures reads { Reads S.Store store.old store.new result (λ found.
        found ≡ option_map (shelved_of acc) (get (desk S.Store store.old).images acc)) }
{
    match store.image(alloc, acc)? {
        Some(image) => {
            let digest = image.digest;
            Ok(Some(Shelved {
                acc,
                kind: image.kind,
                deed: image.deed,
                digest,
            }))
        }
        None => Ok(None),
    }
}

/// What would stand at an accession by then.
fn standing_at<S: Alter>(
    store: &mut Store<S>,
    alloc: Global,
    acc: u32,
    shelf: &Shelf,
) -> Result<Option<Shelved>, Unavailable>
    ensures reads { Reads S.Store store.old store.new result (λ found.
        found ≡ spec.would_stand shelf.now.images.items (desk S.Store store.old) acc) }
{
    let stood = stood_at(store, alloc, acc)?;
    match shelf.at(acc) {
        Some(earlier) => Ok(Some(earlier)),
        None => Ok(stood),
    }
}

/// Why the image of a caller of the staff would be refused, by its deed and its bytes; `None` if it would not.
fn fault_of<S: Alter>(
    store: &mut Store<S>,
    image: Shelved,
    bytes: &[u8],
) -> Result<Option<Refusal>, Unavailable>
    ensures reads { Reads S.Store store.old store.new result (IsFaultOfImage (desk S.Store store.old) image bytes.now) }
{
    if !has_deed(store, image.deed)? {
        return Ok(Some(Refusal::NoDeed));
    }
    if bytes.len() != image.kind.size() {
        return Ok(Some(Refusal::WrongSize));
    }
    if !has_digest(bytes, &image.digest) {
        return Ok(Some(Refusal::DigestDiffers));
    }
    Ok(None)
}

/// What becomes of an image that has no fault by itself, by the one that would stand at its accession; it is put on the
/// shelf if there is none. It fails when memory runs out.
fn shelve(
    shelf: &mut Shelf,
    standing: Option<Shelved>,
    image: Shelved,
) -> Result<Response, Unavailable>
    ensures shelved { IfOk result (ShelvesAs standing image shelf.old.images.items shelf.new.images.items) }
    ensures kept { OnErr result (shelf.new.images.items ≡ shelf.old.images.items) }
{
    let Some(standing) = standing else {
        shelf.add(image)?;
        return Ok(Response::Done);
    };
    if standing == image {
        return Ok(Response::Done);
    }
    Ok(Response::Refused(Refusal::Conflict))
}

/// What the desk would answer to a caller of a badge who asks to take in an image, after the images on the shelf.
///
/// It fails with `Unavailable` when the store fails or `alloc` has no memory.
pub(crate) fn would_take<S: Alter>(
    store: &mut Store<S>,
    alloc: Global,
    badge: &[u8; 32],
    image: Shelved,
    bytes: &[u8],
    shelf: &mut Shelf,
) -> Result<Response, Unavailable>
    ensures reads { Reads S.Store store.old store.new result
        (WouldAnswer shelf.old.images.items shelf.new.images.items (desk S.Store store.old) badge.now image bytes.now) }
    ensures kept { OnErr result (shelf.new.images.items ≡ shelf.old.images.items) }
{
    let Some(audience) = audience(store, &Some(*badge))? else {
        return Ok(Response::Refused(Refusal::UnknownKey));
    };
    if audience != Audience::Staff {
        return Ok(Response::Refused(Refusal::StaffOnly));
    }
    if let Some(refusal) = fault_of(store, image, bytes)? {
        return Ok(Response::Refused(refusal));
    }
    let standing = standing_at(store, alloc, image.acc, shelf)?;
    shelve(shelf, standing, image)
}
