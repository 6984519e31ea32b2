//! The contents of a file, from the image of its accession.

ghost use Rattle.std.specs.Prelude.{◌≡◌, IfOk, Some};
ghost use Rattle.std.specs.FinMap.{get};
ghost use Rattle.rd_store.specs.Held.{Reads, desk};
ghost use Rattle.rd_holdings.specs.declared.rows.ImageRow.{ImageRow as Row};

use crate::asking::Unavailable;
use rd_protocol::Contents;
use rd_store::{ImageRow, Store};
use rd_volume::Found;
use sqlite::Alter;
use std::alloc::Global;

/// The contents of a file of an image, which keep its bytes. It tests that the file is sound and
/// lies in the image, because nothing is known of a connection that a fault has shut.
fn contents_in(image: ImageRow, file: Found) -> Result<Contents, Unavailable>
    ensures { IfOk result (λ lent. lent ≡ record { kind = image.kind; image = image.bytes; file = file }) }
{
    match Contents::of(image.kind, image.bytes, file) {
        Some(contents) => Ok(contents),
        None => Err(Unavailable),
    }
}

/// The contents of a file of an accession. A reader may ask for several files of one disk: the store keeps the disk's
/// image in memory from the second one in a row on.
pub(crate) fn contents<S: Alter>(
    store: &mut Store<S>,
    alloc: Global,
    acc: u32,
    file: Found,
) -> Result<Contents, Unavailable>
    ensures { Reads S.Store store.old store.new result (λ lent. (row : Row) → get (desk S.Store store.old).images acc ≡ Some row
        → lent ≡ record { kind = row.kind; image = row.bytes; file = file }) }
{
    let Some(image) = store.cached_image(alloc, acc)? else {
        return Err(Unavailable);
    };
    contents_in(image, file)
}
