//! The contents of a file, kept as its image and lent as slices of it.

ghost use Rattle.std.specs.Prelude.{◌≡◌, ◌↔◌, ◌<◌, ◌^◌, IfSome, IsSome, SomeIff, length};
ghost use Rattle.rd_volume.specs.Volumes.{contents_of};
ghost use Rattle.rd_protocol.specs.Lent.{CanBeLent, bytes_lent};
ghost use Rattle.rd_protocol.specs.UnitBytes.{bytes_in};

use rd_geometry::{Image, Items, Kind};
use rd_volume::{Found, Pieces, pieces, room};
use std::marker::Model;

/// The contents of a sound file, which contracts see as the kind and the bytes of its image and the
/// record of the file. They keep these, and lend slices of the image: they copy no byte of the file.
#[derive(Drop)]
pub struct Contents {
    kind: Kind,
    image: Items<u8>,
    file: Found,
    len: usize,
}

impl Model for Contents {
    ghost use Rattle.rd_protocol.specs.Lent.{Lent};

    ghost Value = { Lent };

    ghost use Rattle.rd_protocol.specs.Kept.{AreOfSoundFile, lent_kept};

    ghost view = { lent_kept };

    ghost invariant = { AreOfSoundFile };
}

/// How many bytes the units of a file hold, if each but the last holds `room` of them and the last one `last_len`;
/// `None` if these are 2^64 or more.
fn bytes_of_units(units: &[u16], room: usize, last_len: u16) -> Option<usize>
    ensures { SomeIff result (bytes_in room units.now last_len < 2 ^ 64) (bytes_in room units.now last_len) }
{
    let Some((_, rest)) = units.split_first() else {
        return Some(0);
    };
    let full = rest.len().checked_mul(room)?;
    full.checked_add(usize::from(last_len))
}

/// How many bytes the pieces of a file have together; `None` if they cannot be lent.
fn count(kind: Kind, image: &[u8], file: &Found) -> Option<usize>
    ensures taken { IsSome result ↔ CanBeLent kind image.now file.now }
    ensures len { IfSome result (λ len. len ≡ length (contents_of kind image.now file.now)) }
{
    let Ok(image) = Image::new(kind, image) else {
        return None;
    };
    if !file.sound() || !file.fits(&image) {
        return None;
    }
    bytes_of_units(
        file.units.as_slice(),
        usize::from(room(kind)),
        file.last_len,
    )
}

impl Contents {
    ghost use Rattle.rd_volume.specs.PiecesLeft.{pieces_left};
    ghost use Rattle.rd_volume.specs.Volumes.{pieces_of};
    ghost use Rattle.rd_protocol.specs.Slices.{AreSlicesOf, not_empty};

    /// The contents of a file of an image, from the kind and the bytes of the image. It takes no
    /// memory.
    ///
    /// It is `None` exactly when the bytes are not as many as an image of the kind has, when the
    /// file is not sound or does not lie in the image, and when its pieces have 2^64 bytes or more
    /// together.
    pub fn of(kind: Kind, image: Items<u8>, file: Found) -> Option<Contents>
        ensures taken { IsSome result ↔ CanBeLent kind image file }
        ensures lent { IfSome result (λ contents. contents ≡ record { kind = kind; image = image; file = file }) }
    {
        let len = count(kind, image.as_slice(), &file)?;
        Some(Contents {
            kind,
            image,
            file,
            len,
        })
    }

    /// How many bytes they have.
    pub fn len(&self) -> usize
        ensures { result ≡ length (bytes_lent self.now) }
    {
        self.len
    }

    /// Their pieces, in order: for each unit of the file a slice of the image. The last one may be
    /// empty.
    pub(crate) fn pieces(&self) -> Pieces<'_>
        ensures pieces { pieces_left result ≡ pieces_of self.now.kind self.now.image self.now.file.units self.now.file.last_len }
        ensures slices { AreSlicesOf self.now (not_empty (pieces_left result)) }
    {
        match Image::new(self.kind, self.image.as_slice()) {
            Ok(image) => pieces(&image, &self.file),
            Err(_) => unreachable!(),
        }
    }
}
