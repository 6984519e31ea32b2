ghost use Rattle.std.specs.Prelude.{◌≡◌, ◌↔◌, ◌++◌, Some, codes, length, IfOk, IfErr, IsOk};
ghost use Rattle.std.specs.Fmt.{decimal};
ghost use Rattle.rd_geometry.specs.Kinds.{size_of};

use crate::kind::Kind;
use std::error::Error;
use std::fmt;

/// The number of bytes is not that of an image of the kind.
#[derive(Clone, Copy, Debug, PartialEq, Eq, Hash)]
pub struct WrongSize {
    /// How many bytes there are.
    pub found: usize,
}

impl fmt::Display for WrongSize {
    ghost output = { λ fault. Some (decimal fault.found ++ codes " bytes are no image of the kind") };

    fn fmt<W: fmt::Write>(&self, f: &mut fmt::Formatter<W>) -> fmt::Result {
        let found = self.found;
        write!(f, "{found} bytes are no image of the kind")
    }
}

impl Error for WrongSize {}

/// An image: a kind, and bytes that it borrows, exactly as many as an image of the kind has.
#[derive(Debug, Drop)]
pub struct Image<'a> {
    kind: Kind,
    bytes: &'a [u8],
    pub ghost sized: { length bytes.now ≡ size_of kind },
}

impl<'a> Image<'a> {
    ghost use Rattle.rd_geometry.specs.Images.{kind_of, bytes_of};

    /// The image of a kind with these bytes, whatever their values.
    ///
    /// It fails with `WrongSize` when their number is not that of the kind (`Kind::size`).
    pub fn new(kind: Kind, bytes: &'a [u8]) -> Result<Image<'a>, WrongSize>
        ensures taken { IsOk result ↔ (length bytes.entry.now ≡ size_of kind) }
        ensures kind { IfOk result (λ image. kind_of image ≡ kind) }
        ensures bytes { IfOk result (λ image. bytes_of image ≡ bytes.entry.now) }
        ensures refused { IfErr result (λ fault. fault.found ≡ length bytes.entry.now) }
    {
        if bytes.len() == kind.size() {
            Ok(Image { kind, bytes })
        } else {
            Err(WrongSize { found: bytes.len() })
        }
    }

    /// The kind of the image.
    pub fn kind(&self) -> Kind
        ensures { result ≡ kind_of self.now }
    {
        self.kind
    }

    /// The bytes of the image, which outlive it.
    pub fn bytes(&self) -> &'a [u8]
        ensures value { result.now ≡ bytes_of self.now }
        ensures sized { length result.now ≡ size_of (kind_of self.now) }
    {
        self.bytes
    }
}
