//! The kind of image that a file may be.

ghost use Rattle.std.specs.Prelude.{◌≡◌, ◌≢◌, IfNone, IfSome};
ghost use Rattle.rd_geometry.specs.Kinds.{size_of};

use rd_geometry::Kind;

/// The kind whose images have so many bytes, `None` if no kind has such images.
pub fn kind_that_fits(found: usize) -> Option<Kind>
    ensures fits { IfSome result (λ kind. size_of kind ≡ found) }
    ensures none { IfNone result ((kind : Kind) → size_of kind ≢ found) }
{
    for kind in [Kind::Cpm8, Kind::D64, Kind::D64e] {
        if kind.size() == found {
            return Some(kind);
        }
    }
    None
}
