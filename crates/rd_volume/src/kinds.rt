//! What the units of a disk hold, by its kind.

ghost use Rattle.std.specs.Prelude.{◌≡◌};
ghost use Rattle.rd_volume.specs.Kinds.{room_of, unit_count_of};

use rd_geometry::Kind;

/// How many units a disk of a kind has.
pub(crate) fn unit_count(kind: Kind) -> u16
    ensures { result ≡ unit_count_of kind }
{
    match kind {
        Kind::Cpm8 => 1950,
        Kind::D64 | Kind::D64e => 683,
    }
}

/// How many bytes of a file a unit of a disk of a kind holds at most: a whole sector of CP/M, and a block of the 1541
/// but for the two bytes of its link.
pub fn room(kind: Kind) -> u16
    ensures { result ≡ room_of kind }
{
    match kind {
        Kind::Cpm8 => 128,
        Kind::D64 | Kind::D64e => 254,
    }
}
