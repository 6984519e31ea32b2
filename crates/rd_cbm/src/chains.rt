ghost use Rattle.std.specs.Prelude.{◌≡◌};
ghost use Rattle.rd_cbm.specs.Walks.{end_word};

use rd_geometry::Items;

/// Where a block leads, by its bytes 0 and 1: track and sector of the next block (1541 User's
/// Guide).
#[derive(Clone, Copy, Debug, PartialEq, Eq, Hash)]
pub enum Link {
    /// Track 0: it is the last block, and this is its byte 1, the position of the last byte used.
    Last(u8),
    /// The index of the next block, 0 to 682.
    Next(u16),
    /// A track above 0 and a sector that the disk does not have.
    Off,
}

/// How a walk along the links ends.
#[derive(Clone, Copy, Debug, PartialEq, Eq, Hash)]
pub enum End {
    /// At a last block, with this byte 1.
    Last(u8),
    /// Off the disk, at its start or at a link.
    Off,
    /// Never: it comes to a block a second time.
    Loop,
}

impl End {
    /// The word for this end. No function gives the end for a word, since `end` does not say the
    /// byte of a last block.
    pub fn word(self) -> &'static str
        ensures { result.now ≡ end_word self }
    {
        match self {
            End::Last(_) => "end",
            End::Off => "off",
            End::Loop => "loop",
        }
    }
}

/// The blocks that a walk along the links comes to, and how it ends.
#[derive(Debug, Drop)]
pub struct Chain {
    /// The indices of the blocks, each once, in the order in which the walk first comes to them.
    pub blocks: Items<u16>,
    /// How the walk ends.
    pub end: End,
}
