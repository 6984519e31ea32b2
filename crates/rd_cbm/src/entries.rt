use crate::chains::End;
use rd_geometry::Items;

/// A used entry of the directory (1541 User's Guide).
#[derive(Clone, Copy, Debug, PartialEq, Eq)]
pub struct CbmEntry {
    /// The entry's place: eight times the position of its block in the directory, and its own
    /// place, 0 to 7, in the block. At most 5,463.
    pub slot: u16,
    /// The type byte: the class in the low four bits, bit 6 locked, bit 7 closed. Not 0.
    pub ty_byte: u8,
    /// Track and sector of the first data block.
    pub start: (u8, u8),
    /// The name, padded with A0 hex.
    pub name: [u8; 16],
    /// Track and sector of the first side sector, of a relative file.
    pub side: (u8, u8),
    /// The record length, of a relative file.
    pub record_len: u8,
    /// The size in blocks that the entry states.
    pub size_field: u16,
}

/// The directory of a disk.
#[derive(Debug, Drop)]
pub struct Directory {
    /// The used entries, by slot.
    pub entries: Items<CbmEntry>,
    /// The indices of the directory's blocks, in order.
    pub blocks: Items<u16>,
    /// How the walk along the directory's blocks ends.
    pub end: End,
}
