use rd_geometry::Items;

/// A file of a CP/M disk: the entries of one user and one name.
#[derive(Debug, Drop)]
pub struct CpmFile {
    /// The lowest slot of the file's entries, 0 to 63.
    pub slot: u8,
    /// The user number, 0 to 15.
    pub user: u8,
    /// Eight bytes of the name and three of the type, without their high bits.
    pub name: [u8; 11],
    /// Whether the file is marked read only: the high bit of the type's first byte.
    pub read_only: bool,
    /// Whether the file is marked as a system file: the high bit of the type's second byte.
    pub system: bool,
    /// The faults by bit: 0 bad-count, 1 duplicate, 2 gap, 3 short, 4 hole, 5 off-disk, 6 crossed.
    pub faults: u8,
    /// The logical sectors of the records, 0 to 1,949, in order; none if the file has a fault.
    pub sectors: Items<u16>,
}
