/// How the block map of a disk differs from the blocks in use.
#[derive(Clone, Copy, Debug, PartialEq, Eq, Hash)]
pub struct MapReport {
    /// How many tracks have a free count that is not the number of their sectors marked free.
    pub wrong_counts: u16,
    /// How many blocks in use are marked free.
    pub claimed_free: u16,
    /// How many blocks that are not in use are not marked free.
    pub unclaimed_used: u16,
}
