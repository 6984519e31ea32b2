use rd_cbm::{End, MapReport};
use rd_geometry::Text;

/// The counts of what an image has on it (1541 User's Guide, for the block map and the directory's
/// end). For a CP/M disk `size_differs` and the counts of `map` are 0, `directory` is `Last(0)`
/// and `label` is empty.
#[derive(Debug, Drop)]
pub struct Report {
    /// How many files there are.
    pub files: u16,
    /// How many of them are sound.
    pub served: u16,
    /// How many of them have a fault.
    pub faulty: u16,
    /// How many files claim blocks, but not as many as their entry states.
    pub size_differs: u16,
    /// How the block map differs from the blocks in use.
    pub map: MapReport,
    /// How the walk along the directory's blocks ends.
    pub directory: End,
    /// The printed name of the disk.
    pub label: Text,
}
