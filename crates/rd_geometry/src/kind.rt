ghost use Rattle.std.specs.Prelude.{◌≡◌, ◌≢◌, ◌≤◌, IfSome, IfNone};
ghost use Rattle.rd_geometry.specs.Kinds.{size_of, word_of};
ghost use Rattle.rd_geometry.specs.Places.{CPM_SIZE};

/// A kind of disk image.
#[derive(Clone, Copy, Debug, PartialEq, Eq, Hash)]
pub enum Kind {
    /// A CP/M 2.2 disk of eight inches and single density: a raw dump of 77 tracks of 26 sectors of
    /// 128 bytes.
    Cpm8,
    /// A Commodore 1541 disk of 35 tracks: its 683 blocks of 256 bytes, without error bytes.
    D64,
    /// A Commodore 1541 disk of 35 tracks: its 683 blocks, then 683 error bytes, one for each block,
    /// in the order of the blocks (public D64 documentation).
    D64e,
}

/// The words of the kinds on a command line, in a path and in a sheet, in the order of the kinds.
pub static KIND_WORDS: [&str; 3] = ["cpm8", "d64", "d64e"];

impl Kind {
    /// The number of bytes that an image of this kind has.
    pub fn size(self) -> usize
        ensures { result ≡ size_of self }
    {
        match self {
            Kind::Cpm8 => 77 * 26 * 128,
            Kind::D64 => 683 * 256,
            Kind::D64e => 683 * 256 + 683,
        }
    }

    /// The number of bytes of the largest image, that of a CP/M disk.
    pub fn largest_size() -> usize
        ensures value { result ≡ CPM_SIZE }
        ensures largest { (kind : Kind) → size_of kind ≤ result }
    {
        Kind::Cpm8.size()
    }

    /// The word for this kind.
    pub fn word(self) -> &'static str
        ensures { result.now ≡ word_of self }
    {
        match self {
            Kind::Cpm8 => KIND_WORDS[0],
            Kind::D64 => KIND_WORDS[1],
            Kind::D64e => KIND_WORDS[2],
        }
    }

    /// The kind that has this word, `None` if no kind has it.
    pub fn from_word(word: &str) -> Option<Kind>
        ensures found { IfSome result (λ kind. word.now ≡ word_of kind) }
        ensures none { IfNone result ((kind : Kind) → word.now ≢ word_of kind) }
    {
        for kind in [Kind::Cpm8, Kind::D64, Kind::D64e] {
            if kind.word() == word {
                return Some(kind);
            }
        }
        None
    }
}
