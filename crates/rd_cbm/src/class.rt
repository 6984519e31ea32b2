/// The class of a file: the low four bits of its type byte (1541 User's Guide).
#[derive(Clone, Copy, Debug, PartialEq, Eq, Hash)]
pub enum Class {
    /// 0: a deleted file.
    Del,
    /// 1: a sequential file.
    Seq,
    /// 2: a program.
    Prg,
    /// 3: a user file.
    Usr,
    /// 4: a relative file, which has side sectors.
    Rel,
    /// 5 to 15, which desk treats as one class.
    Other,
}
