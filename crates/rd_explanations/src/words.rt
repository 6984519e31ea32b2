//! The words of an explanation: columns of a sheet, why a row is refused, and what to do next.

ghost use Rattle.std.specs.Prelude.{Some};

use std::fmt;

/// A column of a sheet.
#[derive(Clone, Copy, Debug, PartialEq, Eq)]
pub enum Column {
    /// The number of the accession.
    Accession,
    /// The kind of the image.
    Kind,
    /// The number of the deed.
    Deed,
    /// The SHA-256 of the image.
    Digest,
    /// The path of the image.
    File,
}

impl fmt::Display for Column {
    ghost use Rattle.rd_explanations.specs.Words.{column_word};

    ghost output = { λ column. Some (column_word column) };

    fn fmt<W: fmt::Write>(&self, f: &mut fmt::Formatter<W>) -> fmt::Result {
        match self {
            Column::Accession => write!(f, "accession"),
            Column::Kind => write!(f, "kind"),
            Column::Deed => write!(f, "deed"),
            Column::Digest => write!(f, "sha256"),
            Column::File => write!(f, "file"),
        }
    }
}

/// What to do next.
#[derive(Clone, Copy, Debug, PartialEq, Eq)]
pub enum Advice {
    /// The path may be wrong.
    CheckPath,
    /// A folder is at the path, and the command takes a file.
    FileInFolder,
    /// Something that is no desk is at the path.
    InitFirst,
    /// Nothing is at the path.
    InitThere,
    /// Something else is at the place where the visitors are to come.
    OtherPlace,
    /// The image has the size of no kind.
    CopyAgain,
    /// The first row names the columns.
    NameColumns,
    /// The sheet ends its fields with semicolons.
    UseCommas,
    /// The slot is a number that `list` shows.
    ListSlots,
    /// The key is another than those that the desk knows.
    CheckKey,
    /// The key is known, and is none of the staff.
    StaffKey,
    /// The clock fails, or its moment lies outside the years in which clocks have days.
    OtherMoment,
    /// The moment that the words name lies outside those years.
    MomentLimits,
    /// The clocks of the zone never show the day that the words name.
    ShownDay,
    /// The clock is wrong, and no moment can be named.
    SetClock,
    /// The clock is behind a recorded check.
    TrustClock,
    /// The store holds a desk of a version that this program does not know.
    OtherProgram,
    /// The rows of the store are not those of a desk.
    Restore,
    /// The file is no store.
    CheckStore,
    /// The store may be in use; else it is another file, or is damaged.
    FirstLook,
    /// The file has more than a key.
    KeyAlone,
    /// The file gives no zone.
    ZoneFile,
    /// The folder is there before the command.
    MakeFolder,
    /// The command goes past files that cannot be read.
    KeepGoing,
    /// Something is at the path already.
    FreshPath,
    /// Something is in the folder already.
    FreshFolder,
    /// A new store may be there, without a desk or with the whole desk.
    CopyAnew,
    /// The file is of a type of which desk shows the name alone.
    OtherType,
    /// No accession of this number stands.
    KnownNumber,
    /// The bytes came once, as from a pipe, and cannot be read again.
    SaveFirst,
    /// The file is not sound in this image.
    OtherCopy,
    /// The number of a deed in a sheet may be wrong.
    ShowDeeds,
}

impl fmt::Display for Advice {
    ghost use Rattle.rd_explanations.specs.Words.{advice_text};

    ghost output = { λ advice. Some (advice_text advice) };

    fn fmt<W: fmt::Write>(&self, f: &mut fmt::Formatter<W>) -> fmt::Result {
        match self {
            Advice::CheckPath => write!(
                f,
                "Check how the path is written, and what you may do there."
            ),
            Advice::FileInFolder => write!(f, "Give the path of a file in it."),
            Advice::InitFirst => write!(
                f,
                "The file holds no desk: give the path of one that does, or make one at a new path with desk init."
            ),
            Advice::InitThere => write!(f, "For a new desk, make it there with desk init."),
            Advice::OtherPlace => write!(f, "Give another port, or stop what uses this one."),
            Advice::CopyAgain => write!(
                f,
                "No kind of disk has images of this size: copy the disk again."
            ),
            Advice::NameColumns => write!(
                f,
                "The first row must be, in small letters: accession,kind,deed,sha256,file"
            ),
            Advice::UseCommas => write!(f, "Save the sheet as CSV with commas between the fields."),
            Advice::ListSlots => write!(f, "Give a slot as the number that desk list shows first."),
            Advice::CheckKey => write!(
                f,
                "Check how the key is written, or give the file that holds it by --key-file."
            ),
            Advice::StaffKey => write!(f, "Only the staff may do this: give a key of the staff."),
            Advice::OtherMoment => write!(
                f,
                "Set the clock of this machine, or name another moment by --at."
            ),
            Advice::MomentLimits => write!(
                f,
                "--at takes moments from 0001-01-03 to 9999-12-29 in UTC: give one of these."
            ),
            Advice::ShownDay => write!(
                f,
                "The clocks of this zone pass over this day: give another day, or a moment in seconds."
            ),
            Advice::SetClock => write!(f, "Set the clock of this machine."),
            Advice::TrustClock => write!(
                f,
                "If the clock is right, a check was recorded while it was ahead: write --trust-clock."
            ),
            Advice::OtherProgram => write!(f, "Use the desk that made this store, or a newer one."),
            Advice::Restore => write!(f, "Give the file of a store, or bring back a backup of it."),
            Advice::CheckStore => write!(
                f,
                "Check which file you name; if it was a store, bring back a backup of it."
            ),
            Advice::FirstLook => write!(
                f,
                "First look that no other desk or sqlite3 uses it; else give the file of a store, or bring back a backup of it."
            ),
            Advice::KeyAlone => write!(f, "Put nothing but the key into a file, and give that."),
            Advice::ZoneFile => write!(
                f,
                "Give a file such as /usr/share/zoneinfo/Europe/Prague, or a rule by --zone."
            ),
            Advice::MakeFolder => write!(f, "Make the folder first, or give one that is there."),
            Advice::KeepGoing => write!(
                f,
                "Import again: what is done stays, and --keep-going goes past such files."
            ),
            Advice::FreshPath => write!(f, "Give the path of a file that is not there yet."),
            Advice::FreshFolder => write!(
                f,
                "Nothing is replaced: give a folder that is there and has none of these files, or move them all out of it."
            ),
            Advice::CopyAnew => write!(
                f,
                "Remove the new file and its log, if they are there, and copy again."
            ),
            Advice::OtherType => write!(
                f,
                "Give the slot of a file of the type SEQ, PRG or USR: desk gives the bytes of these."
            ),
            Advice::KnownNumber => write!(
                f,
                "Give the number of an accession that stands: desk show checks names them all."
            ),
            Advice::SaveFirst => write!(
                f,
                "Save it as a file, and give its path: then more can be said of it."
            ),
            Advice::OtherCopy => write!(
                f,
                "desk gives no bytes of a damaged file: desk list shows which files of the disk are sound. Copy the disk again, or look for another copy of it."
            ),
            Advice::ShowDeeds => write!(
                f,
                "If the number is wrong, correct it in the sheet: desk show deeds shows the deeds that there are."
            ),
        }
    }
}

/// Why the desk does not take in the image of a row.
#[derive(Clone, Copy, Debug, PartialEq, Eq)]
pub enum Reason {
    /// No deed of this number stands.
    NoDeed(u32),
    /// The file has another SHA-256 than the sheet says.
    Digest,
    /// An image of another kind, deed or SHA-256 stands at the accession.
    Conflict,
    /// The desk does not know the key, or it is none of the staff.
    Key,
    /// Anything else.
    Other,
}

impl fmt::Display for Reason {
    ghost use Rattle.rd_explanations.specs.Words.{reason_text};

    ghost output = { λ reason. Some (reason_text reason) };

    fn fmt<W: fmt::Write>(&self, f: &mut fmt::Formatter<W>) -> fmt::Result {
        match self {
            Reason::NoDeed(deed) => write!(f, "the desk has no deed {deed}."),
            Reason::Digest => write!(f, "the file has another SHA-256 than the sheet says."),
            Reason::Conflict => write!(f, "another image stands at this accession."),
            Reason::Key => write!(f, "the key is none of the staff."),
            Reason::Other => write!(f, "the desk refuses it."),
        }
    }
}

/// Why a file that the words name gives no key or no zone.
#[derive(Clone, Copy, Debug, PartialEq, Eq)]
pub enum Unusable {
    /// A file with a key has at most 4,096 bytes.
    LongKey,
    /// Standard input has more, or it cannot be read: the system's word is not known.
    NoKey,
    /// A file with a zone has at most 65,536 bytes.
    LongZone,
    /// It is no file of the time zone database.
    NoZone,
    /// It is one, and ends in no rule that holds from now on.
    NoRule,
    /// It is no ordinary file, such as a pipe, and cannot be read a second time.
    Unknown,
}

impl fmt::Display for Unusable {
    ghost use Rattle.rd_explanations.specs.Words.{unusable_text};

    ghost output = { λ unusable. Some (unusable_text unusable) };

    fn fmt<W: fmt::Write>(&self, f: &mut fmt::Formatter<W>) -> fmt::Result {
        match self {
            Unusable::LongKey => write!(f, "it has more than 4096 bytes."),
            Unusable::NoKey => write!(f, "it cannot be read, or has more than 4096 bytes."),
            Unusable::LongZone => write!(f, "it has more than 65536 bytes."),
            Unusable::NoZone => write!(f, "it is no file of the time zone database."),
            Unusable::NoRule => write!(f, "it ends in no rule for clocks that desk can use."),
            Unusable::Unknown => write!(f, "desk cannot use what it gives."),
        }
    }
}
