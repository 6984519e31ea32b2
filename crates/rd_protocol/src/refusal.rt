ghost use Rattle.std.specs.Prelude.{◌≡◌};

use rd_geometry::Kind;
use rd_policy::Label;

/// Why the desk refuses a request. If several reasons hold, the reply gives the first in this
/// order.
#[derive(Clone, Copy)]
pub enum Refusal {
    /// The desk does not know the caller's desk key.
    UnknownKey,
    /// Only the staff may do this, and the caller is not staff.
    StaffOnly,
    /// The body of the command cannot be read.
    BadBody,
    /// There is no image at the accession.
    NoAccession,
    /// The image has no file at the slot.
    NoFile,
    /// There is no such deed.
    NoDeed,
    /// The rules do not let the caller read the file: the rule that decides, or `D0` if none
    /// matches.
    Denied(Label),
    /// The desk does not serve files of this class.
    ListedOnly,
    /// The file has these faults, by bit, in an image of this kind.
    Faulty(Kind, u8),
    /// The image does not have as many bytes as its kind.
    WrongSize,
    /// The SHA-256 of the image's bytes is not the one that was given for them.
    DigestDiffers,
    /// There is another image at the accession, or no staff key would be left.
    Conflict,
}

impl Refusal {
    ghost use Rattle.rd_protocol.specs.Refusals.{name_of, status_of};

    /// The name that the reply gives.
    pub fn name(self) -> &'static str
        ensures { result.now ≡ name_of self }
    {
        match self {
            Refusal::UnknownKey => "unknown-key",
            Refusal::StaffOnly => "staff-only",
            Refusal::BadBody => "bad-body",
            Refusal::NoAccession => "no-accession",
            Refusal::NoFile => "no-file",
            Refusal::NoDeed => "no-deed",
            Refusal::Denied(_) => "denied",
            Refusal::ListedOnly => "listed-only",
            Refusal::Faulty(_, _) => "faulty",
            Refusal::WrongSize => "wrong-size",
            Refusal::DigestDiffers => "digest-differs",
            Refusal::Conflict => "conflict",
        }
    }

    /// The HTTP status of the reply.
    pub(crate) fn status(self) -> u16
        ensures { result ≡ status_of self }
    {
        match self {
            Refusal::BadBody => 400,
            Refusal::UnknownKey => 401,
            Refusal::StaffOnly | Refusal::Denied(_) => 403,
            Refusal::NoAccession | Refusal::NoFile | Refusal::NoDeed => 404,
            Refusal::Conflict => 409,
            Refusal::ListedOnly
            | Refusal::Faulty(_, _)
            | Refusal::WrongSize
            | Refusal::DigestDiffers => 422,
        }
    }
}
