//! What a path alone asks.

ghost use Rattle.std.specs.Prelude.{◌≡◌};

use crate::values::Values;
use rd_protocol::What;

/// What a path alone asks, whatever the body is: the request of the same name, with the values of the path.
#[derive(Clone, Copy)]
pub(crate) enum Enquiry {
    Images,
    Listing,
    Bytes,
    Survey,
    Check,
    Catalogue,
    Deeds,
    Takedowns,
    Keys,
    Checks,
    Today,
    Verdicts,
    VerdictsOf,
}

impl Enquiry {
    ghost use Rattle.rd_messages.specs.Asked.{asked_by_path};

    /// What is asked of the values that the path names.
    pub(crate) fn asked(self, values: &Values) -> What
        ensures { result ≡ asked_by_path self values.now }
    {
        match self {
            Enquiry::Images => What::Images,
            Enquiry::Listing => What::Listing(values.acc),
            Enquiry::Bytes => What::Bytes(values.acc, values.slot),
            Enquiry::Survey => What::Survey(values.acc),
            Enquiry::Check => What::Check(values.acc),
            Enquiry::Catalogue => What::Catalogue,
            Enquiry::Deeds => What::Deeds,
            Enquiry::Takedowns => What::Takedowns,
            Enquiry::Keys => What::Keys,
            Enquiry::Checks => What::Checks,
            Enquiry::Today => What::Today,
            Enquiry::Verdicts => What::Verdicts(values.day),
            Enquiry::VerdictsOf => What::VerdictsOf(values.day, values.acc),
        }
    }
}
