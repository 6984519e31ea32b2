//! Who asks a desk a question, and its answer.

ghost use Rattle.std.specs.Prelude.{◌≡◌, option_map};
ghost use Rattle.sha2.specs.Sha256.{sha256};
ghost use Rattle.rd_policy.specs.Days.{IsDay};
ghost use Rattle.rd_protocol.specs.Requests.{IsRequest};
ghost use Rattle.rd_desk.specs.Served.{Responds};

use rd_desk::{Desk, Request, Response, Unavailable, What};
use sha2::{Digest, Sha256};
use sqlite::Alter;
use std::alloc::Global;

/// Who asks the desk, and when.
#[derive(Clone, Copy)]
pub(crate) struct Asker {
    /// The SHA-256 of the desk key; `None` if there is none.
    pub(crate) badge: Option<[u8; 32]>,
    /// The day, counted from 1970-01-01.
    pub(crate) day: i32,
}

/// The SHA-256 of a desk key; `None` if there is none.
pub(crate) fn badge_of(key: Option<&[u8]>) -> Option<[u8; 32]>
    ensures { result ≡ option_map sha256 (option_map (λ key. key.now) key.entry) }
{
    match key {
        Some(key) => Some(Sha256::digest(key)),
        None => None,
    }
}

/// Asks a desk, and gives its answer. It fails with `Unavailable` when the store fails or memory runs out.
pub(crate) fn answer_of<S: Alter + Drop>(
    alloc: Global,
    what: What,
    asker: Asker,
    desk: &mut Desk<S>,
) -> Result<Response, Unavailable>
    requires day { IsDay asker.day }
    requires fits { IsRequest what }
    ensures responds { Responds S.Store desk.old.store desk.new.store asker.day
        (record { badge = asker.badge; what = what }) result }
    ensures zone { desk.new.zone ≡ desk.old.zone }
{
    let badge = asker.badge;
    desk.respond(alloc, asker.day, &Request { badge, what })
}
