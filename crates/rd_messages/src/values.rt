//! The values that a path names.

ghost use Rattle.std.specs.Prelude.{◌≡◌, IfOk};
ghost use Rattle.matchit.specs.Params.{AllText};
ghost use Rattle.rd_messages.specs.PathValues.{day_in, parts_in, values_in, values_on};

use crate::bodies::day_of;
use matchit::Params;
use rd_geometry::{Kind, NoMemory};
use rd_policy::Band;
use rd_protocol::parts::{digest, kind, rank, scope, slot};
use std::alloc::Global;

/// The values that a path names. One that it does not name is the least of its limits, a day
/// 1970-01-01.
#[derive(Clone, Copy)]
pub(crate) struct Values {
    /// The number of an accession, 1 to 999,999.
    pub(crate) acc: u32,
    /// The slot of a file, 0 to 9,999.
    pub(crate) slot: u16,
    /// The rank of a rule, 1 to 9,999.
    pub(crate) rank: u16,
    /// A day of the years 1 to 9999, counted from 1970-01-01.
    pub(crate) day: i32,
    /// The kind of an image.
    pub(crate) kind: Kind,
    /// The number of a deed, 1 to 999,999.
    pub(crate) deed: u32,
    /// A SHA-256: of an image, or of a desk key.
    pub(crate) digest: [u8; 32],
}

impl Values {
    ghost use Rattle.rd_messages.specs.PathValues.{scope_in};

    /// The number of the accession or the deed that a rule of a band is for.
    pub(crate) fn scope(&self, band: Band) -> u32
        ensures { result ≡ scope_in band self.now }
    {
        match band {
            Band::Takedown => self.acc,
            Band::Deed => self.deed,
        }
    }
}

/// The day that a path names by a date; `None` if what stands there is no date. It fails only when
/// memory runs out, and takes none for a path without a date.
fn day_in_path(alloc: Global, params: &Params<'_, '_>) -> Result<Option<i32>, NoMemory>
    requires { AllText (parts_in params.now) }
    ensures { IfOk result (λ day. day ≡ day_in (parts_in params.now)) }
{
    match params.get("date") {
        Some(date) => day_of(alloc, date),
        None => Ok(Some(0)),
    }
}

/// The values that a path names beside its day; `None` if a part is not well written.
fn values_with(day: i32, params: &Params<'_, '_>) -> Option<Values>
    requires { AllText (parts_in params.now) }
    ensures { result ≡ values_on day (parts_in params.now) }
{
    Some(Values {
        acc: params.get("acc").map_or(Some(1), scope)?,
        slot: params.get("slot").map_or(Some(0), slot)?,
        rank: params.get("rank").map_or(Some(1), rank)?,
        day,
        kind: params.get("kind").map_or(Some(Kind::D64), kind)?,
        deed: params.get("deed").map_or(Some(1), scope)?,
        digest: params.get("digest").map_or(Some([0; 32]), digest)?,
    })
}

/// The values that a path names; `None` if a part is not well written. It fails only when memory
/// runs out, and takes none for a path without a date.
pub(crate) fn path_values(
    alloc: Global,
    params: &Params<'_, '_>,
) -> Result<Option<Values>, NoMemory>
    requires { AllText (parts_in params.now) }
    ensures { IfOk result (λ values. values ≡ values_in (parts_in params.now)) }
{
    match day_in_path(alloc, params)? {
        Some(day) => Ok(values_with(day, params)),
        None => Ok(None),
    }
}
