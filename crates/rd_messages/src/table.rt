//! The requests that desk serves, in one table, and the router built from it.

ghost use Rattle.std.specs.Prelude.{◌≡◌, true, [], map, IfOk, OnOk};
ghost use Rattle.matchit.specs.Route.{parse_route};
ghost use Rattle.rd_messages.specs.Table.{all_insert, inserts, requests, router_rows, with_row, with_rows};

use crate::enquiry::Enquiry;
use crate::enquiry::Enquiry::*;
use crate::method::Methods;
use crate::method::Methods::{Get, Post, Put, PutOrDelete};
use crate::table::Subject::{Badge, ByPath, Deed, Image, Rehearsal, Rule};
use matchit::{InsertError, Router};
use rd_geometry::NoMemory;
use rd_policy::Band;
use std::alloc::Global;

/// What a request is about.
#[derive(Clone, Copy)]
pub(crate) enum Subject {
    /// What the path alone asks.
    ByPath(Enquiry),
    /// An image to take in.
    Image,
    /// A deed.
    Deed,
    /// A rule of a band.
    Rule(Band),
    /// A desk key.
    Badge,
    /// What a rule of a band would change on a day if it were put, or removed.
    Rehearsal(Band),
}

/// What desk serves at the paths of a row: the methods that it takes there, and what they are
/// about.
#[derive(Clone, Copy)]
pub(crate) struct Served {
    pub(crate) methods: Methods,
    pub(crate) subject: Subject,
}

/// Each row: its paths, where a name in braces stands for a part that writes the value of this
/// name, the methods, and what they are about.
const TABLE: [(&str, Methods, Subject); 20] = [
    ("/images", Get, ByPath(Images)),
    ("/images/{acc}", Get, ByPath(Listing)),
    ("/images/{acc}/files/{slot}", Get, ByPath(Bytes)),
    ("/images/{acc}/survey", Get, ByPath(Survey)),
    ("/images/{acc}/check", Post, ByPath(Check)),
    (
        "/images/{acc}/rules/{rank}",
        PutOrDelete,
        Rule(Band::Takedown),
    ),
    ("/accessions/{acc}/{kind}/{deed}/{digest}", Put, Image),
    ("/deeds/{deed}", Put, Deed),
    ("/deeds/{deed}/rules/{rank}", PutOrDelete, Rule(Band::Deed)),
    ("/badges/{digest}", PutOrDelete, Badge),
    ("/catalogue", Get, ByPath(Catalogue)),
    ("/staff/deeds", Get, ByPath(Deeds)),
    ("/staff/takedowns", Get, ByPath(Takedowns)),
    ("/staff/keys", Get, ByPath(Keys)),
    ("/staff/checks", Get, ByPath(Checks)),
    ("/staff/today", Get, ByPath(Today)),
    ("/staff/verdicts/{date}", Get, ByPath(Verdicts)),
    ("/staff/verdicts/{date}/{acc}", Get, ByPath(VerdictsOf)),
    (
        "/staff/rehearsals/{date}/deeds/{deed}/rules/{rank}",
        PutOrDelete,
        Rehearsal(Band::Deed),
    ),
    (
        "/staff/rehearsals/{date}/images/{acc}/rules/{rank}",
        PutOrDelete,
        Rehearsal(Band::Takedown),
    ),
];

/// Adds a row that is well written and conflicts with none that the router has. It fails only when
/// memory runs out.
fn take_in(router: &mut Router<Served>, text: &str, served: Served) -> Result<(), NoMemory>
    requires { inserts (parse_route text.now) router.old ≡ true }
    ensures { OnOk result (router.new ≡ with_row (parse_route text.now) served router.old) }
{
    match router.insert(text, served) {
        Ok(()) => Ok(()),
        Err(InsertError::OutOfMemory) => Err(NoMemory),
        Err(_) => unreachable!(),
    }
}

/// A router of rows, each of which fits beside those before it. It fails only when memory runs out.
fn router_of(alloc: Global, table: &[(&str, Methods, Subject)]) -> Result<Router<Served>, NoMemory>
    requires { all_insert (map (λ row. (row.0.now, row.1, row.2)) table.now) [] ≡ true }
    ensures { IfOk result (λ router. router ≡ with_rows (map (λ row. (row.0.now, row.1, row.2)) table.now) []) }
{
    let mut router = Router::new(alloc);
    for (text, methods, subject) in table {
        let served = Served {
            methods: *methods,
            subject: *subject,
        };
        take_in(&mut router, text, served)?;
    }
    Ok(router)
}

/// The table.
fn table() -> &'static [(&'static str, Methods, Subject)]
    ensures { map (λ row. (row.0.now, row.1, row.2)) result.now ≡ requests }
{
    &TABLE
}

/// The router of the table. It fails only when memory runs out.
#[tactic(auto, unfolding(crate::specs::Table::router_rows))]
pub(crate) fn router(alloc: Global) -> Result<Router<Served>, NoMemory>
    ensures { IfOk result (λ router. router ≡ router_rows) }
{
    router_of(alloc, table())
}
