ghost use Rattle.std.specs.Prelude.{◌≡◌, IfOk, IfErr};
ghost use Rattle.rd_store.specs.Codes.{kind_code, effect_code, audiences_code, audience_code, outcome_code, class_code, units_code, how as how_of, number as number_of, word as word_of};
ghost use Rattle.rd_holdings.specs.State.{band_code};

use crate::faults::StoreFault;
use rd_geometry::Kind;
use rd_holdings::Outcome;
use rd_policy::{Audience, Audiences, Band, Effect, Select};
use std::alloc::Global;

/// The number of a kind in the tables. A D64 with error bytes has that of one without.
pub(crate) fn of_kind(kind: Kind) -> u32
    ensures { result ≡ kind_code kind }
{
    match kind {
        Kind::Cpm8 => 0,
        Kind::D64 | Kind::D64e => 1,
    }
}

/// The number of a band in the tables.
pub(crate) fn of_band(band: Band) -> u32
    ensures { result ≡ band_code band }
{
    match band {
        Band::Takedown => 0,
        Band::Deed => 1,
    }
}

/// The number of an effect in the tables.
pub(crate) fn of_effect(effect: Effect) -> u32
    ensures { result ≡ effect_code effect }
{
    match effect {
        Effect::Deny => 0,
        Effect::List => 1,
        Effect::Read => 2,
    }
}

/// The number of a set of audiences in the tables.
pub(crate) fn of_audiences(set: Audiences) -> u32
    ensures { result ≡ audiences_code set }
{
    let public = if set.public { 1 } else { 0 };
    let room = if set.room { 2 } else { 0 };
    let staff = if set.staff { 4 } else { 0 };
    public + (room + staff)
}

/// The number of an audience in the tables.
pub(crate) fn of_audience(audience: Audience) -> u32
    ensures { result ≡ audience_code audience }
{
    match audience {
        Audience::Public => 0,
        Audience::Room => 1,
        Audience::Staff => 2,
    }
}

/// The number of an outcome in the tables.
pub(crate) fn of_outcome(outcome: Outcome) -> u32
    ensures { result ≡ outcome_code outcome }
{
    match outcome {
        Outcome::Sound => 0,
        Outcome::Changed => 1,
    }
}

/// How a selector selects, in the tables.
pub(crate) fn how(select: &Select) -> u32
    ensures { result ≡ how_of select.now }
{
    match select {
        Select::All => 0,
        Select::Slot(_) => 1,
        Select::Prefix(_) => 2,
        Select::User(_) => 3,
        Select::Kind(_) => 4,
    }
}

/// The number by which a selector selects, 0 where it has none.
pub(crate) fn number(select: &Select) -> u32
    ensures { result ≡ number_of select.now }
{
    match select {
        Select::Slot(slot) => u32::from(*slot),
        Select::User(user) => u32::from(*user),
        _ => 0,
    }
}

/// The text by which a selector selects, empty where it has none.
pub(crate) fn word(select: &Select) -> &str
    ensures { result.now ≡ word_of select.now }
{
    match select {
        Select::Prefix(text) => text.as_str(),
        Select::Kind(text) => text.as_str(),
        _ => "",
    }
}

/// The number of the class of a file in the tables: 1 where it is served.
pub(crate) fn of_class(served: bool) -> u32
    ensures { result ≡ class_code served }
{
    if served { 1 } else { 0 }
}

/// The user of a file in the tables.
pub(crate) fn of_user(user: Option<u8>) -> Option<u32>
    ensures { result ≡ user }
{
    user.map(u32::from)
}

/// The units of a file in the tables: two bytes each, the high byte first.
pub(crate) fn of_units(alloc: Global, units: &[u16]) -> Result<Vec<u8>, StoreFault>
    ensures code { IfOk result (λ code. code.items ≡ units_code units.now) }
    ensures fault { IfErr result (λ fault. fault ≡ StoreFault.Sql) }
{
    let mut code = Vec::new(alloc);
    for unit in units {
        let pair = [(*unit / 256) as u8, (*unit % 256) as u8];
        if code.extend_from_slice(&pair).is_err() {
            return Err(StoreFault::Sql);
        }
    }
    Ok(code)
}
