ghost use Rattle.std.specs.Prelude.{◌≡◌, ◌≢◌, ◌/◌, ◌<◌, ◌^◌, ℕ, ℤ, List, FitsSigned, IfOk, IfErr, length, option_map, pos, string_bytes};
ghost use Rattle.std.specs.Int.{w32};
ghost use Rattle.sqlite.specs.declared.types.Value.TheVariants.{Int, Text as Words, Blob};
ghost use Rattle.sqlite.specs.Order.{column};
ghost use Rattle.sqlite.specs.Values.{or_null};
ghost use Rattle.sqlite_value.specs.Order.{bytes};
ghost use Rattle.rd_store.specs.Codes.{kind_in, band_in, effect_in, audiences_in, audience_in, class_in, outcome_in, select_in, units_in};

use crate::faults::StoreFault;
use rd_geometry::{Kind, Text};
use rd_holdings::Outcome;
use rd_policy::{Audience, Audiences, Band, Effect, Select};
use sqlite::Row;
use sqlite::types::ValueRef;
use std::alloc::Global;

/// The natural number in a column. It fails only where none below 2 to the power of 32 is there.
pub(crate) fn number_at(row: &Row, at: usize) -> Result<u32, StoreFault>
    ensures value { IfOk result (λ number. column row.now at ≡ Int (pos number)) }
    ensures fault { IfErr result (λ fault. fault ≡ StoreFault.Sql) }
    ensures none { IfErr result (λ fault. (number : ℕ) → number < 2 ^ 32 → column row.now at ≢ Int (pos number)) }
{
    match row.get_ref(at) {
        Ok(ValueRef::Int(number)) => u32::try_from(number).map_err(|_| StoreFault::Sql),
        _ => Err(StoreFault::Sql),
    }
}

/// The natural number in a column that may be NULL.
#[inline(always)]
pub(crate) fn some_number_at(row: &Row, at: usize) -> Result<Option<u32>, StoreFault>
    ensures value { IfOk result (λ number. column row.now at ≡ or_null Int (option_map pos number)) }
    ensures fault { IfErr result (λ fault. fault ≡ StoreFault.Sql) }
{
    row.get(at).map_err(|_| StoreFault::Sql)
}

/// The day in a column. It fails only where no number that fits in 32 bits is there.
pub(crate) fn day_at(row: &Row, at: usize) -> Result<i32, StoreFault>
    ensures value { IfOk result (λ day. column row.now at ≡ Int day) }
    ensures fault { IfErr result (λ fault. fault ≡ StoreFault.Sql) }
    ensures none { IfErr result (λ fault. (day : ℤ) → FitsSigned w32 day → column row.now at ≢ Int day) }
{
    match row.get_ref(at) {
        Ok(ValueRef::Int(day)) => i32::try_from(day).map_err(|_| StoreFault::Sql),
        _ => Err(StoreFault::Sql),
    }
}

/// The day in a column that may be NULL.
pub(crate) fn some_day_at(row: &Row, at: usize) -> Result<Option<i32>, StoreFault>
    ensures value { IfOk result (λ day. column row.now at ≡ or_null Int day) }
    ensures fault { IfErr result (λ fault. fault ≡ StoreFault.Sql) }
{
    row.get(at).map_err(|_| StoreFault::Sql)
}

/// The text in a column.
pub(crate) fn text_at(row: &Row, at: usize) -> Result<String, StoreFault>
    ensures value { IfOk result (λ text. column row.now at ≡ Words (string_bytes text)) }
    ensures fault { IfErr result (λ fault. fault ≡ StoreFault.Sql) }
{
    row.get(at).map_err(|_| StoreFault::Sql)
}

/// The digest in a column. It fails only where no 32 bytes are there.
pub(crate) fn digest_at(row: &Row, at: usize) -> Result<[u8; 32], StoreFault>
    ensures value { IfOk result (λ digest. column row.now at ≡ Blob digest) }
    ensures fault { IfErr result (λ fault. fault ≡ StoreFault.Sql) }
    ensures none { IfErr result (λ fault. (digest : List ℕ) → length digest ≡ 32 → column row.now at ≢ Blob digest) }
{
    match row.get_ref(at) {
        Ok(ValueRef::Blob(bytes)) => <[u8; 32]>::try_from(bytes).map_err(|_| StoreFault::Sql),
        _ => Err(StoreFault::Sql),
    }
}

/// A copy of the bytes in a column.
pub(crate) fn bytes_at(alloc: Global, row: &Row, at: usize) -> Result<Vec<u8>, StoreFault>
    ensures value { IfOk result (λ copy. column row.now at ≡ Blob copy.items) }
    ensures fault { IfErr result (λ fault. fault ≡ StoreFault.Sql) }
{
    match row.get_ref(at) {
        Ok(ValueRef::Blob(bytes)) => { Vec::from_slice(alloc, bytes).map_err(|_| StoreFault::Sql) }
        _ => Err(StoreFault::Sql),
    }
}

/// The kind with a number, without error bytes.
pub(crate) fn kind(code: u32) -> Kind
    ensures { result ≡ kind_in code }
{
    match code {
        0 => Kind::Cpm8,
        _ => Kind::D64,
    }
}

/// The band with a number.
pub(crate) fn band(code: u32) -> Band
    ensures { result ≡ band_in code }
{
    match code {
        0 => Band::Takedown,
        _ => Band::Deed,
    }
}

/// The effect with a number.
pub(crate) fn effect(code: u32) -> Effect
    ensures { result ≡ effect_in code }
{
    match code {
        0 => Effect::Deny,
        1 => Effect::List,
        _ => Effect::Read,
    }
}

/// The set of audiences with a number.
pub(crate) fn audiences(code: u32) -> Audiences
    ensures { result ≡ audiences_in code }
{
    Audiences {
        public: code % 2 == 1,
        room: code / 2 % 2 == 1,
        staff: code / 4 % 2 == 1,
    }
}

/// The audience with a number.
pub(crate) fn audience(code: u32) -> Audience
    ensures { result ≡ audience_in code }
{
    match code {
        0 => Audience::Public,
        1 => Audience::Room,
        _ => Audience::Staff,
    }
}

/// The outcome with a number.
pub(crate) fn outcome(code: u32) -> Outcome
    ensures { result ≡ outcome_in code }
{
    match code {
        0 => Outcome::Sound,
        _ => Outcome::Changed,
    }
}

/// The selector that three columns spell.
pub(crate) fn select(how: u32, number: u32, word: String) -> Result<Select, StoreFault>
    ensures value { IfOk result (λ select. select ≡ select_in how number (string_bytes word)) }
    ensures fault { IfErr result (λ fault. fault ≡ StoreFault.Sql) }
{
    match how {
        0 => Ok(Select::All),
        1 => match u16::try_from(number) {
            Ok(slot) => Ok(Select::Slot(slot)),
            Err(_) => Err(StoreFault::Sql),
        },
        2 => Ok(Select::Prefix(Text::of(word))),
        3 => match u8::try_from(number) {
            Ok(user) => Ok(Select::User(user)),
            Err(_) => Err(StoreFault::Sql),
        },
        _ => Ok(Select::Kind(Text::of(word))),
    }
}

/// Whether the class with a number is that which is served.
pub(crate) fn class(code: u32) -> bool
    ensures { result ≡ class_in code }
{
    code == 1
}

/// Fills a slice with the units that bytes spell, two for each, the high byte first.
fn spell_out(units: &mut [u16], bytes: &[u8])
    requires { length units.old ≡ length bytes.now / 2 }
    ensures { units.new ≡ units_in bytes.now }
{
    let count = bytes.len() / 2;
    for at in 0..count {
        units[at] = 256 * bytes[2 * at] as u16 + bytes[2 * at + 1] as u16;
    }
}

/// The units that bytes spell, two for each, the high byte first.
#[inline(always)]
pub(crate) fn units(alloc: Global, bytes: &[u8]) -> Result<Vec<u16>, StoreFault>
    ensures value { IfOk result (λ units. units.items ≡ units_in bytes.now) }
    ensures fault { IfErr result (λ fault. fault ≡ StoreFault.Sql) }
{
    let mut units = Vec::new(alloc);
    if units.resize(bytes.len() / 2, 0).is_err() {
        return Err(StoreFault::Sql);
    }
    spell_out(units.as_mut_slice(), bytes);
    Ok(units)
}
