//! The options that commands have in common: files with a key and with a zone, a day in place of a moment, and whether
//! a refusal is explained.

ghost use Rattle.std.specs.Prelude.{◌≡◌, ◌⊎◌, ◌↔◌, Bool, IfErr, IfNone, IfOk, IfSome, IsSome, IsTrue, None, OnOk, codes, option_map, ℤ};
ghost use Rattle.clap.specs.Words.{first_of, found_of, one_of, rows_of, subcommand_rows_of};
ghost use Rattle.rd_policy.specs.Dates.{IsDateOf};
ghost use Rattle.rd_commands.specs.CommonOptions.{EntersApart, EntersOptions, EntersTogether, GoTogether, HasMoment, IsApart, GivesOptions, IsDayOfMoment, IsMomentText, IsPlain, IsSeconds, KeysFit, MomentFits, NeedsKey, TakesKey, ZonesFit};
ghost use Rattle.rd_commands.specs.Zones.{HasClocks, IsFlagGiven};
ghost use Rattle.rd_commands.specs.declared.words.Unread.TheVariants as Unread;

use crate::words::{Ask, Unread};
use clap::ArgMatches;
use rd_policy::{DateFault, date_read};
use std::alloc::Global;

/// The options that commands have in common.
#[derive(Clone, Copy, Debug)]
pub struct CommonOptions<'a> {
    /// Whether a refusal is explained.
    pub explain: bool,
    /// The path of a file with a desk key, or a hyphen for standard input.
    pub key_file: Option<&'a str>,
    /// The path of a file with the rule of the desk's clocks.
    pub zone_file: Option<&'a str>,
    /// The day at whose first moment the desk is asked, counted from 1970-01-01.
    pub day: Option<i32>,
}

impl CommonOptions<'_> {
    /// Whether no operand is in a file, and no day stands in place of a moment.
    pub fn is_plain(&self) -> bool
        ensures { IsTrue result ↔ IsPlain self.now }
    {
        self.key_file.is_none() && self.zone_file.is_none() && self.day.is_none()
    }
}

/// The words of a command, as they are parsed.
///
/// What is in a file is not in what it asks for yet: the key is empty there, and the clocks are those of UTC. If there is
/// a day, there is no moment yet.
#[derive(Clone, Copy, Debug)]
pub struct Parsed<'a> {
    /// What the command asks for, as far as the words say it.
    pub ask: Ask<'a>,
    /// The options that commands have in common.
    pub options: CommonOptions<'a>,
}

/// Whether a flag is set.
pub(crate) fn is_set(found: &ArgMatches, id: &str) -> bool
    ensures { (flag : Bool) → IsFlagGiven (one_of id.now (rows_of (found_of found.now))) flag → result ≡ flag }
{
    found.get_flag(id)
}

/// The seconds that a text writes, `None` if it writes none.
pub(crate) fn seconds_read(text: &str) -> Option<i64>
    ensures written { IfSome result (IsSeconds text.now) }
    ensures none { IfNone result ((seconds : ℤ) → ¬ IsSeconds text.now seconds) }
{
    let Ok(seconds) = text.parse::<i64>() else {
        return None;
    };
    if seconds < 0 {
        return None;
    }
    Some(seconds)
}

/// The day whose date a text is.
///
/// It fails with `Moment` when the text is no date, and with `NoMemory`.
fn day_read(alloc: Global, text: &str) -> Result<i32, Unread>
    ensures day { IfOk result (λ day. IsDateOf day text.now) }
    ensures none { IfErr result (λ fault. fault ≡ Unread.Moment → (day : ℤ) → ¬ IsDateOf day text.now) }
    ensures failed { IfErr result (λ fault. (fault ≡ Unread.Moment) ⊎ (fault ≡ Unread.NoMemory)) }
{
    match date_read(alloc, text) {
        Ok(day) => Ok(day),
        Err(DateFault::BadDate) => Err(Unread::Moment),
        Err(DateFault::NoMemory) => Err(Unread::NoMemory),
    }
}

/// The day that stands in place of a moment; `None` if the text writes seconds, or is absent.
///
/// It fails with `Moment` when the text is neither a number of seconds nor a date, and with `NoMemory`.
fn day_of_moment(alloc: Global, found: &ArgMatches) -> Result<Option<i32>, Unread>
    ensures given { IfOk result (IsDayOfMoment (first_of (codes "at") (rows_of (found_of found.now)))) }
    ensures fits { OnOk result (IsMomentText (first_of (codes "at") (rows_of (found_of found.now)))) }
    ensures none { IfErr result (λ fault. fault ≡ Unread.Moment → ¬ IsMomentText (first_of (codes "at") (rows_of (found_of found.now)))) }
    ensures failed { IfErr result (λ fault. (fault ≡ Unread.Moment) ⊎ (fault ≡ Unread.NoMemory)) }
{
    let Some(text) = found.get_str("at") else {
        return Ok(None);
    };
    match seconds_read(text) {
        Some(_) => Ok(None),
        None => Ok(Some(day_read(alloc, text)?)),
    }
}

/// Whether a command needs a key.
fn needs_key(name: &str) -> bool
    ensures { IsTrue result ↔ NeedsKey name.now }
{
    name == "init" || name == "import" || name == "check" || name == "show" || name == "staff-key"
}

/// Whether a command takes a key.
fn takes_key(name: &str) -> bool
    ensures { IsTrue result ↔ TakesKey name.now }
{
    needs_key(name) || name == "export"
}

/// Whether a command asks a desk at a moment.
fn has_moment(name: &str) -> bool
    ensures { IsTrue result ↔ HasMoment name.now }
{
    name == "import" || name == "export" || name == "check" || name == "show"
}

/// Whether a command has clocks.
fn has_clocks(name: &str) -> bool
    ensures { IsTrue result ↔ HasClocks name.now }
{
    name == "serve" || has_moment(name)
}

/// Whether an option is there.
fn is_there(found: &ArgMatches, id: &str) -> bool
    ensures { IsTrue result ↔ IsSome (first_of id.now (rows_of (found_of found.now))) }
{
    found.get_str(id).is_some()
}

/// Looks whether there is one key, on the command line or in a file, if the command needs one, and otherwise at most
/// one.
///
/// It fails with `Key`.
fn check_keys(name: &str, found: &ArgMatches) -> Result<(), Unread>
    ensures fit { OnOk result (KeysFit name.now (rows_of (found_of found.now))) }
    ensures apart { IfErr result (λ _. ¬ KeysFit name.now (rows_of (found_of found.now))) }
    ensures failed { IfErr result (λ fault. fault ≡ Unread.Key) }
{
    let key = is_there(found, "key");
    let file = is_there(found, "key-file");
    if takes_key(name) && key && file {
        return Err(Unread::Key);
    }
    if needs_key(name) && !key && !file {
        return Err(Unread::Key);
    }
    Ok(())
}

/// Looks whether there is at most one rule for clocks, if the command has clocks.
///
/// It fails with `Zones`.
fn check_zones(name: &str, found: &ArgMatches) -> Result<(), Unread>
    ensures fit { OnOk result (ZonesFit name.now (rows_of (found_of found.now))) }
    ensures apart { IfErr result (λ _. ¬ ZonesFit name.now (rows_of (found_of found.now))) }
    ensures failed { IfErr result (λ fault. fault ≡ Unread.Zones) }
{
    if has_clocks(name) && is_there(found, "zone") && is_there(found, "zone-file") {
        return Err(Unread::Zones);
    }
    Ok(())
}

/// The text of an option, `None` if it is absent or the command takes none.
fn text_if<'a>(takes: bool, found: &ArgMatches<'a>, id: &str) -> Option<&'a str>
    ensures given { IsTrue takes → option_map (λ text. text.now) result ≡ first_of id.now (rows_of (found_of found.now)) }
    ensures absent { ¬ IsTrue takes → result ≡ None }
{
    if takes { found.get_str(id) } else { None }
}

/// The day that stands in place of the moment at which a command asks a desk; `None` if it asks at none.
///
/// It fails as `day_of_moment` does.
fn day_of_command(alloc: Global, name: &str, found: &ArgMatches) -> Result<Option<i32>, Unread>
    ensures given { IfOk result (λ day. HasMoment name.now → IsDayOfMoment (first_of (codes "at") (rows_of (found_of found.now))) day) }
    ensures absent { IfOk result (λ day. ¬ HasMoment name.now → day ≡ None) }
    ensures fits { OnOk result (MomentFits name.now (rows_of (found_of found.now))) }
    ensures none { IfErr result (λ fault. fault ≡ Unread.Moment → ¬ MomentFits name.now (rows_of (found_of found.now))) }
    ensures failed { IfErr result (λ fault. (fault ≡ Unread.Moment) ⊎ (fault ≡ Unread.NoMemory)) }
{
    if has_moment(name) {
        return day_of_moment(alloc, found);
    }
    Ok(None)
}

/// The common options of the command of this name.
///
/// It fails with `Key`, `Zones` and `Moment` when they do not go together, and with `NoMemory`.
fn options_of<'a>(
    alloc: Global,
    name: &str,
    found: &ArgMatches<'a>,
) -> Result<CommonOptions<'a>, Unread>
    ensures given { IfOk result (GivesOptions name.now (rows_of (found_of found.now))) }
    ensures together { OnOk result (GoTogether name.now (rows_of (found_of found.now))) }
    ensures apart { IfErr result (λ fault. IsApart fault → ¬ GoTogether name.now (rows_of (found_of found.now))) }
    ensures failed { IfErr result (λ fault. IsApart fault ⊎ (fault ≡ Unread.NoMemory)) }
{
    check_keys(name, found)?;
    check_zones(name, found)?;
    let day = day_of_command(alloc, name, found)?;
    Ok(CommonOptions {
        explain: is_set(found, "explain"),
        key_file: text_if(takes_key(name), found, "key-file"),
        zone_file: text_if(has_clocks(name), found, "zone-file"),
        day,
    })
}

/// The common options, from a parse of the words; none is set if it found no command.
///
/// It fails as `options_of` does.
pub(crate) fn options_found<'a>(
    alloc: Global,
    matches: &ArgMatches<'a>,
) -> Result<CommonOptions<'a>, Unread>
    ensures given { IfOk result (EntersOptions (subcommand_rows_of matches.now)) }
    ensures together { OnOk result (EntersTogether (subcommand_rows_of matches.now)) }
    ensures apart { IfErr result (λ fault. IsApart fault → EntersApart (subcommand_rows_of matches.now)) }
    ensures failed { IfErr result (λ fault. IsApart fault ⊎ (fault ≡ Unread.NoMemory)) }
{
    match matches.subcommand() {
        Some((name, found)) => options_of(alloc, name, found),
        None => Ok(CommonOptions {
            explain: false,
            key_file: None,
            zone_file: None,
            day: None,
        }),
    }
}
