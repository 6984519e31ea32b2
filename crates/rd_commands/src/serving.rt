//! Where `serve` has visits come, and how long a visitor may take, as its words give them.

ghost use Rattle.std.specs.Prelude.{◌≡◌, IfErr, IfSome, IsSomeAnd, List, None, Ok, OnOk, Some, codes, ℕ};
ghost use Rattle.std.specs.Str.Parse.{ParsesUnsigned};
ghost use Rattle.std.specs.declared.num.ParseIntError.{ParseIntError};
ghost use Rattle.clap.specs.Words.{first_of, found_of, one_of, rows_of, subcommand_rows_of};
ghost use Rattle.rd_commands.specs.Asks.{EntersAtAPlace, EntersNoPlace};
ghost use Rattle.rd_commands.specs.Serving.{AreSeconds, GivesTimeouts, IsCountGiven, IsCountUsed, IsNumberGiven, IsPortUsed, NamesOnePlace, NamesPlace, place_of};
ghost use Rattle.rd_commands.specs.Serving.Place.{Socket};
ghost use Rattle.rd_commands.specs.Serving as spec;
ghost use Rattle.rd_commands.specs.declared.words.Unread.TheVariants as Unread;

use crate::words::Unread;
use clap::ArgMatches;

/// Where visits come.
#[derive(Clone, Copy, Debug)]
pub enum Place<'a> {
    /// At a port of the machine itself, 1 to 65,535.
    Port(u16),
    /// At a Unix socket at a path.
    Socket(&'a str),
}

/// How long a visitor may take, in seconds, 1 to 3,600 each.
#[derive(Clone, Copy, Debug)]
pub struct Timeouts {
    /// For the whole request.
    pub request: u16,
    /// For each wait until the system has room for a byte of the reply.
    pub write: u16,
    /// For the whole reply.
    pub reply: u16,
}

/// The port that its option reads as, `None` if there is none.
fn port_asked(found: &ArgMatches) -> Option<u16>
    ensures asked { (text : List ℕ) (port : ℕ)
        → one_of (codes "port") (rows_of (found_of found.now)) ≡ Some text
        → ParsesUnsigned {E = ParseIntError} 16 10 text (Ok port) → result ≡ Some port }
    ensures given { IfSome result (IsNumberGiven (one_of (codes "port") (rows_of (found_of found.now)))) }
{
    found.get_one::<u16>("port")
}

/// The Unix socket at a path, as the place; `None` if there is a port as well.
fn socket_alone<'a>(found: &ArgMatches, path: &'a str) -> Option<Place<'a>>
    ensures alone { first_of (codes "port") (rows_of (found_of found.now)) ≡ None
        → IsSomeAnd result (λ one. place_of one ≡ Socket path.now) }
    ensures named { IfSome result (λ one. (place_of one ≡ Socket path.now)
        × (first_of (codes "port") (rows_of (found_of found.now)) ≡ None)) }
{
    match found.get_str("port") {
        Some(_) => None,
        None => Some(Place::Socket(path)),
    }
}

/// The port of visits where the words name none.
const USUAL_PORT: u16 = 8_041;

/// The port that its option gives, 8041 if it is absent; `None` if its text is no port.
fn port_used(found: &ArgMatches) -> Option<u16>
    ensures asked { (port : ℕ) → IsPortUsed (rows_of (found_of found.now)) port → result ≡ Some port }
    ensures given { IfSome result (IsPortUsed (rows_of (found_of found.now))) }
{
    match found.get_str("port") {
        Some(_) => port_asked(found),
        None => Some(USUAL_PORT),
    }
}

/// The number of visits that its option reads as, `None` if there is none.
fn count_given(found: &ArgMatches) -> Option<u32>
    ensures asked { (text : List ℕ) (count : ℕ)
        → one_of (codes "count") (rows_of (found_of found.now)) ≡ Some text
        → ParsesUnsigned {E = ParseIntError} 32 10 text (Ok count) → result ≡ Some count }
    ensures given { IfSome result (IsCountGiven (one_of (codes "count") (rows_of (found_of found.now)))) }
{
    found.get_one::<u32>("count")
}

/// How many visits its option gives, the most that one run serves if it is absent; `None` if its text is no number.
pub(crate) fn count_asked(found: &ArgMatches) -> Option<u32>
    ensures asked { (count : ℕ) → IsCountUsed (rows_of (found_of found.now)) count → result ≡ Some count }
    ensures given { IfSome result (IsCountUsed (rows_of (found_of found.now))) }
{
    match found.get_str("count") {
        Some(_) => count_given(found),
        None => Some(u32::MAX),
    }
}

/// The place that one of its two options gives, and the port 8041 if neither does; `None` if both do.
pub(crate) fn place_asked<'a>(found: &ArgMatches<'a>) -> Option<Place<'a>>
    ensures asked { (place : spec.Place) → NamesPlace (rows_of (found_of found.now)) place
        → IsSomeAnd result (λ one. place_of one ≡ place) }
    ensures named { IfSome result (λ one. NamesPlace (rows_of (found_of found.now)) (place_of one)) }
{
    match found.get_str("socket") {
        Some(path) => socket_alone(found, path),
        None => Some(Place::Port(port_used(found)?)),
    }
}

/// Looks whether the options of `serve` name one place.
///
/// It fails with `Place` when they name two.
fn check_one_place(found: &ArgMatches) -> Result<(), Unread>
    ensures named { OnOk result (NamesOnePlace (rows_of (found_of found.now))) }
    ensures none { IfErr result (λ _. ¬ NamesOnePlace (rows_of (found_of found.now))) }
    ensures failed { IfErr result (λ fault. fault ≡ Unread.Place) }
{
    match place_asked(found) {
        Some(_) => Ok(()),
        None => Err(Unread::Place),
    }
}

/// Looks whether `serve` has one place, from a parse of the words; there is nothing to look at if they are of another
/// command.
///
/// It fails as `check_one_place` does.
pub(crate) fn check_place(matches: &ArgMatches) -> Result<(), Unread>
    ensures named { OnOk result (EntersAtAPlace (subcommand_rows_of matches.now)) }
    ensures none { IfErr result (λ _. EntersNoPlace (subcommand_rows_of matches.now)) }
    ensures failed { IfErr result (λ fault. fault ≡ Unread.Place) }
{
    match matches.subcommand_matches("serve") {
        Some(found) => check_one_place(found),
        None => Ok(()),
    }
}

/// The seconds that an option gives, and so many if it is absent.
fn seconds_asked(found: &ArgMatches, name: &str, usual: u16) -> u16
    ensures { AreSeconds usual (one_of name.now (rows_of (found_of found.now))) result }
{
    found.get_one::<u16>(name).unwrap_or(usual)
}

/// How long a visitor may take, as the options give it: ten seconds for a request, ten for a write and sixty for a
/// reply where they do not.
pub(crate) fn timeouts_asked(found: &ArgMatches) -> Timeouts
    ensures { GivesTimeouts (rows_of (found_of found.now)) result }
{
    Timeouts {
        request: seconds_asked(found, "request-timeout", 10),
        write: seconds_asked(found, "write-timeout", 10),
        reply: seconds_asked(found, "reply-timeout", 60),
    }
}
