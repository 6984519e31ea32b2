//! Answers as replies: JSON, the table of the catalogue, and the bytes of files.

ghost use Rattle.std.specs.Prelude.{◌≡◌, false, IfOk};
ghost use Rattle.serde_json.specs.Data.{no_members, string};
ghost use Rattle.serde_json.specs.View.{view};
ghost use Rattle.serde_json.specs.Written.{has_float};
ghost use Rattle.rd_volume.specs.Words.{words_of};
ghost use Rattle.rd_protocol.specs.Lent.{held};
ghost use Rattle.rd_protocol.specs.Refusals.{name_of};
ghost use Rattle.rd_protocol.specs.Texts.{DONE, UNAVAILABLE, counts_data, day_data, detail_of, error_data, in_json, map_data, outcome_data, reply_of, rule_member, survey_data, surveyed_data, texts};

use crate::body::Body;
use crate::catalogue::table;
use crate::listings::listing_reply;
use crate::lists::images_reply;
use crate::refusal::Refusal;
use crate::response::{Form, Reply, Response, Survey};
use crate::staff_lists::{date, list_reply};
use crate::verdicts::{differences_table, verdicts_table};
use rd_geometry::{Kind, NoMemory, Text};
use rd_holdings::Outcome;
use rd_volume::{MapReport, fault_words};
use serde_json::{Value, json};
use std::alloc::{AllocError, Global};

fn text_value(alloc: Global, text: &str) -> Result<Value, AllocError>
    ensures { IfOk result (λ value. view value ≡ string text.now) }
{
    Ok(Value::String(String::from_str(alloc, text)?))
}

/// The words of the faults whose bits are set, in the order of the bits.
fn fault_values(alloc: Global, kind: Kind, faults: u8) -> Result<Value, AllocError>
    ensures { IfOk result (λ value. view value ≡ texts (words_of kind faults)) }
{
    let mut list = Vec::new(alloc);
    for word in fault_words(kind, faults) {
        list.push(text_value(alloc, word)?)?;
    }
    Ok(Value::Array(list))
}

/// An error with its name alone.
fn plain_error(alloc: Global, name: &str) -> Result<Value, AllocError>
    ensures { IfOk result (λ value. view value ≡ error_data name.now no_members) }
{
    json!(in alloc; {"error": name})
}

/// An error with its name and the label of the rule that decided.
fn ruled_error(alloc: Global, name: &str, rule: &str) -> Result<Value, AllocError>
    ensures { IfOk result (λ value. view value ≡ error_data name.now (rule_member rule.now)) }
{
    json!(in alloc; {"error": name, "rule": rule})
}

fn refusal_value(alloc: Global, refusal: Refusal) -> Result<Value, AllocError>
    ensures { IfOk result (λ value. view value ≡ error_data (name_of refusal) (detail_of refusal)) }
{
    let name = refusal.name();
    match refusal {
        Refusal::UnknownKey => ruled_error(alloc, name, "K0"),
        Refusal::StaffOnly => ruled_error(alloc, name, "S0"),
        Refusal::Denied(label) => ruled_error(alloc, name, label.to_string(alloc)?.as_str()),
        Refusal::Faulty(kind, faults) => {
            json!(in alloc; {"error": name, "faults": fault_values(alloc, kind, faults)?})
        }
        Refusal::BadBody
        | Refusal::NoAccession
        | Refusal::NoFile
        | Refusal::NoDeed
        | Refusal::ListedOnly
        | Refusal::WrongSize
        | Refusal::DigestDiffers
        | Refusal::Conflict => plain_error(alloc, name),
    }
}

fn counts_value(alloc: Global, map: &MapReport) -> Result<Value, AllocError>
    ensures { IfOk result (λ value. view value ≡ counts_data map.now) }
{
    json!(in alloc; {
        "claimed_free": map.claimed_free,
        "unclaimed_used": map.unclaimed_used,
        "wrong_counts": map.wrong_counts
    })
}

/// What is wrong with the block map of an image, in counts; null for a kind that has no block map.
fn map_value(alloc: Global, kind: Kind, map: &MapReport) -> Result<Value, AllocError>
    ensures { IfOk result (λ value. view value ≡ map_data kind map.now) }
{
    match kind {
        Kind::Cpm8 => Ok(Value::Null),
        Kind::D64 | Kind::D64e => counts_value(alloc, map),
    }
}

/// A survey, with the words for the kind and for the directory's end, and the value for the block
/// map.
fn survey_value(
    alloc: Global,
    kind: &str,
    directory: &str,
    map: Value,
    survey: &Survey,
) -> Result<Value, AllocError>
    ensures { IfOk result (λ value. view value ≡ survey_data kind.now directory.now (view map) survey.now) }
{
    json!(in alloc; {
        "accession": survey.accession,
        "deed": survey.deed,
        "directory": directory,
        "donor": survey.donor.as_str(),
        "faulty": survey.report.faulty,
        "files": survey.report.files,
        "kind": kind,
        "label": survey.report.label.as_str(),
        "map": map,
        "served": survey.report.served,
        "signed": survey.signed.as_str(),
        "size_differs": survey.report.size_differs
    })
}

fn surveyed_value(alloc: Global, survey: &Survey) -> Result<Value, AllocError>
    ensures { IfOk result (λ value. view value ≡ surveyed_data survey.now) }
{
    let map = map_value(alloc, survey.kind, &survey.report.map)?;
    let directory = survey.report.directory.word();
    survey_value(alloc, survey.kind.word(), directory, map, survey)
}

fn day_value(alloc: Global, day: i32) -> Result<Value, NoMemory>
    ensures { IfOk result (λ value. view value ≡ day_data day) }
{
    let date = date(alloc, day)?;
    Ok(json!(in alloc; {"day": date.as_str()})?)
}

fn json_reply(alloc: Global, status: u16, value: &Value) -> Result<Reply, NoMemory>
    requires { has_float (view value.now) ≡ false }
    ensures { IfOk result (λ reply. reply ≡ in_json status (view value.now)) }
{
    let text = Text::of(value.to_string(alloc)?);
    Ok(Reply {
        status,
        form: Form::Json,
        body: Body::text(text),
    })
}

/// A reply with a status, whose body is a text of the program itself, in JSON. It takes no memory.
pub fn fixed_reply(status: u16, text: &'static str) -> Reply
    ensures { result ≡ record { status = status; form = Form.Json; body = held text.entry.now } }
{
    Reply {
        status,
        form: Form::Json,
        body: Body::fixed(text),
    }
}

/// The reply after a command is done. It takes no memory.
pub fn done() -> Reply
    ensures { result ≡ in_json 200 DONE }
{
    fixed_reply(200, "{\"done\":true}")
}

fn sound() -> Reply
    ensures { result ≡ in_json 200 (outcome_data Outcome.Sound) }
{
    fixed_reply(200, "{\"outcome\":\"sound\"}")
}

fn changed() -> Reply
    ensures { result ≡ in_json 200 (outcome_data Outcome.Changed) }
{
    fixed_reply(200, "{\"outcome\":\"changed\"}")
}

/// The reply to a check, by what it found. It takes no memory.
pub fn checked(outcome: Outcome) -> Reply
    ensures { result ≡ in_json 200 (outcome_data outcome) }
{
    match outcome {
        Outcome::Sound => sound(),
        Outcome::Changed => changed(),
    }
}

/// The reply when the database fails or memory runs out: status 503 and `{"error":"unavailable"}`.
/// It takes no memory.
pub fn unavailable() -> Reply
    ensures { result ≡ UNAVAILABLE }
{
    fixed_reply(503, "{\"error\":\"unavailable\"}")
}

/// The reply that gives an answer: its status, and its body as JSON (RFC 8259), as CSV (RFC 4180)
/// for a catalogue, or as the bytes of a file. An error is `NoMemory`.
pub fn reply_to(alloc: Global, answer: Response) -> Result<Reply, NoMemory>
    ensures { IfOk result (λ reply. reply ≡ reply_of answer) }
{
    match answer {
        Response::Refused(refusal) => {
            json_reply(alloc, refusal.status(), &refusal_value(alloc, refusal)?)
        }
        Response::Done => Ok(done()),
        Response::Images(lines) => images_reply(alloc, lines.as_slice()),
        Response::Listed(listing) => listing_reply(alloc, &listing),
        Response::File(contents) => Ok(Reply {
            status: 200,
            form: Form::Octets,
            body: Body::file(contents),
        }),
        Response::Catalogue(listings) => Ok(Reply {
            status: 200,
            form: Form::Csv,
            body: Body::table(table(alloc, listings.as_slice())?),
        }),
        Response::Surveyed(survey) => json_reply(alloc, 200, &surveyed_value(alloc, &survey)?),
        Response::Checked(outcome) => Ok(checked(outcome)),
        Response::Deeds(lines) => list_reply(alloc, "deeds", lines.as_slice()),
        Response::Takedowns(lines) => list_reply(alloc, "takedowns", lines.as_slice()),
        Response::Keys(lines) => list_reply(alloc, "keys", lines.as_slice()),
        Response::Checks(lines) => list_reply(alloc, "checks", lines.as_slice()),
        Response::Today(day) => json_reply(alloc, 200, &day_value(alloc, day)?),
        Response::Verdicts(verdicts) => Ok(Reply {
            status: 200,
            form: Form::Csv,
            body: Body::table(verdicts_table(alloc, verdicts.as_slice())?),
        }),
        Response::Rehearsed(differences) => Ok(Reply {
            status: 200,
            form: Form::Csv,
            body: Body::table(differences_table(alloc, differences.as_slice())?),
        }),
    }
}
