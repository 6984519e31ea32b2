//! Reads the bytes that come, and finds what they ask.

ghost use Rattle.std.specs.Prelude.{◌≡◌, ◌⊎◌, ◌↔◌, ℕ, List, Option, Some, true, false, IfOk, IfSome, IsErr, MatchOption, option_map};
ghost use Rattle.sha2.specs.Sha256.{sha256};
ghost use Rattle.std.specs.Io.KnownBytes.{Consumes};
ghost use Rattle.httparse.specs.Spans.{IsRequestWithin};
ghost use Rattle.rd_protocol.specs.Requests.{IsRequest};
ghost use Rattle.rd_messages.specs.Heads.{HasHead};
ghost use Rattle.rd_messages.specs.Readings.{Fits, IsReading, IsParsed, Reads};
ghost use Rattle.rd_messages.specs.Taken.{TakesUpTo};

use crate::bodies::{deed_body, key_body, rule_body};
use crate::body::{ReadBody, read_body};
use crate::fault::RequestFault;
use crate::framing::framing_of;
use crate::head::read_head;
use crate::kept_router::KeptRouter;
use crate::limits::{LONGEST_BODY, LONGEST_REQUEST};
use crate::method::Method;
use crate::route::Route;
use crate::table::Subject;
use crate::values::Values;
use crate::wire::{Broken, Wire};
use crate::workspace::Workspace;
use httparse::spans::{HeaderSpan, RequestSpans};
use rd_geometry::{Items, NoMemory};
use rd_policy::Band;
use rd_protocol::{Request, What};
use sha2::{Digest, Sha256};
use std::alloc::Global;

/// What was read of a visit.
#[derive(Drop)]
pub enum Reading {
    /// A request, whose values are within their limits.
    Request(Request),
    /// Bytes that are no request.
    Fault(RequestFault),
    /// Memory ran out after a head whose fields give the length of its body.
    NoMemory,
}

/// The command to put the deed that a body describes; `None` if it describes none.
fn parse_deed(alloc: Global, values: &Values, body: &[u8]) -> Result<Option<What>, NoMemory>
    ensures { IfOk result (IsParsed Subject.Deed values.now Method.Put body.now) }
{
    match deed_body(alloc, body)? {
        Some((donor, signed)) => Ok(Some(What::PutDeed {
            num: values.deed,
            donor,
            signed,
        })),
        None => Ok(None),
    }
}

/// The command on a rule of a band that a method and a body ask; `None` for `GET` and `POST`, or if
/// the body describes no rule within the limits of its values.
fn parse_rule(
    alloc: Global,
    band: Band,
    values: &Values,
    method: Method,
    body: &[u8],
) -> Result<Option<What>, NoMemory>
    ensures { IfOk result (IsParsed (Subject.Rule band) values.now method body.now) }
{
    let scope = values.scope(band);
    let rank = values.rank;
    match method {
        Method::Put => match rule_body(alloc, band, scope, rank, body)? {
            Some(rule) => Ok(Some(What::PutRule(rule))),
            None => Ok(None),
        },
        Method::Delete => Ok(Some(What::DropRule { band, scope, rank })),
        Method::Get | Method::Post => Ok(None),
    }
}

/// The rehearsal of the command on a rule of a band that a method and a body ask; `None` for `GET`
/// and `POST`, or if the body describes no rule within the limits of its values.
fn parse_rehearsal(
    alloc: Global,
    band: Band,
    values: &Values,
    method: Method,
    body: &[u8],
) -> Result<Option<What>, NoMemory>
    ensures { IfOk result (IsParsed (Subject.Rehearsal band) values.now method body.now) }
{
    let scope = values.scope(band);
    let rank = values.rank;
    match method {
        Method::Put => match rule_body(alloc, band, scope, rank, body)? {
            Some(rule) => Ok(Some(What::RehearseRule(values.day, rule))),
            None => Ok(None),
        },
        Method::Delete => Ok(Some(What::RehearseDrop {
            day: values.day,
            band,
            scope,
            rank,
        })),
        Method::Get | Method::Post => Ok(None),
    }
}

/// The command on a desk key that a method and a body ask; `None` if the body names no audience
/// that has keys.
fn parse_key(
    alloc: Global,
    values: &Values,
    method: Method,
    body: &[u8],
) -> Result<Option<What>, NoMemory>
    ensures { IfOk result (IsParsed Subject.Badge values.now method body.now) }
{
    let digest = values.digest;
    match method {
        Method::Put => match key_body(alloc, body)? {
            Some(audience) => Ok(Some(What::PutKey { digest, audience })),
            None => Ok(None),
        },
        Method::Delete => Ok(Some(What::DropKey { digest })),
        Method::Get | Method::Post => Ok(None),
    }
}

/// What a path asks with a method and a body; `None` if the body says nothing that is within its
/// limits.
fn parse_what(
    alloc: Global,
    subject: Subject,
    values: &Values,
    method: Method,
    body: Vec<u8>,
) -> Result<Option<What>, NoMemory>
    ensures { IfOk result (IsParsed subject values.now method body.items) }
{
    match subject {
        Subject::ByPath(enquiry) => Ok(Some(enquiry.asked(values))),
        Subject::Image => Ok(Some(What::PutImage {
            acc: values.acc,
            kind: values.kind,
            deed: values.deed,
            digest: values.digest,
            bytes: Items::of(body),
        })),
        Subject::Deed => parse_deed(alloc, values, &body),
        Subject::Rule(band) => parse_rule(alloc, band, values, method, &body),
        Subject::Badge => parse_key(alloc, values, method, &body),
        Subject::Rehearsal(band) => parse_rehearsal(alloc, band, values, method, &body),
    }
}

/// The request of a caller; if the body said nothing, or nothing within its limits, a command that
/// cannot be read.
fn request(badge: Option<[u8; 32]>, parsed: Option<What>) -> Request
    ensures badge { result.badge ≡ badge }
    ensures fits { IsRequest result.what }
    ensures what { MatchOption parsed (result.what ≡ What.Unread) (λ what.
        (IsRequest what × (result.what ≡ what)) ⊎ ((¬ IsRequest what) × (result.what ≡ What.Unread))) }
{
    let request = Request {
        badge,
        what: parsed.unwrap_or(What::Unread),
    };
    if request.fits() {
        return request;
    }
    Request {
        badge,
        what: What::Unread,
    }
}

/// The SHA-256 of a desk key.
fn badge(key: Option<&[u8]>) -> Option<[u8; 32]>
    ensures { result ≡ option_map (λ key. sha256 key.now) key.entry }
{
    match key {
        Some(key) => Some(Sha256::digest(key)),
        None => None,
    }
}

/// What a request that came whole asks.
fn read_whole(
    alloc: Global,
    router: &mut KeptRouter,
    name: &[u8],
    target: &[u8],
    key: Option<&[u8]>,
    body: Vec<u8>,
) -> Result<Reading, NoMemory>
    ensures reads { IfOk result (Reads name.now target.now (option_map (λ key. key.now) key.entry) body.items) }
    ensures fits { IfOk result Fits }
{
    let Some(route) = Route::of_target(alloc, router, target)? else {
        return Ok(Reading::Fault(RequestFault::NoRoute));
    };
    let methods = route.served.methods;
    let Some(method) = methods.named(name) else {
        return Ok(Reading::Fault(RequestFault::Method(methods)));
    };
    let parsed = parse_what(alloc, route.served.subject, &route.values, method, body)?;
    Ok(Reading::Request(request(badge(key), parsed)))
}

/// Reads what comes over a connection after a head. The spans say where the parts of the head are
/// in the bytes that have come. It fails when a read fails.
fn read_rest<W: Wire>(
    alloc: Global,
    router: &mut KeptRouter,
    wire: &mut W,
    bytes: &[u8],
    spans: &[HeaderSpan],
    head: RequestSpans,
) -> Result<Reading, Broken>
    requires ready { W.read_failed wire.old ≡ false }
    requires within { IsRequestWithin bytes.now spans.now head }
    ensures reading { IfOk result (λ reading. (stream : List ℕ) → HasHead stream bytes.now spans.now head
        → Consumes (Some stream) (W.incoming wire.old) bytes.now → IsReading stream reading) }
    ensures fits { IfOk result Fits }
    ensures bounded { TakesUpTo LONGEST_BODY (W.incoming wire.old) (W.incoming wire.new) }
    ensures failed { IsErr result ↔ (W.read_failed wire.new ≡ true) }
    ensures kept { W.outgoing wire.new ≡ W.outgoing wire.old }
    ensures came { W.came wire.new ≡ W.came wire.old }
    ensures writes_unchanged { W.write_failed wire.new ≡ W.write_failed wire.old }
{
    let Some(framing) = framing_of(bytes, &spans[..head.headers]) else {
        return Ok(Reading::Fault(RequestFault::Framing));
    };
    let body = match read_body(wire, alloc, &bytes[head.len..], framing.length)? {
        ReadBody::Whole(body) => body,
        ReadBody::Short => return Ok(Reading::Fault(RequestFault::Framing)),
        ReadBody::NoMemory => return Ok(Reading::NoMemory),
    };
    match read_whole(
        alloc,
        router,
        head.method.of(bytes),
        head.path.of(bytes),
        framing.key,
        body,
    ) {
        Ok(reading) => Ok(reading),
        Err(NoMemory) => Ok(Reading::NoMemory),
    }
}

/// Reads what comes over a connection. It fails when a read fails.
pub fn read_request<W: Wire>(
    alloc: Global,
    workspace: &mut Workspace,
    wire: &mut W,
) -> Result<Reading, Broken>
    requires ready { W.read_failed wire.old ≡ false }
    ensures reading { IfOk result (λ reading. IfSome (W.incoming wire.old) (λ stream. IsReading stream reading)) }
    ensures fits { IfOk result Fits }
    ensures bounded { TakesUpTo LONGEST_REQUEST (W.incoming wire.old) (W.incoming wire.new) }
    ensures failed { IsErr result ↔ (W.read_failed wire.new ≡ true) }
    ensures kept { W.outgoing wire.new ≡ W.outgoing wire.old }
    ensures came { W.came wire.new ≡ W.came wire.old }
    ensures writes_unchanged { W.write_failed wire.new ≡ W.write_failed wire.old }
{
    let (found, filled) = read_head(wire, &mut workspace.head, &mut workspace.spans)?;
    match found {
        Some(head) => read_rest(
            alloc,
            &mut workspace.router,
            wire,
            &workspace.head[..filled],
            &workspace.spans,
            head,
        ),
        None => Ok(Reading::Fault(RequestFault::BadHead)),
    }
}
