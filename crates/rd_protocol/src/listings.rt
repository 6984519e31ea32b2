//! The files of an accession as JSON (RFC 8259): written token by token, without building a value first.

ghost use Rattle.std.specs.Prelude.{◌≡◌, IfOk, OnOk, map, string_bytes};
ghost use Rattle.serde_json.specs.Data.{array};
ghost use Rattle.serde_json.specs.View.{items_of};
ghost use Rattle.rd_policy.specs.Verdicts.{label_text};
ghost use Rattle.rd_volume.specs.Words.{words_of};
ghost use Rattle.rd_protocol.specs.Lent.{held};
ghost use Rattle.rd_protocol.specs.Texts.{file_data, in_json, line_data, listing_data, natural_or_null, texts};
ghost use Rattle.rd_protocol.specs.Tokens.{Gains, tokens_of};

use crate::body::Body;
use crate::response::{Form, Line, Listing, Reply};
use json::Writer;
use rd_geometry::{Items, Kind, NoMemory};
use rd_policy::Label;
use rd_volume::{Found, fault_words};
use std::alloc::{AllocError, Global};

/// Writes a number, or null if there is none.
fn put_some_number(out: &mut Writer, number: Option<u32>) -> Result<(), AllocError>
    ensures { OnOk result (Gains out.old out.new (tokens_of (natural_or_null number))) }
{
    match number {
        Some(number) => out.u64(number as u64),
        None => out.null(),
    }
}

/// A user number as a longer number.
pub(crate) fn user_number(user: Option<u8>) -> Option<u32>
    ensures { result ≡ user }
{
    user.map(u32::from)
}

/// Writes the words of a file's faults as an array.
fn put_words(out: &mut Writer, kind: Kind, faults: u8) -> Result<(), AllocError>
    ensures { OnOk result (Gains out.old out.new (tokens_of (texts (words_of kind faults)))) }
{
    out.begin_array()?;
    for word in fault_words(kind, faults) {
        out.string(word)?;
    }
    out.end_array()
}

/// Writes a file of an image of a kind, with the word of an effect and the label of a rule.
fn put_file(
    out: &mut Writer,
    effect: &str,
    rule: &str,
    kind: Kind,
    file: &Found,
) -> Result<(), AllocError>
    ensures { OnOk result (Gains out.old out.new
        (tokens_of (file_data effect.now (texts (words_of kind file.now.faults)) rule.now file.now))) }
{
    // Each key is a literal at its call, so that the compiler knows its bytes.
    out.begin_object()?;
    out.key("effect")?;
    out.string(effect)?;
    out.key("faults")?;
    put_words(out, kind, file.faults)?;
    out.key("name")?;
    out.string(file.name.as_str())?;
    out.key("rule")?;
    out.string(rule)?;
    out.key("size")?;
    put_some_number(out, file.size)?;
    out.key("slot")?;
    out.u64(file.slot as u64)?;
    out.key("type")?;
    out.string(file.ty.as_str())?;
    out.key("user")?;
    put_some_number(out, user_number(file.user))?;
    out.end_object()
}

/// The label of a rule with its text.
#[derive(Drop)]
struct RuleText {
    label: Label,
    text: String,
    ghost of_label: { string_bytes text ≡ label_text label },
}

impl RuleText {
    fn of(alloc: Global, label: Label) -> Result<RuleText, AllocError>
        ensures { IfOk result (λ rule. rule.label ≡ label) }
    {
        let text = label.to_string(alloc)?;
        Ok(RuleText { label, text })
    }

    /// A label with its text, which is not made again if it is the one here.
    fn with_label(self, alloc: Global, label: Label) -> Result<RuleText, AllocError>
        ensures { IfOk result (λ rule. rule.label ≡ label) }
    {
        if self.label == label {
            Ok(self)
        } else {
            RuleText::of(alloc, label)
        }
    }
}

/// Writes a listed file of an image of a kind, with the label of the rule that decided.
fn put_line(out: &mut Writer, kind: Kind, rule: &RuleText, line: &Line) -> Result<(), AllocError>
    requires { rule.now.label ≡ line.now.verdict.label }
    ensures { OnOk result (Gains out.old out.new (tokens_of (line_data kind line.now))) }
{
    let effect = line.verdict.effect.word();
    put_file(out, effect, rule.text.as_str(), kind, &line.file)
}

/// Writes the files of an image of a kind as an array.
fn put_lines(out: &mut Writer, alloc: Global, kind: Kind, lines: &[Line]) -> Result<(), AllocError>
    ensures { OnOk result (Gains out.old out.new (tokens_of (array (items_of (map (line_data kind) lines.now))))) }
{
    out.begin_array()?;
    let mut rule = RuleText::of(alloc, Label::Default)?;
    for line in lines {
        rule = rule.with_label(alloc, line.verdict.label)?;
        put_line(out, kind, &rule, line)?;
    }
    out.end_array()
}

/// Writes an accession with its listed files.
fn put_listing(out: &mut Writer, alloc: Global, listing: &Listing) -> Result<(), AllocError>
    ensures { OnOk result (Gains out.old out.new (tokens_of (listing_data listing.now))) }
{
    out.begin_object()?;
    out.key("accession")?;
    out.u64(listing.accession as u64)?;
    out.key("deed")?;
    out.u64(listing.deed as u64)?;
    out.key("files")?;
    put_lines(out, alloc, listing.kind, listing.files.as_slice())?;
    out.key("kind")?;
    out.string(listing.kind.word())?;
    out.end_object()
}

/// The reply with the bytes of a JSON text as its body.
fn reply_of_bytes(bytes: Vec<u8>) -> Reply
    ensures { result ≡ record { status = 200; form = Form.Json; body = held bytes.items } }
{
    Reply {
        status: 200,
        form: Form::Json,
        body: Body::table(Items::of(bytes)),
    }
}

/// The reply that gives an accession with its listed files.
pub(crate) fn listing_reply(alloc: Global, listing: &Listing) -> Result<Reply, NoMemory>
    ensures { IfOk result (λ reply. reply ≡ in_json 200 (listing_data listing.now)) }
{
    let mut out = Writer::new(Vec::with_capacity(alloc, 4_096)?);
    put_listing(&mut out, alloc, listing)?;
    Ok(reply_of_bytes(out.into_inner()))
}
