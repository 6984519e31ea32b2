//! Lists as JSON (RFC 8259): sent to the writer event by event, without building a value first.

ghost use Rattle.std.specs.Prelude.{◌≡◌, IfOk, OnOk, string_bytes};
ghost use Rattle.serde.specs.Event.{Logs, Then, field_key};
ghost use Rattle.serde.specs.declared.name.Case.TheVariants.{AsIs};
ghost use Rattle.serde_json.specs.Events.{SendsValue};
ghost use Rattle.rd_protocol.specs.Lent.{held};
ghost use Rattle.rd_protocol.specs.Texts.{image_data, images_data, in_json};

use crate::body::Body;
use crate::response::{Form, ImageLine, Reply};
use rd_geometry::{NoMemory, Text};
use serde::{Described, Serialize, Serializer};
use std::alloc::Global;

/// Accessions with at least one listed file.
#[derive(Clone, Copy)]
struct Images<'a> {
    lines: &'a [ImageLine],
}

/// Sends a member of an object.
pub(crate) fn send_member<V: Serialize, S: Serializer>(
    out: &mut S,
    key: &str,
    value: &V,
) -> Result<(), S::Error>
    ensures { OnOk result (Then (λ old new. Logs old new (field_key key.now AsIs)) (V.writes value.now) (S.written out.old) (S.written out.new)) }
{
    out.key(key)?;
    value.serialize(out)
}

impl Described for ImageLine {
    ghost writes = { λ line. SendsValue (image_data line) };
}

impl Serialize for ImageLine {
    fn serialize<S: Serializer>(&self, out: &mut S) -> Result<(), S::Error> {
        out.begin_map(Some(4))?;
        send_member(out, "accession", &self.accession)?;
        send_member(out, "deed", &self.deed)?;
        send_member(out, "files", &self.files)?;
        send_member(out, "kind", &self.kind.word())?;
        out.end_map()
    }
}

impl Described for Images<'_> {
    ghost writes = { λ images. SendsValue (images_data images.lines.now) };
}

impl Serialize for Images<'_> {
    fn serialize<S: Serializer>(&self, out: &mut S) -> Result<(), S::Error> {
        out.begin_map(Some(1))?;
        send_member(out, "images", &self.lines)?;
        out.end_map()
    }
}

/// The reply with a text of JSON as its body.
pub(crate) fn listed_reply(text: String) -> Reply
    ensures { result ≡ record { status = 200; form = Form.Json; body = held (string_bytes text) } }
{
    Reply {
        status: 200,
        form: Form::Json,
        body: Body::text(Text::of(text)),
    }
}

/// The reply that lists the accessions with at least one listed file.
pub(crate) fn images_reply(alloc: Global, lines: &[ImageLine]) -> Result<Reply, NoMemory>
    ensures { IfOk result (λ reply. reply ≡ in_json 200 (images_data lines.now)) }
{
    match serde_json::to_string(alloc, &Images { lines }) {
        Ok(text) => Ok(listed_reply(text)),
        // Each error becomes `NoMemory`: keys are texts, nothing is flattened, no number is a float.
        Err(_) => Err(NoMemory),
    }
}
