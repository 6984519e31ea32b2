//! The lines of a reply before its body.

ghost use Rattle.std.specs.Prelude.{◌≡◌, ◌+◌, ◌≤◌, ◌++◌, [], length};
ghost use Rattle.rd_messages.specs.ReplyText.{challenge_of, head_text, phrase_of, type_of};

use rd_protocol::Form;
use std::marker::Model;

/// The lines of a reply before its body, which contracts see as the list of their bytes: at most 256. They
/// take no memory.
#[derive(Drop)]
pub(crate) struct Head {
    bytes: [u8; 256],
    len: usize,
}

impl Model for Head {
    ghost use Rattle.std.specs.Prelude.{ℕ, List, take, ◌≤◌};

    ghost Value = { List ℕ };

    ghost view = { λ head. take head.len head.bytes };

    ghost invariant = { λ head. head.len ≤ 256 };
}

impl Head {
    fn new() -> Head
        ensures { result ≡ [] }
    {
        Head {
            bytes: [0; 256],
            len: 0,
        }
    }

    /// Its bytes.
    pub(crate) fn as_slice(&self) -> &[u8]
        ensures { result.now ≡ self.now }
    {
        &self.bytes[..self.len]
    }

    /// Appends bytes for which there is room.
    fn push(&mut self, text: &[u8])
        requires { length self.old + length text.now ≤ 256 }
        ensures { self.new ≡ self.old ++ text.now }
    {
        let len = self.len;
        let end = len + text.len();
        self.bytes[len..end].copy_from_slice(text);
        self.len = end;
    }
}

/// The phrase that goes with a status.
fn phrase(status: u16) -> &'static str
    ensures phrase { result.now ≡ phrase_of status }
    ensures short { length result.now ≤ 21 }
{
    match status {
        200 => "OK",
        400 => "Bad Request",
        401 => "Unauthorized",
        403 => "Forbidden",
        404 => "Not Found",
        405 => "Method Not Allowed",
        409 => "Conflict",
        422 => "Unprocessable Content",
        _ => "Service Unavailable",
    }
}

/// The media type of a body, as a head names it.
fn type_name(form: Form) -> &'static str
    ensures name { result.now ≡ type_of form }
    ensures short { length result.now ≤ 24 }
{
    match form {
        Form::Json => "application/json",
        Form::Csv => "text/csv",
        Form::Octets => "application/octet-stream",
    }
}

/// The line that only a reply of status 401 has; empty with any other.
pub(crate) fn challenge(status: u16) -> &'static str
    ensures line { result.now ≡ challenge_of status }
    ensures short { length result.now ≤ 40 }
{
    match status {
        401 => "WWW-Authenticate: Desk-Key\r\n",
        _ => "",
    }
}

/// The lines before a body of this length. `extra` is a line that only this reply has, of at most
/// 40 bytes with the CR LF at its end, or empty.
pub(crate) fn head_of(status: u16, form: Form, len: usize, extra: &str) -> Head
    requires { length extra.now ≤ 40 }
    ensures { result ≡ head_text status form len extra.now }
{
    let mut head = Head::new();
    head.push(b"HTTP/1.1 ");
    head.push(itoa::Buffer::new().format(status).as_bytes());
    head.push(b" ");
    head.push(phrase(status).as_bytes());
    head.push(b"\r\nContent-Type: ");
    head.push(type_name(form).as_bytes());
    head.push(b"\r\nContent-Length: ");
    head.push(itoa::Buffer::new().format(len).as_bytes());
    head.push(b"\r\nConnection: close\r\n");
    head.push(extra.as_bytes());
    head.push(b"\r\n");
    head
}
