//! Requests and replies.

use crate::image::{digest_of, image_of};
use anyhow::{Context, Result, bail};
use std::alloc::{AllocError, Global};

/// A request or a reply: its first line, the fields that a trial gives, and its body. Without a
/// first line the body is all its bytes.
#[derive(Drop)]
pub(crate) struct Message<'a> {
    pub(crate) first: Option<&'a str>,
    /// The media type of a reply.
    pub(crate) media: &'static str,
    pub(crate) fields: String,
    pub(crate) body: Vec<u8>,
}

fn whole(head: String, body: &[u8]) -> Result<Vec<u8>, AllocError> {
    let mut bytes = head.into_bytes();
    bytes.extend_from_slice(body)?;
    Ok(bytes)
}

impl<'a> Message<'a> {
    /// A message without a first line, fields and body.
    pub(crate) fn new(alloc: Global) -> Message<'a> {
        Message {
            first: None,
            media: "",
            fields: String::new(alloc),
            body: Vec::new(alloc),
        }
    }

    /// Whether a trial gives nothing of it.
    pub(crate) fn is_empty(&self) -> bool {
        self.first.is_none() && self.body.is_empty()
    }

    /// Adds a line to the head.
    pub(crate) fn add_field(&mut self, name: &str, value: &str) -> Result<(), AllocError> {
        write!(self.fields, "{name}{value}\r\n")
    }

    /// Reads a line about a request: its method and path, the desk key, or a part of the body.
    pub(crate) fn read_request(&mut self, word: &str, text: &'a str) -> Result<(), AllocError> {
        match word {
            "ask" => self.first = Some(text),
            "key" => self.add_field("Desk-Key: ", text)?,
            _ => self.body.extend_from_slice(text.as_bytes())?,
        }
        Ok(())
    }

    /// Reads a line about the head of a reply: its status and its phrase and, for JSON, the body
    /// too.
    pub(crate) fn read_head(&mut self, word: &str, text: &'a str) -> Result<(), AllocError> {
        match word {
            "field" => return self.add_field("", text),
            "csv" => self.media = "text/csv",
            "octets" => self.media = "application/octet-stream",
            _ => self.media = "application/json",
        }
        match text.split_once(" {") {
            Some((first, rest)) if word == "json" => {
                self.first = Some(first);
                self.body.push(b'{')?;
                self.body.extend_from_slice(rest.as_bytes())?;
            }
            _ => self.first = Some(text),
        }
        Ok(())
    }

    /// The digits for the text between braces: `sha256` for the SHA-256 of the body, `sha256` and
    /// a file for that of an image, `badge` and a desk key for that of the key.
    fn digits(&self, rt: &HostRuntime, text: &str) -> Result<String> {
        match text.split_once(' ') {
            None if text == "sha256" => digest_of(rt, self.body.as_slice()),
            Some(("sha256", file)) => digest_of(rt, image_of(rt, file)?.as_slice()),
            Some(("badge", key)) => digest_of(rt, key.as_bytes()),
            _ => bail!("no such digits"),
        }
    }

    /// The first line, with digits in place of the text between braces.
    fn line(&self, rt: &HostRuntime, first: &str) -> Result<String> {
        let Some((before, rest)) = first.split_once('{') else {
            return Ok(String::from_str(rt.alloc(), first)?);
        };
        let (text, after) = rest.split_once('}').context("no brace ends")?;
        let digits = self.digits(rt, text)?;
        Ok(format!(in rt.alloc(); "{before}{digits}{after}")?)
    }

    /// The bytes of a request.
    pub(crate) fn request(&self, rt: &HostRuntime) -> Result<Vec<u8>> {
        let Some(first) = self.first else {
            return Ok(self.body.clone()?);
        };
        let first = self.line(rt, first)?;
        let length = self.body.len();
        let fields = self.fields.as_str();
        let head = format!(in rt.alloc();
            "{first} HTTP/1.1\r\nContent-Length: {length}\r\n{fields}\r\n"
        )?;
        Ok(whole(head, self.body.as_slice())?)
    }

    /// The bytes of a reply.
    pub(crate) fn reply(&self, alloc: Global) -> Result<Vec<u8>, AllocError> {
        let Some(first) = self.first else {
            return self.body.clone();
        };
        let length = self.body.len();
        let media = self.media;
        let fields = self.fields.as_str();
        let head = format!(in alloc;
            "HTTP/1.1 {first}\r\nContent-Type: {media}\r\nContent-Length: {length}\r\nConnection: close\r\n{fields}\r\n"
        )?;
        whole(head, self.body.as_slice())
    }
}
