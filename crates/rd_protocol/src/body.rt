ghost use Rattle.std.specs.Prelude.{◌≡◌, ◌<◌, ◌≤◌, All, IfSome, length, take};
ghost use Rattle.std.specs.Iterator.{YieldsFirstBy};
ghost use Rattle.std.specs.List.{concat};
ghost use Rattle.rd_volume.specs.Fronts.{AreOfFront};
ghost use Rattle.rd_volume.specs.PiecesLeft.{pieces_left as pieces_of_file_left};
ghost use Rattle.rd_protocol.specs.BodyPieces.{in_one_piece, pieces_left};
ghost use Rattle.rd_protocol.specs.Lent.{bytes_lent, held, lent_out};
ghost use Rattle.rd_protocol.specs.Slices.{AreSlicesOf, not_empty};

use crate::contents::Contents;
use rd_geometry::{Items, Text};
use rd_volume::Pieces;
use std::marker::Model;
use std::mem;

/// The body of a reply. Contracts see its bytes. Of a body that gives a file, they also see the image and the file from
/// which it lends its bytes; of any other body they see neither, because the bytes are its own.
#[derive(Drop)]
pub struct Body {
    inner: Inner,
}

/// What holds the bytes of a body.
#[derive(Drop)]
enum Inner {
    /// A text of the program itself. It takes no memory.
    Fixed(&'static str),
    /// A text written for the reply.
    Written(Text),
    /// A table written for the reply.
    Table(Items<u8>),
    /// The contents of a file: its image, and the record of the file.
    File(Contents),
}

impl Model for Body {
    ghost use Rattle.rd_protocol.specs.Lent.{BodyView};

    ghost Value = { BodyView };

    ghost use Rattle.rd_protocol.specs.Bodies.{body_of};

    ghost view = { λ body. body_of body.inner };
}

impl Body {
    /// A text of the program itself. It takes no memory.
    pub(crate) fn fixed(text: &'static str) -> Body
        ensures { result ≡ held text.entry.now }
    {
        Body {
            inner: Inner::Fixed(text),
        }
    }

    /// A text written for the reply, as a body.
    pub(crate) fn text(text: Text) -> Body
        ensures { result ≡ held text }
    {
        Body {
            inner: Inner::Written(text),
        }
    }

    /// A table written for the reply, as a body.
    pub(crate) fn table(bytes: Items<u8>) -> Body
        ensures { result ≡ held bytes }
    {
        Body {
            inner: Inner::Table(bytes),
        }
    }

    /// The contents of a file.
    pub(crate) fn file(contents: Contents) -> Body
        ensures { result ≡ lent_out contents }
    {
        Body {
            inner: Inner::File(contents),
        }
    }

    /// How many bytes it has.
    pub fn len(&self) -> usize
        ensures { result ≡ length self.now.bytes }
    {
        match &self.inner {
            Inner::Fixed(text) => text.len(),
            Inner::Written(text) => text.as_str().len(),
            Inner::Table(bytes) => bytes.as_slice().len(),
            Inner::File(contents) => contents.len(),
        }
    }

    /// Its bytes in pieces, in order. No piece is empty, so an empty body has none. Each piece of a
    /// file is a slice of the image that the body lends from: it lies in the unit of the disk that
    /// holds these bytes, and begins at the first byte of a CP/M sector, or at the third byte of a
    /// 1541 block, after the link.
    pub fn pieces(&self) -> BodyPieces<'_>
        ensures whole { concat (pieces_left result) ≡ self.now.bytes }
        ensures filled { All (λ piece. 0 < length piece) (pieces_left result) }
        ensures slices { IfSome self.now.lent (λ lent. AreSlicesOf lent (pieces_left result)) }
    {
        match &self.inner {
            Inner::Fixed(text) => pieces_of_text(text.as_bytes()),
            Inner::Written(text) => pieces_of_text(text.as_str().as_bytes()),
            Inner::Table(bytes) => pieces_of_text(bytes.as_slice()),
            Inner::File(contents) => pieces_of_file(contents),
        }
    }
}

/// The pieces of a body that are still to come, in order: slices that the body lends, none of them
/// empty. The iterator takes no memory.
#[derive(Drop)]
pub struct BodyPieces<'a> {
    left: Left<'a>,
}

/// What is left of a body.
#[derive(Drop)]
enum Left<'a> {
    /// Of a text or a table.
    Text(&'a [u8]),
    /// Of the contents of a file.
    File(Pieces<'a>),
}

/// A text as one piece, or as none if it is empty.
fn pieces_of_text(text: &[u8]) -> BodyPieces<'_>
    ensures whole { concat (pieces_left result) ≡ text.now }
    ensures filled { All (λ piece. 0 < length piece) (pieces_left result) }
{
    BodyPieces {
        left: Left::Text(text),
    }
}

/// The pieces of a file.
fn pieces_of_file(contents: &Contents) -> BodyPieces<'_>
    ensures whole { concat (pieces_left result) ≡ bytes_lent contents.now }
    ensures filled { All (λ piece. 0 < length piece) (pieces_left result) }
    ensures slices { AreSlicesOf contents.now (pieces_left result) }
{
    BodyPieces {
        left: Left::File(contents.pieces()),
    }
}

/// The rest of a text, if any is left.
fn next_of_text<'a>(rest: &mut &'a [u8]) -> Option<&'a [u8]>
    ensures { YieldsFirstBy (λ piece. piece.now) (λ rest. in_one_piece rest.now) rest.old result rest.new }
{
    if rest.is_empty() {
        return None;
    }
    Some(mem::take(rest))
}

/// The next piece of a file that is not empty.
fn next_of_file<'a>(pieces: &mut Pieces<'a>) -> Option<&'a [u8]>
    ensures { YieldsFirstBy (λ piece. piece.now) (λ pieces. not_empty (pieces_of_file_left pieces)) pieces.old result pieces.new }
{
    while let Some(piece) = pieces.next() {
        if !piece.is_empty() {
            return Some(piece);
        }
    }
    None
}

/// Copies pieces of a file to the front of a slice, one after the other: as many as have room there, but never the last.
/// It gives how many bytes they have. They do not come again.
fn copy_front_of_file(pieces: &mut Pieces<'_>, into: &mut [u8]) -> usize
    ensures within { result ≤ length into.new }
    ensures copied { AreOfFront (not_empty (pieces_of_file_left pieces.old)) (not_empty (pieces_of_file_left pieces.new))
        (take result into.new) }
{
    pieces.copy_front(into)
}

impl BodyPieces<'_> {
    /// Copies pieces to the front of a slice, one after the other, and gives how many bytes they have: of the pieces of
    /// a file as many as have room there, but never the last; of a text or a table none. They do not come again.
    #[tactic(auto, using(crate::proofs::FrontLemmas::no_front))]
    pub fn copy_front(&mut self, into: &mut [u8]) -> usize
        ensures within { result ≤ length into.new }
        ensures copied { AreOfFront (pieces_left self.old) (pieces_left self.new) (take result into.new) }
    {
        match &mut self.left {
            Left::Text(_) => 0,
            Left::File(pieces) => copy_front_of_file(pieces, into),
        }
    }
}

impl<'a> Iterator for BodyPieces<'a> {
    ghost use Rattle.std.specs.Iterator.{item_count};

    type Item = &'a [u8];

    ghost next_gives = { YieldsFirstBy (λ piece. piece.now) pieces_left };

    ghost remaining = { item_count pieces_left };

    fn next(&mut self) -> Option<&'a [u8]> {
        match &mut self.left {
            Left::Text(rest) => next_of_text(rest),
            Left::File(pieces) => next_of_file(pieces),
        }
    }
}
