//! Requests in words that a table can hold.

use super::images::{NewImage, Picture, bytes_of};
use crate::tests::keys::Key;
use rd_desk::{Request, What};
use rd_geometry::{Items, NoMemory};
use rd_policy::{Audience, Band};
use rd_samples::rules::{NewRule, rule_of, text_of};
use sha2::{Digest, Sha256};
use std::alloc::Global;

/// What is asked.
#[derive(Clone, Copy)]
pub(super) enum Ask {
    Images,
    Listing(u32),
    Bytes(u32, u16),
    Catalogue,
    Survey(u32),
    Check(u32),
    Deeds,
    Takedowns,
    Keys,
    Checks,
    /// Of a day.
    Verdicts(i32),
    /// Of a day and an accession.
    VerdictsOf(i32, u32),
    /// Of a day, and a rule that would be put.
    RehearseRule(i32, NewRule),
    /// Of a day, and the place of a rule that would be dropped.
    RehearseDrop(i32, Band, u32, u16),
    PutImage(NewImage),
    /// Of a deed: its number, its donor, and the day on which it was signed.
    PutDeed(u32, &'static str, i32),
    PutRule(NewRule),
    DropRule(Band, u32, u16),
    PutKey(&'static str, Audience),
    DropKey(&'static str),
    Unread,
}

fn digest_of(bytes: &[u8]) -> [u8; 32] {
    Sha256::digest(bytes)
}

fn digest_of_picture(alloc: Global, picture: Picture) -> Result<[u8; 32], NoMemory> {
    let bytes = bytes_of(alloc, picture)?;
    Ok(digest_of(bytes.as_slice()))
}

fn put_image_of(alloc: Global, image: NewImage) -> Result<What, NoMemory> {
    let digest = digest_of_picture(alloc, image.digest)?;
    let bytes = bytes_of(alloc, image.bytes)?;
    Ok(What::PutImage {
        acc: image.acc,
        kind: image.kind,
        deed: image.deed,
        digest,
        bytes: Items::of(bytes),
    })
}

fn put_deed_of(alloc: Global, num: u32, donor: &str, signed: i32) -> Result<What, NoMemory> {
    let donor = text_of(alloc, donor)?;
    Ok(What::PutDeed { num, donor, signed })
}

fn what_of(alloc: Global, ask: Ask) -> Result<What, NoMemory> {
    Ok(match ask {
        Ask::Images => What::Images,
        Ask::Listing(acc) => What::Listing(acc),
        Ask::Bytes(acc, slot) => What::Bytes(acc, slot),
        Ask::Catalogue => What::Catalogue,
        Ask::Survey(acc) => What::Survey(acc),
        Ask::Check(acc) => What::Check(acc),
        Ask::Deeds => What::Deeds,
        Ask::Takedowns => What::Takedowns,
        Ask::Keys => What::Keys,
        Ask::Checks => What::Checks,
        Ask::Verdicts(day) => What::Verdicts(day),
        Ask::VerdictsOf(day, acc) => What::VerdictsOf(day, acc),
        Ask::RehearseRule(day, rule) => What::RehearseRule(day, rule_of(alloc, rule)?),
        Ask::RehearseDrop(day, band, scope, rank) => What::RehearseDrop {
            day,
            band,
            scope,
            rank,
        },
        Ask::PutImage(image) => put_image_of(alloc, image)?,
        Ask::PutDeed(num, donor, signed) => put_deed_of(alloc, num, donor, signed)?,
        Ask::PutRule(rule) => What::PutRule(rule_of(alloc, rule)?),
        Ask::DropRule(band, scope, rank) => What::DropRule { band, scope, rank },
        Ask::PutKey(key, audience) => What::PutKey {
            digest: digest_of(key.as_bytes()),
            audience,
        },
        Ask::DropKey(key) => What::DropKey {
            digest: digest_of(key.as_bytes()),
        },
        Ask::Unread => What::Unread,
    })
}

fn badge_of(key: Key) -> Option<[u8; 32]> {
    match key {
        Some(key) => Some(digest_of(key.as_bytes())),
        None => None,
    }
}

/// The request by which the holder of a key asks.
pub(super) fn request_of(alloc: Global, key: Key, ask: Ask) -> Result<Request, NoMemory> {
    let what = what_of(alloc, ask)?;
    Ok(Request {
        badge: badge_of(key),
        what,
    })
}
