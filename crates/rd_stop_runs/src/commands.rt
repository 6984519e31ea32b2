//! Commands of the staff.

use rd_desk::{Request, What};
use rd_geometry::{Items, Kind, NoMemory};
use rd_policy::Audience;
use rd_samples::cbm::{add_marks, looped, one_program};
use rd_samples::cpm::hello;
use rd_samples::keys::STAFF_DIGEST;
use rd_samples::rules::{NewRule, rule_of, text_of};
use sha2::{Digest, Sha256};
use std::alloc::Global;

/// A sample image.
#[derive(Clone, Copy)]
pub(crate) enum Sample {
    /// The 1541 image with the program `HELLO`.
    Program,
    /// The 1541 image with a program whose chain is a loop.
    Looped,
    /// The same with error bytes, all of them 1.
    LoopedWithMarks,
    /// The CP/M image with the file `HELLO.TXT`.
    Record,
}

/// The SHA-256 of each sample image, as whoever gives it would know it: a desk refuses an image with another.
const PROGRAM_DIGEST: [u8; 32] = [
    0xee, 0x35, 0x28, 0x34, 0xe0, 0x6f, 0x2b, 0x57, 0x2e, 0x65, 0x49, 0x0e, 0xb8, 0x45, 0x93, 0x97,
    0x24, 0xcc, 0x38, 0x54, 0x2a, 0xed, 0x18, 0xac, 0xdf, 0x81, 0xed, 0xed, 0x76, 0x91, 0x2a, 0xfb,
];

const LOOPED_DIGEST: [u8; 32] = [
    0x29, 0xbd, 0x47, 0x50, 0x06, 0x27, 0xf9, 0x34, 0xd5, 0x0b, 0xff, 0x93, 0x80, 0xa0, 0xfc, 0x11,
    0x91, 0x3e, 0x61, 0x55, 0xe4, 0x46, 0xd3, 0x2e, 0xa7, 0x9b, 0x7e, 0xcc, 0x5f, 0x7a, 0x6c, 0x17,
];

const LOOPED_WITH_MARKS_DIGEST: [u8; 32] = [
    0x4a, 0xfe, 0xff, 0xbd, 0xb6, 0x79, 0xdc, 0x2b, 0x80, 0xc9, 0xd7, 0x52, 0x6e, 0xc1, 0xf9, 0x2e,
    0x0d, 0xa7, 0x6e, 0x10, 0x89, 0x70, 0x1a, 0x42, 0x33, 0xf3, 0xc8, 0xcc, 0xd3, 0x73, 0xe0, 0x20,
];

const RECORD_DIGEST: [u8; 32] = [
    0xe2, 0x9a, 0x4c, 0x10, 0xd2, 0xd4, 0xfb, 0x7d, 0x39, 0x66, 0x00, 0xcd, 0xbd, 0x0f, 0x1c, 0x94,
    0x6c, 0x6e, 0xad, 0x6f, 0xe1, 0xa3, 0x6f, 0xeb, 0xe3, 0xf0, 0x99, 0x3d, 0x73, 0xe5, 0x26, 0x27,
];

#[derive(Clone, Copy)]
pub(crate) enum Command {
    /// A desk key and its audience.
    PutKey(&'static str, Audience),
    DropKey(&'static str),
    /// A deed: its number, its donor, and the day on which they signed it.
    PutDeed {
        num: u32,
        donor: &'static str,
        /// In days since 1970-01-01.
        signed: i32,
    },
    PutRule(NewRule),
    DropRule(NewRule),
    /// An accession under deed 7, and its image.
    PutImage(u32, Sample),
    Check(u32),
}

/// The bytes of a sample image.
pub(crate) fn bytes_of(alloc: Global, sample: Sample) -> Result<Vec<u8>, NoMemory> {
    match sample {
        Sample::Program => one_program(alloc),
        Sample::Looped => looped(alloc),
        Sample::LoopedWithMarks => {
            let mut image = looped(alloc)?;
            add_marks(&mut image)?;
            Ok(image)
        }
        Sample::Record => hello(alloc),
    }
}

/// The kind of a sample image, and its SHA-256.
fn kind_and_digest_of(sample: Sample) -> (Kind, [u8; 32]) {
    match sample {
        Sample::Program => (Kind::D64, PROGRAM_DIGEST),
        Sample::Looped => (Kind::D64, LOOPED_DIGEST),
        Sample::LoopedWithMarks => (Kind::D64e, LOOPED_WITH_MARKS_DIGEST),
        Sample::Record => (Kind::Cpm8, RECORD_DIGEST),
    }
}

fn put_image(alloc: Global, acc: u32, sample: Sample) -> Result<What, NoMemory> {
    let bytes = Items::of(bytes_of(alloc, sample)?);
    let (kind, digest) = kind_and_digest_of(sample);
    Ok(What::PutImage {
        acc,
        kind,
        deed: 7,
        digest,
        bytes,
    })
}

fn what_of(alloc: Global, command: Command) -> Result<What, NoMemory> {
    Ok(match command {
        Command::PutKey(key, audience) => What::PutKey {
            digest: Sha256::digest(key.as_bytes()),
            audience,
        },
        Command::DropKey(key) => What::DropKey {
            digest: Sha256::digest(key.as_bytes()),
        },
        Command::PutDeed { num, donor, signed } => What::PutDeed {
            num,
            donor: text_of(alloc, donor)?,
            signed,
        },
        Command::PutRule(rule) => What::PutRule(rule_of(alloc, rule)?),
        Command::DropRule(rule) => What::DropRule {
            band: rule.band,
            scope: rule.scope,
            rank: rule.rank,
        },
        Command::PutImage(acc, sample) => put_image(alloc, acc, sample)?,
        Command::Check(acc) => What::Check(acc),
    })
}

/// The request by which the staff gives a command.
pub(crate) fn request_of(alloc: Global, command: Command) -> Result<Request, NoMemory> {
    Ok(Request {
        badge: Some(STAFF_DIGEST),
        what: what_of(alloc, command)?,
    })
}
