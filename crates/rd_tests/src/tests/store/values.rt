//! Values that no request has: calls of a store that no trial can make.

use super::steps::{
    COMMODORE, CONFLICT, Call, DONE, Digest, Given, MISSING, Named, Picture, Question, Step,
    WITH_MARKS, assert_steps,
};
use super::told::{DATA, HELLO, HELLO_TXT, LOOP, LOST, SEPARATOR};
use super::{CPM, LOOPED, PROGRAM};
use rd_fakes::desk::new_store;
use rd_geometry::Kind;
use rd_policy::{Audience, Band};
use rd_store::{Accession, Outcome};
use std::test::Fail;

/// A CP/M disk under deed 7.
const CONTROL_PROGRAM: Accession = Accession {
    kind: Kind::Cpm8,
    deed: 7,
};

/// The image with one program and error bytes, under deed 7, with the digest of the one without.
const SAME_DIGEST: Given = (Picture::Marked, 7, Digest::Program);

/// A new desk, and then places from which accessions are asked for, and how many.
const BATCHES: &[Step<'static>] = &[
    Step::Tells(Question::AudienceOf(Digest::Staff, Some(Audience::Staff))),
    Step::Tells(Question::AudienceOf(Digest::Room, None)),
    Step::Tells(Question::Deeds(&[])),
    Step::Tells(Question::Accessions(&[])),
    Step::Tells(Question::Register(&[])),
    Step::Tells(Question::Batch(0, 16, &[])),
    Step::Tells(Question::Batch(1, 16, &[])),
    Step::Tells(Question::RulesAmong(12, 7, &[], &[])),
    Step::Does(Call::PutDeed(7, "A. Curator", 18_020), DONE),
    Step::Does(Call::PutImage(12, PROGRAM), DONE),
    Step::Does(Call::PutImage(14, LOOPED), DONE),
    Step::Does(Call::PutImage(15, CPM), DONE),
    Step::Does(Call::PutImage(13, (Picture::Mixed, 7, Digest::Other)), DONE),
    Step::Does(
        Call::PutImage(17, (Picture::Formatted, 7, Digest::Other)),
        DONE,
    ),
    Step::Tells(Question::Batch(
        0,
        16,
        &[
            (12, COMMODORE, &[HELLO]),
            (13, COMMODORE, &[DATA, SEPARATOR, LOST]),
            (14, COMMODORE, &[LOOP]),
            (15, CONTROL_PROGRAM, &[HELLO_TXT]),
            (17, COMMODORE, &[]),
        ],
    )),
    Step::Tells(Question::Batch(
        1,
        2,
        &[
            (13, COMMODORE, &[DATA, SEPARATOR, LOST]),
            (14, COMMODORE, &[LOOP]),
        ],
    )),
    Step::Tells(Question::Batch(3, 1, &[(15, CONTROL_PROGRAM, &[HELLO_TXT])])),
    Step::Tells(Question::Batch(4, 1_000_000, &[(17, COMMODORE, &[])])),
    Step::Tells(Question::Batch(5, 16, &[])),
    Step::Tells(Question::Batch(4_294_967_295, 16, &[])),
    Step::Tells(Question::Batch(2, 0, &[])),
];

/// Numbers that no deed, accession or slot has, and days that no moment has.
const NUMBERS: &[Step<'static>] = &[
    Step::Does(Call::PutDeed(7, "A. Curator", 18_020), DONE),
    Step::Does(Call::PutImage(12, PROGRAM), DONE),
    Step::Tells(Question::Deed(0, None)),
    Step::Tells(Question::Deed(1_000_000, None)),
    Step::Tells(Question::Deed(4_294_967_295, None)),
    Step::Tells(Question::Image(0, None)),
    Step::Tells(Question::Image(1_000_000, None)),
    Step::Tells(Question::Image(4_294_967_295, None)),
    Step::Tells(Question::Accession(0, None)),
    Step::Tells(Question::Accession(1_000_000, None)),
    Step::Tells(Question::Accession(4_294_967_295, None)),
    Step::Tells(Question::Files(0, &[])),
    Step::Tells(Question::Files(1_000_000, &[])),
    Step::Tells(Question::Files(4_294_967_295, &[])),
    Step::Tells(Question::FileAt(12, 65_535, None)),
    Step::Tells(Question::FileAt(0, 0, None)),
    Step::Tells(Question::FileAt(0, 65_535, None)),
    Step::Tells(Question::FileAt(999_999, 65_535, None)),
    Step::Tells(Question::FileAt(1_000_000, 0, None)),
    Step::Tells(Question::FileAt(4_294_967_295, 0, None)),
    Step::Tells(Question::FileAt(4_294_967_295, 65_535, None)),
    Step::Tells(Question::RulesFor(0, &[])),
    Step::Tells(Question::RulesFor(4_294_967_295, &[])),
    Step::Does(Call::PutCheck(0, 20_000, Outcome::Sound), MISSING),
    Step::Does(Call::PutCheck(1_000_000, 20_000, Outcome::Changed), MISSING),
    Step::Does(Call::PutCheck(12, -719_162, Outcome::Changed), DONE),
    Step::Tells(Question::LatestCheck(12, Some((-719_162, Outcome::Changed)))),
    Step::Does(Call::PutCheck(12, 2_932_896, Outcome::Sound), DONE),
    Step::Tells(Question::LatestCheck(12, Some((2_932_896, Outcome::Sound)))),
];

/// Rules of an accession under a deed that is not its own.
const RULES: &[Step<'static>] = &[
    Step::Does(Call::PutDeed(7, "A. Curator", 18_020), DONE),
    Step::Does(Call::PutDeed(8, "B. Donor", 18_321), DONE),
    Step::Does(Call::PutImage(12, PROGRAM), DONE),
    Step::Does(Call::PutImage(13, LOOPED), DONE),
    Step::Does(Call::PutRule(Named::Open, 7), DONE),
    Step::Does(Call::PutRule(Named::Closed, 7), DONE),
    Step::Does(Call::PutRule(Named::Open, 8), DONE),
    Step::Does(Call::PutRule(Named::Takedown, 12), DONE),
    Step::Does(Call::PutRule(Named::Takedown, 13), DONE),
    Step::Tells(Question::RulesUnder(12, 8, &[(Named::Takedown, 12), (Named::Open, 8)])),
    Step::Tells(Question::RulesUnder(99, 7, &[(Named::Closed, 7), (Named::Open, 7)])),
    Step::Tells(Question::RulesUnder(1, 999_999, &[])),
    Step::Tells(Question::RulesUnder(999_999, 1, &[])),
    Step::Tells(Question::RulesAmong(12, 8, &[(Named::Takedown, 12)], &[(Named::Open, 8)])),
    Step::Tells(Question::RulesAmong(13, 9, &[(Named::Takedown, 13)], &[])),
    Step::Tells(Question::RulesAmong(14, 8, &[], &[(Named::Open, 8)])),
    Step::Tells(Question::RulesAmong(7, 12, &[], &[])),
    Step::Tells(Question::RulesAmong(0, 0, &[], &[])),
    Step::Tells(Question::RulesAmong(4_294_967_295, 4_294_967_295, &[], &[])),
    Step::Tells(Question::RulesAt(Band::Takedown, 7, &[])),
    Step::Tells(Question::RulesAt(Band::Deed, 12, &[])),
];

/// Images with a digest that is not that of their bytes: with its kind, deed and digest an image stands already.
const DIGESTS: &[Step<'static>] = &[
    Step::Does(Call::PutDeed(7, "A. Curator", 18_020), DONE),
    Step::Does(Call::PutImage(12, PROGRAM), DONE),
    Step::Does(
        Call::PutImage(12, (Picture::Looped, 7, Digest::Program)),
        DONE,
    ),
    Step::Does(
        Call::PutImage(12, (Picture::Hello, 7, Digest::Program)),
        CONFLICT,
    ),
    Step::Does(
        Call::PutImage(12, (Picture::Marked, 7, Digest::Program)),
        CONFLICT,
    ),
    Step::Does(
        Call::PutImage(12, (Picture::Looped, 9, Digest::Program)),
        MISSING,
    ),
    Step::Tells(Question::Image(12, Some(PROGRAM))),
    Step::Tells(Question::Files(12, &[HELLO])),
    Step::Tells(Question::CachedImage(13, None)),
    Step::Tells(Question::CachedImage(13, None)),
    Step::Tells(Question::CachedImage(12, Some(PROGRAM))),
    Step::Tells(Question::CachedImage(12, Some(PROGRAM))),
    Step::Does(Call::PutImage(13, SAME_DIGEST), DONE),
    Step::Tells(Question::CachedImage(12, Some(PROGRAM))),
    Step::Does(Call::PutImage(12, LOOPED), CONFLICT),
    Step::Tells(Question::CachedImage(12, Some(PROGRAM))),
    Step::Tells(Question::CachedImage(13, Some(SAME_DIGEST))),
    Step::Tells(Question::CachedImage(13, Some(SAME_DIGEST))),
    Step::Tells(Question::CachedImage(13, Some(SAME_DIGEST))),
    Step::Does(
        Call::PutImage(13, (Picture::Unread, 7, Digest::Program)),
        DONE,
    ),
    Step::Tells(Question::Image(13, Some(SAME_DIGEST))),
    Step::Tells(Question::Accession(13, Some(WITH_MARKS))),
    Step::Tells(Question::Files(13, &[HELLO])),
];

const ALL: &[(&str, &[Step<'static>])] = &[
    ("batches", BATCHES),
    ("numbers", NUMBERS),
    ("rules", RULES),
    ("digests", DIGESTS),
];

#[test]
fn values_that_no_request_has(rt: HostRuntime) -> Result<(), Fail> {
    for (label, steps) in ALL {
        let mut desk = new_store(rt.alloc())?;
        assert_steps(&rt, rt.alloc(), &mut desk, label, *steps)?;
    }
    Ok(())
}
