//! Desks that hold something, and what is asked of them.

use super::images::PROGRAM_12;
use super::requests::Ask;
use rd_desk::{Reply, Request};
use rd_fakes::desk::Memory;
use rd_policy::Audience;
use rd_samples::rules::{CLOSED, OPEN};
use std::alloc::Global;
use std::process::Abort;

/// What a new desk is given.
pub(super) const GIVEN: &[Ask] = &[
    Ask::PutKey("hello", Audience::Room),
    Ask::PutDeed(7, "A. Curator", 18_020),
    Ask::PutDeed(8, "B. Donor", 18_321),
    Ask::PutRule(CLOSED),
    Ask::PutRule(OPEN),
    Ask::PutImage(PROGRAM_12),
];

/// The reply to a request. Its values are within their limits, and the moment has a day.
pub(super) fn answer(
    rt: &impl Abort,
    alloc: Global,
    desk: &mut Memory,
    seconds: i64,
    request: &Request,
) -> Reply {
    assert!(rt; request.fits());
    assert!(rt; desk.day(seconds).is_ok());
    desk.answer(alloc, seconds, request)
}
