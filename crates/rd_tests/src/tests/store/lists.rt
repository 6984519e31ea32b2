//! All deeds, all keys, the latest check of an accession, and the rules of a band alone: whether they are those wanted.

use super::steps::{Digest, digest_of, is_deed};
use rd_policy::{Audience, Band, Rule};
use rd_store::{DeedRow, Outcome, Store, StoreFault};
use sqlite::Alter;
use std::alloc::Global;

fn deeds<S: Alter>(alloc: Global, desk: &mut Store<S>) -> Result<Vec<(u32, DeedRow)>, StoreFault> {
    desk.deeds(alloc)
}

pub(super) fn has_deeds<S: Alter>(
    alloc: Global,
    desk: &mut Store<S>,
    wanted: &[(u32, &str, i32)],
) -> Result<bool, StoreFault> {
    let found = deeds(alloc, desk)?;
    for (one, wanted) in found.iter().zip(wanted) {
        let (num, donor, signed) = *wanted;
        if one.0 != num || !is_deed(Some(&one.1), Some((donor, signed))) {
            return Ok(false);
        }
    }
    Ok(found.len() == wanted.len())
}

fn keys<S: Alter>(
    alloc: Global,
    desk: &mut Store<S>,
) -> Result<Vec<([u8; 32], Audience)>, StoreFault> {
    desk.keys(alloc)
}

pub(super) fn has_keys<S: Alter>(
    alloc: Global,
    desk: &mut Store<S>,
    wanted: &[(Digest, Audience)],
) -> Result<bool, StoreFault> {
    let found = keys(alloc, desk)?;
    for (one, wanted) in found.iter().zip(wanted) {
        if one.0 != *digest_of(wanted.0) || one.1 != wanted.1 {
            return Ok(false);
        }
    }
    Ok(found.len() == wanted.len())
}

fn latest_check<S: Alter>(
    desk: &mut Store<S>,
    acc: u32,
) -> Result<Option<(i32, Outcome)>, StoreFault> {
    match desk.latest_check(acc)? {
        Some(found) => Ok(Some((found.day, found.outcome))),
        None => Ok(None),
    }
}

pub(super) fn has_latest_check<S: Alter>(
    desk: &mut Store<S>,
    acc: u32,
    wanted: Option<(i32, Outcome)>,
) -> Result<bool, StoreFault> {
    Ok(latest_check(desk, acc)? == wanted)
}

pub(super) fn rules_at<S: Alter>(
    alloc: Global,
    desk: &mut Store<S>,
    band: Band,
    scope: u32,
) -> Result<Vec<Rule>, StoreFault> {
    desk.rules_at(alloc, band, scope)
}
