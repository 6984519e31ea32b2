//! Compares the desks of two stores, row by row and image by image.

ghost use Rattle.std.specs.Prelude.{◌≡◌, ◌≢◌, ◌<◌, IsSome, false, length};
ghost use Rattle.std.specs.FinMap.{get};
ghost use Rattle.sqlite.specs.Order.{column};
ghost use Rattle.sqlite_value.specs.Value.{owned};
ghost use Rattle.rd_store.specs.Copied.{Compares, IsWhole, TellsSame};
ghost use Rattle.rd_store.specs.Held.{desk};

use crate::faults::StoreFault;
use crate::store::Store;
use rd_holdings::ImageRow;
use sqlite::types::ValueRef;
use sqlite::{Alter, Row};
use std::alloc::Global;

/// Whether two values of a column are the same. It says no of numbers with a fraction, which no desk has.
fn is_same_value(one: ValueRef<'_>, other: ValueRef<'_>) -> bool
    ensures same { TellsSame (owned one.entry) (owned other.entry) result }
    ensures differ { result ≡ false → IsWhole (owned one.entry) → owned one.entry ≢ owned other.entry }
{
    match (one, other) {
        (ValueRef::Null, ValueRef::Null) => true,
        (ValueRef::Int(one), ValueRef::Int(other)) => one == other,
        (ValueRef::Text(one), ValueRef::Text(other)) => one == other,
        (ValueRef::Blob(one), ValueRef::Blob(other)) => one == other,
        _ => false,
    }
}

/// Whether two rows have the same value in a column.
fn is_same_at(one: &Row, other: &Row, at: usize) -> bool
    ensures same { TellsSame (column one.now at) (column other.now at) result }
    ensures differ { result ≡ false → at < length one.now → at < length other.now → IsWhole (column one.now at) → column one.now at ≢ column other.now at }
{
    match (one.get_ref(at), other.get_ref(at)) {
        (Ok(one), Ok(other)) => is_same_value(one, other),
        _ => false,
    }
}

/// Whether two rows have the same values.
fn is_same_row(one: &Row, other: &Row) -> bool
    ensures { TellsSame one.now other.now result }
{
    if one.column_count() != other.column_count() {
        return false;
    }
    for at in 0..one.column_count() {
        if !is_same_at(one, other, at) {
            return false;
        }
    }
    true
}

/// Whether two answers have the same rows.
fn are_same_rows(one: &[Row], other: &[Row]) -> bool
    ensures { TellsSame one.now other.now result }
{
    if one.len() != other.len() {
        return false;
    }
    for at in 0..one.len() {
        if !is_same_row(&one[at], &other[at]) {
            return false;
        }
    }
    true
}

/// Whether two desks have the same deeds.
fn has_same_deeds<S: Alter>(one: &mut Store<S>, other: &mut Store<S>) -> Result<bool, StoreFault>
    ensures compares { Compares S.Store one.old one.new other.old other.new result
        (TellsSame (desk S.Store one.old).deeds (desk S.Store other.old).deeds) }
{
    other.between_calls();
    let rows = one.numbered_rows()?;
    let others = other.numbered_rows()?;
    Ok(are_same_rows(&rows, &others))
}

/// Whether two desks have the same rules.
fn has_same_rules<S: Alter>(one: &mut Store<S>, other: &mut Store<S>) -> Result<bool, StoreFault>
    ensures compares { Compares S.Store one.old one.new other.old other.new result
        (TellsSame (desk S.Store one.old).rules (desk S.Store other.old).rules) }
{
    other.between_calls();
    let rules = one.place_rows()?;
    let others = other.place_rows()?;
    Ok(are_same_rows(&rules, &others))
}

/// Whether two desks have the same keys.
fn has_same_keys<S: Alter>(one: &mut Store<S>, other: &mut Store<S>) -> Result<bool, StoreFault>
    ensures compares { Compares S.Store one.old one.new other.old other.new result
        (TellsSame (desk S.Store one.old).keys (desk S.Store other.old).keys) }
{
    other.between_calls();
    let rows = one.key_rows()?;
    let others = other.key_rows()?;
    Ok(are_same_rows(&rows, &others))
}

/// Whether two desks have the same checks.
fn has_same_checks<S: Alter>(one: &mut Store<S>, other: &mut Store<S>) -> Result<bool, StoreFault>
    ensures compares { Compares S.Store one.old one.new other.old other.new result
        (TellsSame (desk S.Store one.old).checks (desk S.Store other.old).checks) }
{
    other.between_calls();
    let rows = one.check_rows()?;
    let others = other.check_rows()?;
    Ok(are_same_rows(&rows, &others))
}

/// Whether two images are the same.
fn is_same_image(one: &ImageRow, other: &ImageRow) -> bool
    ensures same { TellsSame one.now other.now result }
    ensures differ { result ≡ false → one.now ≢ other.now }
{
    one.kind == other.kind
        && one.deed == other.deed
        && one.digest == other.digest
        && one.bytes.as_slice() == other.bytes.as_slice()
}

/// Whether both images are there and are the same.
fn is_same_found(one: &Option<ImageRow>, other: &Option<ImageRow>) -> bool
    ensures same { TellsSame one.now other.now result }
    ensures differ { result ≡ false → IsSome one.now → one.now ≢ other.now }
{
    match (one, other) {
        (Some(one), Some(other)) => is_same_image(one, other),
        _ => false,
    }
}

/// Whether two desks have the same image at an accession.
fn has_same_image<S: Alter>(
    alloc: Global,
    one: &mut Store<S>,
    other: &mut Store<S>,
    acc: u32,
) -> Result<bool, StoreFault>
    ensures compares { Compares S.Store one.old one.new other.old other.new result
        (TellsSame (get (desk S.Store one.old).images acc) (get (desk S.Store other.old).images acc)) }
{
    other.between_calls();
    let found = one.image(alloc, acc)?;
    let standing = other.image(alloc, acc)?;
    Ok(is_same_found(&found, &standing))
}

/// Whether two desks have the same images.
fn has_same_images<S: Alter>(
    alloc: Global,
    one: &mut Store<S>,
    other: &mut Store<S>,
) -> Result<bool, StoreFault>
    ensures compares { Compares S.Store one.old one.new other.old other.new result
        (TellsSame (desk S.Store one.old).images (desk S.Store other.old).images) }
{
    other.between_calls();
    let accessions = one.accessions(alloc)?;
    let others = other.accessions(alloc)?;
    if accessions.as_slice() != others.as_slice() {
        return Ok(false);
    }
    for at in 0..accessions.len() {
        let is_same = has_same_image(alloc, one, other, accessions[at])?;
        if !is_same {
            return Ok(false);
        }
    }
    Ok(true)
}

/// Whether two stores have the same desk. It reads each row and each image of both.
pub(crate) fn is_same_desk<S: Alter>(
    alloc: Global,
    one: &mut Store<S>,
    other: &mut Store<S>,
) -> Result<bool, StoreFault>
    ensures compares { Compares S.Store one.old one.new other.old other.new result
        (TellsSame (desk S.Store one.old) (desk S.Store other.old)) }
{
    let has_deeds = has_same_deeds(one, other)?;
    if !has_deeds {
        return Ok(false);
    }
    let has_rules = has_same_rules(one, other)?;
    if !has_rules {
        return Ok(false);
    }
    let has_keys = has_same_keys(one, other)?;
    if !has_keys {
        return Ok(false);
    }
    let has_checks = has_same_checks(one, other)?;
    if !has_checks {
        return Ok(false);
    }
    has_same_images(alloc, one, other)
}
