ghost use Rattle.std.specs.Prelude.{◌≡◌, All, Any, MatchBool};
ghost use Rattle.std.specs.List.Sorted.{IsNonDecreasing};
ghost use Rattle.sqlite.specs.Order.{column};
ghost use Rattle.rd_store.specs.RowColumns.{HasErrorBytes, HasParts, IsCheckRow, IsDeedRow, IsFiledRow, IsImageRow, IsKeyRow, IsMarksRow, IsRuleRow, IsSelectAt, IsStaffRow, is_band, is_size_of};

use crate::columns::{
    has_day, has_digest, has_donor, has_number, has_one_of, has_some_day, has_word, names_blob,
};
use rd_policy::{LAST_RANK, LAST_SCOPE, LAST_SLOT};
use sqlite::Row;

/// Whether a row shows a deed within its limits.
pub(crate) fn is_deed(row: &Row) -> bool
    ensures { MatchBool result (IsDeedRow row.now) (¬ IsDeedRow row.now) }
{
    has_number(row, 0, 1, LAST_SCOPE) && has_donor(row, 1) && has_day(row, 2)
}

/// Whether the length of an image is that of its kind.
fn has_size(row: &Row) -> bool
    ensures { result ≡ is_size_of (column row.now 1) (column row.now 4) }
{
    has_number(row, 1, 0, 0) && has_number(row, 4, 256_256, 256_256)
        || has_number(row, 1, 1, 1) && has_number(row, 4, 174_848, 174_848)
}

/// Whether a row shows an image of one of these deeds, which ascend.
pub(crate) fn is_image(row: &Row, deeds: &[u32]) -> bool
    requires { IsNonDecreasing deeds.now }
    ensures { MatchBool result (IsImageRow deeds.now row.now) (¬ IsImageRow deeds.now row.now) }
{
    has_number(row, 0, 1, LAST_SCOPE)
        && has_one_of(row, 2, deeds)
        && has_digest(row, 3)
        && has_size(row)
        && names_blob(row, 5)
}

/// Whether a row shows a rule for one of these accessions or deeds, and an effect that it may have.
fn has_band(row: &Row, accessions: &[u32], deeds: &[u32]) -> bool
    requires accessions { IsNonDecreasing accessions.now }
    requires deeds { IsNonDecreasing deeds.now }
    ensures { result ≡ is_band accessions.now deeds.now (column row.now 1) (column row.now 2) (column row.now 10) }
{
    has_number(row, 1, 0, 0) && has_one_of(row, 2, accessions) && has_number(row, 10, 0, 1)
        || has_number(row, 1, 1, 1) && has_one_of(row, 2, deeds) && has_number(row, 10, 0, 2)
}

/// Whether the selector of a row is of this sort, with a number up to `number` and a word of at most `word` bytes.
fn has_parts(row: &Row, how: u32, number: u32, word: usize) -> bool
    ensures { MatchBool result (HasParts how number word (column row.now 7) (column row.now 8) (column row.now 9))
        (¬ HasParts how number word (column row.now 7) (column row.now 8) (column row.now 9)) }
{
    has_number(row, 7, how, how) && has_number(row, 8, 0, number) && has_word(row, 9, word)
}

/// Whether a row shows a selector.
fn has_select(row: &Row) -> bool
    ensures { MatchBool result (IsSelectAt (column row.now 7) (column row.now 8) (column row.now 9))
        (¬ IsSelectAt (column row.now 7) (column row.now 8) (column row.now 9)) }
{
    has_parts(row, 0, 0, 0)
        || has_parts(row, 1, u32::from(LAST_SLOT), 0)
        || has_parts(row, 2, 0, 64)
        || has_parts(row, 3, 15, 0)
        || has_parts(row, 4, 0, 16)
}

/// Whether a row shows a rule for one of these accessions or deeds.
pub(crate) fn is_rule(row: &Row, accessions: &[u32], deeds: &[u32]) -> bool
    requires accessions { IsNonDecreasing accessions.now }
    requires deeds { IsNonDecreasing deeds.now }
    ensures { MatchBool result (IsRuleRow accessions.now deeds.now row.now) (¬ IsRuleRow accessions.now deeds.now row.now) }
{
    has_band(row, accessions, deeds)
        && has_number(row, 2, 1, LAST_SCOPE)
        && has_number(row, 3, 1, u32::from(LAST_RANK))
        && has_number(row, 4, 1, 7)
        && has_some_day(row, 5)
        && has_some_day(row, 6)
        && has_select(row)
}

/// Whether a row shows a desk key.
pub(crate) fn is_key(row: &Row) -> bool
    ensures { MatchBool result (IsKeyRow row.now) (¬ IsKeyRow row.now) }
{
    has_digest(row, 1) && has_number(row, 2, 1, 2)
}

/// Whether a row shows what a check found of one of these accessions.
pub(crate) fn is_check(row: &Row, accessions: &[u32]) -> bool
    requires { IsNonDecreasing accessions.now }
    ensures { MatchBool result (IsCheckRow accessions.now row.now) (¬ IsCheckRow accessions.now row.now) }
{
    has_one_of(row, 1, accessions) && has_day(row, 2) && has_number(row, 3, 0, 1)
}

/// Whether a row of the index shows one of these accessions.
fn is_filed(row: &Row, accessions: &[u32]) -> bool
    requires { IsNonDecreasing accessions.now }
    ensures { MatchBool result (IsFiledRow accessions.now row.now) (¬ IsFiledRow accessions.now row.now) }
{
    has_one_of(row, 1, accessions)
}

/// Whether a row shows error bytes, one for each block, of an accession, whichever it is.
fn has_error_bytes(row: &Row) -> bool
    ensures { MatchBool result (HasErrorBytes row.now) (¬ HasErrorBytes row.now) }
{
    has_number(row, 0, 1, LAST_SCOPE) && has_number(row, 1, 683, 683) && names_blob(row, 2)
}

/// Whether a row shows error bytes, one for each block, of one of these accessions, which ascend.
fn is_marks(row: &Row, accessions: &[u32]) -> bool
    requires { IsNonDecreasing accessions.now }
    ensures { MatchBool result (IsMarksRow accessions.now row.now) (¬ IsMarksRow accessions.now row.now) }
{
    has_one_of(row, 0, accessions) && has_number(row, 1, 683, 683) && names_blob(row, 2)
}

/// Whether a row of the desk keys shows one of the staff.
fn is_staff(row: &Row) -> bool
    ensures { MatchBool result (IsStaffRow row.now) (¬ IsStaffRow row.now) }
{
    has_number(row, 2, 2, 2)
}

/// Whether each row shows a deed.
pub(crate) fn are_deeds(rows: &[Row]) -> bool
    ensures { MatchBool result (All IsDeedRow rows.now) (¬ All IsDeedRow rows.now) }
{
    rows.iter().all(is_deed)
}

/// Whether each row shows a rule.
pub(crate) fn are_rules(rows: &[Row], accessions: &[u32], deeds: &[u32]) -> bool
    requires accessions { IsNonDecreasing accessions.now }
    requires deeds { IsNonDecreasing deeds.now }
    ensures { MatchBool result (All (IsRuleRow accessions.now deeds.now) rows.now) (¬ All (IsRuleRow accessions.now deeds.now) rows.now) }
{
    rows.iter().all(|row| is_rule(row, accessions, deeds))
}

/// Whether each row shows a desk key, and one of them one of the staff.
pub(crate) fn are_keys(rows: &[Row]) -> bool
    ensures { MatchBool result (All IsKeyRow rows.now × Any IsStaffRow rows.now) (¬ (All IsKeyRow rows.now × Any IsStaffRow rows.now)) }
{
    rows.iter().all(is_key) && rows.iter().any(is_staff)
}

/// Whether each row shows a check.
pub(crate) fn are_checks(rows: &[Row], accessions: &[u32]) -> bool
    requires { IsNonDecreasing accessions.now }
    ensures { MatchBool result (All (IsCheckRow accessions.now) rows.now) (¬ All (IsCheckRow accessions.now) rows.now) }
{
    rows.iter().all(|row| is_check(row, accessions))
}

/// Whether each row shows one of these accessions.
pub(crate) fn are_filed(rows: &[Row], accessions: &[u32]) -> bool
    requires { IsNonDecreasing accessions.now }
    ensures { MatchBool result (All (IsFiledRow accessions.now) rows.now) (¬ All (IsFiledRow accessions.now) rows.now) }
{
    rows.iter().all(|row| is_filed(row, accessions))
}

/// Whether each row shows error bytes of an accession, whichever it is.
pub(crate) fn have_error_bytes(rows: &[Row]) -> bool
    ensures { MatchBool result (All HasErrorBytes rows.now) (¬ All HasErrorBytes rows.now) }
{
    rows.iter().all(has_error_bytes)
}

/// Whether each row shows error bytes of one of these accessions.
pub(crate) fn are_marks(rows: &[Row], accessions: &[u32]) -> bool
    requires { IsNonDecreasing accessions.now }
    ensures { MatchBool result (All (IsMarksRow accessions.now) rows.now) (¬ All (IsMarksRow accessions.now) rows.now) }
{
    rows.iter().all(|row| is_marks(row, accessions))
}
