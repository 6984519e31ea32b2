ghost use Rattle.std.specs.Prelude.{◌≡◌, false, MatchBool, MatchOption, option_map, pos};
ghost use Rattle.std.specs.List.Sorted.{IsNonDecreasing};
ghost use Rattle.sqlite.specs.declared.types.Value.TheVariants.{Int, Text, Blob};
ghost use Rattle.sqlite.specs.Order.{column};
ghost use Rattle.sqlite.specs.Values.{or_null};
ghost use Rattle.sqlite_trees.specs.View.{is_int};
ghost use Rattle.rd_store.specs.RowColumns.{IsDonorAt, IsWordAt, is_day, is_digest, is_number, is_one_of, is_some_day, blob_name};

use rd_holdings::is_donor;
use sqlite::Row;
use sqlite::types::ValueRef;

/// Whether a column has a number from `low` to `high`.
pub(crate) fn has_number(row: &Row, at: usize, low: u32, high: u32) -> bool
    ensures { result ≡ is_number low high (column row.now at) }
{
    match row.get_ref(at) {
        Ok(ValueRef::Int(number)) => i64::from(low) <= number && number <= i64::from(high),
        _ => false,
    }
}

/// Whether an ascending list has a number.
pub(crate) fn is_among(number: i64, numbers: &[u32]) -> bool
    requires { IsNonDecreasing numbers.now }
    ensures { result ≡ is_one_of numbers.now (Int number) }
{
    numbers
        .binary_search_by_key(&number, |one| i64::from(*one))
        .is_ok()
}

/// The whole number in a column, `None` where it has none.
pub(crate) fn int_at(row: &Row, at: usize) -> Option<i64>
    ensures { MatchOption result (is_int (column row.now at) ≡ false) (λ number. column row.now at ≡ Int number) }
{
    match row.get_ref(at) {
        Ok(ValueRef::Int(number)) => Some(number),
        _ => None,
    }
}

/// Whether a column has one of these numbers, which ascend.
pub(crate) fn has_one_of(row: &Row, at: usize, numbers: &[u32]) -> bool
    requires { IsNonDecreasing numbers.now }
    ensures { result ≡ is_one_of numbers.now (column row.now at) }
{
    match int_at(row, at) {
        Some(number) => is_among(number, numbers),
        None => false,
    }
}

/// Whether a column has a day from 0001-01-01 to 9999-12-31.
pub(crate) fn has_day(row: &Row, at: usize) -> bool
    ensures { result ≡ is_day (column row.now at) }
{
    match row.get_ref(at) {
        Ok(ValueRef::Int(day)) => -719_162 <= day && day <= 2_932_896,
        _ => false,
    }
}

/// Whether a column has such a day or NULL.
pub(crate) fn has_some_day(row: &Row, at: usize) -> bool
    ensures { result ≡ is_some_day (column row.now at) }
{
    matches!(row.get_ref(at), Ok(ValueRef::Null) | Err(_)) || has_day(row, at)
}

/// Whether a column has 32 bytes.
pub(crate) fn has_digest(row: &Row, at: usize) -> bool
    ensures { result ≡ is_digest (column row.now at) }
{
    match row.get_ref(at) {
        Ok(ValueRef::Blob(bytes)) => bytes.len() == 32,
        _ => false,
    }
}

/// Whether a column has a donor's name.
pub(crate) fn has_donor(row: &Row, at: usize) -> bool
    ensures { MatchBool result (IsDonorAt (column row.now at)) (¬ IsDonorAt (column row.now at)) }
{
    match row.get_ref(at) {
        Ok(ValueRef::Text(bytes)) => match std::str::from_utf8(bytes) {
            Ok(text) => is_donor(text),
            Err(_) => false,
        },
        _ => false,
    }
}

/// Whether a column has a text of at most `most` bytes, each a printable character of ASCII or a blank.
pub(crate) fn has_word(row: &Row, at: usize, most: usize) -> bool
    ensures { MatchBool result (IsWordAt most (column row.now at)) (¬ IsWordAt most (column row.now at)) }
{
    match row.get_ref(at) {
        Ok(ValueRef::Text(bytes)) => {
            bytes.len() <= most && bytes.iter().all(|byte| (32..=126).contains(byte))
        }
        _ => false,
    }
}

/// Whether a column names the type of a BLOB.
pub(crate) fn names_blob(row: &Row, at: usize) -> bool
    ensures { MatchBool result (column row.now at ≡ Text blob_name) (¬ (column row.now at ≡ Text blob_name)) }
{
    match row.get_ref(at) {
        Ok(ValueRef::Text(bytes)) => bytes == b"blob".as_slice(),
        _ => false,
    }
}

/// Whether a column has this number.
pub(crate) fn has_just(row: &Row, at: usize, number: u32) -> bool
    ensures { MatchBool result (column row.now at ≡ Int (pos number)) (¬ (column row.now at ≡ Int (pos number))) }
{
    match row.get_ref(at) {
        Ok(ValueRef::Int(found)) => found == i64::from(number),
        _ => false,
    }
}

/// Whether a column has this number, or NULL where there is none.
pub(crate) fn has_or_null(row: &Row, at: usize, number: Option<u32>) -> bool
    ensures { MatchBool result (column row.now at ≡ or_null Int (option_map pos number)) (¬ (column row.now at ≡ or_null Int (option_map pos number))) }
{
    match number {
        Some(number) => has_just(row, at, number),
        None => matches!(row.get_ref(at), Ok(ValueRef::Null) | Err(_)),
    }
}

/// Whether a column has this text.
pub(crate) fn has_text(row: &Row, at: usize, text: &str) -> bool
    ensures { MatchBool result (column row.now at ≡ Text text.now) (¬ (column row.now at ≡ Text text.now)) }
{
    match row.get_ref(at) {
        Ok(ValueRef::Text(bytes)) => bytes == text.as_bytes(),
        _ => false,
    }
}

/// Whether a column has these bytes.
pub(crate) fn has_bytes(row: &Row, at: usize, bytes: &[u8]) -> bool
    ensures { MatchBool result (column row.now at ≡ Blob bytes.now) (¬ (column row.now at ≡ Blob bytes.now)) }
{
    match row.get_ref(at) {
        Ok(ValueRef::Blob(found)) => found == bytes,
        _ => false,
    }
}
