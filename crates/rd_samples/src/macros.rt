//! Macros by which tests write tables.

/// A value that is like another except for some of its fields.
#[macro_export]
macro_rules! like {
    ($type:ident, $other:expr, $($field:ident: $value:expr),+) => {
        $type { $($field: $value,)+ ..$other }
    };
}

/// A table, of which each row stands on one line.
#[macro_export]
macro_rules! table {
    ($($row:expr;)+) => { &[$($row),+] };
}
