ghost use Rattle.std.specs.Prelude.{◌≡◌, MatchBool};
ghost use Rattle.rd_tables.specs.Schemas.{IsBlank, are_desk_columns, has_desk, has_desk_columns, has_foreign_desk, is_foreign_desk};

use sqlite_schema::names::same_name;
use sqlite_schema::schema::{Column, Schema, View};

/// Whether this is a table `desk` that SQL keeps unread, because it does not understand something
/// on it.
fn is_foreign_desk(view: &View) -> bool
    ensures { result ≡ is_foreign_desk view.now }
{
    match &view.foreign {
        Some(owner) => {
            same_name(owner.as_slice(), b"desk")
                && same_name(view.name.as_slice(), b"desk")
                && !view.binds
        }
        None => false,
    }
}

/// Whether there is a table `desk` that SQL keeps unread, because it does not understand something
/// on it, such as a trigger. The columns of such a table are unknown.
pub fn has_foreign_desk(schema: &Schema) -> bool
    ensures { result ≡ has_foreign_desk schema.now }
{
    schema.views.as_slice().iter().any(is_foreign_desk)
}

/// Whether there is a table `desk`, its name in small or capital letters.
pub fn has_desk(schema: &Schema) -> bool
    ensures { result ≡ has_desk schema.now }
{
    for table in schema.tables.as_slice() {
        if same_name(table.name.as_slice(), b"desk") {
            return true;
        }
    }
    has_foreign_desk(schema)
}

/// Whether the columns are `id` and `version`.
pub(crate) fn are_desk_columns(columns: &[Column]) -> bool
    ensures { result ≡ are_desk_columns columns.now }
{
    match columns {
        [id, version] => {
            same_name(id.name.as_slice(), b"id") && same_name(version.name.as_slice(), b"version")
        }
        _ => false,
    }
}

/// Whether there is a table `desk` with the columns `id` and `version`.
pub fn has_desk_columns(schema: &Schema) -> bool
    ensures { result ≡ has_desk_columns schema.now }
{
    for table in schema.tables.as_slice() {
        if same_name(table.name.as_slice(), b"desk") && are_desk_columns(table.columns.as_slice()) {
            return true;
        }
    }
    false
}

/// Whether there is no table, no view and no index.
pub fn is_blank(schema: &Schema) -> bool
    ensures { MatchBool result (IsBlank schema.now) (¬ IsBlank schema.now) }
{
    schema.tables.is_empty() && schema.views.is_empty() && schema.indexes.is_empty()
}
