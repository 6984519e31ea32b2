ghost use Rattle.std.specs.Prelude.{◌≡◌, MatchBool};
ghost use Rattle.rd_tables.specs.Schemas.{column_of};
ghost use Rattle.rd_chain.specs.Inside.{HasHistoryColumns, IsPlainTable};
ghost use Rattle.rd_chain.specs.Rows.{history_columns, history_schema, history_table};

use sqlite_schema::schema::{Column, Kind, Schema, Stamps, Table};
use sqlite_value::keys::Collation;
use sqlite_value::value::Value;

/// Whether this is a column of a STRICT table, with this name and type.
fn is_column(column: &Column, name: &[u8], kind: Kind, not_null: bool) -> bool
    ensures { MatchBool result (column.now ≡ column_of name.now kind not_null) (¬ (column.now ≡ column_of name.now kind not_null)) }
{
    column.name.as_slice() == name
        && column.kind == kind
        && column.is_strict
        && column.not_null == not_null
        && matches!(column.default, Value::Null)
        && column.collation == Collation::Binary
}

/// Whether these are the columns of the table.
fn are_columns(columns: &[Column]) -> bool
    ensures { MatchBool result (columns.now ≡ history_columns) (¬ (columns.now ≡ history_columns)) }
{
    match columns {
        [number, line, sum] => {
            is_column(number, b"seq", Kind::Integer, false)
                && is_column(line, b"line", Kind::Text, true)
                && is_column(sum, b"sum", Kind::Blob, true)
        }
        _ => false,
    }
}

/// Whether no default reads the time.
fn has_no_stamps(stamps: &Stamps) -> bool
    ensures { MatchBool result (stamps.now ≡ history_table.stamps) (¬ (stamps.now ≡ history_table.stamps)) }
{
    stamps.places.is_empty() && stamps.terms.roots.is_empty() && stamps.formats.is_empty()
}

/// Whether this is the table, as far as its name, its columns and its key go.
fn has_history_columns(table: &Table) -> bool
    ensures { MatchBool result (HasHistoryColumns table.now) (¬ HasHistoryColumns table.now) }
{
    table.name.as_slice() == b"history".as_slice()
        && table.tree == 0
        && are_columns(table.columns.as_slice())
        && matches!(table.key, Some(0))
        && table.primary.as_slice() == [0].as_slice()
}

/// Whether the table has no other constraint, and no default that is worked out.
fn is_plain(table: &Table) -> bool
    ensures { MatchBool result (IsPlainTable table.now) (¬ IsPlainTable table.now) }
{
    table.uniques.is_empty()
        && table.orders.is_empty()
        && table.checks.roots.is_empty()
        && table.references.is_empty()
        && table.computed.is_empty()
        && has_no_stamps(&table.stamps)
        && !table.is_counted
}

/// Whether this is the table, declared as `create` declares it.
fn is_table(table: &Table) -> bool
    ensures { MatchBool result (table.now ≡ history_table) (¬ (table.now ≡ history_table)) }
{
    has_history_columns(table) && is_plain(table)
}

/// Whether the database has this table and nothing else.
pub(crate) fn is_history(schema: &Schema) -> bool
    ensures { MatchBool result (schema.now ≡ history_schema) (¬ (schema.now ≡ history_schema)) }
{
    match schema.tables.as_slice() {
        [table] => is_table(table) && schema.indexes.is_empty() && schema.views.is_empty(),
        _ => false,
    }
}
