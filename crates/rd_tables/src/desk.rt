ghost use Rattle.std.specs.Prelude.{◌≡◌, MatchOption};
ghost use Rattle.rd_tables.specs.Schemas.{TellsVersion, has_tree, tells_version};

use crate::schema::are_desk_columns;
use sqlite_schema::names::same_name;
use sqlite_schema::schema::{Schema, Table};

/// Whether the rows of a table are on this tree.
fn has_tree(tables: &[Table], tree: u32) -> bool
    ensures { result ≡ has_tree tables.now tree }
{
    for table in tables {
        if table.tree == tree {
            return true;
        }
    }
    false
}

/// Whether the table has the columns of a `desk`, of which `id` is the rowid, and a tree that none of the others has.
fn tells_version(others: &[Table], table: &Table) -> bool
    ensures { result ≡ tells_version others.now table.now }
{
    are_desk_columns(table.columns.as_slice())
        && matches!(table.key, Some(0))
        && table.tree < 0x8000_0000
        && !has_tree(others, table.tree)
}

/// The tree with the rows of the table `desk` that tell a version, wherever it stands and whatever stands beside it.
/// `None` if no table has that name, or if the first one that has it does not have the columns of a `desk`, with `id`
/// as its rowid.
pub fn desk_tree(schema: &Schema) -> Option<u32>
    ensures { MatchOption result (¬ ((tree : _) × TellsVersion tree schema.now)) (λ tree. TellsVersion tree schema.now) }
{
    let tables = schema.tables.as_slice();
    for (at, table) in tables.iter().enumerate() {
        if same_name(table.name.as_slice(), b"desk") {
            return if tells_version(&tables[..at], table) {
                Some(table.tree)
            } else {
                None
            };
        }
    }
    None
}
