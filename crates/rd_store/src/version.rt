ghost use Rattle.std.specs.Prelude.{◌≡◌, [], ◌∷◌, MatchBool, map, pos};
ghost use Rattle.sqlite.specs.Held.{state};
ghost use Rattle.sqlite.specs.Order.{column};
ghost use Rattle.sqlite.specs.declared.types.Value.TheVariants.{Int};
ghost use Rattle.rd_tables.specs.Asked.{IsPicked};
ghost use Rattle.rd_tables.specs.Queries.{version_query};
ghost use Rattle.rd_tables.specs.Schemas.{TellsVersion};
ghost use Rattle.rd_tables.specs.Connections.{Asks};
ghost use Rattle.rd_store.specs.Opened.{IsSaid, IsSettledAt, Says};

use crate::columns::has_just;
use crate::faults::OpenFault;
use rd_tables::desk_tree;
use sqlite::{Alter, Connection, Row};

/// A version of the tables.
#[derive(Clone, Copy)]
pub(crate) enum Version {
    /// Without a table of error bytes.
    First,
    /// With it.
    Second,
}

/// The rows of the table `desk`, whatever other tables stand.
fn version_rows<S: Alter>(conn: &mut Connection<S>, tree: u32) -> Result<Vec<Row>, OpenFault>
    requires tells { TellsVersion tree (state S.Store conn.old).now.schema }
    requires settled { IsSettledAt (state S.Store conn.old) }
    ensures asks { Asks S.Store conn.old conn.new result OpenFault.Sql (λ rows.
        IsPicked (version_query tree) [] ((state S.Store conn.old).now.trees tree) rows.items) }
{
    match conn.query_all("SELECT id, version FROM desk", &[]) {
        Ok(rows) => Ok(rows),
        Err(_) => Err(OpenFault::Sql),
    }
}

/// Whether there is one row, with the id 1, which says this version.
fn is_version(rows: &[Row], number: u32) -> bool
    ensures { MatchBool result (map (λ row. column row 0 ∷ column row 1 ∷ []) rows.now ≡ (Int (pos 1) ∷ Int (pos number) ∷ []) ∷ [])
        (¬ (map (λ row. column row 0 ∷ column row 1 ∷ []) rows.now ≡ (Int (pos 1) ∷ Int (pos number) ∷ []) ∷ [])) }
{
    match rows {
        [row] => has_just(row, 0, 1) && has_just(row, 1, number),
        _ => false,
    }
}

/// The version that the one row of the table `desk` says; `None` where there is no such row, or it says another
/// than 1 and 2.
fn said_version<S: Alter>(conn: &mut Connection<S>, tree: u32) -> Result<Option<Version>, OpenFault>
    requires tells { TellsVersion tree (state S.Store conn.old).now.schema }
    requires settled { IsSettledAt (state S.Store conn.old) }
    ensures asks { Asks S.Store conn.old conn.new result OpenFault.Sql (λ said.
        IsSaid said ((state S.Store conn.old).now.trees tree)) }
{
    let rows = version_rows(conn, tree)?;
    if is_version(&rows, 2) {
        return Ok(Some(Version::Second));
    }
    if is_version(&rows, 1) {
        return Ok(Some(Version::First));
    }
    Ok(None)
}

/// The version that the table `desk` tells, wherever it stands and whatever stands beside it. It fails with `Sql` if
/// that table tells none, since `id` is not its rowid, and if SQL fails.
pub(crate) fn known_version<S: Alter>(
    conn: &mut Connection<S>,
) -> Result<Option<Version>, OpenFault>
    requires settled { IsSettledAt (state S.Store conn.old) }
    ensures asks { Asks S.Store conn.old conn.new result OpenFault.Sql (λ said.
        Says (IsSaid said) (state S.Store conn.old).now) }
{
    let Some(tree) = desk_tree(conn.schema()) else {
        return Err(OpenFault::Sql);
    };
    said_version(conn, tree)
}
