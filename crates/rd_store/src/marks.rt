//! Error bytes, which stand in a table of their own.

ghost use Rattle.std.specs.Prelude.{◌≡◌, ◌∷◌, [], IfOk, IfErr, Option, Some, length, map, pos};
ghost use Rattle.std.specs.FinMap.{get};
ghost use Rattle.std.specs.Option.{option_to_list};
ghost use Rattle.sqlite.specs.Held.{state};
ghost use Rattle.sqlite.specs.declared.types.Value.TheVariants.{Int};
ghost use Rattle.rd_geometry.specs.Blocks.{CBM_BLOCKS};
ghost use Rattle.rd_tables.specs.Asked.{IsPicked};
ghost use Rattle.rd_tables.specs.Queries.{marks_query};
ghost use Rattle.rd_tables.specs.Spellings.{Spells, map_of};
ghost use Rattle.rd_holdings.specs.declared.rows.ImageRow.{ImageRow};
ghost use Rattle.rd_tables.specs.Connections.{Asks, IsClean, IsOpen, Moves};
ghost use Rattle.rd_store.specs.Held.{HoldsDesk, HoldsTables, IsDeskWith, desk};
ghost use Rattle.rd_store.specs.Index.{IsFiledTo, with_new_image};
ghost use Rattle.rd_store.specs.Marks.{kind_with as kind_marked, with_marks as image_marked};
ghost use Rattle.rd_store.specs.Shown.{marks_shown};
ghost use Rattle.rd_store.specs.Spelled.{image_spelling, marks_spelling};

use crate::decode::bytes_at;
use crate::faults::StoreFault;
use crate::read::read_all;
use rd_geometry::{Items, Kind};
use rd_holdings::ImageRow;
use sqlite::types::ToSql;
use sqlite::{Alter, Connection, Error, Row, Transaction, params};
use std::alloc::Global;

/// The rows for the error bytes of an accession.
fn marks_rows<S: Alter>(conn: &mut Connection<S>, acc: u32) -> Result<Vec<Row>, StoreFault>
    requires tables { HoldsTables (state S.Store conn.old) }
    ensures asks { Asks S.Store conn.old conn.new result StoreFault.Sql (λ rows.
        IsPicked marks_query (Int (pos acc) ∷ []) ((state S.Store conn.old).now.trees 11) rows.items) }
{
    let key = acc.to_sql();
    read_all(conn, "SELECT bytes FROM marks WHERE acc = ?1", &[key])
}

/// The error bytes that the first of some rows shows, `None` where there are none.
fn first_marks(alloc: Global, rows: &[Row]) -> Result<Option<Items<u8>>, StoreFault>
    ensures marks { IfOk result (λ read. (found : Option _) → rows.now ≡ map marks_shown (option_to_list found) → read ≡ found) }
    ensures fault { IfErr result (λ fault. fault ≡ StoreFault.Sql) }
{
    match rows.first() {
        Some(row) => Ok(Some(Items::of(bytes_at(alloc, row, 0)?))),
        None => Ok(None),
    }
}

/// The error bytes of an accession, `None` where it has none. The rows need not be those of a desk.
pub(crate) fn marks_at<S: Alter>(
    alloc: Global,
    conn: &mut Connection<S>,
    acc: u32,
) -> Result<Option<Items<u8>>, StoreFault>
    requires tables { HoldsTables (state S.Store conn.old) }
    ensures asks { Asks S.Store conn.old conn.new result StoreFault.Sql (λ found.
        Spells marks_spelling ((state S.Store conn.old).now.trees 11)
        → found ≡ get (map_of marks_spelling ((state S.Store conn.old).now.trees 11)) acc) }
{
    let rows = marks_rows(conn, acc)?;
    first_marks(alloc, &rows)
}

/// An image with its error bytes, if it has any: they follow its blocks.
pub(crate) fn with_marks(image: ImageRow, marks: Option<Items<u8>>) -> Result<ImageRow, StoreFault>
    ensures joined { IfOk result (λ joined. joined ≡ image_marked marks image) }
    ensures fault { IfErr result (λ fault. fault ≡ StoreFault.Sql) }
{
    let Some(marks) = marks else {
        return Ok(image);
    };
    let ImageRow {
        kind: _,
        deed,
        digest,
        bytes,
    } = image;
    let mut bytes = bytes.into_vec();
    if bytes.extend_from_slice(marks.as_slice()).is_err() {
        return Err(StoreFault::Sql);
    }
    Ok(ImageRow {
        kind: Kind::D64e,
        deed,
        digest,
        bytes: Items::of(bytes),
    })
}

/// The image of an accession whose row is this. It asks for its error bytes if the row is that of a D64.
pub(crate) fn marked_image<S: Alter>(
    alloc: Global,
    conn: &mut Connection<S>,
    acc: u32,
    row: ImageRow,
) -> Result<ImageRow, StoreFault>
    requires holds { HoldsDesk (state S.Store conn.old) }
    requires open_if_clean { IsClean S.Store conn.old → IsOpen S.Store conn.old }
    ensures asks { Asks S.Store conn.old conn.new result StoreFault.Sql (λ image.
        get (map_of image_spelling ((state S.Store conn.old).now.trees 2)) acc ≡ Some row
        → get (desk S.Store conn.old).images acc ≡ Some image) }
    ensures kept { HoldsDesk (state S.Store conn.new) }
{
    if row.kind != Kind::D64 {
        return Ok(row);
    }
    let marks = marks_at(alloc, conn, acc)?;
    with_marks(row, marks)
}

/// The kind of an image whose row has `kind`, with error bytes or without them.
pub(crate) fn kind_with(marked: bool, kind: Kind) -> Kind
    ensures { result ≡ kind_marked marked kind }
{
    if marked { Kind::D64e } else { kind }
}

/// Puts error bytes where a D64 stands, inside a transaction.
pub(crate) fn insert_marks<S: Alter>(
    tx: &mut Transaction<'_, S>,
    acc: u32,
    marks: &[u8],
) -> Result<usize, Error>
    requires count { length marks.now ≡ CBM_BLOCKS }
    ensures same_reference { tx.new.conn.ghost_name ≡ tx.old.conn.ghost_name }
    ensures moves { (before : _) (images : _) (files : _) (count : _) (image : ImageRow) → get before.images acc ≡ Some image → image.kind ≡ Kind.D64
        → Moves S.Store tx.old.conn.now tx.new.conn.now (IsDeskWith before (IsFiledTo images acc files count))
        (IsDeskWith (with_new_image acc (image_marked (Some marks.now) image) before) (IsFiledTo images acc files count)) result }
{
    tx.execute(
        "INSERT INTO marks (acc, bytes) VALUES (?1, ?2)",
        params![acc, marks],
    )
}
