ghost use Rattle.std.specs.Prelude.{◌≡◌, ◌∷◌, [], IfOk, IfErr, IsSome, MatchBool, Option, None, length, map, option_map, pos, false};
ghost use Rattle.std.specs.FinMap.{entries, get, keys};
ghost use Rattle.std.specs.Option.{option_to_list};
ghost use Rattle.sqlite.specs.Held.{state};
ghost use Rattle.sqlite.specs.declared.types.Value.TheVariants.{Int};
ghost use Rattle.sqlite.specs.Order.{column};
ghost use Rattle.rd_geometry.specs.Kinds.{size_of};
ghost use Rattle.rd_volume.specs.Volumes.{AreFounds};
ghost use Rattle.rd_holdings.specs.declared.rows.ImageRow.{ImageRow};
ghost use Rattle.rd_tables.specs.Asked.{IsPicked};
ghost use Rattle.rd_tables.specs.Queries.{image_query};
ghost use Rattle.rd_tables.specs.Spellings.{Spells, map_of, natural};
ghost use Rattle.rd_tables.specs.Connections.{Asks, IsOpen, Moves};
ghost use Rattle.rd_store.specs.Held.{Changes, HoldsCommonTables, HoldsDesk, IsDeskWith, Judges, LacksImage, desk, Reads};
ghost use Rattle.rd_store.specs.Index.{IsFiledTo, with_new_image};
ghost use Rattle.rd_holdings.specs.Lawful.{IsImage};
ghost use Rattle.rd_store.specs.Register.{IsSameHeading};
ghost use Rattle.rd_store.specs.Shown.{as_row, image_shown, image_with};
ghost use Rattle.rd_store.specs.Spelled.{image_spelling};
ghost use Rattle.rd_holdings.specs.State.{HasOtherImage, with_image, accession_of, registered};

use crate::codes;
use crate::decode::{bytes_at, digest_at, kind, number_at};
use crate::faults::StoreFault;
use crate::files::insert_files;
use crate::marks::{insert_marks, marked_image};
use crate::read::read_over;
use crate::register::accession_from;
use crate::store::Store;
use rd_geometry::{Image, Items, Kind};
use rd_holdings::{Accession, ImageRow};
use rd_volume::{Found, survey};
use sqlite::types::ToSql;
use sqlite::{Alter, Connection, Error, Row, Transaction, params};
use std::alloc::Global;

/// An image without its bytes.
#[derive(Clone, Copy, Debug)]
pub(crate) struct Heading {
    pub(crate) kind: Kind,
    pub(crate) deed: u32,
    pub(crate) digest: [u8; 32],
}

/// The rows for the image of an accession.
fn image_rows<S: Alter>(conn: &mut Connection<S>, acc: u32) -> Result<Vec<Row>, StoreFault>
    requires tables { HoldsCommonTables (state S.Store conn.old) }
    ensures asks { Asks S.Store conn.old conn.new result StoreFault.Sql (λ rows.
        IsPicked image_query (Int (pos acc) ∷ []) ((state S.Store conn.old).now.trees 2) rows.items) }
{
    let key = acc.to_sql();
    read_over(
        conn,
        "SELECT kind, deed, digest, bytes FROM image WHERE acc = ?1",
        &[key],
    )
}

/// The image that a row shows, without error bytes.
fn read_image(alloc: Global, row: &Row) -> Result<ImageRow, StoreFault>
    ensures image { IfOk result (λ read. (image : ImageRow) → row.now ≡ image_shown image → read ≡ as_row image) }
    ensures fault { IfErr result (λ fault. fault ≡ StoreFault.Sql) }
{
    let kind = kind(number_at(row, 0)?);
    let deed = number_at(row, 1)?;
    let digest = digest_at(row, 2)?;
    let bytes = Items::of(bytes_at(alloc, row, 3)?);
    Ok(ImageRow {
        kind,
        deed,
        digest,
        bytes,
    })
}

/// The image that the first of some rows shows, without error bytes; `None` where there are none.
fn first_image(alloc: Global, rows: &[Row]) -> Result<Option<ImageRow>, StoreFault>
    ensures image { IfOk result (λ read. (found : Option ImageRow) → rows.now ≡ map image_shown (option_to_list found) → read ≡ option_map as_row found) }
    ensures fault { IfErr result (λ fault. fault ≡ StoreFault.Sql) }
{
    match rows.first() {
        Some(row) => Ok(Some(read_image(alloc, row)?)),
        None => Ok(None),
    }
}

/// The image of an accession without its error bytes, `None` where there is none. The rows need not be those
/// of a desk.
fn image_at<S: Alter>(
    alloc: Global,
    conn: &mut Connection<S>,
    acc: u32,
) -> Result<Option<ImageRow>, StoreFault>
    requires tables { HoldsCommonTables (state S.Store conn.old) }
    ensures asks { Asks S.Store conn.old conn.new result StoreFault.Sql (λ found.
        Spells image_spelling ((state S.Store conn.old).now.trees 2)
        → found ≡ get (map_of image_spelling ((state S.Store conn.old).now.trees 2)) acc) }
{
    let rows = image_rows(conn, acc)?;
    first_image(alloc, &rows)
}

/// The numbers in the first column of rows.
pub(crate) fn read_numbers(alloc: Global, rows: &[Row]) -> Result<Vec<u32>, StoreFault>
    ensures numbers { IfOk result (λ numbers.
        numbers.items ≡ map (λ row. natural (column row 0)) rows.now) }
    ensures fault { IfErr result (λ fault. fault ≡ StoreFault.Sql) }
{
    let mut numbers = Vec::new(alloc);
    for row in rows {
        let number = number_at(row, 0)?;
        if numbers.push(number).is_err() {
            return Err(StoreFault::Sql);
        }
    }
    Ok(numbers)
}

/// The files of an image.
pub(crate) fn survey_of(alloc: Global, kind: Kind, bytes: &[u8]) -> Result<Items<Found>, StoreFault>
    ensures files { IfOk result (AreFounds kind bytes.now) }
    ensures fault { IfErr result (λ fault. fault ≡ StoreFault.Sql) }
{
    let Ok(image) = Image::new(kind, bytes) else {
        return Err(StoreFault::Sql);
    };
    survey(alloc, &image).map_err(|_| StoreFault::Sql)
}

/// Puts the row of an image where none stands, inside a transaction, without error bytes; of its files none is in
/// the index yet.
fn insert_row<S: Alter>(
    tx: &mut Transaction<'_, S>,
    acc: u32,
    heading: &Heading,
    bytes: &[u8],
) -> Result<usize, Error>
    ensures same_reference { tx.new.conn.ghost_name ≡ tx.old.conn.ghost_name }
    ensures moves { (before : _) (files : _) → Moves S.Store tx.old.conn.now tx.new.conn.now
        (LacksImage acc before) (IsDeskWith (with_new_image acc (as_row (image_with heading.now bytes.now)) before) (IsFiledTo before.images acc files 0)) result }
{
    let code = codes::of_kind(heading.kind);
    let sum = heading.digest.as_slice();
    tx.execute(
        "INSERT INTO image (acc, kind, deed, digest, bytes) VALUES (?1, ?2, ?3, ?4, ?5)",
        params![acc, code, heading.deed, sum, bytes],
    )
}

/// Puts an image with error bytes where none stands, inside a transaction: its blocks and then its error bytes.
fn insert_both<S: Alter>(
    tx: &mut Transaction<'_, S>,
    acc: u32,
    heading: &Heading,
    bytes: &[u8],
) -> Result<usize, Error>
    requires kind { heading.now.kind ≡ Kind.D64e }
    requires size { length bytes.now ≡ size_of Kind.D64e }
    ensures same_reference { tx.new.conn.ghost_name ≡ tx.old.conn.ghost_name }
    ensures moves { (before : _) (files : _) → Moves S.Store tx.old.conn.now tx.new.conn.now
        (LacksImage acc before) (IsDeskWith (with_new_image acc (image_with heading.now bytes.now) before) (IsFiledTo before.images acc files 0)) result }
{
    let (blocks, marks) = bytes.split_at(Kind::D64.size());
    insert_row(tx, acc, heading, blocks)?;
    insert_marks(tx, acc, marks)
}

/// Puts an image where none stands, inside a transaction; of its files none is in the index yet.
pub(crate) fn insert_image<S: Alter>(
    tx: &mut Transaction<'_, S>,
    acc: u32,
    heading: &Heading,
    bytes: &[u8],
) -> Result<usize, Error>
    requires size { length bytes.now ≡ size_of heading.now.kind }
    ensures same_reference { tx.new.conn.ghost_name ≡ tx.old.conn.ghost_name }
    ensures moves { (before : _) (files : _) → Moves S.Store tx.old.conn.now tx.new.conn.now
        (LacksImage acc before) (IsDeskWith (with_new_image acc (image_with heading.now bytes.now) before) (IsFiledTo before.images acc files 0)) result }
{
    if heading.kind == Kind::D64e {
        return insert_both(tx, acc, heading, bytes);
    }
    insert_row(tx, acc, heading, bytes)
}

/// Puts an image where none stands, and its files into the index, in one transaction.
fn write_image<S: Alter>(
    alloc: Global,
    conn: &mut Connection<S>,
    acc: u32,
    heading: &Heading,
    bytes: &[u8],
    files: &[Found],
) -> Result<(), Error>
    requires mode { conn.old.in_transaction ≡ false }
    requires holds { HoldsDesk (state S.Store conn.old) }
    requires image { IsImage acc (image_with heading.now bytes.now) }
    requires files { AreFounds heading.now.kind bytes.now files.now }
    requires deed { IsOpen S.Store conn.old → IsSome (get (desk S.Store conn.old).deeds heading.now.deed) }
    requires free { IsOpen S.Store conn.old → get (desk S.Store conn.old).images acc ≡ None }
    ensures kept { HoldsDesk (state S.Store conn.new) }
    ensures changes { Changes S.Store conn.old conn.new (with_image acc (image_with heading.now bytes.now) (desk S.Store conn.old)) result }
{
    let mut tx = conn.transaction();
    insert_image(&mut tx, acc, heading, bytes)?;
    insert_files(alloc, &mut tx, acc, files)?;
    tx.commit()
}

/// Whether both have the same kind, deed and digest.
fn is_same(one: &Heading, other: &Heading) -> bool
    ensures { MatchBool result (IsSameHeading one.now other.now) (¬ IsSameHeading one.now other.now) }
{
    one.kind == other.kind && one.deed == other.deed && one.digest == other.digest
}

impl<S: Alter> Store<S> {
    /// The image of an accession, 1 to 999,999; `None` where there is none.
    ///
    /// It fails with `Sql`.
    pub fn image(&mut self, alloc: Global, acc: u32) -> Result<Option<ImageRow>, StoreFault>
        ensures reads { Reads S.Store self.old self.new result (λ found.
            found ≡ get (desk S.Store self.old).images acc) }
        ensures fault { IfErr result (λ fault. fault ≡ StoreFault.Sql) }
    {
        let found = image_at(alloc, &mut self.conn, acc)?;
        let Some(row) = found else {
            return Ok(None);
        };
        Ok(Some(marked_image(alloc, &mut self.conn, acc, row)?))
    }

    /// The kind of the image and the deed of an accession, 1 to 999,999; `None` if it is not there. It reads no row.
    ///
    /// It fails with `Sql`.
    pub fn accession(&mut self, acc: u32) -> Result<Option<Accession>, StoreFault>
        ensures reads { Reads S.Store self.old self.new result (λ found.
            found ≡ option_map accession_of (get (desk S.Store self.old).images acc)) }
        ensures fault { IfErr result (λ fault. fault ≡ StoreFault.Sql) }
    {
        self.stays_open()?;
        match self.register.find(acc) {
            Some(heading) => Ok(Some(accession_from(heading))),
            None => Ok(None),
        }
    }

    /// Whether an accession is there. It reads no row.
    pub(crate) fn stands(&mut self, acc: u32) -> Result<bool, StoreFault>
        ensures reads { Reads S.Store self.old self.new result (λ stand.
            MatchBool stand
            (IsSome (get (desk S.Store self.old).images acc)) (¬ IsSome (get (desk S.Store self.old).images acc))) }
        ensures fault { IfErr result (λ fault. fault ≡ StoreFault.Sql) }
    {
        self.stays_open()?;
        Ok(self.register.find(acc).is_some())
    }

    /// All accessions, ascending.
    ///
    /// It fails with `Sql`.
    pub fn accessions(&mut self, alloc: Global) -> Result<Vec<u32>, StoreFault>
        ensures reads { Reads S.Store self.old self.new result (λ numbers.
            numbers.items ≡ keys (desk S.Store self.old).images) }
        ensures fault { IfErr result (λ fault. fault ≡ StoreFault.Sql) }
    {
        self.stays_open()?;
        self.register.accessions(alloc)
    }

    /// The register: all accessions, ascending, each with the kind of its image and its deed. It reads no row.
    ///
    /// It fails with `Sql`.
    pub fn register(&mut self, alloc: Global) -> Result<Vec<(u32, Accession)>, StoreFault>
        ensures reads { Reads S.Store self.old self.new result (λ register.
            register.items ≡ map registered (entries (desk S.Store self.old).images)) }
        ensures fault { IfErr result (λ fault. fault ≡ StoreFault.Sql) }
    {
        self.stays_open()?;
        self.register.numbered(alloc)
    }

    /// Puts an image where none stands, and then into the register, in room that is there before: after the commit
    /// nothing takes memory.
    fn add_image(
        &mut self,
        alloc: Global,
        acc: u32,
        heading: &Heading,
        bytes: &[u8],
    ) -> Result<(), StoreFault>
        requires image { IsImage acc (image_with heading.now bytes.now) }
        requires deed { IsOpen S.Store self.old → IsSome (get (desk S.Store self.old).deeds heading.now.deed) }
        requires free { IsOpen S.Store self.old → get (desk S.Store self.old).images acc ≡ None }
        ensures changes { Changes S.Store self.old self.new (with_image acc (image_with heading.now bytes.now) (desk S.Store self.old)) result }
        ensures fault { IfErr result (λ fault. fault ≡ StoreFault.Sql) }
    {
        self.outside_transaction()?;
        let files = survey_of(alloc, heading.kind, bytes)?;
        self.register.reserve(alloc)?;
        match write_image(alloc, &mut self.conn, acc, heading, bytes, files.as_slice()) {
            Ok(()) => {
                self.register.insert(acc, *heading);
                Ok(())
            }
            Err(_) => Err(StoreFault::Sql),
        }
    }

    /// Puts an image of its kind's length at an accession, 1 to 999,999, that has none, under
    /// the deed with a number, with the SHA-256 that was given for it. Putting the same kind, deed
    /// and digest again succeeds and changes nothing, whatever the bytes. The same transaction
    /// writes its error bytes, if it has any, and puts what `survey` gives of its files into the
    /// index.
    ///
    /// It fails with `Missing` if there is no such deed, with `Conflict` if the accession has an image of
    /// another kind, deed or digest, and with `Sql`.
    pub fn put_image(
        &mut self,
        alloc: Global,
        acc: u32,
        kind: Kind,
        deed: u32,
        digest: &[u8; 32],
        bytes: &[u8],
    ) -> Result<(), StoreFault>
        requires image { IsImage acc (record { kind = kind; deed = deed; digest = digest.now; bytes = bytes.now }) }
        ensures changes { Changes S.Store self.old self.new
            (with_image acc (record { kind = kind; deed = deed; digest = digest.now; bytes = bytes.now }) (desk S.Store self.old)) result }
        ensures judges { Judges S.Store self.new result (IsSome (get (desk S.Store self.old).deeds deed))
            (HasOtherImage (desk S.Store self.old) acc (record { kind = kind; deed = deed; digest = digest.now; bytes = bytes.now })) }
    {
        let heading = Heading {
            kind,
            deed,
            digest: *digest,
        };
        if self.deed(deed)?.is_none() {
            return Err(StoreFault::Missing);
        }
        match self.register.find(acc) {
            Some(standing) if is_same(&standing, &heading) => Ok(()),
            Some(_) => Err(StoreFault::Conflict),
            None => self.add_image(alloc, acc, &heading, bytes),
        }
    }
}
