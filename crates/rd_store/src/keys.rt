ghost use Rattle.std.specs.Prelude.{◌≡◌, ◌⊎◌, ◌↔◌, All, false, IfOk, IfErr, IsTrue, MatchBool, None, map, ◌≢◌, ⊤};
ghost use Rattle.std.specs.List.{Any};
ghost use Rattle.std.specs.FinMap.{get, entries};
ghost use Rattle.sqlite.specs.Held.{state};
ghost use Rattle.rd_tables.specs.Connections.{IsOpen, Moves};
ghost use Rattle.rd_store.specs.Held.{Changes, HoldsDesk, IsOf, desk, Judges, Reads};
ghost use Rattle.rd_holdings.specs.Lawful.{IsKey};
ghost use Rattle.rd_store.specs.Shown.{ShowsOther, audience_shown};
ghost use Rattle.rd_store.specs.Spelled.{key_spelling};
ghost use Rattle.rd_holdings.specs.State.{HasOtherStaff, with_key, without_key, IsLastStaff};
ghost use Rattle.std.specs.Option.{option_to_list};

use crate::codes;
use crate::decode::{audience, digest_at, number_at};
use crate::faults::StoreFault;
use crate::store::Store;
use rd_policy::Audience;
use sqlite::types::ToSql;
use sqlite::{Alter, Connection, Error, Row, Transaction, params};
use std::alloc::Global;

/// The audience that a row shows.
fn read_audience(row: &Row) -> Result<Audience, StoreFault>
    ensures audience { IfOk result (λ read. (audience : Audience) → row.now ≡ audience_shown audience → read ≡ audience) }
    ensures fault { IfErr result (λ fault. fault ≡ StoreFault.Sql) }
{
    Ok(audience(number_at(row, 0)?))
}

/// The key that a row shows: its digest, and its audience.
fn read_key(row: &Row) -> Result<([u8; 32], Audience), StoreFault>
    ensures entry { IfOk result (λ entry. entry ≡ key_spelling.entry row.now) }
    ensures fault { IfErr result (λ fault. fault ≡ StoreFault.Sql) }
{
    let digest = digest_at(row, 0)?;
    let audience = audience(number_at(row, 1)?);
    Ok((digest, audience))
}

/// The keys that rows show.
fn read_keys(alloc: Global, rows: &[Row]) -> Result<Vec<([u8; 32], Audience)>, StoreFault>
    ensures entries { IfOk result (λ keys. keys.items ≡ map key_spelling.entry rows.now) }
    ensures fault { IfErr result (λ fault. fault ≡ StoreFault.Sql) }
{
    let mut keys = Vec::new(alloc);
    for row in rows {
        let entry = read_key(row)?;
        if keys.push(entry).is_err() {
            return Err(StoreFault::Sql);
        }
    }
    Ok(keys)
}

/// Whether a row shows a staff key with another digest.
fn shows_other(row: &Row, digest: &[u8; 32]) -> Result<bool, StoreFault>
    ensures other { IfOk result (λ other. IsTrue other ↔ ShowsOther digest.now row.now) }
    ensures fault { IfErr result (λ fault. fault ≡ StoreFault.Sql) }
{
    let shown = digest_at(row, 0)?;
    let audience = audience(number_at(row, 1)?);
    Ok(shown != *digest && audience == Audience::Staff)
}

/// Whether one of the rows shows a staff key with another digest.
fn show_other(rows: &[Row], digest: &[u8; 32]) -> Result<bool, StoreFault>
    ensures other { IfOk result (λ other. MatchBool other
        (Any (ShowsOther digest.now) rows.now) (All (λ row. ¬ ShowsOther digest.now row) rows.now)) }
    ensures fault { IfErr result (λ fault. fault ≡ StoreFault.Sql) }
{
    for row in rows {
        if shows_other(row, digest)? {
            return Ok(true);
        }
    }
    Ok(false)
}

/// Takes a desk key away, if it is there; another staff key stands.
pub(crate) fn delete_key<S: Alter>(
    conn: &mut Connection<S>,
    digest: &[u8; 32],
) -> Result<usize, Error>
    requires mode { conn.old.in_transaction ≡ false }
    requires holds { HoldsDesk (state S.Store conn.old) }
    requires other { IsOpen S.Store conn.old → HasOtherStaff (desk S.Store conn.old) digest.now }
    ensures kept { HoldsDesk (state S.Store conn.new) }
    ensures changes { Changes S.Store conn.old conn.new (without_key digest.now (desk S.Store conn.old)) result }
{
    let sum = digest.as_slice();
    conn.execute("DELETE FROM badge WHERE digest = ?1", params![sum])
}

/// Takes a desk key away, inside a transaction.
fn delete_digest<S: Alter>(tx: &mut Transaction<'_, S>, digest: &[u8; 32]) -> Result<usize, Error>
    ensures same_reference { tx.new.conn.ghost_name ≡ tx.old.conn.ghost_name }
    ensures moves { (before : _) → Moves S.Store tx.old.conn.now tx.new.conn.now
        (IsOf before) (IsOf (without_key digest.now before)) result }
{
    let sum = digest.as_slice();
    tx.execute("DELETE FROM badge WHERE digest = ?1", params![sum])
}

/// Puts a desk key where none stands, inside a transaction.
pub(crate) fn insert_key<S: Alter>(
    tx: &mut Transaction<'_, S>,
    digest: &[u8; 32],
    audience: Audience,
) -> Result<usize, Error>
    ensures same_reference { tx.new.conn.ghost_name ≡ tx.old.conn.ghost_name }
    ensures moves { (before : _) → get before.keys digest.now ≡ None → Moves S.Store tx.old.conn.now tx.new.conn.now
        (IsOf before) (IsOf (with_key digest.now audience before)) result }
{
    let sum = digest.as_slice();
    let code = codes::of_audience(audience);
    tx.execute(
        "INSERT INTO badge (digest, audience) VALUES (?1, ?2)",
        params![sum, code],
    )
}

/// Puts a desk key, in place of one with its digest; a staff key is left.
pub(crate) fn write_key<S: Alter>(
    conn: &mut Connection<S>,
    digest: &[u8; 32],
    audience: Audience,
) -> Result<(), Error>
    requires mode { conn.old.in_transaction ≡ false }
    requires holds { HoldsDesk (state S.Store conn.old) }
    requires key { IsKey digest.now audience }
    requires staff { IsOpen S.Store conn.old → (audience ≡ Audience.Staff) ⊎ HasOtherStaff (desk S.Store conn.old) digest.now }
    ensures kept { HoldsDesk (state S.Store conn.new) }
    ensures changes { Changes S.Store conn.old conn.new (with_key digest.now audience (desk S.Store conn.old)) result }
{
    let mut tx = conn.transaction();
    delete_digest(&mut tx, digest)?;
    insert_key(&mut tx, digest, audience)?;
    tx.commit()
}

impl<S: Alter> Store<S> {
    /// The rows for the desk key with a digest.
    fn audience_rows(&mut self, digest: &[u8; 32]) -> Result<Vec<Row>, StoreFault>
        ensures reads { Reads S.Store self.old self.new result (λ rows.
            rows.items ≡ map audience_shown (option_to_list (get (desk S.Store self.old).keys digest.now))) }
        ensures fault { IfErr result (λ fault. fault ≡ StoreFault.Sql) }
    {
        let key = digest.as_slice().to_sql();
        self.query("SELECT audience FROM badge WHERE digest = ?1", &[key])
    }

    /// The audience of the desk key that has a digest, its SHA-256; `None` where there is no such key.
    ///
    /// It fails with `Sql`.
    pub fn audience_of(&mut self, digest: &[u8; 32]) -> Result<Option<Audience>, StoreFault>
        ensures reads { Reads S.Store self.old self.new result (λ found.
            found ≡ get (desk S.Store self.old).keys digest.now) }
        ensures fault { IfErr result (λ fault. fault ≡ StoreFault.Sql) }
    {
        let rows = self.audience_rows(digest)?;
        match rows.first() {
            Some(row) => Ok(Some(read_audience(row)?)),
            None => Ok(None),
        }
    }

    /// The rows for all desk keys.
    pub(crate) fn key_rows(&mut self) -> Result<Vec<Row>, StoreFault>
        ensures reads { Reads S.Store self.old self.new result (λ rows.
            rows.items ≡ map key_spelling.columns (entries (desk S.Store self.old).keys)) }
        ensures fault { IfErr result (λ fault. fault ≡ StoreFault.Sql) }
    {
        self.query("SELECT digest, audience FROM badge ORDER BY digest", &[])
    }

    /// All desk keys, by digest, each with its audience. It is one query.
    ///
    /// It fails with `Sql`.
    pub fn keys(&mut self, alloc: Global) -> Result<Vec<([u8; 32], Audience)>, StoreFault>
        ensures reads { Reads S.Store self.old self.new result (λ keys.
            keys.items ≡ entries (desk S.Store self.old).keys) }
        ensures fault { IfErr result (λ fault. fault ≡ StoreFault.Sql) }
    {
        let rows = self.key_rows()?;
        read_keys(alloc, &rows)
    }

    /// Whether there is a staff key beside the one with a digest.
    fn has_other_staff(&mut self, digest: &[u8; 32]) -> Result<bool, StoreFault>
        ensures reads { Reads S.Store self.old self.new result (λ other.
            MatchBool other
            (HasOtherStaff (desk S.Store self.old) digest.now) (¬ HasOtherStaff (desk S.Store self.old) digest.now)) }
        ensures fault { IfErr result (λ fault. fault ≡ StoreFault.Sql) }
    {
        let rows = self.key_rows()?;
        show_other(&rows, digest)
    }

    /// Puts a desk key by its digest, for the reading room or the staff, in place of the one with this digest,
    /// if there is one.
    ///
    /// It fails with `Conflict` if no staff key would be left, and with `Sql`.
    pub fn put_key(&mut self, digest: &[u8; 32], audience: Audience) -> Result<(), StoreFault>
        requires key { IsKey digest.now audience }
        ensures changes { Changes S.Store self.old self.new (with_key digest.now audience (desk S.Store self.old)) result }
        ensures judges { Judges S.Store self.new result ⊤
            ((audience ≢ Audience.Staff) × IsLastStaff (desk S.Store self.old) digest.now) }
        ensures fault { IfErr result (λ fault. fault ≢ StoreFault.Missing) }
    {
        if audience != Audience::Staff && !self.has_other_staff(digest)? {
            return Err(StoreFault::Conflict);
        }
        self.outside_transaction()?;
        match write_key(&mut self.conn, digest, audience) {
            Ok(()) => Ok(()),
            Err(_) => Err(StoreFault::Sql),
        }
    }

    /// Takes a desk key away by its digest, if it is there.
    ///
    /// It fails with `Conflict` if it is the last staff key, and with `Sql`.
    pub fn drop_key(&mut self, digest: &[u8; 32]) -> Result<(), StoreFault>
        ensures changes { Changes S.Store self.old self.new (without_key digest.now (desk S.Store self.old)) result }
        ensures judges { Judges S.Store self.new result ⊤ (IsLastStaff (desk S.Store self.old) digest.now) }
        ensures fault { IfErr result (λ fault. fault ≢ StoreFault.Missing) }
    {
        if !self.has_other_staff(digest)? {
            return Err(StoreFault::Conflict);
        }
        self.outside_transaction()?;
        match delete_key(&mut self.conn, digest) {
            Ok(_) => Ok(()),
            Err(_) => Err(StoreFault::Sql),
        }
    }
}
