//! Copies a desk into a database without tables, in one transaction.

ghost use Rattle.std.specs.Prelude.{◌≡◌, ◌<◌, ℕ, List, [], IfErr, IfOk, None, Some, false, length, map, slice_index_or};
ghost use Rattle.std.specs.FinMap.{FinMap, entries, from_entries, get};
ghost use Rattle.std.specs.Ordering.{nat_cmp};
ghost use Rattle.sqlite.specs.Held.{state};
ghost use Rattle.rd_policy.specs.declared.audience.Audience.{Audience as KeyAudience};
ghost use Rattle.rd_geometry.specs.Kinds.{size_of};
ghost use Rattle.rd_volume.specs.Volumes.{AreFounds};
ghost use Rattle.rd_holdings.specs.State.{Checkup, Desk, Terms, all_rules, checkup_cmp, digest_cmp, place_cmp, place_of, terms_of, with_check, with_deed, with_key, with_rule};
ghost use Rattle.rd_holdings.specs.declared.rows.DeedRow.{DeedRow as Deed};
ghost use Rattle.rd_holdings.specs.declared.rows.Finding.{Finding as CheckFinding};
ghost use Rattle.rd_holdings.specs.declared.rows.ImageRow.{ImageRow as Image};
ghost use Rattle.rd_holdings.specs.declared.rows.Outcome.{Outcome};
ghost use Rattle.rd_store.specs.Copied.{AndClean, AreHoldingsOf, IsCopied, IsNotCopied, IsSameCopy, KeepsOrStays, LeavesCopy, OpensCopy, TakesImage, numbered_check, with_checks, with_deeds, with_images, with_keys, with_rules};
ghost use Rattle.rd_tables.specs.Connections.{IsClean, IsOpen, LeavesOpen, Moves, RestsIn, Turns};
ghost use Rattle.rd_store.specs.Created.{HasFirstTables};
ghost use Rattle.rd_store.specs.Held.{Holds, IsOf, Keeps, LacksImage, Reads, desk};
ghost use Rattle.rd_store.specs.Index.{with_new_image};
ghost use Rattle.rd_store.specs.Shown.{image_with};

use crate::checks::insert_check;
use crate::comparing::is_same_desk;
use crate::create::make_empty;
use crate::deeds::insert_deed_in;
use crate::faults::{CreateFault, Refused, StoreFault};
use crate::files::insert_files;
use crate::images::{Heading, insert_image, survey_of};
use crate::keys::insert_key;
use crate::rulebook::Rulebook;
use crate::rules::insert_rule;
use crate::store::Store;
use rd_holdings::{DeedRow, Finding, ImageRow};
use rd_policy::{Audience, Rule};
use rd_tables::{has_desk as has_desk_table, is_blank};
use rd_volume::Found;
use sqlite::{Alter, Connection, Error, ErrorCode, Transaction};
use std::alloc::Global;

/// What ends a copy where the desk that is copied cannot be read.
const UNREAD: Error = Error::SqliteFailure(ErrorCode::SystemIoFailure);

/// All that a desk holds beside its images.
#[derive(Drop)]
pub(crate) struct Holdings {
    pub(crate) deeds: Vec<(u32, DeedRow)>,
    pub(crate) rules: Rulebook,
    pub(crate) keys: Vec<([u8; 32], Audience)>,
    pub(crate) checks: Vec<(u32, Finding)>,
}

/// Reads all that a desk holds beside its images.
fn read_holdings<S: Alter>(alloc: Global, from: &mut Store<S>) -> Result<Holdings, StoreFault>
    ensures reads { Reads S.Store from.old from.new result (AreHoldingsOf (desk S.Store from.old)) }
{
    let deeds = from.deeds(alloc)?;
    let rules = from.rulebook(alloc)?;
    let keys = from.keys(alloc)?;
    let checks = from.checks(alloc)?;
    Ok(Holdings {
        deeds,
        rules,
        keys,
        checks,
    })
}

/// Puts a deed where none stands, inside a transaction.
fn copy_deed<S: Alter>(tx: &mut Transaction<'_, S>, entry: &(u32, DeedRow)) -> Result<usize, Error>
    ensures same_reference { tx.new.conn.ghost_name ≡ tx.old.conn.ghost_name }
    ensures moves { (before : _) → get before.deeds entry.now.0 ≡ None → Moves S.Store tx.old.conn.now tx.new.conn.now
        (IsOf before) (IsOf (with_deed entry.now.0 entry.now.1 before)) result }
{
    insert_deed_in(tx, entry.0, entry.1.donor.as_str(), entry.1.signed)
}

/// Puts these deeds where none stands.
fn copy_deeds<S: Alter>(tx: &mut Transaction<'_, S>, deeds: &[(u32, DeedRow)]) -> Result<(), Error>
    ensures same_reference { tx.new.conn.ghost_name ≡ tx.old.conn.ghost_name }
    ensures moves { (before : Desk) (all : FinMap nat_cmp Deed) → before.deeds ≡ from_entries [] → deeds.now ≡ entries all
        → Moves S.Store tx.old.conn.now tx.new.conn.now (IsOf before) (IsOf (with_deeds all before)) result }
{
    for at in 0..deeds.len() {
        copy_deed(tx, &deeds[at])?;
    }
    Ok(())
}

/// Puts an image with these files where no image stands.
fn put_filed<S: Alter>(
    alloc: Global,
    tx: &mut Transaction<'_, S>,
    acc: u32,
    heading: &Heading,
    bytes: &[u8],
    files: &[Found],
) -> Result<(), Error>
    requires size { length bytes.now ≡ size_of heading.now.kind }
    requires files { AreFounds heading.now.kind bytes.now files.now }
    ensures same_reference { tx.new.conn.ghost_name ≡ tx.old.conn.ghost_name }
    ensures moves { (before : _) → Moves S.Store tx.old.conn.now tx.new.conn.now
        (LacksImage acc before) (IsOf (with_new_image acc (image_with heading.now bytes.now) before)) result }
{
    insert_image(tx, acc, heading, bytes)?;
    insert_files(alloc, tx, acc, files)
}

/// Puts an image and its files where no image stands.
fn put_image<S: Alter>(
    alloc: Global,
    tx: &mut Transaction<'_, S>,
    acc: u32,
    image: &ImageRow,
) -> Result<(), Error>
    requires size { length image.now.bytes ≡ size_of image.now.kind }
    ensures same_reference { tx.new.conn.ghost_name ≡ tx.old.conn.ghost_name }
    ensures moves { (before : _) → Moves S.Store tx.old.conn.now tx.new.conn.now
        (LacksImage acc before) (IsOf (with_new_image acc image.now before)) result }
{
    let bytes = image.bytes.as_slice();
    let heading = Heading {
        kind: image.kind,
        deed: image.deed,
        digest: image.digest,
    };
    let Ok(files) = survey_of(alloc, image.kind, bytes) else {
        return Err(Error::SqliteFailure(ErrorCode::OutOfMemory));
    };
    put_filed(alloc, tx, acc, &heading, bytes, files.as_slice())
}

/// The image of an accession.
///
/// It fails if the image cannot be read, if there is none, or if it does not have the length of its kind.
fn read_image<S: Alter>(alloc: Global, from: &mut Store<S>, acc: u32) -> Result<ImageRow, Error>
    ensures reads { Reads S.Store from.old from.new result (λ image. get (desk S.Store from.old).images acc ≡ Some image) }
    ensures size { IfOk result (λ image. length image.bytes ≡ size_of image.kind) }
{
    let Ok(found) = from.image(alloc, acc) else {
        return Err(UNREAD);
    };
    let Some(image) = found else {
        return Err(UNREAD);
    };
    if image.bytes.as_slice().len() != image.kind.size() {
        return Err(UNREAD);
    }
    Ok(image)
}

/// Copies the image of an accession, with its files, to where no image stands.
fn copy_image<S: Alter>(
    alloc: Global,
    from: &mut Store<S>,
    tx: &mut Transaction<'_, S>,
    acc: u32,
) -> Result<(), Error>
    ensures keeps { Keeps S.Store from.old from.new }
    ensures read_open { LeavesOpen S.Store from.new result }
    ensures same_reference { tx.new.conn.ghost_name ≡ tx.old.conn.ghost_name }
    ensures moves { (before : Desk) (image : Image) → Moves S.Store tx.old.conn.now tx.new.conn.now
        (AndClean S.Store from.new (TakesImage acc image (desk S.Store from.old) before)) (IsOf (with_new_image acc image before)) result }
{
    let image = read_image(alloc, from, acc)?;
    put_image(alloc, tx, acc, &image)
}

/// Copies all images to where none stands.
fn copy_images<S: Alter>(
    alloc: Global,
    from: &mut Store<S>,
    tx: &mut Transaction<'_, S>,
) -> Result<(), Error>
    ensures keeps { Keeps S.Store from.old from.new }
    ensures read_open { LeavesOpen S.Store from.new result }
    ensures same_reference { tx.new.conn.ghost_name ≡ tx.old.conn.ghost_name }
    ensures moves { (before : Desk) → before.images ≡ from_entries []
        → Moves S.Store tx.old.conn.now tx.new.conn.now (AndClean S.Store from.new (IsOf before)) (IsOf (with_images (desk S.Store from.old).images before)) result }
{
    let Ok(accessions) = from.accessions(alloc) else {
        return Err(UNREAD);
    };
    for at in 0..accessions.len() {
        copy_image(alloc, from, tx, accessions[at])?;
    }
    Ok(())
}

/// Puts these rules where none stands.
fn copy_rules<S: Alter>(tx: &mut Transaction<'_, S>, rules: &[Rule]) -> Result<(), Error>
    ensures same_reference { tx.new.conn.ghost_name ≡ tx.old.conn.ghost_name }
    ensures moves { (before from : Desk) → before.rules ≡ from_entries [] → rules.now ≡ all_rules from
        → Moves S.Store tx.old.conn.now tx.new.conn.now (IsOf before) (IsOf (with_rules from.rules before)) result }
{
    for at in 0..rules.len() {
        insert_rule(tx, &rules[at])?;
    }
    Ok(())
}

/// The desk key at a place.
fn key_at(keys: &[([u8; 32], Audience)], at: usize) -> ([u8; 32], Audience)
    requires { at < length keys.now }
    ensures { (d : List ℕ × KeyAudience) → result ≡ slice_index_or keys.now at d }
{
    keys[at]
}

/// Puts a desk key where none stands, inside a transaction.
fn copy_key<S: Alter>(
    tx: &mut Transaction<'_, S>,
    entry: &([u8; 32], Audience),
) -> Result<usize, Error>
    ensures same_reference { tx.new.conn.ghost_name ≡ tx.old.conn.ghost_name }
    ensures moves { (before : _) → get before.keys entry.now.0 ≡ None → Moves S.Store tx.old.conn.now tx.new.conn.now
        (IsOf before) (IsOf (with_key entry.now.0 entry.now.1 before)) result }
{
    insert_key(tx, &entry.0, entry.1)
}

/// Puts these desk keys where none stands.
fn copy_keys<S: Alter>(
    tx: &mut Transaction<'_, S>,
    keys: &[([u8; 32], Audience)],
) -> Result<(), Error>
    ensures same_reference { tx.new.conn.ghost_name ≡ tx.old.conn.ghost_name }
    ensures moves { (before : Desk) (all : FinMap digest_cmp KeyAudience) → before.keys ≡ from_entries [] → keys.now ≡ entries all
        → Moves S.Store tx.old.conn.now tx.new.conn.now (IsOf before) (IsOf (with_keys all before)) result }
{
    for at in 0..keys.len() {
        let entry = key_at(keys, at);
        copy_key(tx, &entry)?;
    }
    Ok(())
}

/// The check at a place.
fn check_at(checks: &[(u32, Finding)], at: usize) -> (u32, Finding)
    requires { at < length checks.now }
    ensures { (d : ℕ × CheckFinding) → result ≡ slice_index_or checks.now at d }
{
    checks[at]
}

/// Puts a check where none of its accession and day stands, inside a transaction.
fn copy_check<S: Alter>(tx: &mut Transaction<'_, S>, entry: &(u32, Finding)) -> Result<usize, Error>
    ensures same_reference { tx.new.conn.ghost_name ≡ tx.old.conn.ghost_name }
    ensures moves { (before : _) (checkup : Checkup) (outcome : Outcome) → entry.now ≡ numbered_check (checkup, outcome) → get before.checks checkup ≡ None
        → Moves S.Store tx.old.conn.now tx.new.conn.now (IsOf before) (IsOf (with_check checkup.acc checkup.day outcome before)) result }
{
    insert_check(tx, entry.0, entry.1.day, entry.1.outcome)
}

/// Puts these checks where none stands.
fn copy_checks<S: Alter>(
    tx: &mut Transaction<'_, S>,
    checks: &[(u32, Finding)],
) -> Result<(), Error>
    ensures same_reference { tx.new.conn.ghost_name ≡ tx.old.conn.ghost_name }
    ensures moves { (before : Desk) (all : FinMap checkup_cmp Outcome) → before.checks ≡ from_entries [] → checks.now ≡ map numbered_check (entries all)
        → Moves S.Store tx.old.conn.now tx.new.conn.now (IsOf before) (IsOf (with_checks all before)) result }
{
    for at in 0..checks.len() {
        let entry = check_at(checks, at);
        copy_check(tx, &entry)?;
    }
    Ok(())
}

/// Puts rules, desk keys and checks where none stands.
fn copy_rest<S: Alter>(tx: &mut Transaction<'_, S>, holdings: &Holdings) -> Result<(), Error>
    ensures same_reference { tx.new.conn.ghost_name ≡ tx.old.conn.ghost_name }
    ensures moves { (before from : Desk) → before.rules ≡ from_entries [] → before.keys ≡ from_entries [] → before.checks ≡ from_entries []
        → AreHoldingsOf from holdings.now
        → Moves S.Store tx.old.conn.now tx.new.conn.now (IsOf before) (IsOf (with_checks from.checks (with_keys from.keys (with_rules from.rules before)))) result }
{
    copy_rules(tx, holdings.rules.all())?;
    copy_keys(tx, &holdings.keys)?;
    copy_checks(tx, &holdings.checks)
}

/// Makes the desk in a blank database that another store has, whose holdings are these.
fn fill<S: Alter>(
    alloc: Global,
    from: &mut Store<S>,
    tx: &mut Transaction<'_, S>,
    holdings: &Holdings,
) -> Result<(), Error>
    ensures keeps { KeepsOrStays S.Store from.old from.new }
    ensures read_open { LeavesOpen S.Store from.new result }
    ensures same_reference { tx.new.conn.ghost_name ≡ tx.old.conn.ghost_name }
    ensures moves { AreHoldingsOf (desk S.Store from.old) holdings.now
        → Moves S.Store tx.old.conn.now tx.new.conn.now (AndClean S.Store from.new (HasFirstTables 0)) (IsOf (desk S.Store from.old)) result }
{
    make_empty(tx)?;
    copy_deeds(tx, &holdings.deeds)?;
    copy_images(alloc, from, tx)?;
    copy_rest(tx, holdings)
}

/// Makes the desk in a blank database that another store has, whose holdings are these, in one transaction.
fn write_holdings<S: Alter>(
    alloc: Global,
    from: &mut Store<S>,
    conn: &mut Connection<S>,
    holdings: &Holdings,
) -> Result<(), Error>
    requires mode { conn.old.in_transaction ≡ false }
    requires start { IsOpen S.Store conn.old → RestsIn (HasFirstTables 0) (state S.Store conn.old) }
    ensures keeps { KeepsOrStays S.Store from.old from.new }
    ensures read_open { LeavesOpen S.Store from.new result }
    ensures turns { IsClean S.Store from.new → AreHoldingsOf (desk S.Store from.old) holdings.now
        → Turns S.Store conn.old conn.new (IsOf (desk S.Store from.old)) result }
{
    let mut tx = conn.transaction();
    fill(alloc, from, &mut tx, holdings)?;
    tx.commit()
}

/// Makes the desk in a blank database that another store has, in one transaction.
fn write_copy<S: Alter>(
    alloc: Global,
    from: &mut Store<S>,
    conn: &mut Connection<S>,
) -> Result<(), Error>
    requires mode { conn.old.in_transaction ≡ false }
    requires start { IsOpen S.Store conn.old → RestsIn (HasFirstTables 0) (state S.Store conn.old) }
    ensures keeps { Keeps S.Store from.old from.new }
    ensures read_open { LeavesOpen S.Store from.new result }
    ensures turns { IsClean S.Store from.new → Turns S.Store conn.old conn.new (Holds (desk S.Store from.old)) result }
{
    let Ok(holdings) = read_holdings(alloc, from) else {
        return Err(UNREAD);
    };
    from.between_calls();
    write_holdings(alloc, from, conn, &holdings)
}

/// The refusal of a copy that is not the same.
fn unlike<S: Alter>(copy: Store<S>) -> Refused<CreateFault, S>
    ensures same { result.conn ≡ copy }
    ensures fault { result.fault ≡ CreateFault.Sql }
{
    Refused {
        fault: CreateFault::Sql,
        conn: copy.into_connection(),
    }
}

/// A copy that was opened as a store and is now compared with what was copied.
///
/// It fails with `Sql`.
fn compared<S: Alter>(
    alloc: Global,
    from: &mut Store<S>,
    copy: Store<S>,
) -> Result<Store<S>, Refused<CreateFault, S>>
    ensures keeps { Keeps S.Store from.old from.new }
    ensures read_open { LeavesOpen S.Store from.new result }
    ensures same { IfOk result (λ store. Keeps S.Store copy store × IsSameCopy S.Store copy from.old from.new store) }
    ensures refused { IfErr result (λ refused. Keeps S.Store copy refused.conn × (refused.fault ≡ CreateFault.Sql)) }
{
    let mut copy = copy;
    let Ok(is_same) = is_same_desk(alloc, from, &mut copy) else {
        return Err(unlike(copy));
    };
    if !is_same {
        return Err(unlike(copy));
    }
    Ok(copy)
}

/// A copy that was written, opened as a store and compared with what was copied.
///
/// It fails with `Sql`.
fn open_copy<S: Alter>(
    alloc: Global,
    from: &mut Store<S>,
    conn: Connection<S>,
) -> Result<Store<S>, Refused<CreateFault, S>>
    ensures keeps { KeepsOrStays S.Store from.old from.new }
    ensures read_open { LeavesOpen S.Store from.new result }
    ensures opened { IfOk result (λ store. OpensCopy S.Store from.old from.new conn store) }
    ensures refused { IfErr result (λ refused. LeavesCopy S.Store conn refused.conn × (refused.fault ≡ CreateFault.Sql)) }
{
    if !conn.is_autocommit() {
        return Err(Refused {
            fault: CreateFault::Sql,
            conn,
        });
    }
    match Store::open(alloc, conn) {
        Ok(copy) => compared(alloc, from, copy),
        Err(Refused { fault: _, conn }) => Err(Refused {
            fault: CreateFault::Sql,
            conn,
        }),
    }
}

impl<S: Alter> Store<S> {
    /// Makes the desk of this store in a database without tables, in one transaction: the same deeds, images, rules, desk
    /// keys and checks. Then it opens that desk as `open` does, and compares each row and each image of the two. Beside the
    /// new desk's pages it takes memory for one image, and for all that a desk holds beside its images. This desk stays as
    /// it is. The connection is outside a transaction.
    ///
    /// It fails with `Exists` if there is a table `desk` in the database, and with `Sql` if there is another table or a
    /// view, if one of the two databases fails, if the two desks differ, or if memory runs out. After `Sql` the database is
    /// as it was, or it has the whole desk.
    pub fn copy(
        &mut self,
        alloc: Global,
        mut conn: Connection<S>,
    ) -> Result<Store<S>, Refused<CreateFault, S>>
        requires outside { conn.in_transaction ≡ false }
        ensures keeps { Keeps S.Store self.old self.new }
        ensures copied { IfOk result (λ store. IsCopied S.Store self.old self.new conn store) }
        ensures refused { IfErr result (λ refused. IsNotCopied S.Store self.old self.new conn refused.conn refused.fault) }
    {
        self.between_calls();
        if has_desk_table(conn.schema()) {
            return Err(Refused {
                fault: CreateFault::Exists,
                conn,
            });
        }
        if !is_blank(conn.schema()) || !conn.is_autocommit() {
            return Err(Refused {
                fault: CreateFault::Sql,
                conn,
            });
        }
        match write_copy(alloc, self, &mut conn) {
            Ok(()) => open_copy(alloc, self, conn),
            Err(_) => Err(Refused {
                fault: CreateFault::Sql,
                conn,
            }),
        }
    }
}
