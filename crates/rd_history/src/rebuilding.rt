//! A store that is made anew as changes tell, with the image bytes of another store.

ghost use Rattle.std.specs.Prelude.{◌≡◌, ◌≢◌, ◌↔◌, ◌∷◌, ◌++◌, [], Contains, false, IfErr, IfOk, IfSome, IsTrue, MatchOption, OnOk};
ghost use Rattle.rd_policy.specs.Rules.{IsScope};
ghost use Rattle.rd_tables.specs.Connections.{IsClean, IsOpen, Lasts, LeavesOpen};
ghost use Rattle.rd_store.specs.Held.{Keeps, Reads, desk};
ghost use Rattle.rd_history.specs.Entries.{IsChange, IsDigest, TellsDigests};
ghost use Rattle.rd_history.specs.Rebuilt.{AreMissing, AreWhole, CarriesOut, GiveNoStaffKey, HasImage, IsMissing, IsNotRebuilt, IsRebuilt, IsStaffKey, IsThis, Lacks};
ghost use Rattle.rd_history.specs.Replayed.{standing_with};
ghost use Rattle.rd_history.specs.Settled.{StandsAs};
ghost use Rattle.rd_history.specs.Standings.{Standing};

use crate::entry::Change;
use crate::settling::Unsettled;
use rd_geometry::Kind;
use rd_holdings::ImageRow;
use rd_policy::Audience;
use rd_protocol::has_digest;
use rd_store::{CreateFault, Refused, Store, StoreFault};
use sqlite::{Alter, Connection};
use std::alloc::Global;

/// Why no store is made.
#[derive(Clone, Copy, Debug, PartialEq, Eq)]
pub enum RebuildFault {
    /// No change gives a key to the staff.
    NoStaff,
    /// There is a table `desk` in the database.
    Exists,
    /// The source has not the image of this accession.
    Missing(u32),
    /// A change cannot be carried out: what stands with the changes is no lawful desk.
    Broken,
    /// There is another table or a view in the database, a database failed, or memory ran out.
    Sql,
}

/// Why no store is made where a call of one fails.
fn fault_in(fault: StoreFault) -> RebuildFault
    ensures named { (result ≢ RebuildFault.NoStaff) × (result ≢ RebuildFault.Exists) }
    ensures missing { (acc : _) → result ≢ RebuildFault.Missing acc }
{
    match fault {
        StoreFault::Sql => RebuildFault::Sql,
        StoreFault::Missing | StoreFault::Conflict => RebuildFault::Broken,
    }
}

/// Why no store is made where no new desk is.
fn fault_of(fault: CreateFault) -> RebuildFault
    ensures exists { (result ≡ RebuildFault.Exists) ↔ (fault ≡ CreateFault.Exists) }
    ensures named { result ≢ RebuildFault.NoStaff }
    ensures missing { (acc : _) → result ≢ RebuildFault.Missing acc }
{
    match fault {
        CreateFault::Exists => RebuildFault::Exists,
        CreateFault::Sql => RebuildFault::Sql,
    }
}

/// Whether an image is of this kind and digest, its bytes are as many as the kind has, and they have this SHA-256.
fn is_this(image: &ImageRow, kind: Kind, digest: &[u8; 32]) -> bool
    ensures { IsTrue result ↔ IsThis image.now kind digest.now }
{
    let bytes = image.bytes.as_slice();
    image.kind == kind
        && image.digest == *digest
        && bytes.len() == kind.size()
        && has_digest(bytes, digest)
}

/// The image that a store has at an accession, if it is of this kind and digest, and whole.
///
/// It fails with `Sql`.
fn image_at<F: Alter>(
    alloc: Global,
    source: &mut Store<F>,
    acc: u32,
    kind: Kind,
    digest: &[u8; 32],
) -> Result<Option<ImageRow>, StoreFault>
    ensures reads { Reads F.Store source.old source.new result (λ found.
        MatchOption found (¬ HasImage (desk F.Store source.old) acc kind digest.now) (λ image. HasImage (desk F.Store source.old) acc kind digest.now)) }
    ensures this { IfOk result (λ found. IfSome found (λ image. IsThis image kind digest.now)) }
    ensures fault { IfErr result (λ fault. fault ≡ StoreFault.Sql) }
{
    let found = source.image(alloc, acc)?;
    let Some(image) = found else {
        return Ok(None);
    };
    if is_this(&image, kind, digest) {
        Ok(Some(image))
    } else {
        Ok(None)
    }
}

/// Adds the accession of a change's image, if the source has it not.
fn with_missing<F: Alter>(
    alloc: Global,
    change: &Change,
    missing: Vec<u32>,
    source: &mut Store<F>,
) -> Result<Vec<u32>, Unsettled>
    ensures keeps { Keeps F.Store source.old source.new }
    ensures opens { (IsClean F.Store source.old → IsOpen F.Store source.old) → LeavesOpen F.Store source.new result }
    ensures more { IsOpen F.Store source.new → IfOk result (λ all. (more : _) × IsMissing (desk F.Store source.old) change.now more × (all.items ≡ missing.items ++ more)) }
{
    let mut all = missing;
    // Where it is no image there is no call. Then a crash leaves the desk as it is here.
    source.between_calls();
    let Change::Image {
        acc,
        kind,
        digest,
        ..
    } = change
    else {
        return Ok(all);
    };
    let found = image_at(alloc, source, *acc, *kind, digest)?;
    match found {
        Some(_) => Ok(all),
        None => match all.push(*acc) {
            Ok(()) => Ok(all),
            Err(_) => Err(Unsettled),
        },
    }
}

/// The accessions of the images among changes that a store has not, in the order of the changes: it has an image where
/// at its accession stands one of the same kind and digest, whose bytes are as many as the kind has, and have the SHA-256
/// that was given for them. It reads each of them, and changes nothing.
///
/// It fails with `Unsettled` if the database fails, or memory runs out.
pub fn missing<F: Alter>(
    alloc: Global,
    changes: &[Change],
    source: &mut Store<F>,
) -> Result<Vec<u32>, Unsettled>
    ensures keeps { Keeps F.Store source.old source.new }
    ensures opens { (IsClean F.Store source.old → IsOpen F.Store source.old) → LeavesOpen F.Store source.new result }
    ensures missing { IsOpen F.Store source.new → IfOk result (λ missing. AreMissing (desk F.Store source.old) changes.now missing.items) }
{
    let mut missing = Vec::new(alloc);
    // Until a call is made a crash leaves the desk as it is here.
    source.between_calls();
    for change in changes {
        missing = with_missing(alloc, change, missing, source)?;
    }
    Ok(missing)
}

/// Puts an image, with the bytes that the source has at its accession.
fn put_image<S: Alter, F: Alter>(
    alloc: Global,
    acc: u32,
    kind: Kind,
    deed: u32,
    digest: &[u8; 32],
    source: &mut Store<F>,
    store: &mut Store<S>,
) -> Result<(), RebuildFault>
    requires scope { IsScope acc }
    requires digest { IsDigest digest.now }
    ensures source { Keeps F.Store source.old source.new }
    ensures source_opens { (IsClean F.Store source.old → IsOpen F.Store source.old) → LeavesOpen F.Store source.new result }
    ensures carries { CarriesOut S.Store store.old store.new (Change.Image acc kind deed digest.now) result }
    ensures missing { IsOpen F.Store source.new → IfErr result (λ fault. (other : _) → fault ≡ RebuildFault.Missing other
        → IsMissing (desk F.Store source.old) (Change.Image acc kind deed digest.now) (other ∷ [])) }
    ensures named { IfErr result (λ fault. (fault ≢ RebuildFault.NoStaff) × (fault ≢ RebuildFault.Exists)) }
{
    let found = match image_at(alloc, source, acc, kind, digest) {
        Ok(found) => found,
        Err(fault) => return Err(fault_in(fault)),
    };
    let Some(image) = found else {
        return Err(RebuildFault::Missing(acc));
    };
    match store.put_image(alloc, acc, kind, deed, digest, image.bytes.as_slice()) {
        Ok(()) => Ok(()),
        Err(fault) => Err(fault_in(fault)),
    }
}

/// Carries a change out, which is within its limits, and puts no image.
fn put<S: Alter>(change: &Change, store: &mut Store<S>) -> Result<(), StoreFault>
    requires fits { IsChange change.now }
    requires digests { TellsDigests change.now }
    ensures { CarriesOut S.Store store.old store.new change.now result }
{
    match change {
        Change::Deed { num, donor, signed } => store.put_deed(*num, donor.as_str(), *signed),
        Change::Rule(rule) => store.put_rule(rule),
        Change::DropRule { band, scope, rank } => store.drop_rule(*band, *scope, *rank),
        Change::Key { digest, audience } => store.put_key(digest, *audience),
        Change::DropKey { digest } => store.drop_key(digest),
        Change::Begin(_) | Change::Void(_) | Change::Image { .. } => Err(StoreFault::Conflict),
    }
}

/// Carries a change out, an image with the bytes that the source has at its accession.
///
/// It fails with `Missing` where the source has not the image, with `Broken` where no request asks such a change or the
/// store refuses it, and with `Sql`.
fn carry_out<S: Alter, F: Alter>(
    alloc: Global,
    change: &Change,
    source: &mut Store<F>,
    store: &mut Store<S>,
) -> Result<(), RebuildFault>
    ensures source { Keeps F.Store source.old source.new }
    ensures source_opens { (IsClean F.Store source.old → IsOpen F.Store source.old) → LeavesOpen F.Store source.new result }
    ensures carries { CarriesOut S.Store store.old store.new change.now result }
    ensures missing { IsOpen F.Store source.new → IfErr result (λ fault. (acc : _) → fault ≡ RebuildFault.Missing acc
        → IsMissing (desk F.Store source.old) change.now (acc ∷ [])) }
    ensures named { IfErr result (λ fault. (fault ≢ RebuildFault.NoStaff) × (fault ≢ RebuildFault.Exists)) }
{
    // Where it is no image there is no call. Then a crash leaves the source as it is here.
    source.between_calls();
    if !change.fits() || !change.has_whole_digests() {
        return Err(RebuildFault::Broken);
    }
    match change {
        Change::Image {
            acc,
            kind,
            deed,
            digest,
        } => put_image(alloc, *acc, *kind, *deed, digest, source, store),
        other => match put(other, store) {
            Ok(()) => Ok(()),
            Err(fault) => Err(fault_in(fault)),
        },
    }
}

/// Carries changes out, one after the other.
fn carry_out_all<S: Alter, F: Alter>(
    alloc: Global,
    changes: &[Change],
    source: &mut Store<F>,
    store: &mut Store<S>,
) -> Result<(), RebuildFault>
    ensures source { Keeps F.Store source.old source.new }
    ensures lasts { Lasts S.Store store.old store.new }
    ensures stands { IsOpen S.Store store.new → (now : Standing) → StandsAs (desk S.Store store.old) now → OnOk result (StandsAs (desk S.Store store.new) (standing_with now changes.now)) }
    ensures whole { IsOpen S.Store store.new → AreWhole (desk S.Store store.old) → OnOk result (AreWhole (desk S.Store store.new)) }
    ensures opens { (IsClean S.Store store.old → IsOpen S.Store store.old) → LeavesOpen S.Store store.new result }
    ensures missing { IsOpen F.Store source.new → IfErr result (λ fault. (acc : _) → fault ≡ RebuildFault.Missing acc → Lacks (desk F.Store source.old) changes.now acc) }
    ensures named { IfErr result (λ fault. (fault ≢ RebuildFault.NoStaff) × (fault ≢ RebuildFault.Exists)) }
{
    // Until a call is made a crash leaves the source as it is here.
    source.between_calls();
    for change in changes {
        carry_out(alloc, change, source, store)?;
    }
    Ok(())
}

/// The key that a change gives to the staff, if it does so.
fn staff_key(change: &Change) -> Option<[u8; 32]>
    ensures { MatchOption result (¬ IsStaffKey change.now) (λ digest. change.now ≡ Change.Key digest Audience.Staff) }
{
    let Change::Key { digest, audience } = change else {
        return None;
    };
    if *audience == Audience::Staff {
        Some(*digest)
    } else {
        None
    }
}

/// The first key that changes give to the staff.
fn first_staff_key(changes: &[Change]) -> Option<[u8; 32]>
    ensures { MatchOption result (GiveNoStaffKey changes.now) (λ digest. Contains changes.now (Change.Key digest Audience.Staff)) }
{
    for change in changes {
        match staff_key(change) {
            Some(digest) => return Some(digest),
            None => {}
        }
    }
    None
}

/// Makes a store in a database without tables that stands as changes tell, in their order, each image with the bytes that
/// the source has at its accession: an image of the same kind and digest, whose bytes are as many as the kind has, and
/// have the SHA-256 that was given for them. The source is only read. The connection is outside a transaction.
///
/// It fails with `NoStaff` if no change gives a key to the staff, then with `Exists` if there is a table `desk`. It fails
/// with `Missing` if the source has not an image, with `Broken` if a change cannot be carried out, and with `Sql` if there
/// is another table or a view, if a database fails, or if memory runs out. Then part of the changes may stand.
pub fn rebuild<S: Alter, F: Alter>(
    alloc: Global,
    conn: Connection<S>,
    changes: &[Change],
    source: &mut Store<F>,
) -> Result<Store<S>, Refused<RebuildFault, S>>
    requires outside { conn.in_transaction ≡ false }
    ensures source { Keeps F.Store source.old source.new }
    ensures rebuilt { IfOk result (λ store. IsRebuilt S.Store conn store changes.now) }
    ensures refused { IfErr result (λ refused. IsNotRebuilt S.Store conn refused.conn changes.now refused.fault) }
    ensures missing { IsOpen F.Store source.new → IfErr result (λ refused. (acc : _) → refused.fault ≡ RebuildFault.Missing acc → Lacks (desk F.Store source.old) changes.now acc) }
{
    // Until a call is made a crash leaves the source as it is here.
    source.between_calls();
    let Some(staff) = first_staff_key(changes) else {
        return Err(Refused {
            fault: RebuildFault::NoStaff,
            conn,
        });
    };
    let mut store = match Store::create(conn, &staff) {
        Ok(store) => store,
        Err(refused) => {
            let Refused { fault, conn } = refused;
            return Err(Refused {
                fault: fault_of(fault),
                conn,
            });
        }
    };
    match carry_out_all(alloc, changes, source, &mut store) {
        Ok(()) => Ok(store),
        Err(fault) => Err(Refused {
            fault,
            conn: store.into_connection(),
        }),
    }
}
