//! What opening says of a desk that a crash left.

ghost use Rattle.std.specs.Prelude.{◌≡◌, ◌⊎◌};
ghost use Rattle.sqlite.specs.Effect.{Database, IsDatabase};
ghost use Rattle.sqlite.specs.Schema.{Schema};
ghost use Rattle.sqlite.specs.Tree.{Trees};
ghost use Rattle.rd_store.specs.declared.faults.OpenFault.{OpenFault as Fault};
ghost use Rattle.rd_store.specs.Held.{IsLeft};
ghost use Rattle.rd_store.specs.Migrated.{IsFirstConsistent, IsSecondConsistent, RefusesEach};
ghost use Rattle.rd_store.specs.Opened.{IsConsistent, Refuses};
ghost use Rattle.rd_holdings.specs.State.{Desk};

use crate::faults::OpenFault;

/// Law: what a crash leaves of a desk is consistent, and a connection over it shows the tables of a desk. So `open` and
/// `migrate` can refuse it with no fault but `Sql`. The same holds of `migrate` and a database with consistent tables of
/// version 1 or 2, whose tables each later connection over its trees shows; what a crash of `migrate` leaves is one, as
/// its clause `crash` says.
pub fn left_desks_open()
    ensures consistent { (desk : Desk) (left : Trees) → IsLeft desk left → IsConsistent left }
    ensures shown { (db : Database) → IsDatabase db → IsFirstConsistent db ⊎ IsSecondConsistent db → (schema : Schema)
        → IsDatabase (record { schema = schema; trees = db.trees }) → schema ≡ db.schema }
    ensures opened { (desk : Desk) (left : Trees) → IsLeft desk left → (schema : Schema) → IsDatabase (record { schema = schema; trees = left })
        → (fault : Fault) → Refuses fault (record { schema = schema; trees = left }) → fault ≡ OpenFault.Sql }
    ensures migrated { (desk : Desk) (left : Trees) → IsLeft desk left → (schema : Schema) → IsDatabase (record { schema = schema; trees = left })
        → (fault : Fault) → RefusesEach fault (record { schema = schema; trees = left }) → fault ≡ OpenFault.Sql }
    ensures first { (db : Database) → IsFirstConsistent db → (fault : Fault) → RefusesEach fault db → fault ≡ OpenFault.Sql }
    ensures second { (db : Database) → IsSecondConsistent db → (fault : Fault) → RefusesEach fault db → fault ≡ OpenFault.Sql }
{}
