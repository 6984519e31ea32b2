//! Laws of visits. No code calls them.

ghost use Rattle.std.specs.Prelude.{List};
ghost use Rattle.sqlite.specs.Held.{Held};
ghost use Rattle.rd_policy.specs.declared.zone.Zone.{Zone};
ghost use Rattle.rd_store.specs.Held.{IsOpen};
ghost use Rattle.rd_messages.specs.DoorVisits.{Visit};
ghost use Rattle.rd_http.specs.Cut.{AreRepliedUntilShut};
ghost use Rattle.rd_http.specs.Hidden.{HiddenBytesReachNoVisitor};
ghost use Rattle.rd_http.specs.Runs.{Runs};
ghost use Rattle.rd_http.specs.Visits.{IsAnswer};

use sqlite::Alter;

/// Law: the bytes of a visit have the same reply in each desk that shows the same to the visitor,
/// and so in each that looks alike to them. So the reply that goes to a visitor depends on no byte
/// of an image that is hidden from them, and of a file that is denied to them on nothing but its
/// slot, the label of the rule, and that a listed file shares a block with it; or it is 503. The law
/// says nothing of what only the staff may ask, where the staff asks it.
pub fn hidden_bytes_reach_no_visitor()
    ensures { HiddenBytesReachNoVisitor }
{}

/// Law: of visits in turn over a connection that is open at first, the desk replies to each before the one that leaves
/// the connection shut, if one does, and the reply depends on nothing that is hidden from the visitor. The visits of a
/// run are such visits (`run` of `serve_many`), whatever has become of the connection at its end.
pub fn visits_are_replied_until_shut<S: Alter>()
    ensures { (zone : Zone) (visits : List Visit) (old new : Held S) → IsOpen S.Store old → Runs (IsAnswer S.Store) zone visits old new
        → AreRepliedUntilShut S.Store zone visits old new }
{}
