//! Laws of lines, of entries, of histories and of what a crash leaves. No code calls them, but whoever puts an entry calls `changes_may_come`.

ghost use Rattle.rd_history.specs.Laws.{BasesForget, BasesTell, ChangesMayCome, DoneChangesStay, LeftFilesAreNear, LinesAreEntries, RestoresLoseNothing, VoidsTakeBack};

use sqlite::Alter;

/// Law: a line is its entry. Two entries within their limits, with digests of 32 bytes, have the same line
/// only if they are the same.
pub fn lines_are_entries()
    ensures { LinesAreEntries }
{}

/// Law: an entry and one behind it that takes it back leave exactly what stood before, wherever they come.
pub fn voids_take_back()
    ensures { VoidsTakeBack }
{}

/// Law: of what stood before an entry that begins anew, nothing counts; and where the entries behind it list
/// all that stands, in the order of a base, exactly that stands after them.
pub fn bases_tell()
    ensures forget { BasesForget }
    ensures tell { BasesTell }
{}

/// Law: a change that may be taken back may come behind each history.
pub fn changes_may_come()
    ensures { ChangesMayCome }
{}

/// Law: a restore loses nothing. Two desks that stand as the same have the same deeds, rules and keys, and at each accession
/// an image of the same kind, deed and digest, or none.
pub fn restores_lose_nothing()
    ensures { RestoresLoseNothing }
{}

/// Law: what a crash left of a store and of a history that `LeavesNear` says to be near is a history, so that it opens,
/// and the desk stands near its lines: `settle` settles the two.
pub fn left_files_are_near()
    ensures { LeftFilesAreNear }
{}

/// Law: a change for which `answer_on` gave the status 200 to the staff is done for good, if both connections are open:
/// nothing is unsettled, its entry is the last, and a crash leaves the desk and the lines as they are, and nothing else.
/// That the history rests is what its `between_calls` says.
pub fn done_changes_stay<S: Alter, H: Alter>()
    ensures { DoneChangesStay S.Store H.Store }
{}
