//! What the options and operands of each command ask for, from what `clap` found of them.

ghost use Rattle.std.specs.Prelude.{◌≡◌, ◌||◌, Bool, IfSome, IsSomeAnd, List, Ok, OnSome, Option, Some, codes, false, option_map, true, ℕ, ℤ};
ghost use Rattle.std.specs.Str.Parse.{ParsesUnsigned};
ghost use Rattle.std.specs.declared.num.ParseIntError.{ParseIntError};
ghost use Rattle.clap.specs.Words.{first_of, found_of, one_of, rows_of};
ghost use Rattle.httparse.specs.Grammar.{trim_ows};
ghost use Rattle.rd_policy.specs.Rules.{IsScope};
ghost use Rattle.rd_policy.specs.Zones.{IsZoneOf};
ghost use Rattle.rd_commands.specs.Asks.{AreCatRows, AreCheckRows, AreExportRows, AreFilesRows, AreImportRows, AreInitRows, AreListRows, AreServeRows, AreShowRows, AreImportFlags, IsMomentNamed};
ghost use Rattle.rd_commands.specs.Asks.{AsksExtracted, AsksFile, AsksFiles, AsksImages, AsksNew, AsksOneQuestion, AsksVisits, AsksWhen, IsAskable};
ghost use Rattle.rd_commands.specs.Asks.{IsCheck, IsImportAsk, IsFlaggedImportAsk, TellsInRows, is_trusting};
ghost use Rattle.rd_commands.specs.Asks.{AreCopyRows, AreStaffKeyRows, AsksCopying, AsksStaff};
ghost use Rattle.rd_commands.specs.Serving.{GivesTimeouts};
ghost use Rattle.rd_commands.specs.Serving as spec;
ghost use Rattle.rd_commands.specs.Shown.{IsAccessionGiven, NamesShown};
ghost use Rattle.rd_commands.specs.Words.{IsSlotText};
ghost use Rattle.rd_commands.specs.Parsed.{AreSecondsGiven, AskFrom, CopyFrom, ExtractFrom, FileFrom, ImageFrom, ImportFrom, InitFrom, IsKeyGiven, IsKindGiven, IsSlotGiven, OneFrom, ServeFrom, StaffKeyFrom, WhenFrom, command_name};
ghost use Rattle.rd_commands.specs.Zones.{HasZoneRule, IsFlagGiven, IsRuleNamed, TellsTrust, rule_text};
ghost use Rattle.rd_commands.specs.declared.words.Ask.TheVariants as ask;

use crate::common_options::{is_set, seconds_read};
use crate::serving::{count_asked, place_asked, timeouts_asked};
use crate::words::{
    Ask, CopyAsk, ExtractAsk, FileAsk, FlaggedImportAsk, ImageAsk, ImportAsk, InitAsk,
    OneQuestionAsk, Question, ServeAsk, Shown, StaffKeyAsk, WhenAsk,
};
use clap::ArgMatches;
use rd_operands::trimmed;
use rd_policy::{Zone, is_scope};
use rd_volume::Kind;

/// The kind that the operand for a kind names, `None` if there is none.
fn kind_asked(found: &ArgMatches) -> Option<Kind>
    ensures asked { (kind : Kind) → IsKindGiven (rows_of (found_of found.now)) kind → result ≡ Some kind }
    ensures from { IfSome result (IsKindGiven (rows_of (found_of found.now))) }
{
    Kind::from_word(found.get_str("KIND")?)
}

/// The number that the operand for a slot reads as, `None` if there is none.
fn slot_asked(found: &ArgMatches) -> Option<u16>
    ensures asked { (text : List ℕ) (slot : ℕ)
        → one_of (codes "SLOT") (rows_of (found_of found.now)) ≡ Some text
        → IsSlotText text slot → result ≡ Some slot }
    ensures from { IfSome result (IsSlotGiven (rows_of (found_of found.now))) }
{
    found.get_one::<u16>("SLOT")
}

/// What the operands of `cat` ask for; `None` if one is missing or badly written.
pub(crate) fn file_asked<'a>(found: &ArgMatches<'a>) -> Option<FileAsk<'a>>
    ensures asked { (kind : Kind) (image : List ℕ) (slot : ℕ)
        → AreCatRows (rows_of (found_of found.now)) kind image slot
        → IsSomeAnd result (λ ask. AsksFile ask kind image slot) }
    ensures from { IfSome result (FileFrom (rows_of (found_of found.now))) }
{
    Some(FileAsk {
        kind: kind_asked(found)?,
        image: found.get_str("IMAGE")?,
        slot: slot_asked(found)?,
    })
}

/// What the operands of `list` ask for; `None` if one is missing or badly written.
pub(crate) fn files_asked<'a>(found: &ArgMatches<'a>) -> Option<ImageAsk<'a>>
    ensures asked { (kind : Kind) (image : List ℕ)
        → AreListRows (rows_of (found_of found.now)) kind image
        → IsSomeAnd result (λ ask. AsksFiles ask kind image) }
    ensures from { IfSome result (ImageFrom (rows_of (found_of found.now))) }
{
    Some(ImageAsk {
        kind: kind_asked(found)?,
        image: found.get_str("IMAGE")?,
    })
}

/// The desk key that its option gives, without blanks and tabs at both ends; nothing, as a key, if it is in a file; and
/// `None` if there is none.
fn key_asked<'a>(found: &ArgMatches<'a>) -> Option<&'a [u8]>
    ensures asked { (key : List ℕ)
        → first_of (codes "key") (rows_of (found_of found.now)) ≡ Some key
        → IsSomeAnd result (λ trimmed. trimmed.now ≡ trim_ows key) }
    ensures from { IfSome result (λ key. IsKeyGiven (rows_of (found_of found.now)) key.now) }
{
    let Some(key) = found.get_str("key") else {
        found.get_str("key-file")?;
        return Some(b"");
    };
    Some(trimmed(key.as_bytes()))
}

/// Whether its flag says that the pages of a new store end in sums.
fn sums_asked(found: &ArgMatches) -> bool
    ensures { (summed : Bool) → IsFlagGiven (one_of (codes "sums") (rows_of (found_of found.now))) summed → result ≡ summed }
{
    found.get_flag("sums")
}

/// What the options of `init` ask for, `None` if one is missing.
pub(crate) fn init_asked<'a>(found: &ArgMatches<'a>) -> Option<InitAsk<'a>>
    ensures asked { (store : List ℕ) (key : List ℕ)
        → AreInitRows (rows_of (found_of found.now)) store key
        → IsSomeAnd result (λ ask. AsksNew ask store key) }
    ensures sums { (summed : Bool) → IsFlagGiven (one_of (codes "sums") (rows_of (found_of found.now))) summed
        → IfSome result (λ ask. ask.has_sums ≡ summed) }
    ensures from { IfSome result (InitFrom (rows_of (found_of found.now))) }
{
    Some(InitAsk {
        store: found.get_str("store")?,
        key: key_asked(found)?,
        has_sums: sums_asked(found),
    })
}

/// The zone whose rule its option gives, that of UTC if it is absent, and `None` if the text is no
/// rule.
fn zone_asked(found: &ArgMatches) -> Option<Zone>
    ensures asked { (rule : List ℕ)
        → IsRuleNamed (first_of (codes "zone") (rows_of (found_of found.now))) rule
        → IsSomeAnd result (IsZoneOf rule) }
    ensures zone { OnSome result (HasZoneRule (rows_of (found_of found.now))) }
    ensures from { IfSome result (IsZoneOf (rule_text (first_of (codes "zone") (rows_of (found_of found.now))))) }
{
    let rule = found.get_str("zone").unwrap_or("UTC0");
    Zone::read(rule).ok()
}

/// What the options of `serve` ask for; `None` if one is missing or badly written.
pub(crate) fn serve_asked<'a>(found: &ArgMatches<'a>) -> Option<ServeAsk<'a>>
    ensures asked { (store : List ℕ) (place : spec.Place) (count : ℕ) (rule : List ℕ)
        → AreServeRows (rows_of (found_of found.now)) store place count rule
        → IsSomeAnd result (λ ask. AsksVisits ask store place count rule) }
    ensures timeouts { IfSome result (λ ask. GivesTimeouts (rows_of (found_of found.now)) ask.timeouts) }
    ensures zone { OnSome result (HasZoneRule (rows_of (found_of found.now))) }
    ensures trust { (trusted : Bool) → TellsTrust (rows_of (found_of found.now)) trusted → IfSome result (λ ask. ask.is_trusting ≡ trusted) }
    ensures from { IfSome result (ServeFrom (rows_of (found_of found.now))) }
{
    Some(ServeAsk {
        store: found.get_str("store")?,
        place: place_asked(found)?,
        count: count_asked(found)?,
        zone: zone_asked(found)?,
        timeouts: timeouts_asked(found),
        is_trusting: trust_asked(found),
    })
}

/// The moment whose seconds its option gives; `None` if it gives none.
fn moment_asked(found: &ArgMatches) -> Option<i64>
    ensures asked { (moment : Option ℤ)
        → IsMomentNamed (first_of (codes "at") (rows_of (found_of found.now))) moment → result ≡ moment }
    ensures from { AreSecondsGiven (rows_of (found_of found.now)) result }
{
    seconds_read(found.get_str("at")?)
}

/// Whether its flag says that the clock is trusted.
fn trust_asked(found: &ArgMatches) -> bool
    ensures { (trusted : Bool) → TellsTrust (rows_of (found_of found.now)) trusted → result ≡ trusted }
{
    found.get_flag("trust-clock")
}

/// When to do a command, and by which clocks; `None` if the text of `--zone` is no rule.
fn when_asked(found: &ArgMatches) -> Option<WhenAsk>
    ensures asked { (moment : Option ℤ) (rule : List ℕ)
        → IsMomentNamed (first_of (codes "at") (rows_of (found_of found.now))) moment
        → IsRuleNamed (first_of (codes "zone") (rows_of (found_of found.now))) rule
        → IsSomeAnd result (λ ask. AsksWhen ask moment rule) }
    ensures zone { OnSome result (HasZoneRule (rows_of (found_of found.now))) }
    ensures trust { (trusted : Bool) → TellsTrust (rows_of (found_of found.now)) trusted → IfSome result (λ ask. ask.is_trusting ≡ trusted) }
    ensures from { IfSome result (WhenFrom (rows_of (found_of found.now))) }
{
    Some(WhenAsk {
        seconds: moment_asked(found),
        zone: zone_asked(found)?,
        is_trusting: trust_asked(found),
    })
}

/// What the options of `import` ask for; `None` if one is missing or badly written.
fn import_asked<'a>(found: &ArgMatches<'a>) -> Option<ImportAsk<'a>>
    ensures asked { (store key sheet : List ℕ) (moment : Option ℤ) (rule : List ℕ)
        → AreImportRows (rows_of (found_of found.now)) store key sheet moment rule
        → IsSomeAnd result (λ ask. AsksImages ask store key sheet moment rule) }
    ensures zone { OnSome result (HasZoneRule (rows_of (found_of found.now))) }
    ensures trust { (trusted : Bool) → TellsTrust (rows_of (found_of found.now)) trusted → IfSome result (λ ask. ask.when.is_trusting ≡ trusted) }
    ensures from { IfSome result (ImportFrom (rows_of (found_of found.now))) }
{
    Some(ImportAsk {
        store: found.get_str("store")?,
        key: key_asked(found)?,
        sheet: found.get_str("sheet")?,
        when: when_asked(found)?,
    })
}

/// What is asked for with these flags.
fn sheet_ask<'a>(import: ImportAsk<'a>, dry_run: bool, keep_going: bool) -> Ask<'a>
    ensures import { dry_run ≡ false → keep_going ≡ false → result ≡ ask.Import import.entry }
    ensures flagged_import { (dry_run || keep_going) ≡ true
        → result ≡ ask.FlaggedImport (record { import = import.entry; dry_run = dry_run; keep_going = keep_going }) }
{
    match (dry_run, keep_going) {
        (false, false) => Ask::Import(import),
        _ => Ask::FlaggedImport(FlaggedImportAsk {
            import,
            dry_run,
            keep_going,
        }),
    }
}

/// What the options and flags of `import` ask for; `None` if one is missing or badly written.
pub(crate) fn sheet_asked<'a>(found: &ArgMatches<'a>) -> Option<Ask<'a>>
    ensures import { (store key sheet : List ℕ) (moment : Option ℤ) (rule : List ℕ)
        → AreImportRows (rows_of (found_of found.now)) store key sheet moment rule
        → AreImportFlags (rows_of (found_of found.now)) false false
        → IsSomeAnd result (IsImportAsk store key sheet moment rule) }
    ensures flagged_import { (store key sheet : List ℕ) (moment : Option ℤ) (rule : List ℕ) (dry_run keep_going : Bool)
        → AreImportRows (rows_of (found_of found.now)) store key sheet moment rule
        → AreImportFlags (rows_of (found_of found.now)) dry_run keep_going → (dry_run || keep_going) ≡ true
        → IsSomeAnd result (IsFlaggedImportAsk store key sheet moment rule dry_run keep_going) }
    ensures zone { OnSome result (HasZoneRule (rows_of (found_of found.now))) }
    ensures trust { (trusted : Bool) → TellsTrust (rows_of (found_of found.now)) trusted → IfSome result (λ ask. is_trusting ask ≡ trusted) }
    ensures rows { IfSome result TellsInRows }
    ensures from { IfSome result (AskFrom (rows_of (found_of found.now))) }
    ensures named { IfSome result (λ ask. command_name ask ≡ codes "import") }
{
    let import = import_asked(found)?;
    let dry_run = is_set(found, "dry-run");
    let keep_going = is_set(found, "keep-going");
    Some(sheet_ask(import, dry_run, keep_going))
}

/// What the operands of `files` ask for; `None` if one is missing or badly written.
pub(crate) fn extract_asked<'a>(found: &ArgMatches<'a>) -> Option<ExtractAsk<'a>>
    ensures asked { (kind : Kind) (image folder : List ℕ)
        → AreFilesRows (rows_of (found_of found.now)) kind image folder
        → IsSomeAnd result (λ ask. AsksExtracted ask kind image folder) }
    ensures from { IfSome result (ExtractFrom (rows_of (found_of found.now))) }
{
    Some(ExtractAsk {
        image: files_asked(found)?,
        folder: found.get_str("to")?,
    })
}

/// The desk key that its option gives, without blanks and tabs at both ends, `None` if it is
/// absent.
fn key_operand<'a>(found: &ArgMatches<'a>) -> Option<&'a [u8]>
    ensures { option_map (λ trimmed. trimmed.now) result
        ≡ option_map trim_ows (first_of (codes "key") (rows_of (found_of found.now))) }
{
    match found.get_str("key") {
        Some(key) => Some(trimmed(key.as_bytes())),
        None => None,
    }
}

/// The accession that its option gives; `None` if it gives none.
pub(crate) fn accession_asked(found: &ArgMatches) -> Option<u32>
    ensures number { (text : List ℕ) (acc : ℕ)
        → one_of (codes "acc") (rows_of (found_of found.now)) ≡ Some text
        → ParsesUnsigned {E = ParseIntError} 32 10 text (Ok acc) → IsScope acc → result ≡ Some acc }
    ensures within { IfSome result IsScope }
    ensures from { IfSome result (IsAccessionGiven (rows_of (found_of found.now))) }
{
    let acc = found.get_one::<u32>("acc")?;
    if is_scope(acc) { Some(acc) } else { None }
}

/// What the options of `export` ask for; `None` if one is missing or badly written.
pub(crate) fn export_asked<'a>(found: &ArgMatches<'a>) -> Option<OneQuestionAsk<'a>>
    ensures asked { (store : List ℕ) (key : Option (List ℕ)) (moment : Option ℤ) (rule : List ℕ)
        → AreExportRows (rows_of (found_of found.now)) store key moment rule
        → IsSomeAnd result (λ ask. AsksOneQuestion ask store key Question.Catalogue moment rule) }
    ensures zone { OnSome result (HasZoneRule (rows_of (found_of found.now))) }
    ensures trust { (trusted : Bool) → TellsTrust (rows_of (found_of found.now)) trusted → IfSome result (λ ask. ask.when.is_trusting ≡ trusted) }
    ensures question { IfSome result (λ ask. ask.question ≡ Question.Catalogue) }
    ensures from { IfSome result (OneFrom (rows_of (found_of found.now))) }
{
    Some(OneQuestionAsk {
        store: found.get_str("store")?,
        key: key_operand(found),
        question: Question::Catalogue,
        when: when_asked(found)?,
    })
}

/// What the options of `check` ask for; `None` if one is missing or badly written.
pub(crate) fn check_asked<'a>(found: &ArgMatches<'a>) -> Option<OneQuestionAsk<'a>>
    ensures asked { (store key : List ℕ) (acc : ℕ) (moment : Option ℤ) (rule : List ℕ)
        → AreCheckRows (rows_of (found_of found.now)) store key acc moment rule
        → IsSomeAnd result (λ ask. AsksOneQuestion ask store (Some key) (Question.Check acc) moment rule) }
    ensures zone { OnSome result (HasZoneRule (rows_of (found_of found.now))) }
    ensures trust { (trusted : Bool) → TellsTrust (rows_of (found_of found.now)) trusted → IfSome result (λ ask. ask.when.is_trusting ≡ trusted) }
    ensures question { IfSome result (λ ask. IsAskable ask.question) }
    ensures from { IfSome result (OneFrom (rows_of (found_of found.now))) }
    ensures of { IfSome result (λ ask. IsCheck ask.question) }
{
    Some(OneQuestionAsk {
        store: found.get_str("store")?,
        key: Some(key_asked(found)?),
        question: Question::Check(accession_asked(found)?),
        when: when_asked(found)?,
    })
}

/// What the options of `show` ask for, with what it shows; `None` if one is missing or badly written.
pub(crate) fn show_asked<'a>(found: &ArgMatches<'a>, shown: Shown) -> Option<OneQuestionAsk<'a>>
    ensures asked { (store key : List ℕ) (moment : Option ℤ) (rule : List ℕ)
        → AreShowRows (rows_of (found_of found.now)) store key moment rule
        → IsSomeAnd result (λ ask. AsksOneQuestion ask store (Some key) (Question.Show shown) moment rule) }
    ensures zone { OnSome result (HasZoneRule (rows_of (found_of found.now))) }
    ensures trust { (trusted : Bool) → TellsTrust (rows_of (found_of found.now)) trusted → IfSome result (λ ask. ask.when.is_trusting ≡ trusted) }
    ensures question { IfSome result (λ ask. ask.question ≡ Question.Show shown) }
    ensures from { NamesShown (rows_of (found_of found.now)) shown → IfSome result (OneFrom (rows_of (found_of found.now))) }
{
    Some(OneQuestionAsk {
        store: found.get_str("store")?,
        key: Some(key_asked(found)?),
        question: Question::Show(shown),
        when: when_asked(found)?,
    })
}

/// What the options of `staff-key` ask for, `None` if one is missing.
pub(crate) fn staff_key_asked<'a>(found: &ArgMatches<'a>) -> Option<StaffKeyAsk<'a>>
    ensures asked { (store : List ℕ) (key : List ℕ)
        → AreStaffKeyRows (rows_of (found_of found.now)) store key
        → IsSomeAnd result (λ ask. AsksStaff ask store key) }
    ensures from { IfSome result (StaffKeyFrom (rows_of (found_of found.now))) }
{
    let store = found.get_str("store")?;
    let key = key_asked(found)?;
    Some(StaffKeyAsk { store, key })
}

/// What the options of `copy` ask for, `None` if one is missing.
pub(crate) fn copy_asked<'a>(found: &ArgMatches<'a>) -> Option<CopyAsk<'a>>
    ensures asked { (store : List ℕ) (target : List ℕ) (summed : Bool)
        → AreCopyRows (rows_of (found_of found.now)) store target summed
        → IsSomeAnd result (λ ask. AsksCopying ask store target summed) }
    ensures from { IfSome result (CopyFrom (rows_of (found_of found.now))) }
{
    let from = found.get_str("store")?;
    let target = found.get_str("to")?;
    let has_sums = sums_asked(found);
    Some(CopyAsk {
        store: from,
        target,
        has_sums,
    })
}
