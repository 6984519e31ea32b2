ghost use Rattle.std.specs.Option.{ForSome};
ghost use Rattle.std.specs.Prelude.{◌≡◌, ◌⊎◌, Bool, IfErr, IfNone, IfOk, IfSome, IsSomeAnd, List, Ok, OnOk, OnSome, Option, Some, codes, map, ℕ, ℤ};
ghost use Rattle.clap.specs.Words.{app_of, first_of, found_of, rows_of};
ghost use Rattle.clap.specs.Words.{subcommand_rows_of};
ghost use Rattle.rd_commands.specs.Asks.{EntersAtAPlace, EntersFiles, EntersNamed, EntersNoPlace, EntersFlaggedImport, EntersTimed};
ghost use Rattle.rd_commands.specs.Asks.{EntersByRule, EntersCat, EntersCheck, EntersExport, EntersImport, EntersInit, EntersList, EntersNaming, EntersNamingNone, EntersServe, EntersShow, EntersTelling, EntersTrusting};
ghost use Rattle.rd_commands.specs.Asks.{IsExtractAsk, IsSeenFault, IsFlaggedImportAsk, IsWithinLimits, IsFaultOf, IsFileAsk, IsFilesAsk, IsForMemory, IsHelp, IsImportAsk, IsInitAsk, IsMistake, IsOneQuestionAsk, IsServeAsk, IsOfClap, IsVersion, TellsOnOutput};
ghost use Rattle.rd_commands.specs.Asks.{EntersCopy, EntersStaffKey, EntersSumming, IsCopyAsk, IsStaffKeyAsk, has_sums, is_trusting};
ghost use Rattle.rd_commands.specs.CommonOptions.{EntersApart, EntersOptions, EntersTogether, FitsTogether, IsApart, IsTakenApart, TellsOptions};
ghost use Rattle.rd_commands.specs.CommandLine.{IsTaken, IsTakenTelling};
ghost use Rattle.rd_commands.specs.OneCommand.{ReadsAsDesk};
ghost use Rattle.rd_commands.specs.Commands.{IsAskOf, IsCommand, IsTakenServingNowhere, IsTakenShowingNothing, NamesAPlace, NamesWhatItShows, Sums, TellsARule, Trusts};
ghost use Rattle.rd_commands.specs.Serving as spec;
ghost use Rattle.rd_commands.specs.Shown.{GivesAccession, IsDayGiven, IsShowable, IsShownAs, NamesAny, NamesShown};
ghost use Rattle.rd_commands.specs.Words.{AsksHelp, AsksVersion};
ghost use Rattle.rd_commands.specs.Parsed.{EntersFrom, TellsAll};
ghost use Rattle.rd_commands.specs.declared.words.Unread.TheVariants as Unread;

use crate::asked::{
    accession_asked, check_asked, copy_asked, export_asked, extract_asked, file_asked, files_asked,
    init_asked, serve_asked, sheet_asked, show_asked, staff_key_asked,
};
use crate::command_line::desk_for;
use crate::common_options::{CommonOptions, Parsed, options_found};
use crate::serving::{Place, Timeouts, check_place};
use clap::{ArgMatches, Command, Error};
use rd_policy::{DateFault, Zone, date_read};
use rd_volume::Kind;
use std::alloc::{AllocError, Global};

/// The file whose bytes `cat` writes.
#[derive(Clone, Copy, Debug)]
pub struct FileAsk<'a> {
    /// The kind of the image.
    pub kind: Kind,
    /// The path of the image, or a hyphen for standard input.
    pub image: &'a str,
    /// The slot of the file, at most 9,999.
    pub slot: u16,
}

/// The image whose files `list` lists.
#[derive(Clone, Copy, Debug)]
pub struct ImageAsk<'a> {
    /// The kind of the image.
    pub kind: Kind,
    /// The path of the image, or a hyphen for standard input.
    pub image: &'a str,
}

/// The desk that `init` makes.
#[derive(Clone, Copy, Debug)]
pub struct InitAsk<'a> {
    /// The path of the store.
    pub store: &'a str,
    /// The desk key of the staff, without blanks and tabs at both ends.
    pub key: &'a [u8],
    /// Whether the pages of the store end in sums.
    pub has_sums: bool,
}

/// The visits that `serve` serves.
#[derive(Clone, Copy, Debug)]
pub struct ServeAsk<'a> {
    /// The path of the store.
    pub store: &'a str,
    /// Where the visitors come.
    pub place: Place<'a>,
    /// How many visits.
    pub count: u32,
    /// The zone of the desk's clocks.
    pub zone: Zone,
    /// How long a visitor may take.
    pub timeouts: Timeouts,
    /// Whether the clock is trusted, even if it shows a day long before that of a recorded check.
    pub is_trusting: bool,
}

/// When to do a command, and by which clocks.
#[derive(Clone, Copy, Debug)]
pub struct WhenAsk {
    /// The seconds since 1970-01-01T00:00:00 UTC, if the words name them; otherwise those of the
    /// clock count.
    pub seconds: Option<i64>,
    /// The zone of the desk's clocks.
    pub zone: Zone,
    /// Whether the clock is trusted, even if it shows a day long before that of a recorded check.
    pub is_trusting: bool,
}

/// The images that `import` takes in.
#[derive(Clone, Copy, Debug)]
pub struct ImportAsk<'a> {
    /// The path of the store.
    pub store: &'a str,
    /// The desk key of the caller, without blanks and tabs at both ends.
    pub key: &'a [u8],
    /// The path of the sheet that names the images.
    pub sheet: &'a str,
    /// When it takes them in.
    pub when: WhenAsk,
}

/// The images that `import` takes in, or would take in, with one of its flags.
#[derive(Clone, Copy, Debug)]
pub struct FlaggedImportAsk<'a> {
    /// The images.
    pub import: ImportAsk<'a>,
    /// Whether none is taken in, and the lines say what would become of them.
    pub dry_run: bool,
    /// Whether it goes past files that cannot be read.
    pub keep_going: bool,
}

/// The sound files of an image, and the folder that `files` writes them into.
#[derive(Clone, Copy, Debug)]
pub struct ExtractAsk<'a> {
    /// The image.
    pub image: ImageAsk<'a>,
    /// The path of the folder.
    pub folder: &'a str,
}

/// The one question that a command asks a desk.
#[derive(Clone, Copy, Debug)]
pub enum Question {
    /// The catalogue.
    Catalogue,
    /// What a check of the image of an accession, 1 to 999,999, finds.
    Check(u32),
    /// What `show` shows.
    Show(Shown),
}

/// What `show` shows the staff.
#[derive(Clone, Copy, Debug)]
pub enum Shown {
    /// All deeds, with their rules.
    Deeds,
    /// All accessions that have takedowns, with these.
    Takedowns,
    /// All desk keys.
    Keys,
    /// All accessions, with what their latest checks found.
    Checks,
    /// What the rules say of each file to each audience on a day, of the years 1 to 9999, counted from 1970-01-01.
    Verdicts(i32),
    /// The same of the files of one accession alone: the day, and the accession, 1 to 999,999.
    VerdictsOf(i32, u32),
}

/// One question to the desk in the file of a store, and who asks it.
#[derive(Clone, Copy, Debug)]
pub struct OneQuestionAsk<'a> {
    /// The path of the store.
    pub store: &'a str,
    /// The desk key of the caller, without blanks and tabs at both ends, if the words give one.
    pub key: Option<&'a [u8]>,
    /// The question.
    pub question: Question,
    /// When to ask the desk.
    pub when: WhenAsk,
}

/// The key that `staff-key` puts as one of the staff.
#[derive(Clone, Copy, Debug)]
pub struct StaffKeyAsk<'a> {
    /// The path of the store.
    pub store: &'a str,
    /// The desk key, without blanks and tabs at both ends.
    pub key: &'a [u8],
}

/// The desk that `copy` copies.
#[derive(Clone, Copy, Debug)]
pub struct CopyAsk<'a> {
    /// The path of the store.
    pub store: &'a str,
    /// The path of the new store.
    pub target: &'a str,
    /// Whether the pages of the new store end in sums.
    pub has_sums: bool,
}

/// What a command asks for.
#[derive(Clone, Copy, Debug)]
pub enum Ask<'a> {
    /// The bytes of a file.
    File(FileAsk<'a>),
    /// The list of an image's files.
    Files(ImageAsk<'a>),
    /// A new desk.
    Init(InitAsk<'a>),
    /// Visits.
    Serve(ServeAsk<'a>),
    /// Images to take in.
    Import(ImportAsk<'a>),
    /// One question to a desk, by `export`, `check` or `show`.
    OneQuestion(OneQuestionAsk<'a>),
    /// Images to take in, with a flag.
    FlaggedImport(FlaggedImportAsk<'a>),
    /// The sound files of an image, in a folder.
    Extract(ExtractAsk<'a>),
    /// A key of the staff in a desk that stands.
    StaffKey(StaffKeyAsk<'a>),
    /// A copy of a desk in a new store.
    Copy(CopyAsk<'a>),
}

/// Why the words do not run a command.
#[derive(Debug, Drop)]
pub enum Unread {
    /// What `clap` says in place of a command: help or the version, if the words ask for it, what is
    /// wrong with the words, or that memory ran out while it read them.
    Clap(Error),
    /// The words are no command, although `clap` accepts them: the text of `--zone` is no rule.
    Usage,
    /// The words are no command, although `clap` accepts them: the text of `--on` is no date, `show verdicts` has no
    /// `--on`, or `show` of anything else has one, or an `--acc`.
    Day,
    /// The words are no command, although `clap` accepts them: `serve` has both a port and a socket.
    Place,
    /// The words are no command, although `clap` accepts them: a key is there twice, on the command line and in a file, or
    /// the command needs one and there is none.
    Key,
    /// The words are no command, although `clap` accepts them: a rule for clocks is there twice, by itself and in a file.
    Zones,
    /// The words are no command, although `clap` accepts them: the text of `--at` is neither a number of seconds nor a
    /// date.
    Moment,
    /// Memory ran out, and `clap` did not say so.
    NoMemory,
}

impl From<AllocError> for Unread {
    ghost from_gives = { λ _ unread. unread ≡ Unread.NoMemory };

    fn from(_error: AllocError) -> Unread {
        Unread::NoMemory
    }
}

/// The day whose date its option gives; `None` if it is absent.
///
/// It fails with `Day` when the text is no date, and with `NoMemory`.
fn day_asked(alloc: Global, found: &ArgMatches) -> Result<Option<i32>, Unread>
    ensures given { IfOk result (IsDayGiven (first_of (codes "on") (rows_of (found_of found.now)))) }
    ensures none { IfErr result (λ fault. fault ≡ Unread.Day
        → (on : Option ℤ) → ¬ IsDayGiven (first_of (codes "on") (rows_of (found_of found.now))) on) }
    ensures failed { IfErr result (λ fault. (fault ≡ Unread.Day) ⊎ (fault ≡ Unread.NoMemory)) }
{
    let Some(text) = found.get_str("on") else {
        return Ok(None);
    };
    match date_read(alloc, text) {
        Ok(day) => Ok(Some(day)),
        Err(DateFault::BadDate) => Err(Unread::Day),
        Err(DateFault::NoMemory) => Err(Unread::NoMemory),
    }
}

/// The accession that its option gives; `None` if it is absent.
///
/// It fails with `Day` when the text is no number of an accession.
fn accession_given(found: &ArgMatches) -> Result<Option<u32>, Unread>
    ensures given { IfOk result (GivesAccession (rows_of (found_of found.now))) }
    ensures none { IfErr result (λ _. (acc : Option ℕ) → ¬ GivesAccession (rows_of (found_of found.now)) acc) }
    ensures failed { IfErr result (λ fault. fault ≡ Unread.Day) }
{
    let Some(_) = found.get_str("acc") else {
        return Ok(None);
    };
    match accession_asked(found) {
        Some(acc) => Ok(Some(acc)),
        None => Err(Unread::Day),
    }
}

/// What a word, a day and an accession name to show; `None` if they name nothing.
fn shown_as(what: &str, on: Option<i32>, acc: Option<u32>) -> Option<Shown>
    ensures shown { IfSome result (IsShownAs what.now on acc) }
    ensures none { IfNone result ((shown : Shown) → ¬ IsShownAs what.now on acc shown) }
{
    match (what, on, acc) {
        ("deeds", None, None) => Some(Shown::Deeds),
        ("takedowns", None, None) => Some(Shown::Takedowns),
        ("keys", None, None) => Some(Shown::Keys),
        ("checks", None, None) => Some(Shown::Checks),
        ("verdicts", Some(day), None) => Some(Shown::Verdicts(day)),
        ("verdicts", Some(day), Some(acc)) => Some(Shown::VerdictsOf(day, acc)),
        _ => None,
    }
}

/// What the operand, `--on` and `--acc` of `show` name.
///
/// It fails with `Day` when they name nothing, and with `NoMemory`.
fn shown_found(alloc: Global, found: &ArgMatches) -> Result<Shown, Unread>
    ensures named { IfOk result (NamesShown (rows_of (found_of found.now))) }
    ensures none { IfErr result (λ fault. fault ≡ Unread.Day → ¬ NamesAny (rows_of (found_of found.now))) }
    ensures failed { IfErr result (λ fault. (fault ≡ Unread.Day) ⊎ (fault ≡ Unread.NoMemory)) }
{
    let on = day_asked(alloc, found)?;
    let acc = accession_given(found)?;
    let Some(what) = found.get_str("WHAT") else {
        return Err(Unread::Day);
    };
    shown_as(what, on, acc).ok_or(Unread::Day)
}

/// What `show` shows, from a parse of the words; `None` if they are of another command.
///
/// It fails as `shown_found` does.
fn shown_asked(alloc: Global, matches: &ArgMatches) -> Result<Option<Shown>, Unread>
    ensures named { IfOk result (EntersNaming (subcommand_rows_of matches.now)) }
    ensures within { IfOk result (λ shown. ForSome shown IsShowable) }
    ensures none { IfErr result (λ fault. fault ≡ Unread.Day → EntersNamingNone (subcommand_rows_of matches.now)) }
    ensures failed { IfErr result (λ fault. (fault ≡ Unread.Day) ⊎ (fault ≡ Unread.NoMemory)) }
{
    match matches.subcommand_matches("show") {
        Some(found) => Ok(Some(shown_found(alloc, found)?)),
        None => Ok(None),
    }
}

/// What was seen of the words, apart from what they ask for.
#[derive(Clone, Copy)]
struct Seen<'a> {
    /// What `show` shows; `None` if the words are not of `show`.
    shown: Option<Shown>,
    /// The options that commands have in common.
    options: CommonOptions<'a>,
}

/// Looks at what `clap` does not look at: whether `serve` has one place, which options go together, and what `show`
/// shows.
///
/// It fails with `Place` when `serve` has two places, as `options_found` does, and as `shown_found` does.
fn look<'a>(alloc: Global, matches: &ArgMatches<'a>) -> Result<Seen<'a>, Unread>
    ensures named { IfOk result (λ seen. EntersNaming (subcommand_rows_of matches.now) seen.shown) }
    ensures within { IfOk result (λ seen. ForSome seen.shown IsShowable) }
    ensures options { IfOk result (λ seen. EntersOptions (subcommand_rows_of matches.now) seen.options) }
    ensures place { OnOk result (EntersAtAPlace (subcommand_rows_of matches.now)) }
    ensures together { OnOk result (EntersTogether (subcommand_rows_of matches.now)) }
    ensures none { IfErr result (λ fault. fault ≡ Unread.Day → EntersNamingNone (subcommand_rows_of matches.now)) }
    ensures no_place { IfErr result (λ fault. fault ≡ Unread.Place → EntersNoPlace (subcommand_rows_of matches.now)) }
    ensures apart { IfErr result (λ fault. IsApart fault → EntersApart (subcommand_rows_of matches.now)) }
    ensures shown_before { IfErr result (λ fault. IsApart fault → EntersNamed (subcommand_rows_of matches.now)) }
    ensures placed_before { IfErr result (λ fault. IsApart fault → EntersAtAPlace (subcommand_rows_of matches.now)) }
    ensures failed { IfErr result IsSeenFault }
{
    check_place(matches)?;
    let shown = shown_asked(alloc, matches)?;
    let options = options_found(alloc, matches)?;
    Ok(Seen { shown, options })
}

/// What a command asks for, from a parse of the words, and what `show` shows; `None` if the parse found no command.
fn ask_found<'a>(matches: &ArgMatches<'a>, shown: Option<Shown>) -> Option<Ask<'a>>
    requires { ForSome shown IsShowable }
    ensures file { (kind : Kind) (image : List ℕ) (slot : ℕ)
        → EntersCat (subcommand_rows_of matches.now) kind image slot
        → IsSomeAnd result (IsFileAsk kind image slot) }
    ensures files { (kind : Kind) (image : List ℕ)
        → EntersList (subcommand_rows_of matches.now) kind image
        → IsSomeAnd result (IsFilesAsk kind image) }
    ensures init { (store key : List ℕ)
        → EntersInit (subcommand_rows_of matches.now) store key
        → IsSomeAnd result (IsInitAsk store key) }
    ensures serve { (store : List ℕ) (place : spec.Place) (count : ℕ) (rule : List ℕ)
        → EntersServe (subcommand_rows_of matches.now) store place count rule
        → IsSomeAnd result (IsServeAsk store place count rule) }
    ensures import { (store key sheet : List ℕ) (moment : Option ℤ) (rule : List ℕ)
        → EntersImport (subcommand_rows_of matches.now) store key sheet moment rule
        → IsSomeAnd result (IsImportAsk store key sheet moment rule) }
    ensures export { (store : List ℕ) (key : Option (List ℕ)) (moment : Option ℤ) (rule : List ℕ)
        → EntersExport (subcommand_rows_of matches.now) store key moment rule
        → IsSomeAnd result (IsOneQuestionAsk store key Question.Catalogue moment rule) }
    ensures check { (store key : List ℕ) (acc : ℕ) (moment : Option ℤ) (rule : List ℕ)
        → EntersCheck (subcommand_rows_of matches.now) store key acc moment rule
        → IsSomeAnd result (IsOneQuestionAsk store (Some key) (Question.Check acc) moment rule) }
    ensures show { (store key : List ℕ) (what : Shown) (moment : Option ℤ) (rule : List ℕ) → shown ≡ Some what
        → EntersShow (subcommand_rows_of matches.now) store key moment rule
        → IsSomeAnd result (IsOneQuestionAsk store (Some key) (Question.Show what) moment rule) }
    ensures flagged_import { (store key sheet : List ℕ) (moment : Option ℤ) (rule : List ℕ) (dry_run keep_going : Bool)
        → EntersFlaggedImport (subcommand_rows_of matches.now) store key sheet moment rule dry_run keep_going
        → IsSomeAnd result (IsFlaggedImportAsk store key sheet moment rule dry_run keep_going) }
    ensures extract { (kind : Kind) (image folder : List ℕ)
        → EntersFiles (subcommand_rows_of matches.now) kind image folder
        → IsSomeAnd result (IsExtractAsk kind image folder) }
    ensures staff_key { (store key : List ℕ)
        → EntersStaffKey (subcommand_rows_of matches.now) store key
        → IsSomeAnd result (IsStaffKeyAsk store key) }
    ensures copy { (store target : List ℕ) (summed : Bool)
        → EntersCopy (subcommand_rows_of matches.now) store target summed
        → IsSomeAnd result (IsCopyAsk store target summed) }
    ensures written_on_output { IfSome result (λ ask. TellsOnOutput ask → EntersTelling (subcommand_rows_of matches.now)) }
    ensures accession { IfSome result IsWithinLimits }
    ensures timeouts { IfSome result (EntersTimed (subcommand_rows_of matches.now)) }
    ensures zone { OnSome result (EntersByRule (subcommand_rows_of matches.now)) }
    ensures trust { (trusted : Bool) → EntersTrusting (subcommand_rows_of matches.now) trusted → IfSome result (λ ask. is_trusting ask ≡ trusted) }
    ensures sums { (summed : Bool) → EntersSumming (subcommand_rows_of matches.now) summed → IfSome result (λ ask. has_sums ask ≡ summed) }
    ensures from { EntersNaming (subcommand_rows_of matches.now) shown → IfSome result (EntersFrom (subcommand_rows_of matches.now)) }
{
    let (name, found) = matches.subcommand()?;
    match name {
        "cat" => Some(Ask::File(file_asked(found)?)),
        "list" => Some(Ask::Files(files_asked(found)?)),
        "files" => Some(Ask::Extract(extract_asked(found)?)),
        "init" => Some(Ask::Init(init_asked(found)?)),
        "serve" => Some(Ask::Serve(serve_asked(found)?)),
        "import" => Some(sheet_asked(found)?),
        "export" => Some(Ask::OneQuestion(export_asked(found)?)),
        "check" => Some(Ask::OneQuestion(check_asked(found)?)),
        "show" => Some(Ask::OneQuestion(show_asked(found, shown?)?)),
        "staff-key" => Some(Ask::StaffKey(staff_key_asked(found)?)),
        "copy" => Some(Ask::Copy(copy_asked(found)?)),
        _ => None,
    }
}

/// Reads the words of a command by a command line that reads them as that of the program.
///
/// It fails as `read_words` does, but says `NoMemory` of no words in which `clap` finds a fault: of these it gives what
/// `clap` says.
fn read_by<'a>(alloc: Global, desk: Command<'a>, words: &'a [&'a str]) -> Result<Parsed<'a>, Unread>
    requires { ReadsAsDesk (app_of desk) (map (λ word. word.now) words.now) }
    ensures read { IfOk result (λ parsed. IsAskOf (map (λ word. word.now) words.entry.now) parsed.ask) }
    ensures written_on_output { IfOk result (λ parsed. TellsOnOutput parsed.ask → IsTakenTelling (map (λ word. word.now) words.entry.now)) }
    ensures accession { IfOk result (λ parsed. IsWithinLimits parsed.ask) }
    ensures zone { OnOk result (TellsARule (map (λ word. word.now) words.entry.now)) }
    ensures trust { (trusted : Bool) → Trusts (map (λ word. word.now) words.entry.now) trusted → IfOk result (λ parsed. is_trusting parsed.ask ≡ trusted) }
    ensures sums { (summed : Bool) → Sums (map (λ word. word.now) words.entry.now) summed → IfOk result (λ parsed. has_sums parsed.ask ≡ summed) }
    ensures shown { OnOk result (NamesWhatItShows (map (λ word. word.now) words.entry.now)) }
    ensures no_rule { IfErr result (λ fault. ¬ TellsARule (map (λ word. word.now) words.entry.now)
        → IsMistake fault ⊎ (IsForMemory fault)) }
    ensures none_shown { IfErr result (λ fault. ¬ NamesWhatItShows (map (λ word. word.now) words.entry.now)
        → (fault ≡ Unread.Day) ⊎ (IsForMemory fault)) }
    ensures day { IfErr result (λ fault. fault ≡ Unread.Day → IsTakenShowingNothing (map (λ word. word.now) words.entry.now)) }
    ensures place { OnOk result (NamesAPlace (map (λ word. word.now) words.entry.now)) }
    ensures no_place { IfErr result (λ fault. ¬ NamesAPlace (map (λ word. word.now) words.entry.now)
        → (fault ≡ Unread.Place) ⊎ (IsForMemory fault)) }
    ensures placeless { IfErr result (λ fault. fault ≡ Unread.Place → IsTakenServingNowhere (map (λ word. word.now) words.entry.now)) }
    ensures options { IfOk result (λ parsed. TellsOptions (map (λ word. word.now) words.entry.now) parsed.options) }
    ensures all { IfOk result (TellsAll (map (λ word. word.now) words.entry.now)) }
    ensures together { OnOk result (FitsTogether (map (λ word. word.now) words.entry.now)) }
    ensures apart { IfErr result (λ fault. ¬ FitsTogether (map (λ word. word.now) words.entry.now)
        → IsMistake fault ⊎ (IsForMemory fault)) }
    ensures mixed { IfErr result (λ fault. IsApart fault → IsTakenApart (map (λ word. word.now) words.entry.now)) }
    ensures taken { OnOk result (IsTaken (map (λ word. word.now) words.entry.now)) }
    ensures mistake_in { IfErr result (IsFaultOf (map (λ word. word.now) words.entry.now)) }
    ensures unread { IfErr result (λ fault. IsCommand (map (λ word. word.now) words.entry.now)
        → IsForMemory fault) }
    ensures version { IfErr result (λ fault. AsksVersion (map (λ word. word.now) words.entry.now)
        → (IsForMemory fault) ⊎ IsVersion fault) }
    ensures help { IfErr result (λ fault. AsksHelp (map (λ word. word.now) words.entry.now)
        → (IsForMemory fault) ⊎ IsHelp fault) }
    ensures of_clap { IfErr result (λ fault. ¬ IsTaken (map (λ word. word.now) words.entry.now) → IsOfClap fault) }
{
    match desk.try_get_matches_from(words) {
        Ok(matches) => {
            let seen = look(alloc, &matches)?;
            match ask_found(&matches, seen.shown) {
                Some(ask) => Ok(Parsed {
                    ask,
                    options: seen.options,
                }),
                None => Err(Unread::Usage),
            }
        }
        Err(error) => Err(Unread::Clap(error)),
    }
}

/// Reads the words of a command, without the program's name.
///
/// It fails with `Clap` when they ask for help or the version or are no command, and when memory runs out while `clap`
/// reads them; with `Place` when `serve` has both a port and a socket; with `Day` when the operand of `show` and the texts of
/// `--on` and `--acc` name nothing that it shows; with `Key` when there is not one key, on the command line or in a file, and with
/// `Zones` when there are two rules for clocks; with `Moment` when the text of `--at` is no moment; with `Usage` when the
/// parse gives no command or not all its operands, or the text of `--zone` is no rule; and with `NoMemory`.
pub fn read_words<'a>(alloc: Global, words: &'a [&'a str]) -> Result<Parsed<'a>, Unread>
    ensures read { IfOk result (λ parsed. IsAskOf (map (λ word. word.now) words.entry.now) parsed.ask) }
    ensures written_on_output { IfOk result (λ parsed. TellsOnOutput parsed.ask → IsTakenTelling (map (λ word. word.now) words.entry.now)) }
    ensures accession { IfOk result (λ parsed. IsWithinLimits parsed.ask) }
    ensures zone { OnOk result (TellsARule (map (λ word. word.now) words.entry.now)) }
    ensures trust { (trusted : Bool) → Trusts (map (λ word. word.now) words.entry.now) trusted → IfOk result (λ parsed. is_trusting parsed.ask ≡ trusted) }
    ensures sums { (summed : Bool) → Sums (map (λ word. word.now) words.entry.now) summed → IfOk result (λ parsed. has_sums parsed.ask ≡ summed) }
    ensures shown { OnOk result (NamesWhatItShows (map (λ word. word.now) words.entry.now)) }
    ensures no_rule { IfErr result (λ fault. ¬ TellsARule (map (λ word. word.now) words.entry.now)
        → IsMistake fault ⊎ (IsForMemory fault)) }
    ensures none_shown { IfErr result (λ fault. ¬ NamesWhatItShows (map (λ word. word.now) words.entry.now)
        → (fault ≡ Unread.Day) ⊎ (IsForMemory fault)) }
    ensures day { IfErr result (λ fault. fault ≡ Unread.Day → IsTakenShowingNothing (map (λ word. word.now) words.entry.now)) }
    ensures place { OnOk result (NamesAPlace (map (λ word. word.now) words.entry.now)) }
    ensures no_place { IfErr result (λ fault. ¬ NamesAPlace (map (λ word. word.now) words.entry.now)
        → (fault ≡ Unread.Place) ⊎ (IsForMemory fault)) }
    ensures placeless { IfErr result (λ fault. fault ≡ Unread.Place → IsTakenServingNowhere (map (λ word. word.now) words.entry.now)) }
    ensures options { IfOk result (λ parsed. TellsOptions (map (λ word. word.now) words.entry.now) parsed.options) }
    ensures all { IfOk result (TellsAll (map (λ word. word.now) words.entry.now)) }
    ensures together { OnOk result (FitsTogether (map (λ word. word.now) words.entry.now)) }
    ensures apart { IfErr result (λ fault. ¬ FitsTogether (map (λ word. word.now) words.entry.now)
        → IsMistake fault ⊎ (IsForMemory fault)) }
    ensures mixed { IfErr result (λ fault. IsApart fault → IsTakenApart (map (λ word. word.now) words.entry.now)) }
    ensures taken { OnOk result (IsTaken (map (λ word. word.now) words.entry.now)) }
    ensures mistake_in { IfErr result (IsFaultOf (map (λ word. word.now) words.entry.now)) }
    ensures unread { IfErr result (λ fault. IsCommand (map (λ word. word.now) words.entry.now)
        → IsForMemory fault) }
    ensures version { IfErr result (λ fault. AsksVersion (map (λ word. word.now) words.entry.now)
        → (IsForMemory fault) ⊎ IsVersion fault) }
    ensures help { IfErr result (λ fault. AsksHelp (map (λ word. word.now) words.entry.now)
        → (IsForMemory fault) ⊎ IsHelp fault) }
{
    let desk: Command<'a> = desk_for(alloc, words)?;
    read_by(alloc, desk, words)
}
