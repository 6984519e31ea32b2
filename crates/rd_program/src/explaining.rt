//! Explains a refusal: what the system said, which sizes were found, which columns are bad, what to do next.

ghost use Rattle.std.specs.Prelude.{◌≡◌, IfSome, None, false};
ghost use Rattle.std.specs.Io.KnownBytes.{Keeps};
ghost use Rattle.rd_commands.specs.Explaining.{GainsLines};
ghost use Rattle.rd_program.specs.Explaining as spec;
ghost use Rattle.rd_explanations.specs.Notes.{IsQuiet};
ghost use Rattle.rd_explanations.specs.declared.words.Advice.TheVariants as advice;

use crate::dispatch::Why;
use crate::machine::Machine;
use csv::{ByteRecord, ReaderBuilder};
use rd_commands::{
    Ask, CommonOptions, Files, ImageAsk, ImportAsk, Parsed, Place, Question, Refusal, SystemFault,
    is_header, next_row, tell_notes,
};
use rd_explanations::{Advice, Fault, Line, Notes, Reason, Said, Unusable, kind_that_fits};
use rd_geometry::Kind;
use rd_operands::{KEY_FILE_LIMIT, ZONE_FILE_LIMIT, ZoneFileFault, zone_in_file};
use rd_volume::fault_words;
use std::alloc::Global;
use std::io::Write;

/// How much the system's word says.
#[derive(Clone, Copy, PartialEq, Eq)]
enum Heard {
    /// The machine remembers no word.
    Nothing,
    /// What is wrong.
    Fault,
    /// What is wrong, and what to do next.
    Advice,
}

/// Whether a refused command was to serve at a socket of this path.
fn is_socket(ask: &Ask, refused: Refusal, path: &str) -> bool {
    let Ask::Serve(ask) = ask else {
        return false;
    };
    refused == Refusal::Device && matches!(ask.place, Place::Socket(socket) if path == socket)
}

/// Whether a refused command makes something new at a path: a file in a folder, a store, or a socket.
fn is_new(ask: &Ask, refused: Refusal, path: &str) -> bool {
    match ask {
        Ask::Extract(ask) => path != ask.image.image && path.starts_with(ask.folder),
        Ask::Init(ask) => refused == Refusal::Store && path == ask.store,
        Ask::Copy(ask) => path != ask.store && path == ask.target,
        ask => is_socket(ask, refused, path),
    }
}

/// Whether a refused command was to make something at a path, and reads no key and no zone there.
fn is_made(parsed: &Parsed, refused: Refusal, path: &str) -> bool {
    if parsed.options.key_file == Some(path) || parsed.options.zone_file == Some(path) {
        return false;
    }
    is_new(&parsed.ask, refused, path)
}

/// Whether a command serves at a port, and what a machine was asked for is that place.
fn is_port(ask: &Ask, path: &str) -> bool {
    let Ask::Serve(ask) = ask else {
        return false;
    };
    matches!(ask.place, Place::Port(_)) && path != ask.store && path.starts_with("port ")
}

/// What the system said of a path: of one that a command makes and that is missing, that its folder is; of
/// one that is to be a socket and is taken, that something stands there already.
fn said_of(parsed: &Parsed, refused: Refusal, path: &str, said: Said) -> Said {
    match said {
        Said::Missing if is_made(parsed, refused, path) => Said::NoRoom,
        Said::Taken if is_socket(&parsed.ask, refused, path) => Said::Standing,
        said => said,
    }
}

/// What to do after what the system said of a path or a place.
fn advice_on(parsed: &Parsed, refused: Refusal, path: &str, said: Said) -> Option<Advice> {
    match said {
        Said::NoRoom => Some(Advice::MakeFolder),
        Said::NoFolder if is_made(parsed, refused, path) => Some(Advice::MakeFolder),
        Said::Denied if is_port(&parsed.ask, path) => Some(Advice::OtherPlace),
        Said::Standing if is_socket(&parsed.ask, refused, path) => Some(Advice::FreshPath),
        Said::Missing | Said::Denied | Said::NoFolder => Some(Advice::CheckPath),
        Said::Folder => Some(Advice::FileInFolder),
        Said::Taken => Some(Advice::OtherPlace),
        _ => None,
    }
}

/// What to do after what the system said of the path of a store.
fn advice_on_store(parsed: &Parsed, path: &str, said: Said) -> Option<Advice> {
    let makes_it = is_made(parsed, Refusal::Store, path);
    match said {
        Said::Missing | Said::NoRoom | Said::Denied | Said::Folder | Said::NoFolder => {
            advice_on(parsed, Refusal::Store, path, said)
        }
        Said::Unfit | Said::NoStore if makes_it => Some(Advice::FreshPath),
        Said::Unfit | Said::NoStore => Some(Advice::CheckStore),
        Said::Taken => Some(Advice::FirstLook),
        Said::Full => None,
        _ if makes_it => None,
        _ => Some(Advice::FirstLook),
    }
}

/// Notes what the system said last, if the machine remembers it.
fn note_system<M: Files>(parsed: &Parsed, refused: Refusal, machine: &M, notes: &mut Notes) -> Heard
    ensures quiet { IsQuiet notes.old notes.new }
{
    let Some(SystemFault { path, said }) = machine.last_fault() else {
        return Heard::Nothing;
    };
    let said = said_of(parsed, refused, path.as_str(), said);
    let advised = match refused {
        Refusal::Store => advice_on_store(parsed, path.as_str(), said),
        _ => advice_on(parsed, refused, path.as_str(), said),
    };
    notes.add(Line::Path { path, said });
    match advised {
        Some(advice) => {
            notes.add(Line::Next(advice));
            Heard::Advice
        }
        None => Heard::Fault,
    }
}

/// Notes how many bytes the file of an image has, and which kind has so many.
fn note_found(alloc: Global, ask: &ImageAsk, found: usize, notes: &mut Notes)
    ensures quiet { IsQuiet notes.old notes.new }
{
    let Ok(path) = String::from_str(alloc, ask.image) else {
        return;
    };
    let kind = ask.kind;
    if found > Kind::largest_size() {
        notes.add(Line::TooLong { path, kind });
    } else {
        notes.add(Line::Size { path, found, kind });
    }
    match kind_that_fits(found) {
        Some(kind) => notes.add(Line::Fits(kind)),
        None => notes.add(Line::Next(Advice::CopyAgain)),
    }
}

/// Notes how many bytes an image has, where those that came are not counted.
fn note_uncounted(alloc: Global, ask: &ImageAsk, notes: &mut Notes)
    ensures quiet { IsQuiet notes.old notes.new }
{
    let name = match ask.image {
        "-" => "standard input",
        image => image,
    };
    let Ok(path) = String::from_str(alloc, name) else {
        return;
    };
    let kind = ask.kind;
    notes.add(Line::OtherSize { path, kind });
    notes.add(Line::Next(Advice::SaveFirst));
}

/// Notes that the file of an image has another size than its kind. It reads an ordinary file once more.
fn note_size<M: Machine>(alloc: Global, ask: &ImageAsk, machine: &mut M, notes: &mut Notes)
    ensures quiet { IsQuiet notes.old notes.new }
    ensures same { machine.new ≡ machine.old }
{
    if ask.image == "-" || !machine.is_ordinary(ask.image) {
        note_uncounted(alloc, ask, notes);
        return;
    }
    if let Ok(bytes) = machine.read_file(alloc, ask.image) {
        note_found(alloc, ask, bytes.len(), notes);
    }
}

/// Notes that a sheet has another header, or which row has another length; neither where memory runs out.
fn note_shape(alloc: Global, sheet: &[u8], notes: &mut Notes)
    ensures quiet { IsQuiet notes.old notes.new }
{
    let mut reader = ReaderBuilder::new()
        .has_headers(false)
        .from_reader(alloc, sheet);
    let mut fields = ByteRecord::new(alloc);
    match next_row(&mut reader, &mut fields) {
        Ok(true) if is_header(&fields) => {}
        Err(Refusal::NoMemory) => return,
        _ => {
            notes.add(Line::Next(Advice::NameColumns));
            notes.add(Line::Next(Advice::UseCommas));
            return;
        }
    }
    for row in 1..u64::MAX {
        match next_row(&mut reader, &mut fields) {
            Ok(true) => {}
            Err(Refusal::BadSheet) => {
                notes.add(Line::Length { row });
                return;
            }
            _ => return,
        }
    }
}

/// Notes what is wrong with the sheet of an import. It reads the sheet once more, if it is an ordinary file.
fn note_sheet<M: Machine>(alloc: Global, ask: &ImportAsk, machine: &mut M, notes: &mut Notes)
    ensures quiet { IsQuiet notes.old notes.new }
    ensures same { machine.new ≡ machine.old }
{
    if !machine.is_ordinary(ask.sheet) {
        notes.add(Line::Next(Advice::NameColumns));
        notes.add(Line::Next(Advice::SaveFirst));
        return;
    }
    if let Ok(sheet) = machine.read_sheet(alloc, ask.sheet) {
        note_shape(alloc, sheet.as_slice(), notes);
    }
}

/// What is known of a file that the words name.
#[derive(Clone, Copy, PartialEq, Eq)]
enum Known {
    /// It is not named, or nothing is wrong with its bytes.
    Fine,
    /// It gives no key, or no zone.
    Faulty(Unusable),
    /// Its bytes came once, as from a pipe, and nobody knows them.
    Nothing,
}

/// What is known of a file with a key. It reads it once more, if it is an ordinary file.
fn known_key<M: Machine>(alloc: Global, path: Option<&str>, machine: &mut M) -> Known
    ensures same { machine.new ≡ machine.old }
{
    let Some(path) = path else {
        return Known::Fine;
    };
    if path == "-" || !machine.is_ordinary(path) {
        return Known::Nothing;
    }
    match machine.read_file(alloc, path) {
        Ok(bytes) if bytes.len() > KEY_FILE_LIMIT => Known::Faulty(Unusable::LongKey),
        _ => Known::Fine,
    }
}

/// Why bytes give no zone.
fn no_zone_of(bytes: &[u8]) -> Unusable {
    if bytes.len() > ZONE_FILE_LIMIT {
        Unusable::LongZone
    } else if bytes.starts_with(b"TZif") {
        Unusable::NoRule
    } else {
        Unusable::NoZone
    }
}

/// What is known of a file with a zone. It reads it once more, if it is an ordinary file.
fn known_zone<M: Machine>(alloc: Global, path: Option<&str>, machine: &mut M) -> Known
    ensures same { machine.new ≡ machine.old }
{
    let Some(path) = path else {
        return Known::Fine;
    };
    if !machine.is_ordinary(path) {
        return Known::Nothing;
    }
    let Ok(bytes) = machine.read_file(alloc, path) else {
        return Known::Fine;
    };
    match zone_in_file(alloc, bytes.as_slice()) {
        Err(ZoneFileFault::NoRule) => Known::Faulty(no_zone_of(bytes.as_slice())),
        _ => Known::Fine,
    }
}

/// What to do about a file that gives no key or no zone.
fn advice_on_operand(unusable: Unusable) -> Advice {
    match unusable {
        Unusable::LongKey | Unusable::NoKey => Advice::KeyAlone,
        Unusable::Unknown => Advice::SaveFirst,
        Unusable::LongZone | Unusable::NoZone | Unusable::NoRule => Advice::ZoneFile,
    }
}

/// Notes why a file gives no key or no zone, and what to do about it.
fn note_operand(alloc: Global, path: &str, unusable: Unusable, notes: &mut Notes)
    ensures quiet { IsQuiet notes.old notes.new }
{
    if let Ok(path) = String::from_str(alloc, path) {
        notes.add(Line::Operand { path, unusable });
    }
    notes.add(Line::Next(advice_on_operand(unusable)));
}

/// Notes what is wrong with a file, if that is known, and says whether it is.
fn note_known(alloc: Global, path: Option<&str>, known: Known, notes: &mut Notes) -> bool
    ensures quiet { IsQuiet notes.old notes.new }
{
    let Known::Faulty(unusable) = known else {
        return false;
    };
    if let Some(path) = path {
        note_operand(alloc, path, unusable, notes);
    }
    true
}

/// Notes that standard input gave no key, or that a pipe, which was read, had too many bytes for one.
fn note_unknown_key(alloc: Global, path: Option<&str>, notes: &mut Notes)
    ensures quiet { IsQuiet notes.old notes.new }
{
    match path {
        Some("-") => note_operand(alloc, "standard input", Unusable::NoKey, notes),
        Some(path) => note_operand(alloc, path, Unusable::LongKey, notes),
        None => {}
    }
}

/// Notes which files may be wrong, where nothing else is known. It blames neither of two.
fn note_unknown(alloc: Global, options: &CommonOptions, key: Known, zone: Known, notes: &mut Notes)
    ensures quiet { IsQuiet notes.old notes.new }
{
    match (key, zone) {
        (Known::Nothing, Known::Nothing) => {
            notes.add(Line::Next(Advice::KeyAlone));
            notes.add(Line::Next(Advice::ZoneFile));
        }
        (Known::Nothing, _) => note_unknown_key(alloc, options.key_file, notes),
        (_, Known::Nothing) => {
            if let Some(path) = options.zone_file {
                note_operand(alloc, path, Unusable::Unknown, notes);
            }
        }
        _ => {}
    }
}

/// Notes that the file of a key is too long, or that of a zone has no rule; else which one may be so.
fn note_operands<M: Machine>(
    alloc: Global,
    options: &CommonOptions,
    heard: Heard,
    machine: &mut M,
    notes: &mut Notes,
)
    ensures quiet { IsQuiet notes.old notes.new }
    ensures same { machine.new ≡ machine.old }
{
    let key = known_key(alloc, options.key_file, machine);
    let zone = known_zone(alloc, options.zone_file, machine);
    let has_no_key = note_known(alloc, options.key_file, key, notes);
    let has_no_zone = note_known(alloc, options.zone_file, zone, notes);
    if heard == Heard::Nothing && !has_no_key && !has_no_zone {
        note_unknown(alloc, options, key, zone, notes);
    }
}

/// Whether a command goes by the machine's clock, and is refused where that is long before a recorded check.
fn goes_by_clock(parsed: &Parsed) -> bool {
    let when = match parsed.ask {
        Ask::Serve(ask) => return !ask.is_trusting,
        Ask::Import(ask) => ask.when,
        Ask::FlaggedImport(ask) => ask.import.when,
        Ask::OneQuestion(ask) => match ask.question {
            Question::Show(_) => return false,
            _ => ask.when,
        },
        _ => return false,
    };
    parsed.options.day.is_none() && when.seconds.is_none() && !when.is_trusting
}

/// The seconds of the moment that a command names; `None` if it names none, or a day in place of one.
fn seconds_named(ask: &Ask) -> Option<i64>
    ensures { result ≡ spec.seconds_named ask.now }
{
    match ask {
        Ask::Import(ask) => ask.when.seconds,
        Ask::FlaggedImport(ask) => ask.import.when.seconds,
        Ask::OneQuestion(ask) => ask.when.seconds,
        _ => None,
    }
}

/// The day after 0001-01-03, from which on a day has a moment wherever clocks show it.
const FIRST_DAY: i32 = -719_159;

/// The day before 9999-12-29, up to which a day has one.
const LAST_DAY: i32 = 2_932_893;

/// What to do about a moment that has no day, or a day that has no moment.
fn advice_on_moment(day: Option<i32>) -> Advice
    ensures limits { day ≡ None → result ≡ advice.MomentLimits }
    ensures shown { IfSome day (λ day. spec.IsSureDay day → result ≡ advice.ShownDay) }
    ensures far { IfSome day (λ day. ¬ spec.IsSureDay day → result ≡ advice.MomentLimits) }
{
    match day {
        Some(day) if (FIRST_DAY..=LAST_DAY).contains(&day) => Advice::ShownDay,
        _ => Advice::MomentLimits,
    }
}

/// What to do where the clock fails, or a moment has no day.
fn advice_on_clock(parsed: &Parsed) -> Advice
    ensures moment { IfSome (spec.seconds_named parsed.now.ask)
        (λ _. parsed.now.options.day ≡ None → result ≡ advice.MomentLimits) }
    ensures day { IfSome parsed.now.options.day (λ day. spec.IsSureDay day → result ≡ advice.ShownDay) }
    ensures far { IfSome parsed.now.options.day (λ day. ¬ spec.IsSureDay day → result ≡ advice.MomentLimits) }
{
    let day = parsed.options.day;
    if day.is_some() || seconds_named(&parsed.ask).is_some() {
        return advice_on_moment(day);
    }
    match parsed.ask {
        Ask::Serve(_) => Advice::SetClock,
        _ => Advice::OtherMoment,
    }
}

/// Notes what to do about a clock or a moment.
fn note_clock(parsed: &Parsed, notes: &mut Notes)
    ensures quiet { IsQuiet notes.old notes.new }
{
    notes.add(Line::Next(advice_on_clock(parsed)));
    if goes_by_clock(parsed) {
        notes.add(Line::Next(Advice::TrustClock));
    }
}

/// What to do after a refusal.
fn advice_of(refused: Refusal) -> Option<Advice> {
    match refused {
        Refusal::NoFile => Some(Advice::ListSlots),
        Refusal::ListedOnly => Some(Advice::OtherType),
        Refusal::Faulty(_, _) => Some(Advice::OtherCopy),
        Refusal::Exists => Some(Advice::FreshPath),
        Refusal::NotADesk => Some(Advice::InitFirst),
        Refusal::Version => Some(Advice::OtherProgram),
        Refusal::Inconsistent => Some(Advice::Restore),
        Refusal::Store => Some(Advice::FirstLook),
        Refusal::UnknownKey => Some(Advice::CheckKey),
        Refusal::StaffOnly => Some(Advice::StaffKey),
        Refusal::NoAccession => Some(Advice::KnownNumber),
        _ => None,
    }
}

/// Notes what each fault of a file means, if a command was refused for them.
fn note_faults(refused: Refusal, notes: &mut Notes)
    ensures quiet { IsQuiet notes.old notes.new }
{
    let Refusal::Faulty(kind, faults) = refused else {
        return;
    };
    for word in fault_words(kind, faults) {
        if let Some(fault) = Fault::from_word(word) {
            notes.add(Line::Fault(fault));
        }
    }
}

/// Notes that something is at the path where a command was to make a store.
fn note_standing(alloc: Global, ask: &Ask, notes: &mut Notes)
    ensures quiet { IsQuiet notes.old notes.new }
{
    let path = match ask {
        Ask::Init(ask) => ask.store,
        Ask::Copy(ask) => ask.target,
        _ => return,
    };
    if let Ok(path) = String::from_str(alloc, path) {
        let said = Said::Standing;
        notes.add(Line::Path { path, said });
    }
}

/// Notes what a refusal of a command has to do with its image or its sheet.
fn note_files<M: Machine>(
    alloc: Global,
    ask: &Ask,
    refused: Refusal,
    machine: &mut M,
    notes: &mut Notes,
)
    ensures quiet { IsQuiet notes.old notes.new }
    ensures same { machine.new ≡ machine.old }
{
    match (ask, refused) {
        (Ask::File(ask), Refusal::WrongSize) => {
            let (kind, image) = (ask.kind, ask.image);
            note_size(alloc, &ImageAsk { kind, image }, machine, notes);
        }
        (Ask::Files(ask), Refusal::WrongSize) => note_size(alloc, ask, machine, notes),
        (Ask::Extract(ask), Refusal::WrongSize) => note_size(alloc, &ask.image, machine, notes),
        (Ask::Import(ask), Refusal::BadSheet) => note_sheet(alloc, ask, machine, notes),
        (Ask::FlaggedImport(ask), Refusal::BadSheet) => {
            note_sheet(alloc, &ask.import, machine, notes);
        }
        _ => {}
    }
}

/// What to do after a refusal of a command, by what is known of it.
fn advice_after(ask: &Ask, refused: Refusal, heard: Heard) -> Option<Advice> {
    match (ask, refused, heard) {
        (Ask::Extract(_), Refusal::Exists, _) => Some(Advice::FreshFolder),
        (_, Refusal::NotADesk, Heard::Advice) => Some(Advice::InitThere),
        (_, Refusal::Store, Heard::Fault) => None,
        _ => advice_of(refused),
    }
}

/// Notes what to do next, where the system's word has not said it.
fn note_next(parsed: &Parsed, refused: Refusal, heard: Heard, notes: &mut Notes)
    ensures quiet { IsQuiet notes.old notes.new }
{
    match (parsed.ask, refused, heard) {
        (_, Refusal::Store | Refusal::NoMemory | Refusal::Device, Heard::Advice) => return,
        (Ask::Copy(_), Refusal::Store | Refusal::NoMemory | Refusal::Device, _) => {
            notes.add(Line::Next(Advice::CopyAnew));
        }
        (_, Refusal::Clock, _) => note_clock(parsed, notes),
        _ => {}
    }
    if let Some(advice) = advice_after(&parsed.ask, refused, heard) {
        notes.add(Line::Next(advice));
    }
}

/// Notes the rows of a sheet that were not done.
fn note_rows<M: Files>(alloc: Global, machine: &M, notes: &mut Notes)
    ensures quiet { IsQuiet notes.old notes.new }
{
    for line in machine.noted_rows(alloc) {
        notes.add(line);
    }
}

/// The number of the first deed that a row names and the desk does not have.
fn missing_deed(lines: &[Line]) -> Option<u32> {
    lines.iter().find_map(|line| match line {
        Line::Row {
            reason: Reason::NoDeed(deed),
            ..
        } => Some(*deed),
        _ => None,
    })
}

/// Notes what to do about a deed that the desk does not have, if a row names one.
fn note_deed(notes: &mut Notes)
    ensures quiet { IsQuiet notes.old notes.new }
{
    if let Some(deed) = missing_deed(notes.lines.as_slice()) {
        notes.add(Line::Next(Advice::ShowDeeds));
        notes.add(Line::PutDeed(deed));
    }
}

/// Whether an import ended at a row whose file could not be read.
fn is_cut_short(ask: &Ask, notes: &Notes) -> bool {
    let keeps_going = match ask {
        Ask::Import(_) => false,
        Ask::FlaggedImport(ask) => ask.keep_going,
        _ => return false,
    };
    !keeps_going && matches!(notes.lines.as_slice().last(), Some(Line::Unread { .. }))
}

/// Notes why a command was refused, and what to do next.
fn note_refusal<M: Machine>(
    alloc: Global,
    parsed: &Parsed,
    refused: Refusal,
    machine: &mut M,
    notes: &mut Notes,
)
    ensures quiet { IsQuiet notes.old notes.new }
    ensures same { machine.new ≡ machine.old }
{
    // Where rows were taken, the files that the words name had been read.
    let has_rows = !notes.lines.is_empty();
    let heard = note_system(parsed, refused, machine, notes);
    note_files(alloc, &parsed.ask, refused, machine, notes);
    note_faults(refused, notes);
    if refused == Refusal::Exists && heard == Heard::Nothing {
        note_standing(alloc, &parsed.ask, notes);
    }
    if refused == Refusal::Device && !has_rows {
        note_operands(alloc, &parsed.options, heard, machine, notes);
    }
    if refused == Refusal::Device && is_cut_short(&parsed.ask, notes) {
        notes.add(Line::Next(Advice::KeepGoing));
    }
    note_next(parsed, refused, heard, notes);
}

/// Explains below its line why a run was refused, and which rows of a sheet were not done, if its words ask
/// for that. It reads ordinary files that the words name once more, and leaves the machine as it was.
pub fn explain<E: Write, M: Machine>(alloc: Global, why: &Why<'_>, machine: &mut M, errors: &mut E)
    ensures lines { GainsLines (E.contents errors.old) (E.contents errors.new) }
    ensures silent { IfSome why.now.parsed (λ parsed. parsed.options.explain ≡ false)
        → Keeps (E.contents errors.old) (E.contents errors.new) }
    ensures same { machine.new ≡ machine.old }
{
    let Some(parsed) = why.parsed else {
        return;
    };
    let mut notes = Notes::new(alloc);
    notes.want(parsed.options.explain);
    note_rows(alloc, machine, &mut notes);
    if let Some(refused) = why.refused {
        note_refusal(alloc, &parsed, refused, machine, &mut notes);
    }
    note_deed(&mut notes);
    tell_notes(alloc, &notes, errors);
}
