ghost use Rattle.std.specs.Prelude.{◌≡◌, IfOk, IfSome, codes, false, map};
ghost use Rattle.clap.specs.Words.{app_of, rule_of};
ghost use Rattle.clap.specs.declared.builder.command.Command.TheViews.{out-Command as fields_of};
ghost use Rattle.rd_commands.specs.CommandLine.{IsCatApp, IsDeskApp, IsFilesApp, IsKindRule, IsListApp, IsShowApp, IsWhatRule, accession_rule, bare_app, check_app, copy_app, count_rule, day_rule, dry_run_rule, explain_rule, explained, export_app, folder_rule, image_rule, import_app, init_app, keep_going_rule, key_file_rule, key_rule, moment_rule, one_accession_rule, port_rule, serve_app, sheet_rule, slot_rule, socket_rule, staff_key_app, store_rule, sums_rule, target_rule, timeout_rule, untimed_app, with_caller, with_clocks, with_moment, zone_file_rule, zone_rule, trust_rule};
ghost use Rattle.rd_commands.specs.OneCommand.{IsNamed, ReadsAsDesk};

use crate::version::VERSION;
use clap::{Arg, ArgAction, Command, value_parser};
use rd_geometry::KIND_WORDS;
use rd_policy::{LAST_SCOPE, LAST_SLOT};
use std::alloc::{AllocError, Global};

/// The words for what `show` shows.
static WHAT_WORDS: [&str; 5] = ["deeds", "takedowns", "keys", "checks", "verdicts"];

fn kind_operand<'a>(alloc: Global) -> Arg<'a>
    ensures rule { IsKindRule (rule_of result) }
    ensures local { result.global ≡ false }
{
    Arg::new(alloc, "KIND")
        .required(true)
        .help("The kind of disk image; a d64e is a d64 with error bytes behind it")
        .value_parser(KIND_WORDS.as_slice())
}

fn image_operand<'a>(alloc: Global) -> Arg<'a>
    ensures rule { rule_of result ≡ image_rule }
    ensures local { result.global ≡ false }
{
    Arg::new(alloc, "IMAGE")
        .required(true)
        .help("The path of the image, or - for standard input")
}

fn slot_operand<'a>(alloc: Global) -> Arg<'a>
    ensures rule { rule_of result ≡ slot_rule }
    ensures local { result.global ≡ false }
{
    Arg::new(alloc, "SLOT")
        .required(true)
        .help("The slot of the file in the directory, 0 to 9999")
        .value_parser(value_parser!(u16).range(0..=i64::from(LAST_SLOT)))
}

/// The flag that has a refusal explained.
fn explain_flag<'a>(alloc: Global) -> Arg<'a>
    ensures rule { rule_of result ≡ explain_rule }
    ensures local { result.global ≡ false }
{
    Arg::new(alloc, "explain")
        .long("explain")
        .action(ArgAction::SetTrue)
        .help("Says more about a refusal, in lines below its name")
}

fn cat_command<'a>(alloc: Global) -> Result<Command<'a>, AllocError>
    ensures shape { IfOk result (λ cat. IsCatApp (app_of cat)) }
    ensures local { IfOk result (λ cat. (fields_of cat).has_globals ≡ false) }
{
    Command::new(alloc, "cat")
        .about("Writes the bytes of a file of an image to standard output")
        .after_help("Examples:\n  desk cat cpm8 disk.img 0\n  desk cat d64 disk.d64 0")
        .arg(kind_operand(alloc))?
        .arg(image_operand(alloc))?
        .arg(slot_operand(alloc))?
        .arg(explain_flag(alloc))
}

fn list_command<'a>(alloc: Global) -> Result<Command<'a>, AllocError>
    ensures shape { IfOk result (λ list. IsListApp (app_of list)) }
    ensures local { IfOk result (λ list. (fields_of list).has_globals ≡ false) }
{
    Command::new(alloc, "list")
        .about("Lists the files of an image: slot, user, type, size, faults and name")
        .after_help("Examples:\n  desk list cpm8 disk.img\n  desk list d64 disk.d64")
        .arg(kind_operand(alloc))?
        .arg(image_operand(alloc))?
        .arg(explain_flag(alloc))
}

/// The option for a folder.
fn folder_option<'a>(alloc: Global) -> Arg<'a>
    ensures rule { rule_of result ≡ folder_rule }
    ensures local { result.global ≡ false }
{
    Arg::new(alloc, "to")
        .long("to")
        .value_name("FOLDER")
        .required(true)
        .help("The folder for the files, which is there; no file in it is replaced")
}

fn files_command<'a>(alloc: Global) -> Result<Command<'a>, AllocError>
    ensures shape { IfOk result (λ files. IsFilesApp (app_of files)) }
    ensures local { IfOk result (λ files. (fields_of files).has_globals ≡ false) }
{
    Command::new(alloc, "files")
        .about("Writes each sound file of an image into a folder, under its slot and a safe name")
        .after_help("Example:\n  desk files d64 disk.d64 --to disk-files")
        .arg(kind_operand(alloc))?
        .arg(image_operand(alloc))?
        .arg(folder_option(alloc))?
        .arg(explain_flag(alloc))
}

/// The option for the file of a store.
fn store_option<'a>(alloc: Global) -> Arg<'a>
    ensures rule { rule_of result ≡ store_rule }
    ensures local { result.global ≡ false }
{
    Arg::new(alloc, "store")
        .long("store")
        .value_name("FILE")
        .required(true)
        .help("The file of the store")
}

/// The option for a desk key. A file may have the key in its place, so `clap` does not ask for it; a command that needs a key
/// says so in a usage line of its own.
fn key_option<'a>(alloc: Global) -> Arg<'a>
    ensures rule { rule_of result ≡ key_rule }
    ensures local { result.global ≡ false }
{
    Arg::new(alloc, "key").long("key").value_name("KEY").help(
        "A desk key, without blanks and tabs at both ends; other users of this machine can read it here",
    )
}

/// The option for a file with a desk key.
fn key_file_option<'a>(alloc: Global) -> Arg<'a>
    ensures rule { rule_of result ≡ key_file_rule }
    ensures local { result.global ≡ false }
{
    Arg::new(alloc, "key-file")
        .long("key-file")
        .value_name("FILE")
        .help("A file with the desk key as its first line, or - for standard input")
}

fn port_option<'a>(alloc: Global) -> Arg<'a>
    ensures rule { rule_of result ≡ port_rule }
    ensures local { result.global ≡ false }
{
    Arg::new(alloc, "port")
        .long("port")
        .value_name("PORT")
        .help("The port on 127.0.0.1, 1 to 65535; 8041 where neither this nor --socket is given")
        .value_parser(value_parser!(u16).range(1..=65_535))
}

fn socket_option<'a>(alloc: Global) -> Arg<'a>
    ensures rule { rule_of result ≡ socket_rule }
    ensures local { result.global ≡ false }
{
    Arg::new(alloc, "socket")
        .long("socket")
        .value_name("PATH")
        .help("The path of a Unix socket, which desk makes; give this or --port")
}

/// An option for how long a visitor may take.
fn timeout_option<'a>(alloc: Global, name: &'a str, help: &'a str) -> Arg<'a>
    ensures rule { rule_of result ≡ timeout_rule name.now }
    ensures local { result.global ≡ false }
{
    Arg::new(alloc, name)
        .long(name)
        .value_name("SECONDS")
        .help(help)
        .value_parser(value_parser!(u16).range(1..=3_600))
}

fn count_option<'a>(alloc: Global) -> Arg<'a>
    ensures rule { rule_of result ≡ count_rule }
    ensures local { result.global ≡ false }
{
    Arg::new(alloc, "count")
        .long("count")
        .value_name("COUNT")
        .help("How many visits are served, 0 to 4294967295; 4294967295 where it is not given")
        .value_parser(value_parser!(u32))
}

fn zone_option<'a>(alloc: Global) -> Arg<'a>
    ensures rule { rule_of result ≡ zone_rule }
    ensures local { result.global ≡ false }
{
    Arg::new(alloc, "zone").long("zone").value_name("ZONE").help(
        "The rule of the desk's clocks as POSIX writes it, such as CET-1CEST,M3.5.0,M10.5.0/3; UTC0 where it is not given",
    )
}

/// The flag that says that the clock is trusted.
fn trust_option<'a>(alloc: Global) -> Arg<'a>
    ensures rule { rule_of result ≡ trust_rule }
    ensures local { result.global ≡ false }
{
    Arg::new(alloc, "trust-clock")
        .long("trust-clock")
        .action(ArgAction::SetTrue)
        .help("Goes by the clock even if it shows a day long before that of a recorded check")
}

/// The flag that says that the pages of a new store end in sums.
fn sums_option<'a>(alloc: Global) -> Arg<'a>
    ensures rule { rule_of result ≡ sums_rule }
    ensures local { result.global ≡ false }
{
    Arg::new(alloc, "sums")
        .long("sums")
        .action(ArgAction::SetTrue)
        .help("Puts a sum at the end of each page of the store, so that a bit that flips is seen")
}

/// The option for a file with the rule of a desk's clocks.
fn zone_file_option<'a>(alloc: Global) -> Arg<'a>
    ensures rule { rule_of result ≡ zone_file_rule }
    ensures local { result.global ≡ false }
{
    Arg::new(alloc, "zone-file")
        .long("zone-file")
        .value_name("FILE")
        .help(
            "A file of the time zone database, in whose last line the rule of the desk's clocks is, in place of --zone",
        )
}

fn sheet_option<'a>(alloc: Global) -> Arg<'a>
    ensures rule { rule_of result ≡ sheet_rule }
    ensures local { result.global ≡ false }
{
    Arg::new(alloc, "sheet")
        .long("sheet")
        .value_name("SHEET")
        .required(true)
        .help("The file of the sheet: CSV with the header accession,kind,deed,sha256,file")
}

fn moment_option<'a>(alloc: Global) -> Arg<'a>
    ensures rule { rule_of result ≡ moment_rule }
    ensures local { result.global ≡ false }
{
    Arg::new(alloc, "at").long("at").value_name("MOMENT").help(
        "The moment, in seconds since 1970-01-01 of UTC, or a date, such as 2030-01-01, for the first second of that day; that of the clock where it is not given",
    )
}

/// The flag of a dry run: the lines of an import are written, and nothing is taken in.
fn dry_run_flag<'a>(alloc: Global) -> Arg<'a>
    ensures rule { rule_of result ≡ dry_run_rule }
    ensures local { result.global ≡ false }
{
    Arg::new(alloc, "dry-run")
        .long("dry-run")
        .action(ArgAction::SetTrue)
        .help("Tells what would become of each row, and takes nothing in")
}

/// The flag that has an import go past files that cannot be read.
fn keep_going_flag<'a>(alloc: Global) -> Arg<'a>
    ensures rule { rule_of result ≡ keep_going_rule }
    ensures local { result.global ≡ false }
{
    Arg::new(alloc, "keep-going")
        .long("keep-going")
        .action(ArgAction::SetTrue)
        .help("Goes on after a row whose file cannot be read")
}

/// Adds the options for a key.
fn add_caller<'a>(alloc: Global, command: Command<'a>) -> Result<Command<'a>, AllocError>
    ensures shape { IfOk result (λ added. app_of added ≡ with_caller (app_of command.entry)) }
    ensures local { IfOk result (λ added. (fields_of added).has_globals ≡ (fields_of command.entry).has_globals) }
{
    command.arg(key_option(alloc))?.arg(key_file_option(alloc))
}

/// Adds the options for clocks.
fn add_clocks<'a>(alloc: Global, command: Command<'a>) -> Result<Command<'a>, AllocError>
    ensures shape { IfOk result (λ added. app_of added ≡ with_clocks (app_of command.entry)) }
    ensures local { IfOk result (λ added. (fields_of added).has_globals ≡ (fields_of command.entry).has_globals) }
{
    command
        .arg(zone_option(alloc))?
        .arg(zone_file_option(alloc))?
        .arg(trust_option(alloc))
}

/// Adds the options for a moment and for clocks.
fn add_moment<'a>(alloc: Global, command: Command<'a>) -> Result<Command<'a>, AllocError>
    ensures shape { IfOk result (λ added. app_of added ≡ with_moment (app_of command.entry)) }
    ensures local { IfOk result (λ added. (fields_of added).has_globals ≡ (fields_of command.entry).has_globals) }
{
    add_clocks(alloc, command.arg(moment_option(alloc))?)
}

fn init_command<'a>(alloc: Global) -> Result<Command<'a>, AllocError>
    ensures shape { IfOk result (λ init. app_of init ≡ init_app) }
    ensures local { IfOk result (λ init. (fields_of init).has_globals ≡ false) }
{
    let begun = Command::new(alloc, "init")
        .about("Makes a desk with one staff key in the file of a store")
        .override_usage("desk init [OPTIONS] --store <FILE> --key <KEY>")
        .after_help(
            "Examples:\n  desk init --store museum.sqlite --key 'a long phrase'\n  desk init --sums --store museum.sqlite --key 'a long phrase'",
        )
        .arg(store_option(alloc))?;
    let given = add_caller(alloc, begun)?.arg(sums_option(alloc))?;
    given.arg(explain_flag(alloc))
}

/// The command `serve`, without the options for how long a visitor may take.
fn untimed_command<'a>(alloc: Global) -> Result<Command<'a>, AllocError>
    ensures shape { IfOk result (λ serve. app_of serve ≡ untimed_app) }
    ensures local { IfOk result (λ serve. (fields_of serve).has_globals ≡ false) }
{
    let begun = Command::new(alloc, "serve")
        .about("Serves visits over HTTP on 127.0.0.1 or at a Unix socket, one after the other")
        .after_help(
            "Examples:\n  desk serve --store museum.sqlite\n  desk serve --store museum.sqlite --port 8041 --count 1000 --zone CET-1CEST,M3.5.0,M10.5.0/3",
        )
        .arg(store_option(alloc))?
        .arg(port_option(alloc))?
        .arg(socket_option(alloc))?
        .arg(count_option(alloc))?;
    add_clocks(alloc, begun)
}

fn request_option<'a>(alloc: Global) -> Arg<'a>
    ensures rule { rule_of result ≡ timeout_rule (codes "request-timeout") }
    ensures local { result.global ≡ false }
{
    timeout_option(
        alloc,
        "request-timeout",
        "The most seconds for sending a request, 1 to 3600; 10 where it is not given",
    )
}

fn write_option<'a>(alloc: Global) -> Arg<'a>
    ensures rule { rule_of result ≡ timeout_rule (codes "write-timeout") }
    ensures local { result.global ≡ false }
{
    timeout_option(
        alloc,
        "write-timeout",
        "The most seconds that a reply waits for room, 1 to 3600; 10 where it is not given",
    )
}

fn reply_option<'a>(alloc: Global) -> Arg<'a>
    ensures rule { rule_of result ≡ timeout_rule (codes "reply-timeout") }
    ensures local { result.global ≡ false }
{
    timeout_option(
        alloc,
        "reply-timeout",
        "The most seconds for taking a reply, 1 to 3600; 60 where it is not given",
    )
}

fn serve_command<'a>(alloc: Global) -> Result<Command<'a>, AllocError>
    ensures shape { IfOk result (λ serve. app_of serve ≡ serve_app) }
    ensures local { IfOk result (λ serve. (fields_of serve).has_globals ≡ false) }
{
    untimed_command(alloc)?
        .arg(request_option(alloc))?
        .arg(write_option(alloc))?
        .arg(reply_option(alloc))?
        .arg(explain_flag(alloc))
}

fn import_command<'a>(alloc: Global) -> Result<Command<'a>, AllocError>
    ensures shape { IfOk result (λ import. app_of import ≡ import_app) }
    ensures local { IfOk result (λ import. (fields_of import).has_globals ≡ false) }
{
    let begun = Command::new(alloc, "import")
        .about("Takes in the images that a sheet names, and tells what became of each row")
        .override_usage("desk import [OPTIONS] --store <FILE> --key <KEY> --sheet <SHEET>")
        .after_help(
            "Examples:\n  desk import --store museum.sqlite --key 'a long phrase' --sheet images.csv\n  desk import --store museum.sqlite --key-file key.txt --sheet images.csv --dry-run",
        )
        .arg(store_option(alloc))?;
    let given = add_caller(alloc, begun)?.arg(sheet_option(alloc))?;
    add_moment(alloc, given)?
        .arg(dry_run_flag(alloc))?
        .arg(keep_going_flag(alloc))?
        .arg(explain_flag(alloc))
}

fn accession_option<'a>(alloc: Global) -> Arg<'a>
    ensures rule { rule_of result ≡ accession_rule }
    ensures local { result.global ≡ false }
{
    Arg::new(alloc, "acc")
        .long("acc")
        .value_name("ACCESSION")
        .required(true)
        .help("The number of an accession, 1 to 999999")
        .value_parser(value_parser!(u32).range(1..=i64::from(LAST_SCOPE)))
}

fn export_command<'a>(alloc: Global) -> Result<Command<'a>, AllocError>
    ensures shape { IfOk result (λ export. app_of export ≡ export_app) }
    ensures local { IfOk result (λ export. (fields_of export).has_globals ≡ false) }
{
    let begun = Command::new(alloc, "export")
        .about(
            "Writes the catalogue: the files of all accessions that the caller may see; the public needs no key",
        )
        .after_help("Example:\n  desk export --store museum.sqlite")
        .arg(store_option(alloc))?;
    let given = add_caller(alloc, begun)?;
    add_moment(alloc, given)?.arg(explain_flag(alloc))
}

fn check_command<'a>(alloc: Global) -> Result<Command<'a>, AllocError>
    ensures shape { IfOk result (λ check. app_of check ≡ check_app) }
    ensures local { IfOk result (λ check. (fields_of check).has_globals ≡ false) }
{
    let begun = Command::new(alloc, "check")
        .about("Tells whether the image of an accession is as it was given, and records it")
        .override_usage("desk check [OPTIONS] --store <FILE> --key <KEY> --acc <ACCESSION>")
        .after_help("Example:\n  desk check --store museum.sqlite --key 'a long phrase' --acc 12")
        .arg(store_option(alloc))?;
    let given = add_caller(alloc, begun)?.arg(accession_option(alloc))?;
    add_moment(alloc, given)?.arg(explain_flag(alloc))
}

/// The operand for what to show.
fn what_operand<'a>(alloc: Global) -> Arg<'a>
    ensures rule { IsWhatRule (rule_of result) }
    ensures local { result.global ≡ false }
{
    Arg::new(alloc, "WHAT")
        .required(true)
        .help("What to show: the verdicts as a CSV table, all else as JSON")
        .value_parser(WHAT_WORDS.as_slice())
}

/// The option for the day of the verdicts.
fn day_option<'a>(alloc: Global) -> Arg<'a>
    ensures rule { rule_of result ≡ day_rule }
    ensures local { result.global ≡ false }
{
    Arg::new(alloc, "on").long("on").value_name("DATE").help(
        "The day of the verdicts, such as 2030-01-01; `verdicts` needs it, and nothing else takes it",
    )
}

/// The option for the accession whose verdicts are shown.
fn one_accession_option<'a>(alloc: Global) -> Arg<'a>
    ensures rule { rule_of result ≡ one_accession_rule }
    ensures local { result.global ≡ false }
{
    Arg::new(alloc, "acc")
        .long("acc")
        .value_name("ACCESSION")
        .help(
            "The accession of the verdicts, 1 to 999999, all without it; nothing but `verdicts` takes it",
        )
        .value_parser(value_parser!(u32).range(1..=i64::from(LAST_SCOPE)))
}

fn show_command<'a>(alloc: Global) -> Result<Command<'a>, AllocError>
    ensures shape { IfOk result (λ show. IsShowApp (app_of show)) }
    ensures local { IfOk result (λ show. (fields_of show).has_globals ≡ false) }
{
    let begun = Command::new(alloc, "show")
        .about(
            "Shows the staff what the desk holds: deeds, takedowns, keys, checks, or the verdicts of a day",
        )
        .override_usage("desk show [OPTIONS] --store <FILE> --key <KEY> <WHAT>")
        .after_help(
            "Examples:\n  desk show deeds --store museum.sqlite --key 'a long phrase'\n  desk show verdicts --on 2030-01-01 --acc 12 --store museum.sqlite --key 'a long phrase'",
        )
        .arg(what_operand(alloc))?
        .arg(store_option(alloc))?;
    let given = add_caller(alloc, begun)?
        .arg(day_option(alloc))?
        .arg(one_accession_option(alloc))?;
    add_moment(alloc, given)?.arg(explain_flag(alloc))
}

fn staff_key_command<'a>(alloc: Global) -> Result<Command<'a>, AllocError>
    ensures shape { IfOk result (λ staff_key. app_of staff_key ≡ staff_key_app) }
    ensures local { IfOk result (λ staff_key. (fields_of staff_key).has_globals ≡ false) }
{
    let begun = Command::new(alloc, "staff-key")
        .about("Puts a desk key as one of the staff, for whoever may write the store")
        .override_usage("desk staff-key [OPTIONS] --store <FILE> --key <KEY>")
        .after_help("Example:\n  desk staff-key --store museum.sqlite --key 'another long phrase'")
        .arg(store_option(alloc))?;
    add_caller(alloc, begun)?.arg(explain_flag(alloc))
}

/// The option for the file to which a store is copied.
fn target_option<'a>(alloc: Global) -> Arg<'a>
    ensures rule { rule_of result ≡ target_rule }
    ensures local { result.global ≡ false }
{
    Arg::new(alloc, "to")
        .long("to")
        .value_name("FILE")
        .required(true)
        .help("The file of the new store; there must be none yet")
}

fn copy_command<'a>(alloc: Global) -> Result<Command<'a>, AllocError>
    ensures shape { IfOk result (λ copy. app_of copy ≡ copy_app) }
    ensures local { IfOk result (λ copy. (fields_of copy).has_globals ≡ false) }
{
    Command::new(alloc, "copy")
        .about("Copies the desk in the file of a store to a new file, and compares the two")
        .after_help("Example:\n  desk copy --store museum.sqlite --to new.sqlite --sums")
        .arg(store_option(alloc))?
        .arg(target_option(alloc))?
        .arg(sums_option(alloc))?
        .arg(explain_flag(alloc))
}

/// The program's command line, without its commands.
fn bare_desk<'a>(alloc: Global) -> Result<Command<'a>, AllocError>
    ensures { IfOk result (λ desk. app_of desk ≡ bare_app) }
{
    let desk = Command::new(alloc, "desk")
        .version(VERSION)
        .about("Reads files from disk images, and serves those of a museum by its rules")
        .after_help(
            "Examples:\n  desk list cpm8 disk.img\n  desk cat cpm8 disk.img 0\n  desk list d64 disk.d64\n  desk files d64 disk.d64 --to disk-files\n  desk init --store museum.sqlite --key 'a long phrase'\n  desk serve --store museum.sqlite --port 8041 --count 1000\n  desk import --store museum.sqlite --key 'a long phrase' --sheet images.csv\n  desk export --store museum.sqlite\n  desk check --store museum.sqlite --key 'a long phrase' --acc 12\n  desk show deeds --store museum.sqlite --key 'a long phrase'\n  desk staff-key --store museum.sqlite --key 'another long phrase'\n  desk copy --store museum.sqlite --to new.sqlite --sums",
        )
        .no_binary_name(true)
        .bin_name("desk")?;
    Ok(desk.subcommand_required(true).arg_required_else_help(true))
}

/// The command line of the program, for words without the program's name.
fn desk_command<'a>(alloc: Global) -> Result<Command<'a>, AllocError>
    ensures { IfOk result (λ desk. IsDeskApp (app_of desk)) }
{
    bare_desk(alloc)?
        .subcommand(cat_command(alloc)?)?
        .subcommand(list_command(alloc)?)?
        .subcommand(files_command(alloc)?)?
        .subcommand(init_command(alloc)?)?
        .subcommand(serve_command(alloc)?)?
        .subcommand(import_command(alloc)?)?
        .subcommand(export_command(alloc)?)?
        .subcommand(check_command(alloc)?)?
        .subcommand(show_command(alloc)?)?
        .subcommand(staff_key_command(alloc)?)?
        .subcommand(copy_command(alloc)?)
}

/// The command of this name; `None` if the program has none of it.
fn command_named<'a>(alloc: Global, name: &str) -> Result<Option<Command<'a>>, AllocError>
    ensures named { IfOk result (λ found. IfSome found (λ command. IsNamed name.now (app_of command))) }
    ensures local { IfOk result (λ found. IfSome found (λ command. (fields_of command).has_globals ≡ false)) }
{
    let command = match name {
        "cat" => cat_command(alloc)?,
        "list" => list_command(alloc)?,
        "files" => files_command(alloc)?,
        "init" => init_command(alloc)?,
        "serve" => serve_command(alloc)?,
        "import" => import_command(alloc)?,
        "export" => export_command(alloc)?,
        "check" => check_command(alloc)?,
        "show" => show_command(alloc)?,
        "staff-key" => staff_key_command(alloc)?,
        "copy" => copy_command(alloc)?,
        _ => return Ok(None),
    };
    Ok(Some(command))
}

/// The command line for these words, without the program's name: with the one command that the first of them names, else
/// with all of them. `clap` makes the same of the words by either, and builds it in less time.
pub(crate) fn desk_for<'a>(alloc: Global, words: &[&str]) -> Result<Command<'a>, AllocError>
    ensures { IfOk result (λ desk. ReadsAsDesk (app_of desk) (map (λ word. word.now) words.now)) }
{
    let Some(name) = words.first() else {
        return desk_command(alloc);
    };
    match command_named(alloc, name)? {
        Some(command) => bare_desk(alloc)?.subcommand(command),
        None => desk_command(alloc),
    }
}
