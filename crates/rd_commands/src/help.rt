//! The texts of help, and what words ask for them.
//!
//! They are those that `clap` makes of the command line; no contract of `clap` says which text it writes, so they stand
//! here, and the program writes these.

ghost use Rattle.std.specs.Prelude.{◌≡◌, IfErr, IsTrue, OnErr, OnOk, map};
ghost use Rattle.std.specs.Io.KnownBytes.{Appends};
ghost use Rattle.rd_commands.specs.Helps as spec;
ghost use Rattle.rd_commands.specs.Helps.{help_for, help_named};
ghost use Rattle.rd_commands.specs.Output.{AppendsPart};

use crate::files::Files;
use crate::output::write_whole;
use crate::refusal::Refusal;
use std::io::Write;

/// The help of the program.
pub const DESK_HELP: &str = "Reads files from disk images, and serves those of a museum by its rules

Usage: desk <COMMAND>

Commands:
  cat        Writes the bytes of a file of an image to standard output
  list       Lists the files of an image: slot, user, type, size, faults and name
  files      Writes each sound file of an image into a folder, under its slot and a safe name
  init       Makes a desk with one staff key in the file of a store
  serve      Serves visits over HTTP on 127.0.0.1 or at a Unix socket, one after the other
  import     Takes in the images that a sheet names, and tells what became of each row
  export     Writes the catalogue: the files of all accessions that the caller may see; the public needs no key
  check      Tells whether the image of an accession is as it was given, and records it
  show       Shows the staff what the desk holds: deeds, takedowns, keys, checks, or the verdicts of a day
  staff-key  Puts a desk key as one of the staff, for whoever may write the store
  copy       Copies the desk in the file of a store to a new file, and compares the two
  help       Print this message or the help of the given subcommand(s)

Options:
  -h, --help     Print help
  -V, --version  Print version

Examples:
  desk list cpm8 disk.img
  desk cat cpm8 disk.img 0
  desk list d64 disk.d64
  desk files d64 disk.d64 --to disk-files
  desk init --store museum.sqlite --key 'a long phrase'
  desk serve --store museum.sqlite --port 8041 --count 1000
  desk import --store museum.sqlite --key 'a long phrase' --sheet images.csv
  desk export --store museum.sqlite
  desk check --store museum.sqlite --key 'a long phrase' --acc 12
  desk show deeds --store museum.sqlite --key 'a long phrase'
  desk staff-key --store museum.sqlite --key 'another long phrase'
  desk copy --store museum.sqlite --to new.sqlite --sums
";

/// The help of `cat`.
pub const CAT_HELP: &str = "Writes the bytes of a file of an image to standard output

Usage: desk cat [OPTIONS] <KIND> <IMAGE> <SLOT>

Arguments:
  <KIND>   The kind of disk image; a d64e is a d64 with error bytes behind it [possible values: cpm8, d64, d64e]
  <IMAGE>  The path of the image, or - for standard input
  <SLOT>   The slot of the file in the directory, 0 to 9999

Options:
      --explain  Says more about a refusal, in lines below its name
  -h, --help     Print help

Examples:
  desk cat cpm8 disk.img 0
  desk cat d64 disk.d64 0
";

/// The help of `list`.
pub const LIST_HELP: &str = "Lists the files of an image: slot, user, type, size, faults and name

Usage: desk list [OPTIONS] <KIND> <IMAGE>

Arguments:
  <KIND>   The kind of disk image; a d64e is a d64 with error bytes behind it [possible values: cpm8, d64, d64e]
  <IMAGE>  The path of the image, or - for standard input

Options:
      --explain  Says more about a refusal, in lines below its name
  -h, --help     Print help

Examples:
  desk list cpm8 disk.img
  desk list d64 disk.d64
";

/// The help of `files`.
pub const FILES_HELP: &str =
    "Writes each sound file of an image into a folder, under its slot and a safe name

Usage: desk files [OPTIONS] --to <FOLDER> <KIND> <IMAGE>

Arguments:
  <KIND>   The kind of disk image; a d64e is a d64 with error bytes behind it [possible values: cpm8, d64, d64e]
  <IMAGE>  The path of the image, or - for standard input

Options:
      --to <FOLDER>  The folder for the files, which is there; no file in it is replaced
      --explain      Says more about a refusal, in lines below its name
  -h, --help         Print help

Example:
  desk files d64 disk.d64 --to disk-files
";

/// The help of `init`.
pub const INIT_HELP: &str = "Makes a desk with one staff key in the file of a store

Usage: desk init [OPTIONS] --store <FILE> --key <KEY>

Options:
      --store <FILE>     The file of the store
      --key <KEY>        A desk key, without blanks and tabs at both ends; other users of this machine can read it here
      --key-file <FILE>  A file with the desk key as its first line, or - for standard input
      --sums             Puts a sum at the end of each page of the store, so that a bit that flips is seen
      --explain          Says more about a refusal, in lines below its name
  -h, --help             Print help

Examples:
  desk init --store museum.sqlite --key 'a long phrase'
  desk init --sums --store museum.sqlite --key 'a long phrase'
";

/// The help of `serve`.
pub const SERVE_HELP: &str =
    "Serves visits over HTTP on 127.0.0.1 or at a Unix socket, one after the other

Usage: desk serve [OPTIONS] --store <FILE>

Options:
      --store <FILE>               The file of the store
      --port <PORT>                The port on 127.0.0.1, 1 to 65535; 8041 where neither this nor --socket is given
      --socket <PATH>              The path of a Unix socket, which desk makes; give this or --port
      --count <COUNT>              How many visits are served, 0 to 4294967295; 4294967295 where it is not given
      --zone <ZONE>                The rule of the desk's clocks as POSIX writes it, such as CET-1CEST,M3.5.0,M10.5.0/3; UTC0 where it is not given
      --zone-file <FILE>           A file of the time zone database, in whose last line the rule of the desk's clocks is, in place of --zone
      --trust-clock                Goes by the clock even if it shows a day long before that of a recorded check
      --request-timeout <SECONDS>  The most seconds for sending a request, 1 to 3600; 10 where it is not given
      --write-timeout <SECONDS>    The most seconds that a reply waits for room, 1 to 3600; 10 where it is not given
      --reply-timeout <SECONDS>    The most seconds for taking a reply, 1 to 3600; 60 where it is not given
      --explain                    Says more about a refusal, in lines below its name
  -h, --help                       Print help

Examples:
  desk serve --store museum.sqlite
  desk serve --store museum.sqlite --port 8041 --count 1000 --zone CET-1CEST,M3.5.0,M10.5.0/3
";

/// The help of `import`.
pub const IMPORT_HELP: &str =
    "Takes in the images that a sheet names, and tells what became of each row

Usage: desk import [OPTIONS] --store <FILE> --key <KEY> --sheet <SHEET>

Options:
      --store <FILE>      The file of the store
      --key <KEY>         A desk key, without blanks and tabs at both ends; other users of this machine can read it here
      --key-file <FILE>   A file with the desk key as its first line, or - for standard input
      --sheet <SHEET>     The file of the sheet: CSV with the header accession,kind,deed,sha256,file
      --at <MOMENT>       The moment, in seconds since 1970-01-01 of UTC, or a date, such as 2030-01-01, for the first second of that day; that of the clock where it is not given
      --zone <ZONE>       The rule of the desk's clocks as POSIX writes it, such as CET-1CEST,M3.5.0,M10.5.0/3; UTC0 where it is not given
      --zone-file <FILE>  A file of the time zone database, in whose last line the rule of the desk's clocks is, in place of --zone
      --trust-clock       Goes by the clock even if it shows a day long before that of a recorded check
      --dry-run           Tells what would become of each row, and takes nothing in
      --keep-going        Goes on after a row whose file cannot be read
      --explain           Says more about a refusal, in lines below its name
  -h, --help              Print help

Examples:
  desk import --store museum.sqlite --key 'a long phrase' --sheet images.csv
  desk import --store museum.sqlite --key-file key.txt --sheet images.csv --dry-run
";

/// The help of `export`.
pub const EXPORT_HELP: &str =
    "Writes the catalogue: the files of all accessions that the caller may see; the public needs no key

Usage: desk export [OPTIONS] --store <FILE>

Options:
      --store <FILE>      The file of the store
      --key <KEY>         A desk key, without blanks and tabs at both ends; other users of this machine can read it here
      --key-file <FILE>   A file with the desk key as its first line, or - for standard input
      --at <MOMENT>       The moment, in seconds since 1970-01-01 of UTC, or a date, such as 2030-01-01, for the first second of that day; that of the clock where it is not given
      --zone <ZONE>       The rule of the desk's clocks as POSIX writes it, such as CET-1CEST,M3.5.0,M10.5.0/3; UTC0 where it is not given
      --zone-file <FILE>  A file of the time zone database, in whose last line the rule of the desk's clocks is, in place of --zone
      --trust-clock       Goes by the clock even if it shows a day long before that of a recorded check
      --explain           Says more about a refusal, in lines below its name
  -h, --help              Print help

Example:
  desk export --store museum.sqlite
";

/// The help of `check`.
pub const CHECK_HELP: &str =
    "Tells whether the image of an accession is as it was given, and records it

Usage: desk check [OPTIONS] --store <FILE> --key <KEY> --acc <ACCESSION>

Options:
      --store <FILE>      The file of the store
      --key <KEY>         A desk key, without blanks and tabs at both ends; other users of this machine can read it here
      --key-file <FILE>   A file with the desk key as its first line, or - for standard input
      --acc <ACCESSION>   The number of an accession, 1 to 999999
      --at <MOMENT>       The moment, in seconds since 1970-01-01 of UTC, or a date, such as 2030-01-01, for the first second of that day; that of the clock where it is not given
      --zone <ZONE>       The rule of the desk's clocks as POSIX writes it, such as CET-1CEST,M3.5.0,M10.5.0/3; UTC0 where it is not given
      --zone-file <FILE>  A file of the time zone database, in whose last line the rule of the desk's clocks is, in place of --zone
      --trust-clock       Goes by the clock even if it shows a day long before that of a recorded check
      --explain           Says more about a refusal, in lines below its name
  -h, --help              Print help

Example:
  desk check --store museum.sqlite --key 'a long phrase' --acc 12
";

/// The help of `show`.
pub const SHOW_HELP: &str =
    "Shows the staff what the desk holds: deeds, takedowns, keys, checks, or the verdicts of a day

Usage: desk show [OPTIONS] --store <FILE> --key <KEY> <WHAT>

Arguments:
  <WHAT>  What to show: the verdicts as a CSV table, all else as JSON [possible values: deeds, takedowns, keys, checks, verdicts]

Options:
      --store <FILE>      The file of the store
      --key <KEY>         A desk key, without blanks and tabs at both ends; other users of this machine can read it here
      --key-file <FILE>   A file with the desk key as its first line, or - for standard input
      --on <DATE>         The day of the verdicts, such as 2030-01-01; `verdicts` needs it, and nothing else takes it
      --acc <ACCESSION>   The accession of the verdicts, 1 to 999999, all without it; nothing but `verdicts` takes it
      --at <MOMENT>       The moment, in seconds since 1970-01-01 of UTC, or a date, such as 2030-01-01, for the first second of that day; that of the clock where it is not given
      --zone <ZONE>       The rule of the desk's clocks as POSIX writes it, such as CET-1CEST,M3.5.0,M10.5.0/3; UTC0 where it is not given
      --zone-file <FILE>  A file of the time zone database, in whose last line the rule of the desk's clocks is, in place of --zone
      --trust-clock       Goes by the clock even if it shows a day long before that of a recorded check
      --explain           Says more about a refusal, in lines below its name
  -h, --help              Print help

Examples:
  desk show deeds --store museum.sqlite --key 'a long phrase'
  desk show verdicts --on 2030-01-01 --acc 12 --store museum.sqlite --key 'a long phrase'
";

/// The help of `staff-key`.
pub const STAFF_KEY_HELP: &str =
    "Puts a desk key as one of the staff, for whoever may write the store

Usage: desk staff-key [OPTIONS] --store <FILE> --key <KEY>

Options:
      --store <FILE>     The file of the store
      --key <KEY>        A desk key, without blanks and tabs at both ends; other users of this machine can read it here
      --key-file <FILE>  A file with the desk key as its first line, or - for standard input
      --explain          Says more about a refusal, in lines below its name
  -h, --help             Print help

Example:
  desk staff-key --store museum.sqlite --key 'another long phrase'
";

/// The help of `copy`.
pub const COPY_HELP: &str =
    "Copies the desk in the file of a store to a new file, and compares the two

Usage: desk copy [OPTIONS] --store <FILE> --to <FILE>

Options:
      --store <FILE>  The file of the store
      --to <FILE>     The file of the new store; there must be none yet
      --sums          Puts a sum at the end of each page of the store, so that a bit that flips is seen
      --explain       Says more about a refusal, in lines below its name
  -h, --help          Print help

Example:
  desk copy --store museum.sqlite --to new.sqlite --sums
";

/// The help of `help`.
pub const HELP_HELP: &str = "Print this message or the help of the given subcommand(s)

Usage: desk help [COMMAND]...

Arguments:
  [COMMAND]...  Print help for the subcommand(s)
";

/// The help of the command of this name, and that of the program if there is none.
fn help_of(name: &str) -> &'static str
    ensures { result.now ≡ help_named name.now }
{
    match name {
        "cat" => CAT_HELP,
        "list" => LIST_HELP,
        "files" => FILES_HELP,
        "init" => INIT_HELP,
        "serve" => SERVE_HELP,
        "import" => IMPORT_HELP,
        "export" => EXPORT_HELP,
        "check" => CHECK_HELP,
        "show" => SHOW_HELP,
        "staff-key" => STAFF_KEY_HELP,
        "copy" => COPY_HELP,
        "help" => HELP_HELP,
        _ => DESK_HELP,
    }
}

/// The help of the command that the first of these names, and that of the program if there is none.
fn help_of_first(names: &[&str]) -> &'static str
    ensures { result.now ≡ spec.help_of_first (map (λ name. name.now) names.now) }
{
    match names {
        [name, ..] => help_of(name),
        [] => DESK_HELP,
    }
}

/// The help that words ask for, if they ask for help: that of the command whose name comes first, or after a first word
/// `help`, and else that of the program.
fn help_asked(words: &[&str]) -> &'static str
    ensures { result.now ≡ help_for (map (λ word. word.now) words.now) }
{
    match words {
        [word, names @ ..] => {
            if *word == "help" {
                help_of_first(names)
            } else {
                help_of(word)
            }
        }
        [] => DESK_HELP,
    }
}

/// Writes the help that words ask for, and flushes the output.
///
/// It fails with `Device` when a write or the flush fails: then a front part was written.
pub(crate) fn tell_help<F: Files, W: Write>(words: &[&str], output: &mut W) -> Result<(), Refusal>
    ensures done { OnOk result (Appends (W.contents output.old) (W.contents output.new)
        (help_for (map (λ word. word.now) words.now))) }
    ensures cut { OnErr result (AppendsPart (W.contents output.old) (W.contents output.new)
        (help_for (map (λ word. word.now) words.now))) }
    ensures flushed { OnOk result (IsTrue (F.flushed (W.contents output.new))) }
    ensures device { IfErr result (λ refused. refused ≡ Refusal.Device) }
{
    write_whole::<F, W>(output, help_asked(words).as_bytes())
}
