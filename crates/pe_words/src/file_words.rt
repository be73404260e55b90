//! The words of the commands that read files one at a time: `show`, `check`, `dump`, `object`, `archive`, `json` and `sum`.

ghost use Rattle.std.specs.Prelude.{◌≡◌, Some, None, IfOk, IfErr, OnErr};
ghost use Rattle.pe_words.specs.Colours.{colour_word, colours_named, IsShow};

use crate::archive_words::{archive_job, with_member_options};
use crate::builders::{argument, flag, new_command, required_argument, with_argument};
use crate::job::{Colours, Job, JsonOptions};
use crate::word_values::{BadValue, NoJob, byte_count};
use clap::{Arg, ArgAction, ArgMatches, Command};
use pe_text::ShowOptions;
use std::alloc::{AllocError, Global};

/// A command that reads files one at a time.
#[derive(Clone, Copy)]
pub(crate) struct FileCommand {
    pub name: &'static str,
    /// Its purpose, for help.
    about: &'static str,
    /// The help on its files.
    file: &'static str,
    /// Whether it takes several files.
    takes_several: bool,
    /// Whether it has the options for what is beyond the profile: `--all`, `--functions`, `--symbols` and `--no-digest`.
    has_beyond: bool,
    /// Whether it has the options for one member and for a new archive: `--extract`, `--index` and `--create`.
    has_members: bool,
    /// Whether it has the option `--big`.
    has_big: bool,
    /// Whether it has the option `--most`.
    has_most: bool,
}

/// The command `show`.
pub(crate) const SHOW: FileCommand = FileCommand {
    name: "show",
    about: "Prints a page on each image, object or archive: what it is, its sections or members and its tables, or its first fault",
    file: "Images, objects or archives, or - for standard input",
    takes_several: true,
    has_beyond: false,
    has_members: false,
    has_big: false,
    has_most: true,
};

/// The file commands that have no options but `--most`, `--big`, those for members, and those for what is beyond the profile.
pub(crate) const FILE_COMMANDS: [FileCommand; 6] = [
    FileCommand {
        name: "check",
        about: "Prints one line for each image: accepted, with its format and number of sections, or its first fault",
        file: "Images, or - for standard input",
        takes_several: true,
        has_beyond: false,
        has_members: false,
        has_big: false,
        has_most: false,
    },
    FileCommand {
        name: "dump",
        about: "Prints an image's header fields, directories, sections, exports, imports and base relocations, one per line, or its first fault",
        file: "An image, or - for standard input",
        takes_several: false,
        has_beyond: false,
        has_members: false,
        has_big: false,
        has_most: true,
    },
    FileCommand {
        name: "object",
        about: "Prints a COFF object's sections, relocations, symbols and auxiliary records, one per line, or its first fault",
        file: "An object, or - for standard input",
        takes_several: false,
        has_beyond: false,
        has_members: false,
        has_big: true,
        has_most: true,
    },
    FileCommand {
        name: "archive",
        about: "Prints each member of an archive of COFF objects, with what petool object prints of it, or a line for an import object",
        file: "An archive, or - for standard input; with --create what is to be in it",
        takes_several: true,
        has_beyond: false,
        has_members: true,
        has_big: false,
        has_most: true,
    },
    FileCommand {
        name: "json",
        about: "Prints each image or object, and its first fault if it is refused, as one line of JSON, and of an archive each member",
        file: "Images, objects or archives, or - for standard input",
        takes_several: true,
        has_beyond: true,
        has_members: false,
        has_big: false,
        has_most: true,
    },
    FileCommand {
        name: "sum",
        about: "Prints one line for each image: its CheckSum field, and what it is to hold, or the first fault of its headers",
        file: "Images, or - for standard input",
        takes_several: true,
        has_beyond: false,
        has_members: false,
        has_big: false,
        has_most: false,
    },
];

/// The help on `--all` of `json`.
const ALL: &str =
    "Adds debug data, the PDB file, the number of functions, TLS, the load configuration, bound imports, the CLR header, delay-loaded imports, resources, version information, the manifest, CheckSum as it is to be, certificates, what comes after the image, the Rich header, and the findings in these";

/// The help on `--functions` of `json`.
const FUNCTIONS: &str = "Adds each function of the exception table too, to what --all adds";

/// The help on `--symbols` of `json`.
const SYMBOLS: &str = "Adds each symbol of an image too, to what --all adds";

/// The help on `--no-digest`.
const NO_DIGEST: &str = "Leaves out of this what the whole file is added up or hashed for";

/// The help on `--big`.
const BIG: &str = "Reads an object that was compiled with /bigobj too";

/// The help on `--most`.
const MOST: &str =
    "Prints at most so many bytes of each file's text, with K, M or G for 2^10, 2^20 or 2^30 of them; what is cut ends with a note";

/// The help on `--color`.
const COLOR: &str =
    "When pages have colours: auto, on a terminal unless NO_COLOR is set or TERM is dumb; always; or never";

/// The options of `show` that add rows, each with its help.
const SHOW_OPTIONS: [(&str, &str); 12] = [
    ("exports", "Prints each export"),
    (
        "imports",
        "Prints each import, also those that are delay-loaded",
    ),
    (
        "relocations",
        "Prints each base relocation, or each relocation of an object",
    ),
    ("symbols", "Prints each symbol of an object or an image"),
    ("debug", "Prints each entry of the debug directory"),
    ("functions", "Prints each function of the exception table"),
    (
        "unwind",
        "Prints the unwind information of each function below it",
    ),
    ("tls", "Prints the TLS directory and its callbacks"),
    ("load", "Prints the load configuration"),
    (
        "resources",
        "Prints each resource, the version information and the manifest",
    ),
    (
        "trust",
        "Prints CheckSum, certificates, whether the digest that they sign is the file's, and the Rich header",
    ),
    ("all", "Prints all of these"),
];

/// An argument that may be given several times.
fn several<'a>(argument: Arg<'a>) -> Arg<'a> {
    argument.action(ArgAction::Append).num_args(1..)
}

/// The argument for the files of a command.
fn file_argument<'a>(alloc: Global, row: FileCommand) -> Arg<'a> {
    let argument = required_argument(alloc, "FILE", row.file);
    if row.takes_several {
        several(argument)
    } else {
        argument
    }
}

/// The option `--most`.
pub(crate) fn most_option<'a>(alloc: Global) -> Arg<'a> {
    argument(alloc, "most", MOST)
        .long("most")
        .value_name("BYTES")
}

/// The file command without the option `--most`.
fn unlimited_command<'a>(alloc: Global, row: FileCommand) -> Result<Command<'a>, AllocError> {
    let command = Ok(new_command(alloc, row.name, row.about));
    let command = with_argument(command, file_argument(alloc, row));
    if row.has_beyond {
        let command = with_argument(command, flag(alloc, "all", ALL));
        let command = with_argument(command, flag(alloc, "functions", FUNCTIONS));
        let command = with_argument(command, flag(alloc, "symbols", SYMBOLS));
        with_argument(command, flag(alloc, "no-digest", NO_DIGEST))
    } else if row.has_members {
        with_member_options(alloc, command)
    } else if row.has_big {
        with_argument(command, flag(alloc, "big", BIG))
    } else {
        command
    }
}

/// A file command.
pub(crate) fn file_command<'a>(alloc: Global, row: FileCommand) -> Result<Command<'a>, AllocError> {
    let command = unlimited_command(alloc, row);
    if row.has_most {
        with_argument(command, most_option(alloc))
    } else {
        command
    }
}

/// The option `--color`.
fn color_option<'a>(alloc: Global) -> Arg<'a> {
    argument(alloc, "color", COLOR)
        .long("color")
        .value_name("WHEN")
        .default_value("auto")
}

/// The command `show`, with its options.
pub(crate) fn show_command<'a>(alloc: Global) -> Result<Command<'a>, AllocError> {
    let mut command = with_argument(file_command(alloc, SHOW), color_option(alloc));
    for (name, help) in SHOW_OPTIONS {
        command = with_argument(command, flag(alloc, name, help));
    }
    command
}

/// The name in usage of the command with this name, for commands with the option `--most`.
pub(crate) fn usage_of(name: &str) -> &'static str {
    match name {
        "show" => "petool show",
        "dump" => "petool dump",
        "object" => "petool object",
        "archive" => "petool archive",
        "resource" => "petool resource",
        _ => "petool json",
    }
}

/// The file that a command has for this argument.
pub(crate) fn file_of(
    alloc: Global,
    found: &ArgMatches<'_>,
    name: &str,
) -> Result<String, AllocError> {
    String::from_str(alloc, found.get_str(name).unwrap_or(""))
}

/// The files of a command.
pub(crate) fn files_of(alloc: Global, found: &ArgMatches<'_>) -> Result<Vec<String>, AllocError> {
    let mut files = Vec::new(alloc);
    for value in found.get_strs("FILE").unwrap_or(&[]) {
        files.push(String::from_str(alloc, value)?)?;
    }
    Ok(files)
}

/// The options of `show` that are set.
fn options_of(found: &ArgMatches<'_>) -> ShowOptions {
    let is_all = found.get_flag("all");
    ShowOptions {
        exports: is_all || found.get_flag("exports"),
        imports: is_all || found.get_flag("imports"),
        relocations: is_all || found.get_flag("relocations"),
        symbols: is_all || found.get_flag("symbols"),
        debug: is_all || found.get_flag("debug"),
        functions: is_all || found.get_flag("functions"),
        unwind: is_all || found.get_flag("unwind"),
        tls: is_all || found.get_flag("tls"),
        load: is_all || found.get_flag("load"),
        resources: is_all || found.get_flag("resources"),
        trust: is_all || found.get_flag("trust"),
        is_coloured: false,
    }
}

/// When pages have colours by the value of `--color`, if it is auto, always or never.
fn colours_named(value: &str) -> Option<Colours>
    ensures { result ≡ colours_named value.now }
{
    match value {
        "auto" => Some(Colours::Auto),
        "always" => Some(Colours::Always),
        "never" => Some(Colours::Never),
        _ => None,
    }
}

/// When pages have colours.
fn colours_of<'a>(found: &ArgMatches<'a>) -> Result<Colours, BadValue<'a>>
    ensures colours { IfOk result (λ colours. colours_named (colour_word found.now) ≡ Some colours) }
    ensures none { OnErr result (colours_named (colour_word found.now) ≡ None) }
    ensures bad { IfErr result (λ bad. bad.value.now ≡ colour_word found.now) }
{
    let value = found.get_str("color").unwrap_or("auto");
    match colours_named(value) {
        Some(colours) => Ok(colours),
        None => Err(BadValue {
            value,
            argument: "--color <WHEN>",
            reason: "not auto, always or never",
        }),
    }
}

/// The number of bytes given by `--most`, if any.
pub(crate) fn most_of<'a>(found: &ArgMatches<'a>) -> Result<Option<u64>, BadValue<'a>> {
    match found.get_str("most") {
        Some(value) => Ok(Some(byte_count(value, "--most <BYTES>")?)),
        None => Ok(None),
    }
}

/// The job of `check`: one file, or several.
fn check_job<P>(mut files: Vec<String>) -> Job<P> {
    if files.len() > 1 {
        return Job::CheckEach { files };
    }
    match files.pop() {
        Some(file) => Job::Check { file },
        None => Job::CheckEach { files },
    }
}

/// The job of `dump`: the whole output, or at most this many bytes.
fn dump_job<P>(file: String, most: Option<u64>) -> Job<P> {
    match most {
        Some(most) => Job::DumpMost { most, file },
        None => Job::Dump { file },
    }
}

/// The job of `object`, which reads big objects too or not: the whole output, or at most this many bytes.
fn object_job<P>(file: String, reads_big: bool, most: Option<u64>) -> Job<P> {
    match most {
        Some(most) => Job::ObjectMost {
            reads_big,
            most,
            file,
        },
        None => Job::Object { reads_big, file },
    }
}

/// The job of `show`, with at most `most` bytes of output.
fn show_job<'a, P>(
    alloc: Global,
    found: &ArgMatches<'a>,
    most: Option<u64>,
) -> Result<Job<P>, NoJob<'a>>
    ensures { IfOk result (IsShow found.now most) }
{
    match colours_of(found) {
        Ok(colours) => Ok(Job::Show {
            options: options_of(found),
            colours,
            most,
            files: files_of(alloc, found)?,
        }),
        Err(bad) => Err(NoJob::Bad(bad)),
    }
}

/// What `json` tells beyond the profile: all or nothing, and each function and each symbol if they are asked for.
fn beyond_of(found: &ArgMatches) -> Option<JsonOptions> {
    let functions = found.get_flag("functions");
    let symbols = found.get_flag("symbols");
    if !found.get_flag("all") && !functions && !symbols {
        return None;
    }
    Some(JsonOptions {
        functions,
        symbols,
        digests: !found.get_flag("no-digest"),
    })
}

/// The job of a file command, with at most `most` bytes of output, or `None` for another command.
fn limited_job<'a, P>(
    alloc: Global,
    name: &str,
    found: &ArgMatches<'a>,
    most: Option<u64>,
) -> Result<Option<Job<P>>, NoJob<'a>> {
    let job = match name {
        "show" => show_job(alloc, found, most)?,
        "json" => Job::Json {
            beyond: beyond_of(found),
            most,
            files: files_of(alloc, found)?,
        },
        "check" => check_job(files_of(alloc, found)?),
        "sum" => Job::Sum {
            files: files_of(alloc, found)?,
        },
        "dump" => dump_job(file_of(alloc, found, "FILE")?, most),
        "object" => object_job(file_of(alloc, found, "FILE")?, found.get_flag("big"), most),
        "archive" => archive_job(alloc, found, most)?,
        _ => return Ok(None),
    };
    Ok(Some(job))
}

/// The job of a file command, or `None` for another command.
pub(crate) fn file_job<'a, P>(
    alloc: Global,
    name: &str,
    found: &ArgMatches<'a>,
) -> Result<Option<Job<P>>, NoJob<'a>> {
    match most_of(found) {
        Ok(most) => limited_job(alloc, name, found, most),
        Err(bad) => Err(NoJob::Bad(bad)),
    }
}
