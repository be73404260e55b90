//! The words of `petool map`.

use crate::builders::{argument, flag, new_command, required_argument, with_argument};
use crate::job::MapFile;
use crate::layout_words::{most_of, within_option};
use crate::word_values::{BadValue, NoJob, address_of};
use clap::{Arg, ArgAction, ArgMatches, Command};
use std::alloc::{AllocError, Global};

/// The greatest length of a window in bytes.
const MAX_COUNT: u32 = 4096;

/// How many bytes the images may have together that are written, unless `--within` says another number.
const MOST_BYTES: &str = "4G";

/// The purpose of `map`, for help.
const ABOUT: &str =
    "Maps images together, binds their imports, and prints where each image is, what each bound slot holds and the bytes of a window, or the first fault";

/// The end of `map --help`, after the options.
const EXAMPLE: &str = "\
Example:
  petool map --window 10001000 --count 17 10000000=v1.dll

  image 0 \"v1.dll\" base 0x0000000010000000 size 0x00003000
  0x0000000010001000 00 01 02 03 04 05 06 07 08 09 0a 0b 0c 0d 0e 0f
  0x0000000010001010 00
  end";

/// The help on `--known`.
const KNOWN: &str =
    "Leaves the slot of an import as it is in its file if the import's module is not among the files";

/// The help on `--delayed`.
const DELAYED: &str =
    "Binds delay-loaded imports too, if all modules that they need are among the files";

/// The help on `--unbound`.
const UNBOUND: &str = "Prints the imports that are bound to nothing, one per line, after all else";

/// The help on `--window`.
const WINDOW: &str = "Prints the bytes from this address on, 16 per line";

/// The help on `--write`.
const WRITE: &str =
    "Writes each image as it is mapped, SizeOfImage bytes, to the file of its module's name in this folder";

/// The help on the files.
const FILES: &str =
    "An image's base and its file, or - for standard input; the file's name is the module's name, unless HEX:NAME=FILE gives one";

/// The words of `map` as values.
#[derive(Drop)]
pub(crate) struct MapWords {
    /// Whether slots of imports from modules that are not among the files are left as they are in the file.
    pub is_known: bool,
    /// Whether delay-loaded imports are bound too.
    pub is_delayed: bool,
    /// Whether the imports that are bound to nothing are written too.
    pub is_unbound: bool,
    pub window: Option<(u64, u32)>,
    /// The folder in which each image is written to a file, if they are.
    pub folder: Option<String>,
    /// How many bytes the images may have together that are written.
    pub most: u64,
    pub files: Vec<MapFile>,
}

/// The option `--window`.
fn window_option<'a>(alloc: Global) -> Arg<'a> {
    argument(alloc, "window", WINDOW)
        .long("window")
        .value_name("HEX")
}

/// The option `--count`.
fn count_option<'a>(alloc: Global) -> Arg<'a> {
    argument(alloc, "count", "How many bytes the window has, 1 to 4096")
        .long("count")
        .value_name("N")
        .default_value("16")
}

/// The option `--write`.
fn write_option<'a>(alloc: Global) -> Arg<'a> {
    argument(alloc, "write", WRITE)
        .long("write")
        .value_name("DIR")
}

/// The argument for the files to map.
fn file_arguments<'a>(alloc: Global) -> Arg<'a> {
    required_argument(alloc, "HEX=FILE", FILES)
        .action(ArgAction::Append)
        .num_args(1..)
}

/// The subcommand `map`.
pub(crate) fn map_command<'a>(alloc: Global) -> Result<Command<'a>, AllocError> {
    let command = Ok(new_command(alloc, "map", ABOUT).after_help(EXAMPLE));
    let command = with_argument(command, flag(alloc, "known", KNOWN));
    let command = with_argument(command, flag(alloc, "delayed", DELAYED));
    let command = with_argument(command, flag(alloc, "unbound", UNBOUND));
    let command = with_argument(command, window_option(alloc));
    let command = with_argument(command, count_option(alloc));
    let command = with_argument(command, write_option(alloc));
    let command = with_argument(command, within_option(alloc).default_value(MOST_BYTES));
    with_argument(command, file_arguments(alloc))
}

/// A number of bytes, 1 to 4,096, in decimal digits.
fn count_of(text: &str) -> Option<u32> {
    if !text.bytes().all(|byte| byte.is_ascii_digit()) {
        return None;
    }
    let count = text.parse::<u32>().ok()?;
    (1..=MAX_COUNT).contains(&count).then_some(count)
}

/// The window of the words. The number of bytes is checked even without a window.
fn window_of<'a>(found: &ArgMatches<'a>) -> Result<Option<(u64, u32)>, BadValue<'a>> {
    let value = found.get_str("count").unwrap_or("");
    let Some(count) = count_of(value) else {
        return Err(BadValue {
            value,
            argument: "--count <N>",
            reason: "not a number from 1 to 4096",
        });
    };
    let Some(value) = found.get_str("window") else {
        return Ok(None);
    };
    match address_of(value) {
        Some(address) => Ok(Some((address, count))),
        None => Err(BadValue {
            value,
            argument: "--window <HEX>",
            reason: "not an address of 1 to 16 hexadecimal digits",
        }),
    }
}

/// The part of a path after its last `/`.
fn name_of(path: &str) -> &str {
    match path.rsplit_once('/') {
        Some((_, name)) => name,
        None => path,
    }
}

/// The base of a word, with its path and its module's name, unless one of these is missing; `nameless` is what to say if that is
/// the name.
fn checked_parts<'a>(
    base: &str,
    path: &'a str,
    name: &'a str,
    nameless: &'static str,
) -> Result<(u64, &'a str, &'a str), &'static str> {
    let Some(base) = address_of(base) else {
        return Err("not a base of 1 to 16 hexadecimal digits");
    };
    if path.is_empty() {
        return Err("no file name");
    }
    if name.is_empty() {
        return Err(nameless);
    }
    Ok((base, path, name))
}

/// The base and the path of a file to map, and its module's name: `HEX=FILE`, or `HEX:NAME=FILE`.
fn parts_of(value: &str) -> Result<(u64, &str, &str), &'static str> {
    let Some((place, path)) = value.split_once('=') else {
        return Err("no '=' after the base");
    };
    match place.split_once(':') {
        Some((base, name)) => checked_parts(base, path, name, "no module name"),
        None => checked_parts(place, path, name_of(path), "no file name"),
    }
}

/// Whether a file of a folder can have a name.
fn is_file_name(name: &str) -> bool {
    !name.contains('/') && name != "." && name != ".."
}

/// The base and the path of a file to map, and its module's name, which is that of a file too if the image is written.
fn named_parts_of(value: &str, is_written: bool) -> Result<(u64, &str, &str), &'static str> {
    let (base, path, name) = parts_of(value)?;
    if is_written && !is_file_name(name) {
        return Err("no file for --write has the module's name");
    }
    Ok((base, path, name))
}

/// The file of a word, whose module has the name of a file if the image is written.
pub(crate) fn file_of<'a>(
    alloc: Global,
    value: &'a str,
    is_written: bool,
) -> Result<MapFile, NoJob<'a>> {
    match named_parts_of(value, is_written) {
        Ok((base, path, name)) => Ok(MapFile {
            base,
            path: String::from_str(alloc, path)?,
            name: String::from_str(alloc, name)?,
        }),
        Err(reason) => Err(NoJob::Bad(BadValue {
            value,
            argument: "<HEX=FILE>...",
            reason,
        })),
    }
}

/// The files to map, whose modules have the names of files if the images are written.
fn files_of<'a>(
    alloc: Global,
    found: &ArgMatches<'a>,
    is_written: bool,
) -> Result<Vec<MapFile>, NoJob<'a>> {
    let mut files = Vec::new(alloc);
    for value in found.get_strs("HEX=FILE").unwrap_or(&[]) {
        files.push(file_of(alloc, value, is_written)?)?;
    }
    Ok(files)
}

/// The folder in which the images are written, if they are.
fn folder_of(alloc: Global, found: &ArgMatches<'_>) -> Result<Option<String>, AllocError> {
    match found.get_str("write") {
        Some(folder) => Ok(Some(String::from_str(alloc, folder)?)),
        None => Ok(None),
    }
}

/// The words of `map` as values.
pub(crate) fn map_words<'a>(alloc: Global, found: &ArgMatches<'a>) -> Result<MapWords, NoJob<'a>> {
    let window = match window_of(found) {
        Ok(window) => window,
        Err(bad) => return Err(NoJob::Bad(bad)),
    };
    let most = match most_of(found) {
        Ok(most) => most,
        Err(bad) => return Err(NoJob::Bad(bad)),
    };
    let folder = folder_of(alloc, found)?;
    let files = files_of(alloc, found, folder.is_some())?;
    Ok(MapWords {
        is_known: found.get_flag("known"),
        is_delayed: found.get_flag("delayed"),
        is_unbound: found.get_flag("unbound"),
        window,
        folder,
        most,
        files,
    })
}
