//! The words of `petool layout`.

use crate::builders::{argument, new_command, required_argument, with_argument};
use crate::word_values::{BadValue, byte_count};
use clap::{Arg, ArgMatches, Command};
use std::alloc::{AllocError, Global};

/// The purpose of `layout`, for help.
const ABOUT: &str =
    "Writes an image as it is laid out in memory, SizeOfImage bytes, or prints the first fault";

/// The help on the input file.
const SOURCE: &str = "The image's file, or - for standard input";

/// The help on the output file.
const TARGET: &str =
    "The file to write, which may not be IN, or - for standard output; only the complete file replaces one that is there";

/// The help on the option `--within`.
const WITHIN: &str =
    "Writes nothing that has more than so many bytes, with K, M or G for 2^10, 2^20 or 2^30 of them";

/// The option `--within`.
pub(crate) fn within_option<'a>(alloc: Global) -> Arg<'a> {
    argument(alloc, "within", WITHIN)
        .long("within")
        .value_name("BYTES")
}

/// The subcommand `layout`.
pub(crate) fn layout_command<'a>(alloc: Global) -> Result<Command<'a>, AllocError> {
    let command = Ok(new_command(alloc, "layout", ABOUT));
    let command = with_argument(command, within_option(alloc));
    let command = with_argument(command, required_argument(alloc, "IN", SOURCE));
    with_argument(command, required_argument(alloc, "OUT", TARGET))
}

/// How many bytes may be written: any number, unless `--within` says one.
pub(crate) fn most_of<'a>(found: &ArgMatches<'a>) -> Result<u64, BadValue<'a>> {
    match found.get_str("within") {
        Some(value) => byte_count(value, "--within <BYTES>"),
        None => Ok(u64::MAX),
    }
}
