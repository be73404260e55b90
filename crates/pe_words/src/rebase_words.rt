//! The words of `petool rebase`.

use crate::builders::{flag, new_command, required_argument, with_argument};
use crate::word_values::{BadValue, address_of};
use clap::{ArgMatches, Command};
use std::alloc::{AllocError, Global};

/// The purpose of `rebase`, for help.
const ABOUT: &str =
    "Writes an image's file for another base, and prints that base, or the first fault";

/// The help on the base.
const BASE: &str = "The image's new base";

/// The help on the input file.
const SOURCE: &str = "The image's file, or - for standard input";

/// The help on the output file.
const TARGET: &str =
    "The file to write, which may not be IN, or - for standard output; only the complete file replaces one that is there";

/// The help on the option `--check-sum`.
const CHECK_SUM: &str = "Writes the new file's CheckSum into its headers, in place of 0";

/// The subcommand `rebase`.
pub(crate) fn rebase_command<'a>(alloc: Global) -> Result<Command<'a>, AllocError> {
    let command = Ok(new_command(alloc, "rebase", ABOUT));
    let command = with_argument(command, flag(alloc, "check-sum", CHECK_SUM));
    let command = with_argument(command, required_argument(alloc, "HEX", BASE));
    let command = with_argument(command, required_argument(alloc, "IN", SOURCE));
    with_argument(command, required_argument(alloc, "OUT", TARGET))
}

/// The base in the words of `rebase`.
pub(crate) fn base_of<'a>(found: &ArgMatches<'a>) -> Result<u64, BadValue<'a>> {
    let value = found.get_str("HEX").unwrap_or("");
    match address_of(value) {
        Some(base) => Ok(base),
        None => Err(BadValue {
            value,
            argument: "<HEX>",
            reason: "not a base of 1 to 16 hexadecimal digits",
        }),
    }
}
