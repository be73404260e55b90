//! The words of `petool resource`.

use crate::builders::{argument, flag, new_command, required_argument, with_argument};
use crate::file_words::{file_of, most_of, most_option};
use crate::job::Job;
use crate::word_values::{BadValue, NoJob};
use clap::{ArgMatches, Command};
use std::alloc::{AllocError, Global};

/// The purpose of `resource`, for help.
const ABOUT: &str = "Prints the resources of an image, one per line, or writes one as a file";

/// The help on the file.
const FILE: &str = "An image, or - for standard input";

/// The help on the leaf.
const LEAF: &str =
    "TYPE/NAME/LANGUAGE, each a number or a text; what is left out may be any, and the first that fits counts";

/// The help on writing the data as they stand.
const RAW: &str = "Writes the resource as it stands in the image";

/// The subcommand `resource`.
pub(crate) fn resource_command<'a>(alloc: Global) -> Result<Command<'a>, AllocError> {
    let command = Ok(new_command(alloc, "resource", ABOUT));
    let command = with_argument(command, flag(alloc, "raw", RAW));
    let command = with_argument(command, required_argument(alloc, "FILE", FILE));
    let command = with_argument(command, argument(alloc, "LEAF", LEAF));
    with_argument(command, most_option(alloc))
}

/// The option `--most`, with its value, if it stands beside a LEAF, whose file is written whole.
fn most_of_leaf<'a>(found: &ArgMatches<'a>) -> Option<BadValue<'a>> {
    found.get_str("LEAF")?;
    Some(BadValue {
        value: found.get_str("most")?,
        argument: "--most <BYTES>",
        reason: "it does not go with LEAF",
    })
}

/// The leaf that the words of `resource` name, if they name one.
fn leaf_of(alloc: Global, found: &ArgMatches<'_>) -> Result<Option<String>, AllocError> {
    match found.get_str("LEAF") {
        Some(leaf) => Ok(Some(String::from_str(alloc, leaf)?)),
        None => Ok(None),
    }
}

/// The job of the words of `resource`, with at most `most` bytes of text.
fn limited_job<P>(
    alloc: Global,
    found: &ArgMatches<'_>,
    most: Option<u64>,
) -> Result<Job<P>, AllocError> {
    Ok(Job::Resource {
        most,
        file: file_of(alloc, found, "FILE")?,
        leaf: leaf_of(alloc, found)?,
        is_raw: found.get_flag("raw"),
    })
}

/// The job of the words of `resource`.
pub(crate) fn resource_job<'a, P>(
    alloc: Global,
    found: &ArgMatches<'a>,
) -> Result<Job<P>, NoJob<'a>> {
    if let Some(bad) = most_of_leaf(found) {
        return Err(NoJob::Bad(bad));
    }
    match most_of(found) {
        Ok(most) => Ok(limited_job(alloc, found, most)?),
        Err(bad) => Err(NoJob::Bad(bad)),
    }
}
