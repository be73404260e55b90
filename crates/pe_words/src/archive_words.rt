//! The words of `petool archive` that ask for one member, or for a new archive.

use crate::builders::{argument, with_argument};
use crate::file_words::files_of;
use crate::job::Job;
use crate::layout_words::{most_of, within_option};
use crate::word_values::{BadValue, NoJob};
use clap::{ArgMatches, Command};
use std::alloc::{AllocError, Global};

/// The help on `--extract`.
const EXTRACT: &str = "Writes what the member with this name holds, as it stands in the archive";

/// The help on `--index`.
const INDEX: &str = "Of several members with the name takes this one, counted from 1";

/// The help on `--create`.
const CREATE: &str =
    "Writes the archive OUT of the FILEs, each under the name that is left without its folder, with both linker members";

/// The command with the options for one member, and for a new archive.
pub(crate) fn with_member_options<'a>(
    alloc: Global,
    command: Result<Command<'a>, AllocError>,
) -> Result<Command<'a>, AllocError> {
    let name = argument(alloc, "extract", EXTRACT)
        .long("extract")
        .value_name("NAME");
    let index = argument(alloc, "index", INDEX)
        .long("index")
        .value_name("N");
    let target = argument(alloc, "create", CREATE)
        .long("create")
        .value_name("OUT");
    let command = with_argument(with_argument(with_argument(command, name), index), target);
    with_argument(command, within_option(alloc))
}

/// An invalid value of `--index`.
fn bad_index<'a>(value: &'a str, reason: &'static str) -> BadValue<'a> {
    BadValue {
        value,
        argument: "--index <N>",
        reason,
    }
}

/// Which of the members with a name is wanted, from 0: the first, unless `--index` says another.
fn index_of<'a>(found: &ArgMatches<'a>) -> Result<u64, BadValue<'a>> {
    let Some(value) = found.get_str("index") else {
        return Ok(0);
    };
    match value.parse::<u64>() {
        Ok(number) if number > 0 => Ok(number - 1),
        _ => Err(bad_index(value, "not a number from 1 on")),
    }
}

/// The only file of `archive` without `--create`.
fn only_file<'a>(alloc: Global, found: &ArgMatches<'a>) -> Result<String, NoJob<'a>> {
    let mut only = None;
    for value in found.get_strs("FILE").unwrap_or(&[]) {
        if only.is_some() {
            return Err(NoJob::Bad(BadValue {
                value,
                argument: "<FILE>...",
                reason: "more than one file is for --create",
            }));
        }
        only = Some(String::from_str(alloc, value)?);
    }
    Ok(only.unwrap_or(String::new(alloc)))
}

/// An option that `--create` does not go with, with its value.
fn other_option<'a>(found: &ArgMatches<'a>) -> Option<BadValue<'a>> {
    let (value, argument) = match (found.get_str("extract"), found.get_str("index")) {
        (Some(value), _) => (value, "--extract <NAME>"),
        (None, Some(value)) => (value, "--index <N>"),
        (None, None) => (found.get_str("most")?, "--most <BYTES>"),
    };
    Some(BadValue {
        value,
        argument,
        reason: "it does not go with --create",
    })
}

/// The job of `archive --create`, which writes at most `most` bytes.
fn limited_creation<P>(
    alloc: Global,
    found: &ArgMatches<'_>,
    target: &str,
    most: u64,
) -> Result<Job<P>, AllocError> {
    Ok(Job::ArchiveCreate {
        most,
        target: String::from_str(alloc, target)?,
        files: files_of(alloc, found)?,
    })
}

/// The job of `archive --create`.
fn create_job<'a, P>(
    alloc: Global,
    found: &ArgMatches<'a>,
    target: &str,
) -> Result<Job<P>, NoJob<'a>> {
    if let Some(bad) = other_option(found) {
        return Err(NoJob::Bad(bad));
    }
    match most_of(found) {
        Ok(most) => Ok(limited_creation(alloc, found, target, most)?),
        Err(bad) => Err(NoJob::Bad(bad)),
    }
}

/// The option `--within`, with its value, if it stands without `--create`.
fn lone_within<'a>(found: &ArgMatches<'a>) -> Option<BadValue<'a>> {
    Some(BadValue {
        value: found.get_str("within")?,
        argument: "--within <BYTES>",
        reason: "it bounds the archive of --create",
    })
}

/// The job of `archive` without a member.
fn dump_job<'a, P>(
    found: &ArgMatches<'a>,
    most: Option<u64>,
    file: String,
) -> Result<Job<P>, NoJob<'a>> {
    match found.get_str("index") {
        Some(value) => Err(NoJob::Bad(bad_index(value, "it counts the members of --extract"))),
        None => Ok(Job::Archive { most, file }),
    }
}

/// The job of `archive`, with at most `most` bytes of text.
pub(crate) fn archive_job<'a, P>(
    alloc: Global,
    found: &ArgMatches<'a>,
    most: Option<u64>,
) -> Result<Job<P>, NoJob<'a>> {
    if let Some(target) = found.get_str("create") {
        return create_job(alloc, found, target);
    }
    if let Some(bad) = lone_within(found) {
        return Err(NoJob::Bad(bad));
    }
    let file = only_file(alloc, found)?;
    let Some(name) = found.get_str("extract") else {
        return dump_job(found, most, file);
    };
    match index_of(found) {
        Ok(index) => Ok(Job::ArchiveMember {
            file,
            name: String::from_str(alloc, name)?,
            index,
        }),
        Err(bad) => Err(NoJob::Bad(bad)),
    }
}
