//! `parse_words`: the job of a command line.

ghost use Rattle.std.specs.Prelude.{◌≡◌, MatchOption, if◌then◌else◌};

use crate::at_map_words::at_map_words;
use crate::at_words::{at_command, explain_command, number_of, places_of};
use crate::commands::{command, command_named};
use crate::file_words::{file_job, file_of, usage_of};
use crate::job::{Job, MapFile, WordsError};
use crate::layout_words::{layout_command, most_of};
use crate::map_words::{MapWords, map_command, map_words};
use crate::rebase_words::{base_of, rebase_command};
use crate::resource_words::resource_job;
use crate::word_values::{BadValue, NoJob, bad_value};
use clap::error::ErrorKind;
use clap::{ArgMatches, Command, Error};
use std::alloc::Global;

/// The text to print for an error or help from clap.
fn refusal(alloc: Global, error: Error) -> WordsError {
    if error.kind() == ErrorKind::OutOfMemory {
        return WordsError::Memory;
    }
    let Ok(text) = error.to_string(alloc) else {
        return WordsError::Memory;
    };
    if error.use_stderr() {
        WordsError::Bad(text)
    } else {
        WordsError::Help(text)
    }
}

/// The text to print for an invalid value of a command.
fn value_refusal(alloc: Global, command: Command<'_>, name: &str, bad: BadValue<'_>) -> WordsError {
    match bad_value(alloc, command, name, bad) {
        Ok(error) => refusal(alloc, error),
        Err(_) => WordsError::Memory,
    }
}

/// The job of words of `map` that write no images and bind no delay-loaded imports.
fn report_job<P>(
    policy: P,
    window: Option<(u64, u32)>,
    is_unbound: bool,
    files: Vec<MapFile>,
) -> Job<P>
    ensures { result ≡ (if is_unbound then Job.MapUnbound policy window files else Job.Map policy window files) }
{
    if is_unbound {
        return Job::MapUnbound {
            policy,
            window,
            files,
        };
    }
    Job::Map {
        policy,
        window,
        files,
    }
}

/// The job of words of `map` that write no images.
fn printing_job<P>(
    policy: P,
    window: Option<(u64, u32)>,
    is_delayed: bool,
    is_unbound: bool,
    files: Vec<MapFile>,
) -> Job<P>
    ensures { result ≡ (if is_delayed then Job.MapDelayed policy window is_unbound files
        else (if is_unbound then Job.MapUnbound policy window files else Job.Map policy window files)) }
{
    if is_delayed {
        return Job::MapDelayed {
            policy,
            window,
            is_unbound,
            files,
        };
    }
    report_job(policy, window, is_unbound, files)
}

/// The job of words of `map`.
fn job_of_map<P>(words: MapWords, policy: P) -> Job<P>
    ensures { MatchOption words.folder
        (result ≡ (if words.is_delayed then Job.MapDelayed policy words.window words.is_unbound words.files
        else (if words.is_unbound then Job.MapUnbound policy words.window words.files else Job.Map policy words.window words.files)))
        (λ folder. result ≡ Job.MapWrite policy words.window words.is_delayed words.is_unbound words.most folder words.files) }
{
    let MapWords {
        is_delayed,
        is_unbound,
        window,
        folder,
        most,
        files,
        ..
    } = words;
    match folder {
        Some(folder) => Job::MapWrite {
            policy,
            window,
            is_delayed,
            is_unbound,
            most,
            folder,
            files,
        },
        None => printing_job(policy, window, is_delayed, is_unbound, files),
    }
}

/// The job of the words of `map`.
fn map_job<P: Copy>(
    alloc: Global,
    found: &ArgMatches<'_>,
    strict: P,
    known: P,
) -> Result<Job<P>, WordsError> {
    match map_words(alloc, found) {
        Ok(words) => {
            let policy = if words.is_known { known } else { strict };
            Ok(job_of_map(words, policy))
        }
        Err(NoJob::Bad(bad)) => Err(value_refusal(alloc, map_command(alloc)?, "petool map", bad)),
        Err(NoJob::Memory) => Err(WordsError::Memory),
    }
}

/// The job of the words of `rebase`.
fn rebase_job<P: Copy>(alloc: Global, found: &ArgMatches<'_>) -> Result<Job<P>, WordsError> {
    match base_of(found) {
        Ok(base) => Ok(Job::Rebase {
            base,
            check_sum: found.get_flag("check-sum"),
            source: file_of(alloc, found, "IN")?,
            target: file_of(alloc, found, "OUT")?,
        }),
        Err(bad) => Err(value_refusal(alloc, rebase_command(alloc)?, "petool rebase", bad)),
    }
}

/// The job of the words of `layout`.
fn layout_job<P: Copy>(alloc: Global, found: &ArgMatches<'_>) -> Result<Job<P>, WordsError> {
    match most_of(found) {
        Ok(most) => Ok(Job::Layout {
            most,
            source: file_of(alloc, found, "IN")?,
            target: file_of(alloc, found, "OUT")?,
        }),
        Err(bad) => Err(value_refusal(alloc, layout_command(alloc)?, "petool layout", bad)),
    }
}

/// The job of the words of `at`.
fn at_job<P: Copy>(alloc: Global, found: &ArgMatches<'_>) -> Result<Job<P>, WordsError> {
    match places_of(alloc, found) {
        Ok(places) => Ok(Job::At {
            file: file_of(alloc, found, "FILE")?,
            places,
        }),
        Err(NoJob::Bad(bad)) => Err(value_refusal(alloc, at_command(alloc)?, "petool at", bad)),
        Err(NoJob::Memory) => Err(WordsError::Memory),
    }
}

/// The job of the words of `at --map`.
fn at_map_job<P: Copy>(
    alloc: Global,
    found: &ArgMatches<'_>,
    policy: P,
) -> Result<Job<P>, WordsError> {
    match at_map_words(alloc, found) {
        Ok(words) => Ok(Job::AtMap {
            policy,
            files: words.files,
            addresses: words.addresses,
        }),
        Err(NoJob::Bad(bad)) => Err(value_refusal(alloc, at_command(alloc)?, "petool at", bad)),
        Err(NoJob::Memory) => Err(WordsError::Memory),
    }
}

/// The job of the words of `explain`.
fn explain_job<P: Copy>(alloc: Global, found: &ArgMatches<'_>) -> Result<Job<P>, WordsError> {
    match number_of(found) {
        Ok(number) => Ok(Job::Explain { number }),
        Err(bad) => Err(value_refusal(alloc, explain_command(alloc)?, "petool explain", bad)),
    }
}

/// The error for an unknown command, which does not occur: clap refuses such words before.
fn no_command(alloc: Global) -> WordsError {
    match String::from_str(alloc, "error: no command\n") {
        Ok(text) => WordsError::Bad(text),
        Err(_) => WordsError::Memory,
    }
}

/// The text to print for an invalid value of a file command, or of `resource`.
fn file_refusal(alloc: Global, name: &str, bad: BadValue<'_>) -> WordsError {
    match command_named(alloc, name) {
        Some(Ok(command)) => value_refusal(alloc, command, usage_of(name), bad),
        _ => WordsError::Memory,
    }
}

/// The job of the words of a file command.
fn files_job<P: Copy>(
    alloc: Global,
    name: &str,
    found: &ArgMatches<'_>,
) -> Result<Job<P>, WordsError> {
    match file_job(alloc, name, found) {
        Ok(Some(job)) => Ok(job),
        Ok(None) => Err(no_command(alloc)),
        Err(NoJob::Bad(bad)) => Err(file_refusal(alloc, name, bad)),
        Err(NoJob::Memory) => Err(WordsError::Memory),
    }
}

/// The job of the words of `resource`.
fn one_resource_job<P: Copy>(alloc: Global, found: &ArgMatches<'_>) -> Result<Job<P>, WordsError> {
    match resource_job(alloc, found) {
        Ok(job) => Ok(job),
        Err(NoJob::Bad(bad)) => Err(file_refusal(alloc, "resource", bad)),
        Err(NoJob::Memory) => Err(WordsError::Memory),
    }
}

/// The job of the words of a command.
fn job_of<P: Copy>(
    alloc: Global,
    name: &str,
    found: &ArgMatches<'_>,
    strict: P,
    known: P,
) -> Result<Job<P>, WordsError> {
    match name {
        "map" => map_job(alloc, found, strict, known),
        "layout" => layout_job(alloc, found),
        "rebase" => rebase_job(alloc, found),
        "at" if found.get_flag("map") => at_map_job(alloc, found, known),
        "at" => at_job(alloc, found),
        "explain" => explain_job(alloc, found),
        "resource" => one_resource_job(alloc, found),
        _ => files_job(alloc, name, found),
    }
}

/// The words after the program's name, as clap parses them.
fn matches_of<'a>(alloc: Global, words: &'a [String]) -> Result<ArgMatches<'a>, WordsError> {
    let first = words.first().map_or("", |word| word.as_str());
    match command(alloc, first)?.try_get_matches_from(words) {
        Ok(found) => Ok(found),
        Err(error) => Err(refusal(alloc, error)),
    }
}

/// The job of the words after the program's name. The policy of `map` is `known` if its option is given, otherwise `strict`; that of `at
/// --map` is `known`.
///
/// `Bad` and `Help` contain clap's own text, or one of its form. `Memory` comes only if an allocation failed.
pub fn parse_words<P: Copy>(
    alloc: Global,
    words: &[String],
    strict: P,
    known: P,
) -> Result<Job<P>, WordsError> {
    let found = matches_of(alloc, words)?;
    match found.subcommand() {
        Some((name, inner)) => job_of(alloc, name, inner, strict, known),
        None => Err(no_command(alloc)),
    }
}
