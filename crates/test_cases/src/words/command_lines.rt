//! Command lines, and their jobs.

use crate::numbers::bytes_of;
use pe_show::ShowOptions;
use pe_space::Policy;
use pe_tool::{Job, parse_words};
use pe_words::{AtPlace, Colours, JsonOptions, MapFile, WordsError};
use std::alloc::Global;
use std::str;

/// The job of a command line. `''` is an empty word.
fn parse(alloc: Global, line: &str) -> Option<Result<Job, WordsError>> {
    let mut words = Vec::new(alloc);
    for word in line.split_ascii_whitespace() {
        let word = if word == "''" { "" } else { word };
        words.push(String::from_str(alloc, word).ok()?).ok()?;
    }
    Some(parse_words(alloc, &words))
}

/// Prints the job of `map`.
fn print_map<R: Print>(
    rt: &R,
    policy: Policy,
    window: Option<(u64, u32)>,
    files: &[MapFile],
) -> Option<()> {
    println!(rt; "map {policy:?}").ok()?;
    if let Some((address, count)) = window {
        println!(rt; "window {address:#x} count {count}").ok()?;
    }
    for file in files {
        println!(rt; "file {:#x} {} {}", file.base, file.path, file.name).ok()?;
    }
    Some(())
}

/// Prints the files of a command that takes several.
fn print_files<R: Print>(rt: &R, command: &str, files: &[String]) -> Option<()> {
    println!(rt; "{command}").ok()?;
    for file in files {
        println!(rt; "file {file}").ok()?;
    }
    Some(())
}

/// Prints the limit of the output in bytes, if there is one.
fn print_most<R: Print>(rt: &R, most: Option<u64>) -> Option<()> {
    match most {
        Some(most) => println!(rt; "most {most}").ok(),
        None => Some(()),
    }
}

/// Prints when pages have colours, if a word says so.
fn print_colours<R: Print>(rt: &R, colours: Colours) -> Option<()> {
    match colours {
        Colours::Auto => Some(()),
        _ => println!(rt; "colours {colours:?}").ok(),
    }
}

/// Prints the options and the files of `show`.
fn print_show<R: Print>(
    rt: &R,
    options: ShowOptions,
    colours: Colours,
    most: Option<u64>,
    files: &[String],
) -> Option<()> {
    println!(rt; "{options:?}").ok()?;
    print_colours(rt, colours)?;
    print_most(rt, most)?;
    print_files(rt, "show", files)
}

/// Prints whether `json` has the tables beyond the profile, the limit of its output, and its files.
fn print_json<R: Print>(
    rt: &R,
    beyond: Option<JsonOptions>,
    most: Option<u64>,
    files: &[String],
) -> Option<()> {
    if let Some(
        JsonOptions {
            functions,
            symbols,
            digests,
        },
    ) = beyond
    {
        println!(rt; "all functions {functions} symbols {symbols} digests {digests}").ok()?;
    }
    print_most(rt, most)?;
    print_files(rt, "json", files)
}

/// Prints the job of `map --unbound`.
fn print_map_unbound<R: Print>(
    rt: &R,
    policy: Policy,
    window: Option<(u64, u32)>,
    files: &[MapFile],
) -> Option<()> {
    println!(rt; "unbound").ok()?;
    print_map(rt, policy, window, files)
}

/// Prints the job of `map` with words for what it binds and prints.
fn print_report<R: Print>(
    rt: &R,
    policy: Policy,
    window: Option<(u64, u32)>,
    is_delayed: bool,
    is_unbound: bool,
    files: &[MapFile],
) -> Option<()> {
    if is_delayed {
        println!(rt; "delayed").ok()?;
    }
    if is_unbound {
        return print_map_unbound(rt, policy, window, files);
    }
    print_map(rt, policy, window, files)
}

/// Prints the places of `at`, a line each.
fn print_at<R: Print>(rt: &R, file: &str, places: &[AtPlace]) -> Option<()> {
    for place in places {
        match place {
            AtPlace::Counted(place) => println!(rt; "at {file} {place:?}").ok()?,
            AtPlace::InSection { section, offset } => {
                println!(rt; "at {file} {section}+{offset:#x}").ok()?
            }
        }
    }
    Some(())
}

/// Prints the words of `at --map`.
fn print_at_map<R: Print>(
    rt: &R,
    policy: Policy,
    files: &[MapFile],
    addresses: &[u64],
) -> Option<()> {
    print_map(rt, policy, None, files)?;
    for address in addresses {
        println!(rt; "at {address:#x}").ok()?;
    }
    Some(())
}

/// Prints a job.
fn print_job<R: Print>(rt: &R, job: &Job) -> Option<()> {
    match job {
        Job::Check { file } => println!(rt; "check {file}").ok(),
        Job::CheckEach { files } => print_files(rt, "check each", files),
        Job::Show {
            options,
            colours,
            most,
            files,
        } => print_show(rt, *options, *colours, *most, files),
        Job::Json {
            beyond,
            most,
            files,
        } => print_json(rt, *beyond, *most, files),
        Job::Sum { files } => print_files(rt, "sum", files),
        Job::At { file, places } => print_at(rt, file, places),
        Job::AtMap {
            policy,
            files,
            addresses,
        } => print_at_map(rt, *policy, files, addresses),
        Job::Resource {
            most,
            file,
            leaf,
            is_raw,
        } => println!(rt; "resource {most:?} of {file} {leaf:?} {is_raw}").ok(),
        Job::Explain { number } => println!(rt; "explain {number:?}").ok(),
        Job::Dump { file } => println!(rt; "dump {file}").ok(),
        Job::DumpMost { most, file } => println!(rt; "dump {most} of {file}").ok(),
        Job::Object { reads_big, file } => println!(rt; "object {reads_big} {file}").ok(),
        Job::ObjectMost {
            reads_big,
            most,
            file,
        } => println!(rt; "object {reads_big} {most} of {file}").ok(),
        Job::Archive { most, file } => println!(rt; "archive {most:?} of {file}").ok(),
        Job::ArchiveMember { file, name, index } => println!(rt;
            "member {index} of {name:?} of {file}"
        ).ok(),
        Job::ArchiveCreate {
            most,
            target,
            files,
        } => {
            println!(rt; "archive {most} into {target}").ok()?;
            print_files(rt, "of", files)
        }
        Job::Map {
            policy,
            window,
            files,
        } => print_map(rt, *policy, *window, files),
        Job::MapUnbound {
            policy,
            window,
            files,
        } => print_map_unbound(rt, *policy, *window, files),
        Job::MapDelayed {
            policy,
            window,
            is_unbound,
            files,
        } => print_report(rt, *policy, *window, true, *is_unbound, files),
        Job::MapWrite {
            policy,
            window,
            is_delayed,
            is_unbound,
            most,
            folder,
            files,
        } => {
            println!(rt; "write {folder} within {most}").ok()?;
            print_report(rt, *policy, *window, *is_delayed, *is_unbound, files)
        }
        Job::Layout {
            most,
            source,
            target,
        } => println!(rt; "layout {source} {target} within {most}").ok(),
        Job::Rebase {
            base,
            check_sum,
            source,
            target,
        } => {
            let mark = if *check_sum { " summed" } else { "" };
            println!(rt; "rebase{mark} {base:#x} {source} {target}").ok()
        }
    }
}

/// Prints the job of a command line, or the message.
pub(crate) fn print_words<R: Print + AllocGlobal>(rt: &R, line: &str) -> Option<()> {
    match parse(rt.alloc(), line)? {
        Ok(job) => print_job(rt, &job),
        Err(WordsError::Bad(text)) => print!(rt; "bad\n{text}").ok(),
        Err(WordsError::Help(text)) => print!(rt; "help\n{text}").ok(),
        Err(WordsError::Memory) => None,
    }
}

/// Prints the kind of the message for a command line, and whether the message contains what follows ` has `.
pub(crate) fn print_has<R: Print + AllocGlobal>(rt: &R, line: &str) -> Option<()> {
    let (line, part) = line.split_once(" has ")?;
    let part = bytes_of(rt.alloc(), part)?;
    let part = str::from_utf8(&part).ok()?;
    match parse(rt.alloc(), line)? {
        Ok(job) => print_job(rt, &job),
        Err(WordsError::Bad(text)) => println!(rt; "bad {}", text.contains(part)).ok(),
        Err(WordsError::Help(text)) => println!(rt; "help {}", text.contains(part)).ok(),
        Err(WordsError::Memory) => None,
    }
}
