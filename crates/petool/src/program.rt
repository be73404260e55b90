//! `run`: carries out the command line, and returns the exit status.

use crate::at_job::run_at;
use crate::command_line::{refuse_command_line, refuse_words, words_of};
use crate::creation::run_creation;
use crate::explain::run_explain;
use crate::extraction::{Part, run_extraction};
use crate::file_job::{run_file, run_files};
use crate::image_files::ImageFolder;
use crate::layout_job::run_layout;
use crate::map_job::{run_at_map, run_map, run_map_unbound, run_map_write, run_report};
use crate::rebase_job::{NewFile, run_rebase};
use crate::resource_job::run_resource;
use crate::texts::{Engine, MapReport};
use pe_json::Beyond;
use pe_show::{Page, ShowOptions};
use pe_tool::{Job, parse_words};
use pe_words::{Colours, JsonOptions};
use std::env::FillError;
use std::io::Input;
use std::os::fd::AsFd;
use std::rt::{Env, Files};
use std::str;

/// Whether TERM says that the terminal shows no colours.
fn is_dumb(rt: &impl Env) -> bool {
    let mut term = [0; 4];
    matches!(rt.var("TERM", &mut term), Ok(4)) && term == *b"dumb"
}

/// Whether pages have colours by themselves: if standard output is a terminal that shows them, and NO_COLOR is not set or empty.
fn may_have_colours(rt: &impl Env, is_terminal: bool) -> bool {
    is_terminal
        && !is_dumb(rt)
        && matches!(
            rt.var("NO_COLOR", &mut [0; 1]),
            Ok(0) | Err(FillError::NotPresent)
        )
}

/// Whether pages have colours.
fn has_colours(rt: &impl Env, colours: Colours, is_terminal: bool) -> bool {
    match colours {
        Colours::Auto => may_have_colours(rt, is_terminal),
        Colours::Always => true,
        Colours::Never => false,
    }
}

/// The least width that COLUMNS may give.
const LEAST_WIDTH: usize = 20;

/// The greatest width that COLUMNS may give.
const MOST_WIDTH: usize = 1000;

/// A width in decimal digits.
fn width_from(digits: &[u8]) -> Option<usize> {
    let digits = str::from_utf8(digits).ok()?;
    if !digits.bytes().all(|byte| byte.is_ascii_digit()) {
        return None;
    }
    let width = digits.parse::<usize>().ok()?;
    (LEAST_WIDTH..=MOST_WIDTH).contains(&width).then_some(width)
}

/// The width of pages: COLUMNS if it is a number that a terminal may be wide.
fn width_of(rt: &impl Env) -> usize {
    let mut columns = [0; 4];
    match rt.var("COLUMNS", &mut columns) {
        Ok(len) => width_from(&columns[..len]).unwrap_or(Page::WIDTH),
        Err(_) => Page::WIDTH,
    }
}

/// The engine of `show`.
fn show_engine(rt: &impl Env, options: ShowOptions, colours: Colours, is_terminal: bool) -> Engine {
    Engine::Show {
        options: ShowOptions {
            is_coloured: has_colours(rt, colours, is_terminal),
            ..options
        },
        width: width_of(rt),
    }
}

/// The engine of `object`, for a command that reads big objects too or not.
fn object_engine(reads_big: bool) -> Engine<'static> {
    if reads_big {
        Engine::EitherObject
    } else {
        Engine::Object
    }
}

/// The engine of `json`.
fn json_engine(options: Option<JsonOptions>) -> Engine<'static> {
    let beyond = match options {
        Some(
            JsonOptions {
                functions,
                symbols,
                digests,
            },
        ) => Some(Beyond {
            functions,
            symbols,
            digests,
        }),
        None => None,
    };
    Engine::Json { beyond }
}

/// Carries out the command line, and returns the exit status. Pages may have colours if standard output is a terminal.
pub fn run<R: Files + Input + Env + Print + Eprint + AllocGlobal>(rt: &R, is_terminal: bool) -> u8
where
    R::File: AsFd,
{
    let words = match words_of(rt) {
        Ok(words) => words,
        Err(error) => return refuse_command_line(rt, error),
    };
    match parse_words(rt.alloc(), &words) {
        Ok(Job::Check { file }) => run_file(rt, Engine::Check, None, file.as_str()),
        Ok(Job::CheckEach { files }) => run_files(rt, Engine::Check, None, &files),
        Ok(
            Job::Show {
                options,
                colours,
                most,
                files,
            },
        ) => run_files(
            rt,
            show_engine(rt, options, colours, is_terminal),
            most,
            &files,
        ),
        Ok(
            Job::Json {
                beyond,
                most,
                files,
            },
        ) => run_files(rt, json_engine(beyond), most, &files),
        Ok(Job::Sum { files }) => run_files(rt, Engine::Sum, None, &files),
        Ok(Job::At { file, places }) => run_at(rt, file.as_str(), &places),
        Ok(
            Job::AtMap {
                policy,
                files,
                addresses,
            },
        ) => run_at_map(rt, policy, &files, &addresses),
        Ok(
            Job::Resource {
                most,
                file,
                leaf,
                is_raw,
            },
        ) => match leaf {
            Some(leaf) => run_resource(rt, file.as_str(), leaf.as_str(), is_raw),
            None => run_file(rt, Engine::Resources, most, file.as_str()),
        },
        Ok(Job::Explain { number }) => run_explain(rt, number),
        Ok(Job::Dump { file }) => run_file(rt, Engine::Dump, None, file.as_str()),
        Ok(Job::DumpMost { most, file }) => {
            run_file(rt, Engine::Dump, Some(most), file.as_str())
        }
        Ok(Job::Object { reads_big, file }) => {
            run_file(rt, object_engine(reads_big), None, file.as_str())
        }
        Ok(
            Job::ObjectMost {
                reads_big,
                most,
                file,
            },
        ) => run_file(rt, object_engine(reads_big), Some(most), file.as_str()),
        Ok(Job::Archive { most, file }) => run_file(rt, Engine::Archive, most, file.as_str()),
        Ok(Job::ArchiveMember { file, name, index }) => run_extraction(
            rt,
            file.as_str(),
            Part::Member {
                name: name.as_bytes(),
                index,
            },
        ),
        Ok(
            Job::ArchiveCreate {
                most,
                target,
                files,
            },
        ) => run_creation(rt, most, target.as_str(), &files),
        Ok(
            Job::Map {
                policy,
                window,
                files,
            },
        ) => run_map(rt, policy, window, &files),
        Ok(
            Job::MapUnbound {
                policy,
                window,
                files,
            },
        ) => run_map_unbound(rt, policy, window, &files),
        Ok(
            Job::MapDelayed {
                policy,
                window,
                is_unbound,
                files,
            },
        ) => run_report(
            rt,
            policy,
            MapReport {
                window,
                is_delayed: true,
                is_unbound,
            },
            &files,
        ),
        Ok(
            Job::MapWrite {
                policy,
                window,
                is_delayed,
                is_unbound,
                most,
                folder,
                files,
            },
        ) => run_map_write(
            rt,
            policy,
            MapReport {
                window,
                is_delayed,
                is_unbound,
            },
            ImageFolder {
                path: folder.as_str(),
                most,
            },
            &files,
        ),
        Ok(
            Job::Layout {
                most,
                source,
                target,
            },
        ) => run_layout(rt, most, source.as_str(), target.as_str()),
        Ok(
            Job::Rebase {
                base,
                check_sum,
                source,
                target,
            },
        ) => run_rebase(
            rt,
            NewFile { base, check_sum },
            source.as_str(),
            target.as_str(),
        ),
        Err(error) => refuse_words(rt, &words, error),
    }
}
