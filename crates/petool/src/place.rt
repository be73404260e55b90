//! `Place`: where a file is to be, once links are followed.

use std::alloc::Allocator;
use std::fs;
use std::io::{self, Error, ErrorKind};
use std::path::{Path, PathBuf};
use std::rt::Files;

/// The most links that lead from one to the next; Linux follows no more.
const MAX_LINKS: u32 = 40;

/// The number of Linux's error for more links than that: ELOOP.
const TOO_MANY_LINKS: i32 = 40;

/// Where a file is to be.
#[derive(Drop)]
pub(crate) enum Place<A: Allocator> {
    /// At this path, where there is a regular file or nothing.
    Path(PathBuf<A>),
    /// Where the path leads when it is opened: to a device, a pipe, or what the process has open.
    Open,
}

/// What is at a path.
#[derive(Drop)]
enum Step<A: Allocator> {
    /// A link to this path.
    Link(PathBuf<A>),
    /// A link of the system, whose text says what is open and need not be a path.
    Open,
    /// A file, or nothing.
    End,
}

/// Whether a path is in a folder of the system's list of processes, as what `/dev/stdout` leads to is.
fn is_of_process<R: Files + Alloc>(rt: &R, path: Path<'_>) -> bool {
    let folder = match path.parent() {
        Some(folder) if !folder.as_str().is_empty() => folder,
        _ => Path::new("."),
    };
    match fs::canonicalize(rt, folder) {
        Ok(folder) => folder.as_path().starts_with("/proc"),
        Err(_) => false,
    }
}

/// Where the link at a path leads.
fn followed<R: Files + Alloc>(rt: &R, path: Path<'_>) -> io::Result<Step<R::A>> {
    if is_of_process(rt, path) {
        return Ok(Step::Open);
    }
    let target = fs::read_link(rt, path)?;
    let folder = path.parent().unwrap_or(Path::new(""));
    Ok(Step::Link(folder.join(rt.alloc(), target.as_path())?))
}

/// What is at a path.
fn step_at<R: Files + Alloc>(rt: &R, path: Path<'_>) -> io::Result<Step<R::A>> {
    match fs::symlink_metadata(rt, path) {
        Ok(found) if found.is_symlink() => followed(rt, path),
        Ok(_) => Ok(Step::End),
        Err(error) if error.kind() == ErrorKind::NotFound => Ok(Step::End),
        Err(error) => Err(error),
    }
}

/// Where links lead from a path.
fn end_of_links<R: Files + Alloc>(rt: &R, path: &str) -> io::Result<Place<R::A>> {
    let mut path = PathBuf::from_str(rt.alloc(), path)?;
    for _ in 0..MAX_LINKS {
        match step_at(rt, path.as_path())? {
            Step::Link(target) => path = target,
            Step::Open => return Ok(Place::Open),
            Step::End => return Ok(Place::Path(path)),
        }
    }
    Err(Error::from_raw_os_error(TOO_MANY_LINKS))
}

/// Where the file at a path is to be.
pub(crate) fn place_of<R: Files + Alloc>(rt: &R, path: &str) -> io::Result<Place<R::A>> {
    match fs::metadata(rt, path) {
        Ok(found) if !found.is_file() => Ok(Place::Open),
        _ => end_of_links(rt, path),
    }
}
