//! The commands that read files one at a time: `run_file` and `run_files`.

use crate::file_detail::detail_of;
use crate::input::{InputFile, name_of, open_file};
use crate::messages::{STANDARD_OUTPUT, refuse_memory, refuse_path, tell_failure, tell_fault};
use crate::statuses::{CUT, DONE, REFUSED};
use crate::texts::{Engine, Printed, Text, print_text};
use pe_text::{Outcome, ToolError, status};
use std::io::{Input, Read, Seek};
use std::rt::Files;

/// Reports on standard error the fault of a file or the failure of an engine, and returns the exit status.
pub(crate) fn tell<R: Eprint + Alloc, F: Read + Seek + Drop, S: Read + Drop>(
    rt: &R,
    name: &[u8],
    file: &mut InputFile<F, S>,
    printed: Printed,
) -> u8
where
    R::A: Copy,
{
    match printed.answer {
        Ok(Outcome::Done) => {}
        Ok(Outcome::Refused(fault)) => {
            let detail = match printed.detail {
                None => detail_of(rt.alloc(), file, &fault),
                known => known,
            };
            file.read_kind();
            tell_fault(rt, name, fault, detail, file.first());
        }
        Err(ToolError::Write) => tell_failure(rt, STANDARD_OUTPUT, ToolError::Write, printed.error),
        Err(failure) => tell_failure(rt, name, failure, file.error()),
    }
    status(&printed.answer)
}

/// Whether the engine's own output has faults in words.
fn tells_faults(engine: Engine) -> bool {
    matches!(engine, Engine::Show { .. } | Engine::Json { .. })
}

/// Runs an engine over a file, with at most `most` bytes of output, and returns the exit status; it is an `Err` if standard output
/// failed.
fn run_behind<R: Files + Input + Print + Eprint + Alloc>(
    rt: &R,
    engine: Engine,
    most: Option<u64>,
    path: &str,
    is_headed: bool,
) -> Result<u8, u8>
where
    R::A: Copy,
{
    let Ok(name) = name_of(rt.alloc(), path) else {
        return Ok(refuse_memory(rt));
    };
    match open_file(rt, path) {
        Ok(mut file) => {
            let text = Text::File {
                engine,
                name: &name,
                size: file.size(),
                is_headed,
                most,
                file: &mut file,
            };
            let printed = print_text(rt, text);
            match printed.answer {
                Ok(Outcome::Refused(_)) if tells_faults(engine) => Ok(status(&printed.answer)),
                Err(ToolError::Write) if printed.is_cut => Ok(CUT),
                Err(ToolError::Write) => Err(tell(rt, &name, &mut file, printed)),
                _ => Ok(tell(rt, &name, &mut file, printed)),
            }
        }
        Err(error) => Ok(refuse_path(rt, &name, error)),
    }
}

/// Runs an engine over a file, with at most `most` bytes of output, and returns the exit status.
pub fn run_file<R: Files + Input + Print + Eprint + Alloc>(
    rt: &R,
    engine: Engine,
    most: Option<u64>,
    path: &str,
) -> u8
where
    R::A: Copy,
{
    match run_behind(rt, engine, most, path, false) {
        Ok(status) | Err(status) => status,
    }
}

/// Whether the output for one of several files has a heading: its name, or a blank line after the previous page.
fn is_headed(engine: Engine, is_first: bool) -> bool {
    match engine {
        Engine::Check | Engine::Sum => true,
        Engine::Show { .. } => !is_first,
        _ => false,
    }
}

/// Whether a page was printed if an engine ended with this status.
fn has_text(status: u8) -> bool {
    matches!(status, DONE | REFUSED | CUT)
}

/// Runs an engine over files in order, with at most `most` bytes of output for each, until standard output fails, and returns the
/// worst exit status.
pub fn run_files<R: Files + Input + Print + Eprint + Alloc>(
    rt: &R,
    engine: Engine,
    most: Option<u64>,
    paths: &[String],
) -> u8
where
    R::A: Copy,
{
    let mut worst = DONE;
    let mut is_first = true;
    for path in paths {
        match run_behind(rt, engine, most, path.as_str(), is_headed(engine, is_first)) {
            Ok(status) => {
                is_first = is_first && !has_text(status);
                worst = worst.max(status);
            }
            Err(status) => return worst.max(status),
        }
    }
    worst
}
