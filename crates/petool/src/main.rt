//! `petool` reads Portable Executable images and COFF objects: it opens files, runs the engines, reports errors and returns the exit
//! status. All but `main` is over any runtime.
#![tactic(auto)]

mod at_job;
mod command_line;
mod creation;
mod draft;
mod explain;
mod extraction;
mod file_detail;
mod file_job;
mod headed;
mod image_files;
mod import_fault;
mod input;
mod kept;
mod layout_job;
mod map_job;
mod messages;
mod new_file;
mod opening;
mod output;
mod place;
mod program;
mod rebase_job;
mod resource_job;
mod statuses;
mod target;
mod texts;
mod word_bytes;

use crate::program::run;
use std::io::IsTerminal;
use std::process::ExitCode;

fn main(rt: HostRuntime) -> ExitCode {
    ExitCode::from(run(&rt, rt.stdout().is_terminal()))
}
