//! Commands and their arguments, built with clap.
//!
//! No contract here repeats what clap's contracts say of a command: no caller needs it, and the proof of each step would carry the
//! facts of all steps before.

use clap::{Arg, ArgAction, Command};
use std::alloc::{AllocError, Global};

/// An argument with its help.
pub(crate) fn argument<'a>(alloc: Global, name: &'a str, help: &'a str) -> Arg<'a> {
    Arg::new(alloc, name).help(help)
}

/// A required argument with its help.
pub(crate) fn required_argument<'a>(alloc: Global, name: &'a str, help: &'a str) -> Arg<'a> {
    argument(alloc, name, help).required(true)
}

/// A flag with its help.
pub(crate) fn flag<'a>(alloc: Global, name: &'a str, help: &'a str) -> Arg<'a> {
    argument(alloc, name, help)
        .long(name)
        .action(ArgAction::SetTrue)
}

/// A command without arguments, with its help.
pub(crate) fn new_command<'a>(alloc: Global, name: &'a str, about: &'a str) -> Command<'a> {
    Command::new(alloc, name).about(about)
}

/// The command with one more argument, unless building the command failed.
pub(crate) fn with_argument<'a>(
    command: Result<Command<'a>, AllocError>,
    argument: Arg<'a>,
) -> Result<Command<'a>, AllocError> {
    match command {
        Ok(command) => command.arg(argument),
        Err(error) => {
            drop(argument);
            Err(error)
        }
    }
}

/// The command with one more subcommand, unless building that one failed.
fn with_made<'a>(
    command: Command<'a>,
    subcommand: Result<Command<'a>, AllocError>,
) -> Result<Command<'a>, AllocError> {
    match subcommand {
        Ok(subcommand) => command.subcommand(subcommand),
        Err(error) => {
            drop(command);
            Err(error)
        }
    }
}

/// The command with one more subcommand, unless building one of them failed.
pub(crate) fn with_subcommand<'a>(
    command: Result<Command<'a>, AllocError>,
    subcommand: Result<Command<'a>, AllocError>,
) -> Result<Command<'a>, AllocError> {
    match command {
        Ok(command) => with_made(command, subcommand),
        Err(error) => {
            drop(subcommand);
            Err(error)
        }
    }
}
