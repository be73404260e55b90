//! The program's command line as clap parses it.

use crate::at_words::{at_command, explain_command};
use crate::builders::{new_command, with_subcommand};
use crate::file_words::{FILE_COMMANDS, FileCommand, file_command, show_command};
use crate::layout_words::layout_command;
use crate::map_words::map_command;
use crate::rebase_words::rebase_command;
use crate::resource_words::resource_command;
use clap::Command;
use std::alloc::{AllocError, Global};

/// The program's version, which `--version` prints after its name: that of the file VERSION.
const VERSION: &str = "2.0";

/// The purpose of the program, for help.
const ABOUT: &str =
    "Reads PE images and COFF objects: shows and checks them, maps images together, and writes an image's file for another base";

/// The end of `--help`, after the commands and options.
const NOTES: &str = "\
A FILE or IN that is - is standard input, an OUT that is - standard output.

Exit statuses:
  0  done
  1  a file was refused
  2  bad command line
  3  reading or writing failed
  4  out of memory
  5  a text was cut, by --most

check, dump, object, archive, at, resource, map, layout and rebase print a fault as a line, and explain it on standard error;
show and json print it in words. petool explain N explains fault N.";

/// The program with its help.
fn described<'a>(alloc: Global) -> Command<'a> {
    new_command(alloc, "petool", ABOUT)
        .version(VERSION)
        .after_help(NOTES)
}

/// The program without subcommands.
fn program<'a>(alloc: Global) -> Result<Command<'a>, AllocError> {
    described(alloc)
        .no_binary_name(true)
        .subcommand_required(true)
        .arg_required_else_help(true)
        .bin_name("petool")
}

/// The row of the file command with this name.
fn file_row(name: &str) -> Option<FileCommand> {
    FILE_COMMANDS.iter().find(|row| row.name == name).copied()
}

/// The subcommand with this name, if there is one.
pub(crate) fn command_named<'a>(
    alloc: Global,
    name: &str,
) -> Option<Result<Command<'a>, AllocError>> {
    match name {
        "show" => Some(show_command(alloc)),
        "at" => Some(at_command(alloc)),
        "map" => Some(map_command(alloc)),
        "layout" => Some(layout_command(alloc)),
        "rebase" => Some(rebase_command(alloc)),
        "explain" => Some(explain_command(alloc)),
        "resource" => Some(resource_command(alloc)),
        _ => match file_row(name) {
            Some(row) => Some(file_command(alloc, row)),
            None => None,
        },
    }
}

/// The program with all subcommands.
fn whole_command<'a>(alloc: Global) -> Result<Command<'a>, AllocError> {
    let mut command = with_subcommand(program(alloc), show_command(alloc));
    for row in FILE_COMMANDS {
        command = with_subcommand(command, file_command(alloc, row));
    }
    let command = with_subcommand(command, at_command(alloc));
    let command = with_subcommand(command, resource_command(alloc));
    let command = with_subcommand(command, map_command(alloc));
    let command = with_subcommand(command, layout_command(alloc));
    let command = with_subcommand(command, rebase_command(alloc));
    with_subcommand(command, explain_command(alloc))
}

/// The program with the subcommand that the first word names, which is enough to parse its words, or with all subcommands if it
/// names none. Building all would be most of the work of a short run.
pub(crate) fn command<'a>(alloc: Global, first: &str) -> Result<Command<'a>, AllocError> {
    match command_named(alloc, first) {
        Some(named) => with_subcommand(program(alloc), named),
        None => whole_command(alloc),
    }
}
