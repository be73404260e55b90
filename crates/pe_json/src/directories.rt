//! The list of an image's data directories.

ghost use Rattle.std.specs.Prelude.{◌≤◌, ◌<◌, ◌++◌, codes, length};
ghost use Rattle.pe_text.specs.Text.{numbered};
ghost use Rattle.pe_text.specs.TextWriter.{IsReady, Adds};
ghost use Rattle.pe_json.specs.Headers.{place_members, directory_row, directories_list};
ghost use Rattle.pe_json.specs.Listed.{more};

use crate::string::{write_number, write_text_if};
use pe_head::{Directory, directory_name};
use pe_text::{Sink, TextWriter};

/// Adds where a directory's table is.
fn write_place<W: Sink>(text: &mut TextWriter<W>, directory: &Directory)
    requires { IsReady W.failures text.old }
    ensures { Adds W.taken W.failures text.old text.new (more (place_members directory.now)) }
{
    write_number(text, b",\"virtual_address\":", directory.rva as u64);
    write_number(text, b",\"size\":", directory.size as u64);
}

/// Adds a directory with its index ("PE Format", Optional Header Data Directories).
fn write_directory<W: Sink>(text: &mut TextWriter<W>, index: u32, directory: &Directory)
    requires { IsReady W.failures text.old }
    ensures { Adds W.taken W.failures text.old text.new (directory_row index directory.now) }
{
    write_number(text, b"{\"index\":", index as u64);
    write_text_if(text, b",\"name\":", directory_name(index));
    write_place(text, directory);
    text.text(b"}");
}

/// Adds a directory after a comma.
fn write_next<W: Sink>(text: &mut TextWriter<W>, index: usize, directory: &Directory)
    requires ready { IsReady W.failures text.old }
    requires few { index < 16 }
    ensures { Adds W.taken W.failures text.old text.new (codes "," ++ directory_row index directory.now) }
{
    text.text(b",");
    write_directory(text, index as u32, directory);
}

/// Adds the directories after the first, each after a comma.
fn write_rest<W: Sink>(text: &mut TextWriter<W>, directories: &[Directory])
    requires ready { IsReady W.failures text.old }
    requires few { length directories.now < 16 }
    ensures { Adds W.taken W.failures text.old text.new (numbered (λ index d. codes "," ++ directory_row index d) 1 directories.now) }
{
    for (index, directory) in directories.iter().enumerate() {
        write_next(text, index + 1, directory);
    }
}

/// Adds the list of data directories.
pub(crate) fn write_directories<W: Sink>(text: &mut TextWriter<W>, directories: &[Directory])
    requires ready { IsReady W.failures text.old }
    requires few { length directories.now ≤ 16 }
    ensures { Adds W.taken W.failures text.old text.new (directories_list directories.now) }
{
    text.text(b"[");
    if let Some((first, rest)) = directories.split_first() {
        write_directory(text, 0, first);
        write_rest(text, rest);
    }
    text.text(b"]");
}
