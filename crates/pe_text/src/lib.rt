//! What all reports share: the devices that files are read from and text is written to, the writer of lines, and faults in words.
//!
//! A [`Report`] defines the text for a file, and [`run_report`] reads the file from any [`Source`] and writes the text to any
//! [`Sink`]; [`Counted`] makes one of any reader or writer of std. Lines are written part by part:
//!
//! ```text
//! let mut text = TextWriter::new(&mut writer);
//! write_parts(&mut text, &[Text(b"base 0x"), Hex16(base), Text(b"\n")]);
//! text.finish()?;
//! ```
//!
//! The crates of `petool`'s reports and engines are built on it.
#![tactic(auto)]

mod counted;
mod device;
mod digits;
mod engine;
mod fault_line;
mod fault_text;
mod field;
mod fields;
mod file_beginning;
mod header_fields;
mod machine_line;
mod outcome;
mod part;
mod printable;
mod show_options;
mod text_writer;
mod told;
mod whole_file;

pub use counted::Counted;
pub use device::{Failed, Sink, Source};
pub use digits::hex_width;
pub use engine::{Report, refuse, run_report, write_refusal, write_report};
pub use fault_line::{write_cycle_line, write_fault_line};
pub use fault_text::{FaultText, FaultWords, fault_sentence, fault_words};
pub use field::Field;
pub use fields::{characteristics, time_date_stamp, write_fields};
pub use file_beginning::{FileKind, file_kind, is_object, other_kind};
pub use header_fields::{coff_fields, standard_fields, windows_fields};
pub use machine_line::write_machine;
pub use outcome::{Outcome, ToolError, status};
pub use part::{Part, write_part, write_parts};
pub use printable::is_printable;
pub use show_options::ShowOptions;
pub use text_writer::{TextWriter, is_plain, write_all};
pub use whole_file::{READ_LIMIT, ReadBytes, read_up_to, read_whole};
