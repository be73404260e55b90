//! The version of the library, faults in words and numbers, and the names of values: `petool_version_number`,
//! `petool_fault_words`, `petool_fault_line`, `petool_fault_detail` and `petool_name`.

ghost use Rattle.std.specs.Prelude.{◌≡◌, ◌≢◌, ◌⊎◌, None, Some, length, pos};
ghost use Rattle.pe_records_c.specs.Faults.{fault_of};
ghost use Rattle.pe_records_c.specs.Images.{IsText};
ghost use Rattle.pe_records_c.specs.Lines.{line_of};
ghost use Rattle.pe_records_c.specs.Rows.{TellsTable};
ghost use Rattle.pe_records_c.specs.ValueRows.{value_text, value_of, fault_values};
ghost use Rattle.c_tables.specs.TableNames.{table_name};
ghost use Rattle.pe_text.specs.FaultWords.{rules, words_in, sentence};

use c_tables::name::name_of;
use pe_records_c::fault::{FaultRecord, fault_of};
use pe_records_c::status;
use pe_records_c::text::{TextRecord, put_line};
use pe_records_c::value::{ValueRow, tell_values};
use pe_text::{fault_sentence, fault_words};

/// The version of this library: its first part times 65,536, plus its second part. A program that was built for another first
/// part must not call it.
#[unsafe(no_mangle)]
pub extern "C" fn petool_version_number() -> u32
    ensures { result ≡ 0x2_0000 }
{
    0x2_0000
}

/// The words for a fault's number: what is at the place of the fault, and which rule of the format is broken. The strings are this
/// library's own, and live as long as it.
///
/// The status is 0, or 3 if no fault has this number, which leaves both unchanged.
#[unsafe(no_mangle)]
pub extern "C" fn petool_fault_words(
    number: u16,
    subject: &mut TextRecord<'static>,
    rule: &mut TextRecord<'static>,
) -> u32
    ensures status { (result ≡ 0) ⊎ (result ≡ 3) }
    ensures done { result ≡ 0 → words_in rules number ≡ Some (subject.new.bytes.now, rule.new.bytes.now) }
    ensures absent { result ≡ 3 → words_in rules number ≡ None }
    ensures subject_kept { result ≢ 0 → subject.new ≡ subject.old }
    ensures rule_kept { result ≢ 0 → rule.new ≡ rule.old }
{
    match fault_words(number) {
        Some(words) => {
            *subject = TextRecord {
                bytes: words.subject.as_bytes(),
            };
            *rule = TextRecord {
                bytes: words.rule.as_bytes(),
            };
            status::DONE
        }
        None => status::ABSENT,
    }
}

/// The numbers of a file that the rule of a fault compares, each with its name and the words before it, of which a clause for
/// people can be made: `16 bytes at 0x200, and the file has 520`. The file is that of the image with the fault.
///
/// The status is 0, or 4 if there are more parts than rows, which then hold the first of them. The count is that of all parts: 3,
/// of which the last may be empty, or 0 for a rule that compares no numbers. The strings are this library's own. Allocates nothing.
#[unsafe(no_mangle)]
pub extern "C" fn petool_fault_detail(
    file: &[u8],
    fault: &FaultRecord,
    rows: &mut [ValueRow<'static>],
    count: &mut usize,
) -> u32
    ensures { TellsTable value_text value_of (fault_values file.now (fault_of fault.now)) rows.old rows.new count.new result }
{
    tell_values(file, fault, rows, count)
}

/// The name that "PE Format" has for a value: for `kind` 0 of a machine, 1 of a subsystem, 2 of a flag of Characteristics in a COFF
/// file header, 3 of a flag of DllCharacteristics, 4 of a flag of a section, 5 of the table of a directory, by its index, 6 of a type
/// of debug data, or 7 of a field of the load configuration, by its index.
///
/// The status is 0, or 3 if the value has no name, or there is no such kind, which leaves the name unchanged.
#[unsafe(no_mangle)]
pub extern "C" fn petool_name(kind: u32, value: u32, name: &mut TextRecord<'static>) -> u32
    ensures { IsText (table_name kind value) name.old name.new result }
{
    match name_of(kind, value) {
        Some(found) => {
            *name = TextRecord {
                bytes: found.as_bytes(),
            };
            status::DONE
        }
        None => status::ABSENT,
    }
}

/// Writes a fault in words as one line for people: `section header at 0x138: the section's raw data extends past the end of the
/// file`. As by C's `snprintf`, it is cut so that a zero byte fits after it, and the result is the length of the whole line without
/// that byte, at most 256.
#[unsafe(no_mangle)]
pub extern "C" fn petool_fault_line(fault: &FaultRecord, line: &mut [u8]) -> i32
    ensures whole { result ≡ pos (length (sentence (fault_of fault.now))) }
    ensures line { line.new ≡ line_of (sentence (fault_of fault.now)) line.old }
{
    let sentence = fault_sentence(&fault_of(fault));
    put_line(sentence.as_slice(), line);
    sentence.len() as i32
}
