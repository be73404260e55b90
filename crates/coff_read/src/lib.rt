//! COFF object files, checked and read, with and without allocating.
//!
//! [`ObjectFile::new`] checks an object file, or returns the first of faults 61 to 72, and then decodes sections, relocations and
//! symbols on demand. It allocates nothing, but for two iterators, [`ObjectFile::each_section`] and [`ObjectFile::each_symbol`],
//! which remember where strings end. [`read_object`] reads all into lists:
//!
//! ```text
//! for (index, symbol) in ObjectFile::new(file)?.symbols() { .. }
//! let object = read_object(alloc, file)?;
//! ```
//!
//! Big objects (`/bigobj`), whose sections and symbols are counted in 32 bits, are read by [`BigObjectFile::new`] and
//! [`read_big_object`] in the same way; the calls of plain objects refuse them. [`EitherObject::new`] takes a file of either form.
//!
//! `coff_object`, which writes objects, re-exports this crate. The tests of its writer that only read an object's parts are here
//! too: [`has_bad_part`], [`has_bad_item`], [`is_other_header`], [`is_long`] and [`is_long_section_name`].
#![tactic(auto)]

mod alignment;
mod auxiliary;
mod big_auxiliary;
mod big_file;
mod big_header;
mod big_object;
mod big_sections;
mod big_symbol;
mod big_symbols;
mod either_auxiliary;
mod either_object;
mod either_sections;
mod either_symbols;
mod error;
mod fields;
mod file;
mod form;
mod headers;
mod image_names;
mod image_strings;
mod image_symbols;
pub mod laws;
mod names;
mod object;
mod read;
mod relocation;
mod relocations;
mod section;
mod sections;
mod symbol;
mod symbols;
mod tables;
mod type_names;
mod wide_symbol;
mod widths;

pub use alignment::section_alignment;
pub use auxiliary::Aux;
pub use big_auxiliary::BigAux;
pub use big_file::BigObjectFile;
pub use big_header::BigFileHeader;
pub use big_object::BigObject;
pub use big_sections::EachBigSection;
pub use big_symbol::{BigSection, BigSymbol};
pub use big_symbols::{BigSymbols, EachBigSymbol};
pub use either_auxiliary::{aux_count, aux_record};
pub use either_object::{EitherObject, is_read_as_big};
pub use either_sections::EachEitherSection;
pub use either_symbols::{EachEitherSymbol, EitherSymbols};
pub use error::ObjectError;
pub use file::ObjectFile;
pub use form::{has_bad_item, has_bad_part};
pub use headers::FileHeader;
pub use image_names::section_name;
pub use image_strings::ImageStrings;
pub use image_symbols::{ImageSymbols, records_held};
pub use names::{NAME_LEN, is_long, is_long_section_name};
pub use object::Object;
pub use read::{read_big_object, read_object};
pub use relocation::{RELOCATION_LEN, Relocation};
pub use relocations::Relocations;
pub use section::{FileSection, ObjSection, RawData};
pub use sections::EachSection;
pub use symbol::{Symbol, SymbolSection, section_of_number};
pub use symbols::{EachSymbol, Symbols};
pub use tables::is_other_header;
pub use type_names::{relocation_type_name, storage_class_name};
pub use wide_symbol::WideSymbol;
