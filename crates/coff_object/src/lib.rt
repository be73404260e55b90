//! COFF object files, read and written.
//!
//! [`ObjectFile::new`] checks an object file, or returns the first of faults 61 to 72, and then decodes sections, relocations and
//! symbols on demand. It allocates nothing, but for two iterators, [`ObjectFile::each_section`] and [`ObjectFile::each_symbol`],
//! which remember where strings end. [`read_object`] reads all into lists. [`write_object`] writes an object in its one form, or
//! returns the least of faults 81 to 85; what it wrote is read back equal. [`write_big_object`] writes the form that `/bigobj` asks
//! for, which [`needs_big_form`] says that an object needs:
//!
//! ```text
//! for (index, symbol) in ObjectFile::new(file)?.symbols() { .. }
//! let object = read_object(alloc, file)?;
//! let file = write_object(alloc, &object)?;
//! ```
//!
//! All but the writer is re-exported from `coff_read`.
#![tactic(auto)]

pub mod laws;
mod layout;
mod needed_form;
mod parts;
mod record_bytes;
mod refusal;
mod slots;
mod string_table;
mod write;

pub use coff_read::{
    Aux, BigAux, BigFileHeader, BigObject, BigObjectFile, BigSection, BigSymbol, BigSymbols,
    EachBigSection, EachBigSymbol, EachSection, EachSymbol, FileHeader, FileSection, ObjSection,
    Object, ObjectError, ObjectFile, RawData, Relocation, Relocations, Symbol, SymbolSection,
    Symbols, read_big_object, read_object, relocation_type_name, storage_class_name,
};
pub use needed_form::needs_big_form;
pub use write::{write_big_object, write_object};
