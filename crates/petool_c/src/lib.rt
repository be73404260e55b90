//! The calls of libpetool, for programs that are not written in Rattle; bindings/c/petool.h declares them.
//!
//! Calls keep nothing but open images and spaces, which the caller owns and closes; nothing else has to be freed. A call returns
//! its status:
//!
//! ```text
//! uint8_t bytes[4];
//! petool_fault fault;
//! uint32_t status = petool_read(file, len, 0x1000, bytes, sizeof bytes, &fault);
//! ```
#![tactic(auto)]

// from describe/records.txt: modules
mod archive;
mod big_object;
mod bound_import;
mod certificate;
mod debug;
mod delay_import;
mod either_object;
mod export;
mod field;
mod finding;
mod fixup;
mod function;
mod headers;
mod image;
mod image_symbol;
mod import;
mod import_at;
mod import_hash;
mod lending;
mod object;
mod opened;
mod opened_bytes;
mod opened_tables;
mod overlay;
mod rebase;
mod resource;
mod rich;
mod set;
mod share;
mod signature;
mod signer;
mod space;
mod sum;
mod symbol;
mod tables;
mod tls;
mod trust_finding;
mod unbound;
mod version;
mod words;
// end of describe/records.txt
