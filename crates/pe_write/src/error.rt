//! `WriteError`: why a file is not written.

use pe_view::Refusal;

/// Why a file is not written: the first rule of the format that the input breaks, or out of memory.
pub type WriteError = Refusal;
