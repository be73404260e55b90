//! The exit statuses of the program. `pe_text::status` returns that of an engine's result.

/// The exit status if a command did its work, or help or the version was printed.
pub(crate) const DONE: u8 = 0;

/// The exit status if a fault refused the input.
pub(crate) const REFUSED: u8 = 1;

/// The exit status if the words are not a valid command line.
pub(crate) const BAD_WORDS: u8 = 2;

/// The exit status if a file or standard output failed.
pub(crate) const DEVICE_FAILED: u8 = 3;

/// The exit status if memory ran out.
pub(crate) const OUT_OF_MEMORY: u8 = 4;

/// The exit status if the output was longer than allowed, and was cut.
pub(crate) const CUT: u8 = 5;
