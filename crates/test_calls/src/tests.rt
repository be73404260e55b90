//! The tests of files that are read and written whole, and their common parts.

mod asserts;
mod files;
