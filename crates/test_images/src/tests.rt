//! The tests of one image, and their common parts.

mod asserts;
mod cases;
mod chains;
mod fixups;
mod head;
mod layout;
mod texts;
mod view;
mod whole;
