//! What the pages of `show` and `at` are made of: cells of rows, names, flags, dates, headings and places.
//!
//! How a name is shown, the place of an RVA and the parts of frequent rows are specified by contract; of the rest of a page contracts
//! say that some text is added.
#![tactic(auto)]

mod cell;
mod date;
mod fault_rows;
mod file_sections;
mod flags;
mod heading;
mod key;
mod laws;
mod name;
mod outcome;
mod place;
mod style;
mod symbol_names;

pub use cell::{
    Cell, NOTHING, blanks, count_width, decimal_width, plural, write_cells, write_column,
    write_right,
};
pub use fault_rows::{begin_refusal, end_refusal, write_finding, write_kind};
pub use file_sections::{read_sections, sizes_of};
pub use flags::{FlagRow, permissions};
pub use heading::{Kind, Page, write_heading, write_plain_heading, write_title};
pub use key::write_key;
pub use laws::outcomes_agree;
pub use name::{
    ShownName, is_safe_text, module_beginning, module_width, section_width, write_name,
};
pub use outcome::outcome_of;
pub use place::{SectionNames, SectionPlace};
pub use symbol_names::SymbolNames;
