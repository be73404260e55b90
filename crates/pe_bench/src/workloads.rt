//! The workloads: jobs that users of the libraries wait for, over files made from a seed.
//!
//! `map` maps sets of libraries into memory, moves each image and reads all bytes. `open` opens such sets over their files, and
//! reads at random places between moves. `texts` writes the output of `check`, `dump`, `show --all` and `json` for libraries.
//! `objects` writes objects, and reads them as lists, as lines and as JSON. `rebase` writes the files of libraries for other
//! bases. `awkward` maps and checks sets that no linker makes. `written` reads and writes the object on standard input.

mod awkward;
mod map;
mod objects;
mod open;
mod rebase;
mod texts;
mod written;

pub(crate) use awkward::run_awkward;
pub(crate) use map::run_map;
pub(crate) use objects::run_objects;
pub(crate) use open::run_open;
pub(crate) use rebase::run_rebase;
pub(crate) use texts::run_texts;
pub(crate) use written::run_written;
