//! Tests of files that are read and written whole, of devices that fail and of calls with little memory.

mod big_objects;
mod counted;
mod devices;
mod engines;
mod images_written;
mod o1;
mod objects;
mod objects_written;
mod outcome;
mod plans;
mod rebased;
mod refusals;
mod runs;
mod spaces;
