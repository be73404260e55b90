//! Tests that must call the library: values that no output shows, devices that fail, and calls with little memory.
//!
//! They use the files, sets and devices of `pe_vectors`; output, sets and faults are tested by cases of `test_cases`. The crate
//! has nothing else, since the gate proves a crate with tests twice, once without them.
#![tactic(auto)]

#[cfg(test)]
mod tests;
