//! Tests of one image that must call the library: values that no output shows, and calls with little memory.
//!
//! They use the files of `pe_vectors`, and are apart from `test_calls` so that the gate can prove them as soon as the readers of
//! images are proved.
#![tactic(auto)]

#[cfg(test)]
mod tests;
