//! The calls of petool's page and of its package for JavaScript, for a module of WebAssembly that imports nothing.
//!
//! A call is lent memory for what it allocates and room for what it writes, beside the bytes that it is about. It keeps nothing:
//! after it returns, all of that is the caller's again. bindings/js/engine.mjs makes these calls, and `make page` the module.
#![tactic(auto)]

mod engines;
mod json;
mod kind;
mod map;
mod rebase;
mod show;
mod texts;
mod writer;
