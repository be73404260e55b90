//! Runs a workload of the benchmark, and prints all its results as one number.
//!
//! The words of the command line are the workload's name, the number of rounds, and the seed of the inputs; without words each
//! workload runs for one round. The status is 1 if a workload was not run, because of an unknown name or a failed call.
//! `bench/run` compares two builds. The workload `written` reads and writes the object on standard input; tests count its cost.
#![tactic(auto)]

mod awkward;
mod chance;
mod digest;
mod export_table;
mod import_table;
mod library;
mod module_names;
mod numbers;
mod object;
mod sets;
mod shape;
mod spaces;
mod texts;
mod workloads;

use crate::digest::Digest;
use crate::shape::round_seed;
use crate::workloads::{
    run_awkward, run_map, run_objects, run_open, run_rebase, run_texts, run_written,
};
use pe_text::{Counted, read_whole};
use std::alloc::Global;
use std::io::Input;
use std::process::ExitCode;
use std::rt::Env;
use std::{env, io};

/// A workload that makes its own files.
#[derive(Clone, Copy)]
enum Workload {
    Map,
    Open,
    Texts,
    Objects,
    Rebase,
    Awkward,
}

/// The workloads, each with its name.
const WORKLOADS: [(&str, Workload); 6] = [
    ("map", Workload::Map),
    ("open", Workload::Open),
    ("texts", Workload::Texts),
    ("objects", Workload::Objects),
    ("rebase", Workload::Rebase),
    ("awkward", Workload::Awkward),
];

/// Runs one round of a workload; `None` if a call failed.
fn run_round(
    alloc: Global,
    digest: &mut Digest,
    workload: Workload,
    seed: u64,
    round: u32,
) -> Option<()> {
    match workload {
        Workload::Map => run_map(alloc, digest, seed, round),
        Workload::Open => run_open(alloc, digest, seed, round),
        Workload::Texts => run_texts(alloc, digest, seed, round),
        Workload::Objects => run_objects(alloc, digest, seed),
        Workload::Rebase => run_rebase(alloc, digest, seed, round),
        Workload::Awkward => run_awkward(alloc, digest, seed),
    }
}

/// Runs a workload; `None` if there is none with this name or a call failed.
fn run_workload(
    alloc: Global,
    digest: &mut Digest,
    name: &str,
    rounds: u32,
    seed: u64,
) -> Option<()> {
    let (_, workload) = WORKLOADS.iter().find(|row| row.0 == name)?;
    for round in 0..rounds {
        run_round(alloc, digest, *workload, round_seed(seed, round), round)?;
    }
    Some(())
}

/// Prints the name of a workload and its number, or that it was not run. Returns whether it was.
fn print_number<R: Print>(
    rt: &R,
    name: &str,
    digest: Digest,
    was_run: Option<()>,
) -> io::Result<bool> {
    match was_run {
        Some(()) => println!(rt; "{name} {:016x}", digest.value())?,
        None => println!(rt; "{name} was not run")?,
    }
    Ok(was_run.is_some())
}

/// Runs a workload and prints its name and its number. Returns whether it was run.
fn print_workload<R: Print + AllocGlobal>(
    rt: &R,
    name: &str,
    rounds: u32,
    seed: u64,
) -> io::Result<bool> {
    let mut digest = Digest::new();
    let was_run = run_workload(rt.alloc(), &mut digest, name, rounds, seed);
    print_number(rt, name, digest, was_run)
}

/// Reads and writes the object on standard input, and prints what `print_workload` does.
fn print_written<R: Print + Input + AllocGlobal>(rt: &R, rounds: u32) -> io::Result<bool> {
    let mut digest = Digest::new();
    let was_run = match read_whole(rt.alloc(), &mut Counted::new(rt.reader())) {
        Ok(file) => run_written(rt.alloc(), &mut digest, &file, rounds),
        Err(_) => None,
    };
    print_number(rt, "written", digest, was_run)
}

/// The number in a word of the command line.
fn number_of(word: Option<&String>) -> Option<u32> {
    word?.parse().ok()
}

/// Runs each workload once, and returns whether all were run.
fn print_all<R: Print + AllocGlobal>(rt: &R, seed: u64) -> io::Result<bool> {
    let mut all_were_run = true;
    for (name, _) in WORKLOADS {
        if !print_workload(rt, name, 1, seed)? {
            all_were_run = false;
        }
    }
    Ok(all_were_run)
}

/// Runs the workloads that the words name, and returns whether all were run.
fn run<R: Print + Env + Input + AllocGlobal>(rt: &R) -> io::Result<bool> {
    let words: Vec<String> = env::args(rt)?.skip(1).collect(rt.alloc())?;
    let seed = u64::from(number_of(words.get(2)).unwrap_or(1));
    let rounds = number_of(words.get(1)).unwrap_or(1);
    match words.first() {
        Some(name) if name.as_str() == "written" => print_written(rt, rounds),
        Some(name) => print_workload(rt, name, rounds, seed),
        None => print_all(rt, seed),
    }
}

fn main(rt: HostRuntime) -> ExitCode {
    match run(&rt) {
        Ok(true) => ExitCode::SUCCESS,
        _ => ExitCode::FAILURE,
    }
}
