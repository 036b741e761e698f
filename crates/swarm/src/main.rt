//! `resolver-swarm` runs many nodes over one network, all in this process, and says how long they take.
//!
//! `--help` says its words. It ends with status 0; with 2 after a word that can't be read, which is named on standard
//! error; and with 1 where a node is found wrong, whose script for `resolver-replay` is printed, and after a fault.
#![tactic(auto)]

mod running;
mod words;

use crate::running::{show, show_sweep};
use crate::words::{Wanted, read, usual_numbers};
use std::env;
use std::env::Env;
use std::process::ExitCode;
use std::rt::Files;

fn main(rt: HostRuntime) -> ExitCode {
    match run(&rt) {
        Ok(status) => ExitCode::from(status),
        Err(fault) => {
            let _ = eprintln!(rt; "error: {fault}");
            ExitCode::FAILURE
        }
    }
}

/// Reads the words, does what they say, and answers the status.
fn run(rt: &(impl AllocGlobal + Env + Eprint + Files + Print)) -> anyhow::Result<u8> {
    let words: Vec<String> = env::args(rt)?.collect(rt.alloc())?;
    let usual = usual_numbers(rt.alloc())?;
    match read(rt.alloc(), words.as_slice(), usual.as_slice())? {
        Wanted::Run(settings, timeline) => show(rt, settings, timeline),
        Wanted::Sweep(sweeping, settings, file) => show_sweep(rt, &sweeping, settings, file),
        Wanted::Nothing(refusal) => {
            refusal.print(rt)?;
            Ok(u8::try_from(refusal.exit_code()).unwrap_or(2))
        }
        Wanted::Misread(misread) => {
            eprintln!(rt; "error: {misread}")?;
            Ok(2)
        }
    }
}
