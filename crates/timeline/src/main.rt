//! `resolver-timeline` draws what a script for `resolver-replay` does, as a picture or as text.
//!
//! `--help` says its words. It ends with status 0; with 2 after a word or a line of the script that can't be read, which is
//! named on standard error; and with 1 after a fault.
#![tactic(auto)]

mod drawing;
mod words;

use crate::drawing::draw;
use crate::words::{Wanted, read};
use std::env;
use std::env::Env;
use std::process::ExitCode;
use std::rt::Files;

fn main(rt: HostRuntime) -> ExitCode {
    match run(&rt) {
        Ok(status) => ExitCode::from(status),
        Err(fault) => {
            let _ = eprintln!(rt; "error: {fault}");
            ExitCode::FAILURE
        }
    }
}

/// Reads the words, does what they say, and answers the status.
fn run(rt: &(impl AllocGlobal + Env + Eprint + Files + Input + Print)) -> anyhow::Result<u8> {
    let words: Vec<String> = env::args(rt)?.collect(rt.alloc())?;
    match read(rt.alloc(), words.as_slice())? {
        Wanted::Pictures(drawn, files) => draw(rt, drawn, files.as_slice()),
        Wanted::Nothing(refusal) => {
            refusal.print(rt)?;
            Ok(u8::try_from(refusal.exit_code()).unwrap_or(2))
        }
    }
}
