//! `resolver-replay` reads a script of inputs for a resolver's machine from standard input, feeds
//! them one after another, and prints each effect as one line.
//!
//! It takes no arguments. It ends with status 0 at the end of the script, with 2 after a line that
//! can't be read, and with 1 after a fault. Standard error says why the line can't be read, and names
//! the fault; where the variable `RUST_LOG` is `trace`, it also has the number of each line before what
//! the line does.
#![tactic(auto)]

use log::sink::Console;
use log::{LevelFilter, Log, Logged};
use resolver_script::endings::{Ending, Fault};
use resolver_script::replay;
use std::env::Env;
use std::io::{BufReader, BufWriter};
use std::process::ExitCode;
use std::{env, io};

fn main(rt: HostRuntime) -> ExitCode {
    match run(&rt, &Logged::new(rt, level(&rt), Console(rt))) {
        Ok(ending) => {
            if let Ending::Unreadable(place) = ending {
                let _ = eprintln!(rt; "{place}");
            }
            ExitCode::from(ending.status())
        }
        Err(fault) => {
            let _ = eprintln!(rt; "fault: {fault}");
            ExitCode::FAILURE
        }
    }
}

/// The level of what is traced: none where the variable isn't set to one.
fn level(rt: &(impl AllocGlobal + Env)) -> LevelFilter {
    match env::var(rt, "RUST_LOG") {
        Ok(name) => name.as_str().parse().unwrap_or(LevelFilter::Off),
        Err(_) => LevelFilter::Off,
    }
}

fn run(rt: &(impl AllocGlobal + Input + Print), log: &impl Log) -> Result<Ending, Fault> {
    let mut input = BufReader::new(rt.alloc(), rt.reader()).map_err(|_| Fault::Memory)?;
    let mut output = BufWriter::new(rt.alloc(), io::writer(rt)).map_err(|_| Fault::Memory)?;
    replay::run(log, rt.alloc(), &mut input, &mut output)
}
