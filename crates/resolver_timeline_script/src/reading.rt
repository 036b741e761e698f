//! A run, read from its script.

use crate::recorder::Recorder;
use log::Logged;
use log::sink::Memory;
use resolver_script::endings::{Ending, Fault};
use resolver_script::replay::feed;
use resolver_timeline::run::Run;
use std::alloc::Global;
use std::io;
use std::io::{BufReader, Read};

/// Feeds a script, and answers what happened up to its end, or to a line that can't be read.
pub fn read<R: Read>(alloc: Global, input: &mut BufReader<R>) -> Result<(Run, Ending), Fault> {
    let mut recorder = Recorder::new(alloc);
    let silent: Option<Memory> = None;
    let ending = feed(&silent, alloc, &mut recorder, input, &mut io::sink());
    let run = recorder.finish()?;
    Ok((run, ending?))
}
