//! The words of the command line.

use clap::{Arg, ArgAction, ArgMatches, Command, Error};
use resolver_timeline::drawn::Drawn;
use std::alloc::{AllocError, Global};

/// What the words want.
#[derive(Drop)]
pub enum Wanted<'a> {
    /// Pictures of the scripts in these files, or of the one on standard input, where there is none.
    Pictures(Drawn, Vec<&'a str>),
    /// Help, or to be told what can't be read.
    Nothing(Error),
}

/// The command, with all words.
fn command<'a>(alloc: Global) -> Result<Command<'a>, AllocError> {
    let text = Arg::new(alloc, "text")
        .long("text")
        .action(ArgAction::SetTrue)
        .help("as text, for a terminal");
    let order = Arg::new(alloc, "order")
        .long("order")
        .action(ArgAction::SetTrue)
        .help("the order of the commands makes the axis, and not their moments");
    let scripts = Arg::new(alloc, "SCRIPT")
        .num_args(1..)
        .action(ArgAction::Append)
        .help("files of scripts, each drawn by itself; standard input, where there is none");
    Command::new(alloc, "resolver-timeline")
        .about("Draws what a script for resolver-replay does, as SVG.")
        .arg(text)?
        .arg(order)?
        .arg(scripts)
}

/// The pictures that the words want.
fn pictures<'a>(alloc: Global, matches: &ArgMatches<'a>) -> Result<Wanted<'a>, AllocError> {
    let drawn = Drawn {
        is_text: matches.get_flag("text"),
        by_order: matches.get_flag("order"),
    };
    let mut files = Vec::new(alloc);
    if let Some(names) = matches.get_strs("SCRIPT") {
        files.extend_from_slice(names)?;
    }
    Ok(Wanted::Pictures(drawn, files))
}

/// What the words want.
pub fn read<'a>(alloc: Global, words: &'a [String]) -> Result<Wanted<'a>, AllocError> {
    match command(alloc)?.try_get_matches_from(words) {
        Ok(matches) => pictures(alloc, &matches),
        Err(error) => Ok(Wanted::Nothing(error)),
    }
}
