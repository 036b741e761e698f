//! The words of the command line.

use clap::{Arg, ArgMatches, Command, Error, value_parser};
use resolver_swarm::settings::Settings;
use resolver_swarm::sweep::Sweep;
use resolver_swarm::words::{Misread, WORDS, Word};
use std::alloc::{AllocError, Global};

/// A node whose run is drawn in a file.
#[derive(Clone, Copy)]
pub struct Timeline<'a> {
    pub node: u16,
    pub file: &'a str,
}

/// What the words want.
#[derive(Drop)]
pub enum Wanted<'a> {
    /// One run, and a picture of a node's run, if one is named.
    Run(Settings, Option<Timeline<'a>>),
    /// A run for each number of a sweep, and a picture in a file, if one is named.
    Sweep(Sweep, Settings, Option<&'a str>),
    /// Help, or to be told what can't be read.
    Nothing(Error),
    /// To be told what is past its bounds, or no sweep.
    Misread(Misread),
}

/// The usual numbers of the words, as text.
pub fn usual_numbers(alloc: Global) -> Result<Vec<String>, AllocError> {
    WORDS
        .iter()
        .map(|word| format!(in alloc; "{}", word.usual))
        .try_collect(alloc)
}

/// The command without a word.
fn bare<'a>(alloc: Global, name: &'a str, about: &'a str) -> Command<'a> {
    Command::new(alloc, name).about(about)
}

/// The command with a word for a number more.
fn with_number<'a>(
    alloc: Global,
    command: Command<'a>,
    word: &'a Word,
    usual: &'a str,
) -> Result<Command<'a>, AllocError> {
    let arg = Arg::new(alloc, word.name)
        .long(word.name)
        .value_name("N")
        .value_parser(value_parser!(u64))
        .default_value(usual)
        .help(word.help);
    command.arg(arg)
}

/// The command with the words of a sweep.
fn with_sweep<'a>(alloc: Global, command: Command<'a>) -> Result<Command<'a>, AllocError> {
    let sweep = Arg::new(alloc, "sweep")
        .long("sweep")
        .value_name("NAME=N,N,..")
        .help("a run for each of these numbers, as peer-limit=1,2,4, and a table of them");
    let plot = Arg::new(alloc, "plot")
        .long("plot")
        .value_name("FILE")
        .requires_arg("sweep")?
        .help("a picture of the sweep, as SVG");
    command.arg(sweep)?.arg(plot)
}

/// The command with the word for a picture of a node's run.
fn with_timeline<'a>(alloc: Global, command: Command<'a>) -> Result<Command<'a>, AllocError> {
    let timeline = Arg::new(alloc, "timeline")
        .long("timeline")
        .value_names(&["NODE", "FILE"])
        .num_args(2)
        .help("a picture of what this node did, as SVG; of a run with up to 256 nodes and keys");
    command.arg(timeline)
}

/// The command, with all words.
fn command<'a>(alloc: Global, usual: &'a [String]) -> Result<Command<'a>, AllocError> {
    let about = "Runs many nodes that fetch from one another, and says how long they take.";
    let mut command: Command<'a> = bare(alloc, "resolver-swarm", about);
    for (word, usual) in WORDS.iter().zip(usual) {
        command = with_number(alloc, command, word, usual.as_str())?;
    }
    with_timeline(alloc, with_sweep(alloc, command)?)
}

/// The settings that the words say.
fn settings_of(matches: &ArgMatches<'_>) -> Result<Settings, Misread> {
    let mut settings = Settings::usual();
    for word in WORDS {
        if let Some(number) = matches.get_one::<u64>(word.name) {
            word.check(number)?;
            settings.set(word, number);
        }
    }
    if settings.fellows() == 0 {
        return Err(Misread::Nobody);
    }
    Ok(settings)
}

/// The node that is to be drawn, if one is.
fn timeline_of<'a>(
    matches: &ArgMatches<'a>,
    settings: &Settings,
) -> Result<Option<Timeline<'a>>, Misread> {
    let Some([node, file]) = matches.get_strs("timeline") else {
        return Ok(None);
    };
    match node.parse::<u16>() {
        Ok(node) if node < settings.nodes => Ok(Some(Timeline { node, file: *file })),
        _ => Err(Misread::Bounds {
            name: "timeline",
            least: 0,
            most: u64::from(settings.nodes).saturating_sub(1),
        }),
    }
}

/// What the words want, but for what `clap` can't read.
fn meant<'a>(alloc: Global, matches: &ArgMatches<'a>) -> Result<Wanted<'a>, Misread> {
    let settings = settings_of(matches)?;
    match matches.get_str("sweep") {
        Some(text) => {
            let sweep = Sweep::read(alloc, text)?;
            Ok(Wanted::Sweep(sweep, settings, matches.get_str("plot")))
        }
        None => Ok(Wanted::Run(settings, timeline_of(matches, &settings)?)),
    }
}

/// What the words want, where the numbers that aren't said are these.
pub fn read<'a>(
    alloc: Global,
    words: &'a [String],
    usual: &'a [String],
) -> Result<Wanted<'a>, AllocError> {
    match command(alloc, usual)?.try_get_matches_from(words) {
        Ok(matches) => match meant(alloc, &matches) {
            Ok(wanted) => Ok(wanted),
            Err(misread) => Ok(Wanted::Misread(misread)),
        },
        Err(error) => Ok(Wanted::Nothing(error)),
    }
}
