//! Runs, and what is printed of them.

use crate::words::Timeline;
use anyhow::Result;
use resolver_script::endings::Ending;
use resolver_swarm::plot::{Point, picture};
use resolver_swarm::report::Report;
use resolver_swarm::settings::Settings;
use resolver_swarm::swarm::Swarm;
use resolver_swarm::sweep::{Head, Line, Sweep};
use resolver_timeline::svg;
use resolver_timeline_script::reading::read;
use std::fs;
use std::io::BufReader;
use std::rt::Files;

/// Runs a swarm, prints how far it is, now and then, and how it went, and draws a node's run where that is wanted.
pub fn show(
    rt: &(impl AllocGlobal + Eprint + Files + Print),
    settings: Settings,
    timeline: Option<Timeline<'_>>,
) -> Result<u8> {
    let recorded = timeline.map(|timeline| timeline.node);
    let mut swarm = Swarm::new(
        rt.alloc(),
        Settings {
            recorded,
            ..settings
        },
    )?;
    for _ in 0..u64::MAX {
        let Some(progress) = swarm.advance()? else {
            break;
        };
        rt.println(progress)?;
    }
    rt.print(swarm.report()?)?;
    if let Some(timeline) = timeline {
        draw(rt, swarm.script().unwrap_or(""), timeline)?;
    }
    accuse(rt, &swarm, settings)
}

/// Draws a node's run in a file. Where its script has a number past those of scripts, it says so, and draws nothing.
fn draw(
    rt: &(impl AllocGlobal + Eprint + Files),
    script: &str,
    timeline: Timeline<'_>,
) -> Result<()> {
    let mut input = BufReader::new(rt.alloc(), script.as_bytes())?;
    let (run, ending) = read(rt.alloc(), &mut input)?;
    match ending {
        Ending::End => {
            let drawn = svg::picture(rt.alloc(), &run, false)?;
            fs::write(rt, timeline.file, drawn.as_str())?;
        }
        Ending::Unreadable(place) => {
            let node = timeline.node;
            eprintln!(rt; "node {node} can't be drawn, {place}")?;
        }
    }
    Ok(())
}

/// Prints what is wrong with a node and its script, if one is wrong. The status of the program.
fn accuse(rt: &(impl AllocGlobal + Print), swarm: &Swarm, settings: Settings) -> Result<u8> {
    let Some((node, complaint)) = swarm.broken() else {
        return Ok(0);
    };
    println!(rt; "# node {node}: {complaint}")?;
    let mut recorded = settings;
    recorded.recorded = Some(node);
    let again = ended(rt, recorded)?;
    rt.print(again.script().unwrap_or(""))?;
    Ok(1)
}

/// A run to its end.
fn ended(rt: &impl AllocGlobal, settings: Settings) -> Result<Swarm> {
    let mut swarm = Swarm::new(rt.alloc(), settings)?;
    for _ in 0..u64::MAX {
        if swarm.advance()?.is_none() {
            break;
        }
    }
    Ok(swarm)
}

/// Runs a swarm for each number of a sweep, prints how each went, and draws a picture of them where a file is named.
pub fn show_sweep(
    rt: &(impl AllocGlobal + Files + Print),
    sweep: &Sweep,
    settings: Settings,
    file: Option<&str>,
) -> Result<u8> {
    rt.println(Head(sweep.word))?;
    let mut points = Vec::new(rt.alloc());
    for number in sweep.numbers.iter().copied() {
        let swarm = ended(rt, sweep.settings(settings, number))?;
        let report = swarm.report()?;
        rt.println(Line(number, &report))?;
        if swarm.broken().is_some() {
            return accuse(rt, &swarm, sweep.settings(settings, number));
        }
        points.push(point(number, &report))?;
    }
    if let Some(file) = file {
        let drawn = picture(rt.alloc(), sweep.word.name, points.as_slice())?;
        fs::write(rt, file, drawn.as_str())?;
    }
    Ok(0)
}

/// The point of a run with this number.
fn point(number: u64, report: &Report) -> Point {
    Point {
        number,
        median: report.synced_by(50),
        slowest: report.synced_by(100),
    }
}
