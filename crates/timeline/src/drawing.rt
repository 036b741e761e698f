//! What is read and printed of pictures.

use anyhow::Result;
use resolver_script::endings::Ending;
use resolver_timeline::drawn::Drawn;
use resolver_timeline_script::reading::read;
use std::fs::File;
use std::io::{BufReader, Read};
use std::rt::Files;

/// Prints a picture of the script in each file, or of the one on standard input, where no file is named. The status of
/// the program.
pub fn draw(
    rt: &(impl AllocGlobal + Eprint + Files + Input + Print),
    drawn: Drawn,
    files: &[&str],
) -> Result<u8> {
    if files.is_empty() {
        return draw_one(rt, drawn, rt.reader());
    }
    for file in files {
        let status = draw_one(rt, drawn, File::open(rt, *file)?)?;
        if status != 0 {
            return Ok(status);
        }
    }
    Ok(0)
}

/// Prints a picture of a script, unless a line of it can't be read.
fn draw_one<R: Read + Drop>(
    rt: &(impl AllocGlobal + Eprint + Print),
    drawn: Drawn,
    reader: R,
) -> Result<u8> {
    let mut input = BufReader::new(rt.alloc(), reader)?;
    let (run, ending) = read(rt.alloc(), &mut input)?;
    if let Ending::Unreadable(place) = ending {
        eprintln!(rt; "{place}")?;
        return Ok(2);
    }
    rt.print(drawn.picture(rt.alloc(), &run)?)?;
    Ok(0)
}
