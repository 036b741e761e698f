//! `examples`: seven first programs over the library, each a module. They run one after another, and a line
//! with its name stands before what each prints. In a program of its own a module's `run` would be `main`,
//! which takes the `HostRuntime`.
#![tactic(auto)]

mod by_hand;
mod fetcher;
mod mailbox;
mod opaque;
mod peers;
mod store;
mod synchroniser;

use anyhow::Result;

fn main(rt: HostRuntime) -> Result<()> {
    println!(rt; "store:")?;
    store::run(&rt)?;
    println!(rt; "mailbox:")?;
    mailbox::run(rt)?;
    println!(rt; "fetcher:")?;
    fetcher::run(&rt)?;
    println!(rt; "opaque:")?;
    opaque::run(rt)?;
    println!(rt; "peers:")?;
    peers::run(rt)?;
    println!(rt; "synchroniser:")?;
    synchroniser::run(rt)?;
    println!(rt; "by hand:")?;
    by_hand::run(&rt)
}
