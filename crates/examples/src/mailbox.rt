//! Two threads put 50 fetches each into a recorded mailbox with room for two messages, and one takes them.
//! It prints how many keys came, and how many puts the book has of the two handles.

ghost use Rattle.std.specs.Prelude.{◌≡◌, true};

mod leaving;

use anyhow::{Context, Result, bail};
use futures::StreamExt;
use futures::executor::block_on;
use leaving::AllBut;
use resolver::base::{Fault, NonEmptyVec};
use resolver::ingress::{FetchKey, Message};
use resolver::mailbox;
use resolver::mailbox::{Entry, Naming, Pages, Receiver, Sender};
use std::alloc::Global;
use std::marker::Brand;
use std::num::NonZeroUsize;
use std::random::RandomSource;
use std::sync::Wait;
use std::thread;
use std::thread::Threads;

/// A handle that puts, and the end that takes: keys are `u32`, subscribers `u16`, and `N` names the mailbox.
type Putter<N, R> = Sender<u32, u16, (), AllBut, N, R>;

type Taker<N, R> = Receiver<u32, u16, (), AllBut, N, R>;

/// Names the mailbox, and prints what was counted of it.
pub fn run<R>(rt: R) -> Result<()>
where
    R: AllocGlobal + Print + Threads + Wait + RandomSource + Copy + Drop + Send + 'static,
{
    let (keys, puts) = counted::<Brand, _>(rt, rt.alloc(), Pages::new())?;
    println!(rt; "{keys} keys came of {puts} puts")?;
    Ok(())
}

/// Opens a mailbox, has two threads put while this one takes, and counts the keys and the puts.
fn counted<N, R>(rt: R, alloc: Global, pages: Pages) -> Result<(u64, usize)>
where
    N: Naming + Send + Sync + 'static,
    R: AllocGlobal + Threads + Wait + RandomSource + Copy + Drop + Send + 'static,
    requires recorded { N.is_recorded ≡ true }
    requires puts { pages.puts.name ≡ N.puts }
    requires takes { pages.takes.name ≡ N.takes }
{
    let room = NonZeroUsize::new(2).context("a mailbox without room")?;
    let (first, mut taker): (Putter<N, R>, Taker<N, R>) = mailbox::recorded(
        rt, alloc, pages, room,
    )?;
    let (one, other) = put_by_two(&rt, alloc, first)?;
    taker.close();
    let keys = take_all(&rt, &mut taker)?;
    let puts = puts_booked(&one, &other, &taker)?;
    Ok((keys, puts))
}

/// Has two threads put, and hands their handles back once both are done.
fn put_by_two<N, R>(
    rt: &R,
    alloc: Global,
    first: Putter<N, R>,
) -> Result<(Putter<N, R>, Putter<N, R>)>
where
    N: Naming + Send + Sync + 'static,
    R: Threads + Wait + Copy + Drop + Send + 'static,
{
    let second = first.clone()?;
    let one = thread::spawn(rt, move || put_all(first, alloc, 0))?;
    let other = thread::spawn(rt, move || put_all(second, alloc, 100))?;
    Ok((one.join(rt)?, other.join(rt)?))
}

/// Puts fetches of 50 keys from the first one on, and hands the handle back.
fn put_all<N: Naming, R: Wait + Drop>(
    mut putter: Putter<N, R>,
    alloc: Global,
    first: u32,
) -> Result<Putter<N, R>, Fault> {
    for key in first..first.saturating_add(50) {
        let mut items = Vec::new(alloc);
        items.push(FetchKey {
            key,
            subscribers: NonEmptyVec::new(alloc, (10, 0))?,
            metadata: (),
        })?;
        putter.enqueue(Message::Fetch(items))?;
    }
    Ok(putter)
}

/// Takes what waits, up to the end that the close has brought, and counts its keys.
fn take_all<N: Naming, R: AllocGlobal + Wait + RandomSource + Drop>(
    rt: &R,
    taker: &mut Taker<N, R>,
) -> Result<u64> {
    let mut keys = 0_u64;
    for _ in 0..1000 {
        match block_on(rt, taker.next())? {
            Some(message) => keys = keys.saturating_add(keys_of(&message?)),
            None => break,
        }
    }
    Ok(keys)
}

/// How many keys a message asks for.
fn keys_of(message: &Message<u32, u16, (), AllBut>) -> u64 {
    match message {
        Message::Fetch(items) => items.len() as u64,
        Message::Retain(_) => 0,
    }
}

/// How many puts the book has, which is lent for the shares of both handles.
fn puts_booked<N: Naming, R: Wait>(
    one: &Putter<N, R>,
    other: &Putter<N, R>,
    taker: &Taker<N, R>,
) -> Result<usize> {
    let (Some(first), Some(second)) = (one.share(), other.share()) else {
        bail!("a handle without a share");
    };
    let book = taker.book(&[first, second])?;
    Ok(puts_in(book.as_slice()))
}

/// How many puts a book has.
fn puts_in(book: &[Entry<u32, u16, (), AllBut>]) -> usize {
    book.iter()
        .filter(|entry| matches!(entry, Entry::Put(_)))
        .count()
}
