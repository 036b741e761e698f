//! A store reads four chunks by their keys, each for three readers, from a shelf. What asks the shelf runs
//! in a thread of its own. It prints what arrived.

ghost use Rattle.std.specs.Prelude.{◌≡◌, IfErr, true};
ghost use Rattle.std.proofs.Common.{rules};
ghost use Rattle.resolver_base.specs.declared.fault.Fault.TheVariants.{OutOfMemory};

use anyhow::Result;
use futures::channel::{mpsc, oneshot};
use futures::executor::block_on;
use futures::task::{Context, Poll};
use futures::{Future, StreamExt};
use resolver::base::{Clock, Faithful, Fault, Predicate};
use resolver::opaque::{ActorHandle, Config, Fetcher, init};
use resolver::p2p::mocks::Key;
use resolver::{Consumer, Delivery, Fetch, Handle, Resolver};
use std::alloc::Global;
use std::num::NonZeroUsize;
use std::random::RandomSource;
use std::sync::Wait;
use std::thread::Threads;

/// What the store is asked through. Readers are named by numbers.
type Store<R> = ActorHandle<Key, u16, All, R>;

/// Reads the chunks, and prints each as it arrives.
pub fn run<R>(rt: R) -> Result<()>
where
    R: Print + Threads + Wait + RandomSource + AllocGlobal + Copy + Drop + Send + 'static,
{
    let alloc = rt.alloc();
    let (told, mut arrived) = mpsc::unbounded(alloc)?;
    let reader = Reader { alloc, told };
    let cfg = Config {
        fetcher: Shelf,
        consumer: reader,
        mailbox_size: NonZeroUsize::MIN,
        fetch_retry_delay: 100,
    };
    let (mut store, handle): (Store<_>, Handle) = init(rt, alloc, Hasty(0), cfg)?;
    let read = read(rt, &mut store, &mut arrived);
    store.close();
    handle.join(&rt)?;
    read
}

/// Asks for the chunks, and prints the four as they arrive.
fn read<R>(
    rt: R,
    store: &mut Store<R>,
    arrived: &mut mpsc::UnboundedReceiver<(u8, u64, usize)>,
) -> Result<()>
where
    R: Print + Wait + RandomSource + AllocGlobal + Copy + Drop + Send + 'static,
{
    store.fetch_all(wanted(rt.alloc())?)?;
    for _ in 0..4 {
        if let Some((key, text, readers)) = block_on(&rt, arrived.next())? {
            println!(rt; "chunk {key} says {text}, for {readers} readers")?;
        }
    }
    Ok(())
}

/// The readers 10, 20 and 30 want the chunks 0 to 3.
fn wanted(alloc: Global) -> Result<Vec<Fetch<Key, u16>>> {
    let mut wanted = Vec::new(alloc);
    for key in 0..4 {
        for subscriber in [10, 20, 30] {
            wanted.push(Fetch {
                key: Key(key),
                subscriber,
                mark: 0,
            })?;
        }
    }
    Ok(wanted)
}

/// Where every chunk lies.
#[derive(Drop)]
struct Shelf;

/// What a look has found.
#[derive(Drop)]
struct Look(Option<u64>);

impl Future for Look {
    type Output = Option<u64>;

    fn poll(&mut self, _: &mut Context<'_>) -> Poll<Option<u64>> {
        Poll::Ready(self.0.take())
    }
}

impl Fetcher for Shelf {
    type Key = Key;

    type Value = u64;

    type Future = Look;

    fn fetch(&self, key: Key) -> Look {
        Look(Some(u64::from(key.0) * 1000))
    }

    ghost pollable = { λ look. tt };
}

/// Takes every chunk for its readers, and tells the store.
#[derive(Drop)]
struct Reader {
    alloc: Global,
    /// A chunk's key, what it says, and for how many readers it came.
    told: mpsc::UnboundedSender<(u8, u64, usize)>,
}

impl Consumer for Reader {
    type Key = Key;

    type Value = u64;

    type Subscriber = u16;

    type Outcome = bool;

    fn deliver(
        &mut self,
        delivery: Delivery<Key, u16>,
        text: u64,
    ) -> Result<oneshot::Receiver<bool>, Fault>
        ensures only { IfErr result (λ fault. fault ≡ OutOfMemory) }
    {
        let (verdict, outcome) = oneshot::channel(self.alloc)?;
        let arrived = (delivery.key.0, text, delivery.subscribers.len());
        let _ = self.told.unbounded_send(arrived);
        let _ = verdict.send(true);
        Ok(outcome)
    }
}

/// A clock that comes to each moment as soon as it is waited for.
#[derive(Drop)]
struct Hasty(u64);

impl Clock for Hasty {
    fn now(&self) -> u128 {
        u128::from(self.0)
    }

    fn poll_until(&mut self, _: &mut Context<'_>, moment: u128) -> Poll<()> {
        self.0 = u64::try_from(moment).unwrap_or(u64::MAX);
        Poll::Ready(())
    }
}

/// Keeps every reader: this store drops none.
#[derive(Clone, Copy)]
struct All;

impl Predicate<Key, u16> for All {
    ghost keeps = { λ _ _ _. true };

    fn keep(&self, _: &Key, _: &u16) -> bool {
        true
    }

    ghost alike = { λ q k l s t same_key same_subscriber. Prim.search rules };
}

impl Faithful for All {
    ghost clones = { Prim.search rules };
}
