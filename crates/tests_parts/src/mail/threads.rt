//! A mailbox that several threads put into at once.

ghost use Rattle.std.specs.Prelude.{◌≡◌, ◌<◌, true};

use crate::mail::mailbox::{Handle, shares_of};
use crate::mail::messages::{Told, fetch};
use crate::support::{equal, equal_texts, holds, next, print, size};
use futures::task::Poll;
use futures::test::MockTask;
use resolver_base::{Fault, Feedback};
use resolver_mailbox::mailbox::{Entry, Naming, Pages, Receiver, recorded};
use resolver_messages::Message;
use std::alloc::{AllocGlobal, Global};
use std::marker::Brand;
use std::num::NonZeroUsize;
use std::panic::Expect;
use std::process::Abort;
use std::random::RandomSource;
use std::sync::Wait;
use std::thread::{self, JoinHandle, Threads};
use tests_support::names::{All, Letter};

/// How often a handle was answered so.
#[derive(Clone, Copy)]
struct Tally {
    ok: u64,
    backoff: u64,
    closed: u64,
    /// Refusals, and answers other than Closed that came after a Closed.
    wrong: u64,
}

impl Tally {
    fn new() -> Tally {
        Tally {
            ok: 0,
            backoff: 0,
            closed: 0,
            wrong: 0,
        }
    }

    fn note(&mut self, answer: Result<Feedback, Fault>) {
        let count = match answer {
            Ok(Feedback::Closed) => &mut self.closed,
            Ok(Feedback::Ok) if self.closed == 0 => &mut self.ok,
            Ok(Feedback::Backoff) if self.closed == 0 => &mut self.backoff,
            _ => &mut self.wrong,
        };
        *count = count.saturating_add(1);
    }

    fn plus(self, other: Tally) -> Tally {
        Tally {
            ok: self.ok.saturating_add(other.ok),
            backoff: self.backoff.saturating_add(other.backoff),
            closed: self.closed.saturating_add(other.closed),
            wrong: self.wrong.saturating_add(other.wrong),
        }
    }
}

/// So many fetches that a thread puts: of the keys from 0 on for one subscriber, or of key 7 for the subscribers
/// from one on.
#[derive(Clone, Copy)]
struct Puts {
    count: u16,
    subscriber: u16,
    is_one_key: bool,
}

impl Puts {
    fn message(self, alloc: Global, place: u16) -> Result<Told, Fault> {
        if self.is_one_key {
            return fetch(alloc, 7, self.subscriber.wrapping_add(place), 0);
        }
        fetch(alloc, place.to_le_bytes()[0], self.subscriber, 0)
    }
}

/// What a thread does with its handle.
#[derive(Clone, Copy)]
enum Job {
    Put(Puts),
    Close,
}

fn put_all<N: Naming, R: Wait>(handle: &mut Handle<N, R>, alloc: Global, puts: Puts) -> Tally {
    let mut tally = Tally::new();
    for place in 0..puts.count {
        let answer = match puts.message(alloc, place) {
            Ok(message) => handle.enqueue(message),
            Err(fault) => Err(fault),
        };
        tally.note(answer);
    }
    tally
}

/// What a thread works with: a handle, of which it knows no more than this.
trait Worker {
    /// A worker at the same mailbox.
    fn twin(&self, rt: &impl Abort) -> Self;

    fn work(&mut self, alloc: Global, job: Job) -> Tally;
}

impl<N: Naming, R: Wait + Copy> Worker for Handle<N, R> {
    fn twin(&self, rt: &impl Abort) -> Self {
        self.clone().expect(rt, "memory")
    }

    fn work(&mut self, alloc: Global, job: Job) -> Tally {
        match job {
            Job::Put(puts) => put_all(self, alloc, puts),
            Job::Close => {
                self.close();
                Tally::new()
            }
        }
    }
}

/// A thread that gives its worker back with what it was answered.
fn start<W: Worker + Send + Drop + 'static, R: Abort + Threads>(
    rt: &R,
    alloc: Global,
    worker: W,
    job: Job,
) -> JoinHandle<(W, Tally)> {
    let mut worker = worker;
    let work = move || {
        let tally = worker.work(alloc, job);
        (worker, tally)
    };
    thread::spawn(rt, work).expect(rt, "a thread")
}

/// A thread for each job, with a worker of its own.
fn start_all<W: Worker + Send + Drop + 'static, R: Abort + Threads>(
    rt: &R,
    alloc: Global,
    worker: &W,
    jobs: &[Job],
) -> Vec<JoinHandle<(W, Tally)>> {
    let mut running = Vec::new(alloc);
    for job in jobs {
        let thread = start(rt, alloc, worker.twin(rt), *job);
        running.push(thread).expect(rt, "memory");
    }
    running
}

/// Waits for the threads, and gives their workers, and what they were answered together.
fn join_all<W: Send + Drop + 'static, R: Abort + Threads>(
    rt: &R,
    alloc: Global,
    running: Vec<JoinHandle<(W, Tally)>>,
) -> (Vec<W>, Tally) {
    let mut workers = Vec::new(alloc);
    let mut all = Tally::new();
    for thread in running {
        let (worker, tally) = thread.join(rt);
        all = all.plus(tally);
        workers.push(worker).expect(rt, "memory");
    }
    (workers, all)
}

/// How many fetches a message has, and of the first one the key and how many want it.
fn size_of(message: &Told) -> Option<(usize, u8, usize)> {
    let Message::Fetch(items) = message else {
        return None;
    };
    let item = items.first()?;
    Some((items.len(), item.key.0, item.subscribers.len()))
}

/// Prints how large the message is that a poll gives, or that there is none. Whether there was one.
fn print_polled(
    rt: &impl Abort,
    text: &mut String,
    polled: &Poll<Option<Result<Told, Fault>>>,
) -> bool {
    let Poll::Ready(Some(Ok(message))) = polled else {
        print(rt, text, polled);
        return false;
    };
    print(rt, text, size_of(message));
    true
}

/// Polls up to the end, and prints what the receiver gives.
fn take_all<N: Naming, R: Wait + Drop>(
    rt: &impl Abort,
    text: &mut String,
    task: &MockTask,
    receiver: &mut Receiver<Letter, u16, (), All, N, R>,
) {
    for _ in 0..1000_u64 {
        let polled = next(task, receiver);
        let is_message = print_polled(rt, text, &polled);
        if !is_message {
            return;
        }
    }
}

/// How many puts a book has, how many of them stand after its first close, and how many closes it has.
fn counts_of(book: &[Entry<Letter, u16, (), All>]) -> (u64, u64, u64) {
    let mut puts = 0u64;
    let mut after = 0u64;
    let mut closes = 0u64;
    for entry in book {
        match entry {
            Entry::Put(_) => {
                puts = puts.saturating_add(1);
                if closes > 0 {
                    after = after.saturating_add(1);
                }
            }
            Entry::Take(_) => {}
            Entry::Close => closes = closes.saturating_add(1),
        }
    }
    (puts, after, closes)
}

/// How many puts the shares of some handles hold.
fn held<N: Naming, R>(handles: &[Handle<N, R>]) -> u64 {
    let mut puts = 0u64;
    for handle in handles {
        if let Some(share) = handle.share() {
            puts = puts.saturating_add(share.puts().len() as u64);
        }
    }
    puts
}

/// What the threads were answered, and what is left of it.
#[derive(Clone, Copy)]
struct Found {
    tally: Tally,
    /// The puts in the shares of all handles.
    held: u64,
    /// The puts in the book, and how many of them stand after a close.
    booked: u64,
    after: u64,
    closes: u64,
}

/// What the book says, which is lent for the shares of these handles.
fn find<N: Naming, R: Wait>(
    rt: &impl Abort,
    alloc: Global,
    handles: &[Handle<N, R>],
    receiver: &Receiver<Letter, u16, (), All, N, R>,
    tally: Tally,
) -> Found {
    let shares = shares_of(rt, alloc, handles);
    let book = receiver.book(shares.as_slice()).expect(rt, "a book");
    let (booked, after, closes) = counts_of(book.as_slice());
    Found {
        tally,
        held: held(handles),
        booked,
        after,
        closes,
    }
}

/// How a mailbox is used.
#[derive(Clone, Copy)]
struct Use {
    capacity: NonZeroUsize,
    /// How often it is polled while the threads run.
    polls: u64,
    /// Whether it is closed once they are over.
    closes: bool,
}

/// The receiver takes what waits once the threads are over, which is written.
fn end<N: Naming, R: Wait + Drop>(
    rt: &impl Abort,
    text: &mut String,
    task: &MockTask,
    handles: &[Handle<N, R>],
    receiver: &mut Receiver<Letter, u16, (), All, N, R>,
    tally: Tally,
) -> Found {
    take_all(rt, text, task, receiver);
    find(rt, *text.allocator(), handles, receiver, tally)
}

/// Polls so often, and lets go what the receiver gives.
fn poll_times<N: Naming, R: Wait + Drop>(
    task: &MockTask,
    receiver: &mut Receiver<Letter, u16, (), All, N, R>,
    count: u64,
) {
    for _ in 0..count {
        drop(next(task, receiver));
    }
}

/// A thread for each job over a mailbox that is used so, and its end.
fn run_over<N, R>(
    rt: R,
    text: &mut String,
    handle: &Handle<N, R>,
    receiver: &mut Receiver<Letter, u16, (), All, N, R>,
    jobs: &[Job],
    how: Use,
) -> Found
where
    N: Naming + Send + Sync + 'static,
    R: Abort + Threads + Wait + RandomSource + AllocGlobal + Copy + Drop + Send + 'static,
{
    let alloc = *text.allocator();
    let task = MockTask::new(&rt).expect(&rt, "a task");
    let running = start_all(&rt, alloc, handle, jobs);
    poll_times(&task, receiver, how.polls);
    let (handles, tally) = join_all(&rt, alloc, running);
    if how.closes {
        receiver.close();
    }
    end(&rt, text, &task, handles.as_slice(), receiver, tally)
}

/// The same over a recorded mailbox.
fn run<N, R>(rt: R, text: &mut String, pages: Pages, jobs: &[Job], how: Use) -> Found
where
    N: Naming + Send + Sync + 'static,
    R: Abort + Threads + Wait + RandomSource + AllocGlobal + Copy + Drop + Send + 'static,
    requires recorded { N.is_recorded ≡ true }
    requires puts { pages.puts.name ≡ N.puts }
    requires takes { pages.takes.name ≡ N.takes }
{
    let alloc = *text.allocator();
    let made = recorded::<Letter, u16, (), All, N, R>(rt, alloc, pages, how.capacity);
    let (handle, mut receiver) = made.expect(&rt, "a mailbox");
    run_over(rt, text, &handle, &mut receiver, jobs, how)
}

/// The same over a recorded mailbox whose names are its own.
fn run_by_itself<R>(rt: R, text: &mut String, jobs: &[Job], how: Use) -> Found
where
    R: Abort + Threads + Wait + RandomSource + AllocGlobal + Copy + Drop + Send + 'static,
{
    run::<Brand, _>(rt, text, Pages::new(), jobs, how)
}

/// The answers, those that are wrong, the puts that the shares hold and those that the book does, its closes,
/// and the puts behind them.
fn numbers_of(found: &Found) -> [u64; 6] {
    let taken = found.tally.ok.saturating_add(found.tally.backoff);
    [
        taken.saturating_add(found.tally.closed),
        found.tally.wrong,
        found.held,
        found.booked,
        found.closes,
        found.after,
    ]
}

/// Fetches of this many keys for one subscriber.
fn keys(count: u16, subscriber: u16) -> Job {
    Job::Put(Puts {
        count,
        subscriber,
        is_one_key: false,
    })
}

#[test]
fn the_book_holds_what_four_threads_put(rt: HostRuntime) {
    let mut text = String::new(rt.alloc());
    let jobs = [keys(250, 1), keys(250, 2), keys(250, 3), keys(250, 4)];
    let how = Use {
        capacity: size(&rt, 8),
        polls: 500,
        closes: false,
    };
    let found = run_by_itself(rt, &mut text, &jobs, how);
    equal(&rt, &numbers_of(&found), &[1000, 0, 1000, 1000, 0, 0]);
    holds(&rt, text.as_str().ends_with("> Pending\n"));
}

/// Three threads put while a fourth closes, which is started after this many of them.
fn closing_after(place: usize) -> [Job; 4] {
    let mut jobs = [keys(100, 1), keys(100, 2), keys(100, 3), keys(100, 4)];
    if place < 4 {
        jobs[place] = Job::Close;
    }
    jobs
}

#[test]
fn closing(rt: HostRuntime) {
    let how = Use {
        capacity: NonZeroUsize::MIN,
        polls: 0,
        closes: false,
    };
    for place in 0..4_usize {
        let mut text = String::new(rt.alloc());
        let jobs = closing_after(place);
        let found = run_by_itself(rt, &mut text, &jobs, how);
        let put = found.tally.ok.saturating_add(found.tally.backoff);
        equal(&rt, &numbers_of(&found), &[300, 0, put, put, 1, 0]);
        holds(&rt, text.as_str().ends_with("> Ready(None)\n"));
    }
}

/// Five hundred fetches of key 7, for subscribers from this one on.
fn five_hundred(subscriber: u16) -> Job {
    Job::Put(Puts {
        count: 500,
        subscriber,
        is_one_key: true,
    })
}

#[test]
fn full_desk(rt: HostRuntime) {
    let mut text = String::new(rt.alloc());
    let jobs = [five_hundred(0), five_hundred(500)];
    let how = Use {
        capacity: NonZeroUsize::MIN,
        polls: 0,
        closes: true,
    };
    let found = run_by_itself(rt, &mut text, &jobs, how);
    equal_texts(
        &rt,
        text.as_str(),
        "> Some((1, 7, 1))\n> Some((1, 7, 999))\n> Ready(None)\n",
    );
    equal(&rt, &[found.tally.ok, found.tally.backoff], &[1, 999]);
    equal(&rt, &numbers_of(&found), &[1000, 0, 1000, 1000, 1, 0]);
}
