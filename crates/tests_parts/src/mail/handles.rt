//! The handles of a source and of an engine, which are asked the same, by the traits that both have.
//!
//! | Line | Says | Prints |
//! |---|---|---|
//! | `fetch K`, `fetch-all LIST` | a fetch of the key, or of each of these, for the subscriber of ten times its number | the answer |
//! | `fetch-targeted K`, `fetch-all-targeted LIST` | the same from one peer, whose number is the key's and a hundred | the answer |
//! | `retain` | a retain that keeps all | the answer |

ghost use Rattle.std.specs.Prelude.{◌≡◌, true};

use crate::mail::messages::{equal_pieces, shown};
use crate::support::{list, next, plays, print, size, unreadable, value};
use futures::task::Poll;
use futures::test::MockTask;
use resolver_base::Fault;
use resolver_handles::mailbox::Mailbox;
use resolver_handles::resolver::Resolver;
use resolver_mailbox::mailbox::{Naming, Pages, Receiver, Sender, Share, new, recorded};
use resolver_messages::{Message, Metadata};
use resolver_runtime::{Resolver as Asks, TargetedResolver};
use resolver_types::{Fetch, NonEmptyVec};
use std::alloc::Global;
use std::fmt::Debug;
use std::marker::Brand;
use std::panic::Expect;
use std::process::Abort;
use std::sync::Wait;
use tests_support::names::{All, Letter};
use tests_support::transcript::{Line, Said};

type Targets = Option<NonEmptyVec<Letter>>;

type Putter<M, N, R> = Sender<Letter, u16, M, All, N, R>;

type Mail<M, N, R> = Receiver<Letter, u16, M, All, N, R>;

/// Each call of the two traits is made.
const ASKED: &str = "# asked
fetch 1
> Ok
fetch-all -
> Ok
fetch-all 2
> Ok
fetch-all 3,4,5
> Ok
fetch-targeted 6
> Ok
fetch-all-targeted -
> Ok
fetch-all-targeted 7
> Ok
fetch-all-targeted 8,9,10
> Ok
retain
> Ok";

/// The same once the mailbox is closed.
const CLOSED: &str = "# asked once the mailbox is closed
fetch 1
> Closed
fetch-all -
> Closed
fetch-all 2
> Closed
fetch-all 3,4,5
> Closed
fetch-targeted 6
> Closed
fetch-all-targeted -
> Closed
fetch-all-targeted 7
> Closed
fetch-all-targeted 8,9,10
> Closed
retain
> Closed";

/// What was put of the source's handle, each call one message.
const PUT: &str = "> Retain(All)
> Fetch([FetchKey { key: Letter(1), subscribers: NonEmptyVec { items: [(10, 7)] }, metadata: () }])
> Fetch([])
> Fetch([FetchKey { key: Letter(2), subscribers: NonEmptyVec { items: [(20, 7)] }, metadata: () }])
> Fetch([FetchKey { key: Letter(3), subscribers: NonEmptyVec { items: [(30, 7)] }, metadata: () }, FetchKey { key: Letter(4), subscribers: NonEmptyVec { items: [(40, 7)] }, metadata: () }, FetchKey { key: Letter(5), subscribers: NonEmptyVec { items: [(50, 7)] }, metadata: () }])
> Fetch([FetchKey { key: Letter(6), subscribers: NonEmptyVec { items: [(60, 7)] }, metadata: () }])
> Fetch([])
> Fetch([FetchKey { key: Letter(7), subscribers: NonEmptyVec { items: [(70, 7)] }, metadata: () }])
> Fetch([FetchKey { key: Letter(8), subscribers: NonEmptyVec { items: [(80, 7)] }, metadata: () }, FetchKey { key: Letter(9), subscribers: NonEmptyVec { items: [(90, 7)] }, metadata: () }, FetchKey { key: Letter(10), subscribers: NonEmptyVec { items: [(100, 7)] }, metadata: () }])
> Retain(All)
";

/// What was put of the engine's handle.
const PUT_TARGETED: &str = "> Retain(All)
> Fetch([FetchKey { key: Letter(1), subscribers: NonEmptyVec { items: [(10, 7)] }, metadata: None }])
> Fetch([])
> Fetch([FetchKey { key: Letter(2), subscribers: NonEmptyVec { items: [(20, 7)] }, metadata: None }])
> Fetch([FetchKey { key: Letter(3), subscribers: NonEmptyVec { items: [(30, 7)] }, metadata: None }, FetchKey { key: Letter(4), subscribers: NonEmptyVec { items: [(40, 7)] }, metadata: None }, FetchKey { key: Letter(5), subscribers: NonEmptyVec { items: [(50, 7)] }, metadata: None }])
> Fetch([FetchKey { key: Letter(6), subscribers: NonEmptyVec { items: [(60, 7)] }, metadata: Some(NonEmptyVec { items: [Letter(106)] }) }])
> Fetch([])
> Fetch([FetchKey { key: Letter(7), subscribers: NonEmptyVec { items: [(70, 7)] }, metadata: Some(NonEmptyVec { items: [Letter(107)] }) }])
> Fetch([FetchKey { key: Letter(8), subscribers: NonEmptyVec { items: [(80, 7)] }, metadata: Some(NonEmptyVec { items: [Letter(108)] }) }, FetchKey { key: Letter(9), subscribers: NonEmptyVec { items: [(90, 7)] }, metadata: Some(NonEmptyVec { items: [Letter(109)] }) }, FetchKey { key: Letter(10), subscribers: NonEmptyVec { items: [(100, 7)] }, metadata: Some(NonEmptyVec { items: [Letter(110)] }) }])
> Retain(All)
";

/// What both handles have besides.
trait Handle {
    /// Prints what it has put.
    fn print_puts(&self, rt: &impl Abort, text: &mut String);

    /// Closes its mailbox.
    fn shut(&mut self);
}

impl<N: Naming, R: Wait> Handle for Resolver<Letter, u16, Letter, All, N, R> {
    fn print_puts(&self, rt: &impl Abort, text: &mut String) {
        print_each(rt, text, self.share());
    }

    fn shut(&mut self) {
        self.close();
    }
}

impl<N: Naming, R: Wait> Handle for Mailbox<Letter, Letter, u16, All, N, R> {
    fn print_puts(&self, rt: &impl Abort, text: &mut String) {
        print_each(rt, text, self.share());
    }

    fn shut(&mut self) {
        self.close();
    }
}

/// A fetch of a key for the subscriber of ten times its number.
fn fetch(key: u8) -> Fetch<Letter, u16> {
    Fetch {
        key: Letter(key),
        subscriber: u16::from(key).wrapping_mul(10),
        mark: 7,
    }
}

/// The same from one peer, whose number is the key's and a hundred.
fn fetch_from(
    rt: &impl Abort,
    alloc: Global,
    key: u8,
) -> (Fetch<Letter, u16>, NonEmptyVec<Letter>) {
    let peer = Letter(key.wrapping_add(100));
    let peers = NonEmptyVec::new(alloc, peer).expect(rt, "memory");
    (fetch(key), peers)
}

/// A fetch of each of these keys.
fn fetches(rt: &impl Abort, alloc: Global, keys: &[u8]) -> Vec<Fetch<Letter, u16>> {
    let mut fetches = Vec::new(alloc);
    for key in keys {
        fetches.push(fetch(*key)).expect(rt, "memory");
    }
    fetches
}

/// The same, each from one peer.
fn fetches_from(
    rt: &impl Abort,
    alloc: Global,
    keys: &[u8],
) -> Vec<(Fetch<Letter, u16>, NonEmptyVec<Letter>)> {
    let mut fetches = Vec::new(alloc);
    for key in keys {
        let fetch = fetch_from(rt, alloc, *key);
        fetches.push(fetch).expect(rt, "memory");
    }
    fetches
}

/// A handle that is asked.
#[derive(Drop)]
struct Asking<'a, H> {
    handle: &'a mut H,
}

impl<H, R: Abort> Said<R> for Asking<'_, H>
where
    H: TargetedResolver<PublicKey = Letter> + Asks<Key = Letter, Subscriber = u16, Predicate = All>,
{
    fn say(&mut self, rt: &R, line: &mut Line, printed: &mut String) {
        let alloc = *printed.allocator();
        let answer = match line.field() {
            "fetch" => self.handle.fetch(fetch(value(rt, line))),
            "fetch-all" => {
                let keys = list(rt, alloc, line);
                let fetches = fetches(rt, alloc, keys.as_slice());
                self.handle.fetch_all(fetches)
            }
            "fetch-targeted" => {
                let (fetch, targets) = fetch_from(rt, alloc, value(rt, line));
                self.handle.fetch_targeted(fetch, targets)
            }
            "fetch-all-targeted" => {
                let keys = list(rt, alloc, line);
                let fetches = fetches_from(rt, alloc, keys.as_slice());
                self.handle.fetch_all_targeted(fetches)
            }
            "retain" => self.handle.retain(All),
            _ => unreadable(rt, line),
        };
        print(rt, printed, answer.expect(rt, "an answer"));
    }
}

/// Prints what a handle has put.
fn print_each<M: Debug, N: Naming>(
    rt: &impl Abort,
    text: &mut String,
    share: Option<&Share<Letter, u16, M, All, N>>,
) {
    let (share, puts) = shown(share);
    print(rt, text, share);
    for message in puts {
        print(rt, text, message);
    }
}

/// What a poll of a receiver gives.
type Polled<M> = Poll<Option<Result<Message<Letter, u16, M, All>, Fault>>>;

/// Prints the message that a poll gives, or that there is none. Whether the receiver may have more.
fn print_polled<M: Debug>(rt: &impl Abort, text: &mut String, polled: &Polled<M>) -> bool {
    let Poll::Ready(Some(Ok(message))) = polled else {
        print(rt, text, polled);
        return false;
    };
    print(rt, text, message);
    true
}

/// Prints what the receiver gives, up to the end or where it waits.
fn print_taken<M: Metadata + Debug + Drop, N: Naming, R: Wait + Drop>(
    rt: &impl Abort,
    text: &mut String,
    task: &MockTask,
    receiver: &mut Mail<M, N, R>,
) {
    for _ in 0..11_u64 {
        let polled = next(task, receiver);
        let goes_on = print_polled(rt, text, &polled);
        if !goes_on {
            break;
        }
    }
}

/// Closes the mailbox by a clone of a handle, and prints what the clone has put.
fn close_by_clone<H: Handle + Clone + Drop>(rt: &impl Abort, text: &mut String, handle: &H) {
    let mut other = handle.clone().expect(rt, "memory");
    other.print_puts(rt, text);
    other.shut();
}

/// Asks, prints what was put then, and takes it.
fn ask_and_take<H, M: Metadata + Debug + Drop, N: Naming, R: Wait + Drop>(
    rt: &impl Abort,
    text: &mut String,
    task: &MockTask,
    handle: &mut H,
    receiver: &mut Mail<M, N, R>,
    case: &str,
)
where
    H: Asks<Key = Letter, Subscriber = u16, Predicate = All>,
    H: TargetedResolver<PublicKey = Letter> + Handle,
{
    plays(rt, *text.allocator(), &mut Asking { handle }, case);
    handle.print_puts(rt, text);
    print_taken(rt, text, task, receiver);
}

/// Asks, takes what was put, closes the mailbox, and asks and takes once more. Both are let go then.
fn use_both<H, M: Metadata + Debug + Drop, N: Naming, R: Wait + Drop>(
    rt: &impl Abort,
    text: &mut String,
    task: &MockTask,
    mut handle: H,
    mut receiver: Mail<M, N, R>,
)
where
    H: Asks<Key = Letter, Subscriber = u16, Predicate = All>,
    H: TargetedResolver<PublicKey = Letter> + Handle + Clone + Drop,
{
    ask_and_take(rt, text, task, &mut handle, &mut receiver, ASKED);
    close_by_clone(rt, text, &handle);
    ask_and_take(rt, text, task, &mut handle, &mut receiver, CLOSED);
}

/// Puts by a sender of which no handle is made yet, and prints the answer.
fn put<M: Metadata + Drop, N: Naming, R: Wait>(
    rt: &impl Abort,
    text: &mut String,
    sender: &mut Putter<M, N, R>,
) {
    let feedback = sender.enqueue(Message::Retain(All)).expect(rt, "an answer");
    print(rt, text, feedback);
}

/// The mailbox of a source that was made is used by a handle of its sender.
fn use_source<N, R>(
    rt: &impl Abort,
    text: &mut String,
    task: &MockTask,
    made: Result<(Putter<(), N, R>, Mail<(), N, R>), Fault>,
)
where
    N: Naming + Send + Sync + 'static,
    R: Wait + Copy + Drop + Send + 'static,
{
    let (mut sender, receiver) = made.expect(rt, "a mailbox");
    put(rt, text, &mut sender);
    let handle: Resolver<Letter, u16, Letter, All, N, R> = Resolver::over(
        *text.allocator(),
        sender,
    );
    use_both(rt, text, task, handle, receiver);
}

/// The mailbox of an engine that was made is used by a handle of its sender.
fn use_engine<N, R>(
    rt: &impl Abort,
    text: &mut String,
    task: &MockTask,
    made: Result<(Putter<Targets, N, R>, Mail<Targets, N, R>), Fault>,
)
where
    N: Naming + Send + Sync + 'static,
    R: Wait + Copy + Drop + Send + 'static,
{
    let (mut sender, receiver) = made.expect(rt, "a mailbox");
    put(rt, text, &mut sender);
    let handle: Mailbox<Letter, Letter, u16, All, N, R> = Mailbox::over(*text.allocator(), sender);
    use_both(rt, text, task, handle, receiver);
}

fn recorded_source<N, R>(rt: R, text: &mut String, pages: Pages, task: &MockTask)
where
    N: Naming + Send + Sync + 'static,
    R: Abort + Wait + Copy + Drop + Send + 'static,
    requires recorded { N.is_recorded ≡ true }
    requires puts { pages.puts.name ≡ N.puts }
    requires takes { pages.takes.name ≡ N.takes }
{
    let alloc = *text.allocator();
    let made = recorded::<Letter, u16, (), All, N, R>(rt, alloc, pages, size(&rt, 10));
    use_source(&rt, text, task, made);
}

fn recorded_engine<N, R>(rt: R, text: &mut String, pages: Pages, task: &MockTask)
where
    N: Naming + Send + Sync + 'static,
    R: Abort + Wait + Copy + Drop + Send + 'static,
    requires recorded { N.is_recorded ≡ true }
    requires puts { pages.puts.name ≡ N.puts }
    requires takes { pages.takes.name ≡ N.takes }
{
    let alloc = *text.allocator();
    let made = recorded::<Letter, u16, Targets, All, N, R>(rt, alloc, pages, size(&rt, 10));
    use_engine(&rt, text, task, made);
}

/// Ends the test where something else is seen of a handle whose share lists what was put.
fn is_recorded_sight(rt: &impl Abort, text: &String, put: &str) {
    let pieces = [
        "> Ok\n> Some((0, false))\n",
        put,
        put,
        "> Pending\n> None\n> Some((0, true))\n",
        put,
        "> Ready(None)\n",
    ];
    equal_pieces(rt, text, &pieces);
}

/// Ends the test where something else is seen of a handle that has no share.
fn is_sight(rt: &impl Abort, text: &String, put: &str) {
    let pieces = [
        "> Ok\n> None\n",
        put,
        "> Pending\n> None\n> None\n> Ready(None)\n",
    ];
    equal_pieces(rt, text, &pieces);
}

#[test]
fn what_a_source_is_asked_stands_in_the_share(rt: HostRuntime) {
    let task = MockTask::new(&rt).expect(&rt, "a task");
    let mut text = String::new(rt.alloc());
    recorded_source::<Brand, _>(rt, &mut text, Pages::new(), &task);
    is_recorded_sight(&rt, &text, PUT);
}

#[test]
fn what_an_engine_is_asked_stands_in_the_share(rt: HostRuntime) {
    let task = MockTask::new(&rt).expect(&rt, "a task");
    let mut text = String::new(rt.alloc());
    recorded_engine::<Brand, _>(rt, &mut text, Pages::new(), &task);
    is_recorded_sight(&rt, &text, PUT_TARGETED);
}

#[test]
fn what_is_asked_is_taken(rt: HostRuntime) {
    let (alloc, task) = (rt.alloc(), MockTask::new(&rt).expect(&rt, "a task"));
    let mut text = String::new(alloc);
    use_source(&rt, &mut text, &task, new(rt, alloc, size(&rt, 10)));
    is_sight(&rt, &text, PUT);
    text.clear();
    use_engine(&rt, &mut text, &task, new(rt, alloc, size(&rt, 10)));
    is_sight(&rt, &text, PUT_TARGETED);
}
