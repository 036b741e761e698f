//! The engine, with all that it owns.

ghost use Rattle.std.specs.Prelude.{◌≡◌, ◌≢◌, ◌⊎◌, ℕ, length, map, None, IfErr, IfOk};
ghost use Rattle.std.specs.List.{IsDistinct};
ghost use Rattle.std.specs.List.Sorted.{IsStrictlySortedBy};
ghost use Rattle.std.specs.Ordering.{is_eq};
ghost use Rattle.resolver_base.specs.declared.fault.Fault.TheVariants.{OutOfMemory};
ghost use Rattle.resolver_fetch_scan.specs.Fetcher.{IsTimely};
ghost use Rattle.resolver_fetch_scan.specs.FetcherLaws.{AllAre};
ghost use Rattle.resolver_model.specs.declared.status.Status.TheVariants.{Failed};
ghost use Rattle.resolver_model_peer.specs.Parties.{parties};
ghost use Rattle.resolver_model_peer.specs.Peer.{Machine, active_deadline, opening, wake_up};
ghost use Rattle.resolver_core.specs.Asking.{CanBeAnswered};
ghost use Rattle.resolver_core.specs.EngineLaws.{RunsWell};
ghost use Rattle.resolver_core.specs.Taking.{Took};
ghost use Rattle.resolver_peer_step.specs.EngineSteps.{Takes, all_fed};
ghost use Rattle.resolver_core.specs.Listed.{listed, listed_row};
ghost use Rattle.resolver_core.specs.Phased.{IsPhased};
ghost use Rattle.resolver_core.specs.Matching.{Matches};
ghost use Rattle.resolver_peer_step.specs.Said.{answer_of, codec, fed_of};
ghost use Rattle.resolver_peer_step.specs.Tied.{fetcher_of};
ghost use Rattle.resolver.specs.Configured.{fetching};

use crate::p2p::answers::Asking;
use crate::p2p::config::Config;
use crate::p2p::hands::Hands;
use crate::p2p::looping::Loop;
use crate::p2p::mail::Mail;
use crate::p2p::monitor::{Monitor, Shown};
use bytes::Bytes;
use resolver_base::{Draws, Faithful, Fault, PublicKey, Sender, Span};
use resolver_core::p2p::rows::Row;
use resolver_core::p2p::{Core, Phases};
use resolver_fetch::fetcher;
use resolver_handles::mailbox::Mailbox;
use resolver_mailbox::mailbox;
use resolver_mailbox::mailbox::Unrecorded;
use resolver_metrics::metrics::Metrics;
use resolver_model_peer::effects::Effect;
use resolver_model_peer::inputs::Input;
use resolver_runtime::{
    Blocker, Clock, Consumer, Peers, Producer, Provider, Receiver, Unwatched, Watcher,
};
use resolver_types::Predicate;
use std::alloc::Global;
use std::hash::Hash;
use std::marker::Model;

/// Fetches keys from peers, and owns what its loop is to poll: the end of its mailbox that takes
/// messages, the sources of peers, the consumer and the producer.
///
/// Contracts see it as its core: of each peer machine that it matches it does what the machine
/// does. `step` and what it is made of take no lock, and touch neither consumer nor producer: what
/// they are to do comes out as effects.
#[derive(Drop)]
pub struct Engine<
    P: Ord + Faithful + Drop,
    D,
    B,
    K: Ord + Hash,
    S: Ord,
    C,
    O,
    Q: Predicate<K, S>,
    R,
> {
    pub(crate) rt: R,
    alloc: Global,
    core: Core<K, P, S, Q>,
    shown: Option<Shown<K, P, S>>,
    mail: Mail<K, P, S, Q, R>,
    peer_provider: D,
    blocker: B,
    consumer: C,
    producer: O,
}

impl<P: Ord + Faithful + Drop, D, B, K: Ord + Hash, S: Ord, C, O, Q: Predicate<K, S>, R> Model
    for Engine<P, D, B, K, S, C, O, Q, R> {
    ghost use Rattle.resolver_core.specs.Matching as matching;

    ghost Value = { matching.Engine K S P };

    ghost view = { λ a. a.core };
}

impl<
    P: PublicKey + Faithful + Drop,
    D: Provider<PublicKey = P> + Drop,
    B: Blocker<PublicKey = P> + Drop,
    K: Span + Faithful + Drop,
    S: Ord + Faithful + Drop,
    C: Consumer<Key = K, Value = Bytes, Subscriber = S> + Drop,
    O: Producer<Key = K> + Drop,
    Q: Predicate<K, S> + Faithful + Drop,
    R: Copy,
> Engine<P, D, B, K, S, C, O, Q, R> {
    /// An engine without demand, that knows no peer, and a handle of its mailbox. Nothing runs yet: `start`
    /// runs it in a thread, `into_loop` answers its loop, and `step` feeds it by hand.
    ///
    /// `rt` is what handles wait with and threads are made of; it is copied. The timeout is from 1 on, and together with
    /// the delay below 2^94 nanoseconds. `OutOfMemory`, the only error, drops all that was lent.
    pub fn new(
        rt: R,
        alloc: Global,
        cfg: Config<P, D, B, C, O>,
    ) -> Result<(Self, Mailbox<K, P, S, Q, Unrecorded, R>), Fault>
        requires { IsTimely cfg.fetch_timeout cfg.fetch_retry_delay }
        ensures opens { IfOk result (λ made. Matches (parties K.cmp S.cmp P.cmp) made.0
            (opening (fetching cfg) cfg.priority_responses)) }
        ensures share { IfOk result (λ made. made.1 ≡ None) }
        ensures only { IfErr result (λ fault. fault ≡ OutOfMemory) }
    {
        let (sender, mail) = mailbox::new(rt, alloc, cfg.mailbox_size)?;
        let configuration = fetcher::Config {
            me: cfg.me,
            fetch_timeout: cfg.fetch_timeout,
            retry_delay: cfg.fetch_retry_delay,
            peer_limit: cfg.peer_limit,
            priority_requests: cfg.priority_requests,
        };
        let engine = Engine {
            rt,
            alloc,
            core: Core::new(alloc, configuration, cfg.priority_responses),
            shown: None,
            mail,
            peer_provider: cfg.peer_provider,
            blocker: cfg.blocker,
            consumer: cfg.consumer,
            producer: cfg.producer,
        };
        Ok((engine, Mailbox::over(alloc, sender)))
    }

    /// A look at the engine, for threads that want its counts, or its rows, while its loop runs. Each call answers
    /// another look at the same. Where memory is refused (`OutOfMemory`), nothing changes.
    pub fn monitor(&mut self) -> Result<Monitor<K, P, S>, Fault>
        ensures stays { self.new ≡ self.old }
        ensures only { IfErr result (λ fault. fault ≡ OutOfMemory) }
    {
        if let Some(shown) = &self.shown {
            return shown.monitor();
        }
        let shown = Shown::new(self.alloc, self.core.metrics(), self.core.phases())?;
        let monitor = shown.monitor()?;
        self.shown = Some(shown);
        Ok(monitor)
    }

    /// The engine's loop over this network, clock and source of draws, which its caller polls in a
    /// thread. Where memory is refused, all is dropped, and the mailbox stays open.
    pub fn into_loop<X, Y, W, G>(
        self,
        network: (X, Y),
        clock: W,
        draws: G,
    ) -> Result<Loop<P, D, B, K, S, C, O, Q, R, X, Y, W, G>, Fault>
    where
        X: Sender<PublicKey = P> + Drop,
        Y: Receiver<PublicKey = P> + Drop,
        W: Clock + Drop,
        G: Draws + Drop,
        C::Outcome: Drop,
        ensures only { IfErr result (λ fault. fault ≡ OutOfMemory) }
    {
        self.into_watched_loop(network, clock, draws, Unwatched)
    }

    /// As `into_loop`, with a loop that tells this watcher what it takes and does.
    pub fn into_watched_loop<X, Y, W, G, T>(
        self,
        network: (X, Y),
        clock: W,
        draws: G,
        watcher: T,
    ) -> Result<Loop<P, D, B, K, S, C, O, Q, R, X, Y, W, G, T>, Fault>
    where
        X: Sender<PublicKey = P> + Drop,
        Y: Receiver<PublicKey = P> + Drop,
        W: Clock + Drop,
        G: Draws + Drop,
        C::Outcome: Drop,
        T: Watcher<Input<K, P, S, Q>, Effect<K, P, S>> + Drop,
        ensures only { IfErr result (λ fault. fault ≡ OutOfMemory) }
    {
        let Engine {
            rt: _,
            alloc,
            core,
            shown,
            mail,
            peer_provider,
            blocker,
            consumer,
            producer,
        } = self;
        let (sender, receiver) = network;
        let peers = Peers::new(peer_provider, blocker);
        let asking = Asking { sender, draws };
        let hands = Hands::new(alloc, peers, consumer, producer, asking)?;
        Ok(Loop {
            core,
            shown,
            mail,
            hands,
            receiver,
            clock,
            watcher,
        })
    }
}

impl<
    P: Ord + Faithful + Drop,
    D,
    B,
    K: Span + Drop,
    S: Ord + Clone + Drop,
    C,
    O,
    Q: Predicate<K, S> + Drop,
    R,
> Engine<P, D, B, K, S, C, O, Q, R> {
    /// Takes one input and answers with its effects, in order. It waits for nobody.
    ///
    /// `OutOfMemory` and `Exhausted` fail the engine for good: each later step answers `Failed` and
    /// changes nothing, as after `End` each answers `Ended`. While a scan expects an answer, an
    /// event is `Busy`; an answer that no scan expects is `Unasked`, and a number past what was
    /// asked for `OutOfRange`: then nothing changes. What is passed over takes no memory. A number is
    /// asked for below a bound above 0.
    pub fn step(&mut self, input: Input<K, P, S, Q>) -> Result<Vec<Effect<K, P, S>>, Fault>
        requires keys_clone { (x y : K) → K.is_clone x y → y ≡ x }
        requires peers_clone { (x y : P) → P.is_clone x y → y ≡ x }
        requires subscribers_clone { (x y : S) → S.is_clone x y → y ≡ x }
        ensures answerable { IfOk result (λ effects. AllAre CanBeAnswered effects.items) }
        ensures takes { (m : Machine K S P) (moment : ℕ) → Matches (parties K.cmp S.cmp P.cmp) self.old m
            → (n : Machine K S P) × Takes (parties K.cmp S.cmp P.cmp)
            (codec K.SIZE K.bytes_of K.read_from) m
            (fed_of (codec K.SIZE K.bytes_of K.read_from) Q.keeps moment input)
            (answer_of result) n × Matches (parties K.cmp S.cmp P.cmp) self.new n }
    {
        self.core.step(input)
    }

    /// Takes inputs one after another, with one answer each, up to the first `OutOfMemory` or
    /// `Exhausted` among the answers. It runs well, as the core does.
    ///
    /// The call itself answers `OutOfMemory` where the list of answers can't be made: then no
    /// input was taken and nothing has changed.
    pub fn run(
        &mut self,
        inputs: Vec<Input<K, P, S, Q>>,
    ) -> Result<Vec<Result<Vec<Effect<K, P, S>>, Fault>>, Fault>
        requires keys_clone { (x y : K) → K.is_clone x y → y ≡ x }
        requires peers_clone { (x y : P) → P.is_clone x y → y ≡ x }
        requires subscribers_clone { (x y : S) → S.is_clone x y → y ≡ x }
        ensures took { IfOk result (λ answers. (m : Machine K S P) (moment : ℕ)
            → Matches (parties K.cmp S.cmp P.cmp) self.old m
            → Took (parties K.cmp S.cmp P.cmp) (codec K.SIZE K.bytes_of K.read_from) Q.keeps
            m moment inputs.items answers.items self.new) }
        ensures runs { IfOk result (λ answers. (m : Machine K S P) (moment : ℕ)
            → Matches (parties K.cmp S.cmp P.cmp) self.old m
            → RunsWell (parties K.cmp S.cmp P.cmp) (codec K.SIZE K.bytes_of K.read_from) m
            (all_fed (codec K.SIZE K.bytes_of K.read_from) Q.keeps moment inputs.items)
            (map answer_of answers.items) self.new) }
        ensures err { IfErr result
            (λ fault. (fault ≡ OutOfMemory) × (self.new ≡ self.old)) }
    {
        self.core.run(inputs)
    }

    /// The demanded keys, in their order: each stands in one row, so in one phase. Once the engine
    /// has failed the answer is `Failed`. It takes time linear in what is listed, times a logarithm.
    pub fn rows(&self) -> Result<Vec<Row<K, S, P>>, Fault>
        requires keys_clone { (x y : K) → K.is_clone x y → y ≡ x }
        requires peers_clone { (x y : P) → P.is_clone x y → y ≡ x }
        requires subscribers_clone { (x y : S) → S.is_clone x y → y ≡ x }
        ensures rows { (m : Machine K S P) → Matches (parties K.cmp S.cmp P.cmp) self.now m
            → IfOk result (λ rows. rows.items ≡ map listed m.rows) }
        ensures once { IfOk result
            (λ rows. IsDistinct (λ k l. is_eq (K.cmp k l)) (map (λ row. row.key) rows.items)) }
        ensures ordered { IfOk result
            (λ rows. IsStrictlySortedBy K.cmp (map (λ row. row.key) rows.items)) }
        ensures only { IfErr result (λ fault. (fault ≡ OutOfMemory)
            ⊎ ((fault ≡ Fault.Failed) × (self.now.status ≡ Failed))) }
    {
        self.core.rows()
    }

    /// The row of a key as `rows` lists it, if the key is demanded. Once the engine has failed the
    /// answer is `Failed`. It takes time logarithmic in the keys, and linear in the key's subscribers
    /// and targets, which are copied.
    pub fn row(&self, key: &K) -> Result<Option<Row<K, S, P>>, Fault>
        requires keys_clone { (x y : K) → K.is_clone x y → y ≡ x }
        requires peers_clone { (x y : P) → P.is_clone x y → y ≡ x }
        requires subscribers_clone { (x y : S) → S.is_clone x y → y ≡ x }
        ensures row { (m : Machine K S P) → Matches (parties K.cmp S.cmp P.cmp) self.now m
            → IfOk result (λ row. row ≡ listed_row (parties K.cmp S.cmp P.cmp) m key.now) }
        ensures only { IfErr result (λ fault. (fault ≡ OutOfMemory)
            ⊎ ((fault ≡ Fault.Failed) × (self.now.status ≡ Failed))) }
    {
        self.core.row(key)
    }

    /// When a scan may do something, if a key waits. It takes time logarithmic in the waiting keys.
    pub fn get_pending_deadline(&self) -> Option<u128>
        ensures { (m : Machine K S P) → Matches (parties K.cmp S.cmp P.cmp) self.now m
            → m.status ≢ Failed → result ≡ wake_up (parties K.cmp S.cmp P.cmp) m }
    {
        self.core.get_pending_deadline()
    }

    /// When the time of a request is over next, if there is a request.
    pub fn get_active_deadline(&self) -> Option<u128>
        ensures { (m : Machine K S P) → Matches (parties K.cmp S.cmp P.cmp) self.now m
            → m.status ≢ Failed → result ≡ active_deadline (parties K.cmp S.cmp P.cmp) m }
    {
        self.core.get_active_deadline()
    }

    /// What the engine has counted since it was made, and how many keys wait, requests have no
    /// answer and serves are open now.
    pub fn metrics(&self) -> Metrics
        ensures pending { (m : Machine K S P) → Matches (parties K.cmp S.cmp P.cmp) self.now m
            → m.status ≢ Failed
            → result.fetch_pending ≡ length (fetcher_of (parties K.cmp S.cmp P.cmp) m).waiting }
        ensures active { (m : Machine K S P) → Matches (parties K.cmp S.cmp P.cmp) self.now m
            → m.status ≢ Failed
            → result.fetch_active ≡ length (fetcher_of (parties K.cmp S.cmp P.cmp) m).asked }
        ensures serves { (m : Machine K S P) → Matches (parties K.cmp S.cmp P.cmp) self.now m
            → m.status ≢ Failed → result.serve_processing ≡ length m.serves }
    {
        self.core.metrics()
    }

    /// How many demanded keys are in each phase now.
    pub fn phases(&self) -> Phases
        ensures { (m : Machine K S P) → Matches (parties K.cmp S.cmp P.cmp) self.now m
            → m.status ≢ Failed → IsPhased (parties K.cmp S.cmp P.cmp) m result }
    {
        self.core.phases()
    }
}
