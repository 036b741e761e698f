//! What a resolver's users ask of it.

ghost use Rattle.std.specs.Prelude.{◌≡◌, ◌≢◌, List, [], ◌∷◌, Result, IfErr};
ghost use Rattle.resolver_base.specs.declared.fault.Fault.{Fault};
ghost use Rattle.resolver_base.specs.declared.fault.Fault.TheVariants.{Exhausted, OutOfMemory};
ghost use Rattle.resolver_base.specs.declared.feedback.Feedback.{Feedback};
ghost use Rattle.resolver_types.specs.declared.fetch.Fetch.{Fetch};

use resolver_base::{Fault, Feedback, PublicKey, Span};
use resolver_types::{Fetch, NonEmptyVec, Predicate};

/// A handle through which data is fetched by key. A clone is another handle of the same resolver.
///
/// Each call leaves one message with the resolver, and is answered at once: Ok, Backoff where the
/// caller does well to slow down, and Closed where the resolver takes no messages any more, nor
/// will. Where memory is refused (`OutOfMemory`), or a number for the handle (`Exhausted`), it
/// leaves none.
///
/// What a call does is said by a ghost relation for each kind of call, over the handle before it, what it
/// asks for, its answer, and the handle after it. Generic code knows nothing else of these relations: so a
/// contract that says one of its handle says that exactly one call was made through it, this one, and
/// that its answer was handed on. Each implementation says what the relation is.
pub trait Resolver: Clone + Send + 'static {
    /// How data is named.
    type Key: Span;

    /// Who wants it.
    type Subscriber: Clone + Ord;

    /// Which subscribers stay.
    type Predicate: Predicate<Self::Key, Self::Subscriber>;

    /// One call that asks for these keys, of any peer: how it finds the handle, what it answers, and how it
    /// leaves the handle.
    ghost asks: { Self → List (Fetch Self.Key Self.Subscriber)
        → Result Feedback Fault → Self → Type 0 };

    /// One call that drops all whom this predicate doesn't keep, likewise.
    ghost retains: { Self → Self.Predicate → Result Feedback Fault → Self → Type 0 };

    /// Asks for a key on behalf of a subscriber, of any peer. The fetch persists until it is retired: by a
    /// delivery that names the subscriber and is judged `Complete` or dropped, by a verdict that retires the key, or by a
    /// `retain` that doesn't keep it. To ask again before that changes nothing, the mark neither. A key with
    /// targets loses them.
    fn fetch(&mut self, fetch: Fetch<Self::Key, Self::Subscriber>) -> Result<Feedback, Fault>
        ensures asked { asks self.old (fetch ∷ []) result self.new }
        ensures only { IfErr result (λ fault. fault ≢ OutOfMemory → fault ≡ Exhausted) };

    /// Asks for several keys by one message, also where there is none.
    fn fetch_all(
        &mut self,
        fetches: Vec<Fetch<Self::Key, Self::Subscriber>>,
    ) -> Result<Feedback, Fault>
        ensures asked { asks self.old fetches.items result self.new }
        ensures only { IfErr result (λ fault. fault ≢ OutOfMemory → fault ≡ Exhausted) };

    /// Drops all subscribers that aren't kept, and the keys that nobody wants then: their requests and
    /// deliveries are called off. It asks the predicate about each subscriber of each key.
    fn retain(&mut self, keep: Self::Predicate) -> Result<Feedback, Fault>
        ensures retained { retains self.old keep result self.new }
        ensures only { IfErr result (λ fault. fault ≢ OutOfMemory → fault ≡ Exhausted) };
}

/// A resolver that can be told which peers are likely to have the data.
pub trait TargetedResolver: Resolver {
    /// How peers are named.
    type PublicKey: PublicKey;

    /// One call that asks for these keys, each of its own peers alone, as `asks` has it of any peer.
    ghost asks_of: { Self → List (Fetch Self.Key Self.Subscriber × List Self.PublicKey)
        → Result Feedback Fault → Self → Type 0 };

    /// Asks for a key, of these peers alone. Nobody else is asked for it, whatever comes of these: one that
    /// isn't in the set of peers, or is blocked, is asked once it is there, and a target that never is is never
    /// asked. Targets of several calls add up; a call without targets clears them, for good while the key is
    /// wanted, and a key that is asked of any peer stays so.
    fn fetch_targeted(
        &mut self,
        fetch: Fetch<Self::Key, Self::Subscriber>,
        targets: NonEmptyVec<Self::PublicKey>,
    ) -> Result<Feedback, Fault>
        ensures asked { asks_of self.old ((fetch, targets) ∷ []) result self.new }
        ensures only { IfErr result (λ fault. fault ≢ OutOfMemory → fault ≡ Exhausted) };

    /// Asks for several keys by one message, each of its own peers alone.
    fn fetch_all_targeted(
        &mut self,
        fetches: Vec<
            (
                Fetch<Self::Key, Self::Subscriber>,
                NonEmptyVec<Self::PublicKey>,
            ),
        >,
    ) -> Result<Feedback, Fault>
        ensures asked { asks_of self.old fetches.items result self.new }
        ensures only { IfErr result (λ fault. fault ≢ OutOfMemory → fault ≡ Exhausted) };
}
