//! A plan that has a resolver told, by at most one call of its handle.

ghost use Rattle.std.specs.Prelude.{◌≡◌, ◌≢◌, IfErr, IfOk, map};
ghost use Rattle.resolver_base.specs.declared.fault.Fault.TheVariants.{Exhausted, OutOfMemory};
ghost use Rattle.resolver_backfill.specs.Plans.{fetched, fetches_of, let_go, let_go_below, settled, settled_below, wanting};
ghost use Rattle.resolver_backfill.specs.Telling.{AsksNew, AsksOf, CallsOnce, RetainsNew, if_taken, is_taken};

use crate::plan::Plan;
use crate::without::Without;
use resolver_base::{Fault, Feedback, PublicKey, Span};
use resolver_runtime::{Resolver, TargetedResolver};
use resolver_types::{Fetch, NonEmptyVec};
use std::alloc::{AllocError, Global};

/// Wants these keys too, and asks the resolver for those that weren't wanted, by one call, of these
/// peers or of any.
///
/// Where nothing is new the resolver isn't called, so the targets of keys that are wanted already are not
/// told. Where the resolver is closed, or there is a fault, the plan stays as it was.
pub fn fill<K, S, P, R>(
    resolver: &mut R,
    plan: &mut Plan<K, S>,
    keys: &[K],
    targets: Option<NonEmptyVec<P>>,
) -> Result<Feedback, Fault>
where
    K: Span + Drop,
    S: Ord + Clone + Drop,
    P: PublicKey + Drop,
    R: TargetedResolver<Key = K, Subscriber = S, Predicate = Without<K, S>, PublicKey = P>,
    requires keys_clone { (x y : K) → K.is_clone x y → y ≡ x }
    requires subscribers_clone { (x y : S) → S.is_clone x y → y ≡ x }
    requires peers_clone { (x y : P) → P.is_clone x y → y ≡ x }
    ensures asks { AsksNew (AsksOf R.asks R.asks_of targets) (fetched K.cmp plan.old keys.now)
        resolver.old result resolver.new }
    ensures plan { plan.new ≡ if_taken result (wanting K.cmp plan.old keys.now) plan.old }
    ensures only { IfErr result (λ fault. fault ≢ OutOfMemory → fault ≡ Exhausted) }
{
    let lacking = plan.lacking(keys)?;
    if lacking.is_empty() {
        return Ok(Feedback::Ok);
    }
    let fetches = plan.fetches(&lacking)?;
    plan.add(&lacking)?;
    let answer = ask(plan.alloc(), resolver, fetches, targets);
    if !is_taken(&answer) {
        plan.forget(&lacking);
    }
    answer
}

/// Wants these keys no more, and has the resolver drop the subscriber from those that were wanted,
/// by one call.
///
/// Where none was, the resolver isn't called. Where it is closed, or there is a fault, the plan stays as
/// it was.
pub fn settle<K, S, R>(
    resolver: &mut R,
    plan: &mut Plan<K, S>,
    keys: &[K],
) -> Result<Feedback, Fault>
where
    K: Span + Drop,
    S: Ord + Clone + Drop,
    R: Resolver<Key = K, Subscriber = S, Predicate = Without<K, S>>,
    requires keys_clone { (x y : K) → K.is_clone x y → y ≡ x }
    requires subscribers_clone { (x y : S) → S.is_clone x y → y ≡ x }
    ensures retains { RetainsNew R.retains (let_go K.cmp plan.old keys.now)
        resolver.old result resolver.new }
    ensures plan { plan.new ≡ if_taken result (settled K.cmp plan.old keys.now) plan.old }
    ensures only { IfErr result (λ fault. fault ≢ OutOfMemory → fault ≡ Exhausted) }
{
    let Some(without) = plan.without(keys)? else {
        return Ok(Feedback::Ok);
    };
    let answer = resolver.retain(without);
    if is_taken(&answer) {
        plan.forget(keys);
    }
    answer
}

/// Wants the keys below this one no more, and has the resolver drop the subscriber from all keys below
/// it, by one call. The key itself stays.
///
/// Where no such key was wanted, the resolver isn't called. Where it is closed, or there is a fault, the
/// plan stays as it was.
pub fn settle_below<K, S, R>(
    resolver: &mut R,
    plan: &mut Plan<K, S>,
    bound: &K,
) -> Result<Feedback, Fault>
where
    K: Span + Drop,
    S: Ord + Clone + Drop,
    R: Resolver<Key = K, Subscriber = S, Predicate = Without<K, S>>,
    requires keys_clone { (x y : K) → K.is_clone x y → y ≡ x }
    requires subscribers_clone { (x y : S) → S.is_clone x y → y ≡ x }
    ensures retains { RetainsNew R.retains (let_go_below K.cmp plan.old bound.now)
        resolver.old result resolver.new }
    ensures plan { plan.new ≡ if_taken result (settled_below K.cmp plan.old bound.now) plan.old }
    ensures only { IfErr result (λ fault. fault ≢ OutOfMemory → fault ≡ Exhausted) }
{
    let Some(without) = plan.without_below(bound)? else {
        return Ok(Feedback::Ok);
    };
    let answer = resolver.retain(without);
    if is_taken(&answer) {
        plan.forget_below(bound);
    }
    answer
}

/// Asks the resolver again for all that is wanted, by one call, of these peers or of any. What the
/// resolver lost is asked for then, and what it has stays as it is, but for the peers that it may be
/// asked of: without targets any may.
///
/// Where nothing is wanted, the resolver isn't called.
pub fn refill<K, S, P, R>(
    resolver: &mut R,
    plan: &Plan<K, S>,
    targets: Option<NonEmptyVec<P>>,
) -> Result<Feedback, Fault>
where
    K: Span + Drop,
    S: Ord + Clone + Drop,
    P: PublicKey + Drop,
    R: TargetedResolver<Key = K, Subscriber = S, PublicKey = P>,
    requires keys_clone { (x y : K) → K.is_clone x y → y ≡ x }
    requires subscribers_clone { (x y : S) → S.is_clone x y → y ≡ x }
    requires peers_clone { (x y : P) → P.is_clone x y → y ≡ x }
    ensures asks { AsksNew (AsksOf R.asks R.asks_of targets) (fetches_of plan.now plan.now.wanted)
        resolver.old result resolver.new }
    ensures only { IfErr result (λ fault. fault ≢ OutOfMemory → fault ≡ Exhausted) }
{
    if plan.wanted().is_empty() {
        return Ok(Feedback::Ok);
    }
    let fetches = plan.again()?;
    ask(plan.alloc(), resolver, fetches, targets)
}

/// Asks for keys by one call, of these peers or of any.
fn ask<K, S, P, R>(
    alloc: Global,
    resolver: &mut R,
    fetches: Vec<Fetch<K, S>>,
    targets: Option<NonEmptyVec<P>>,
) -> Result<Feedback, Fault>
where
    K: Span + Drop,
    S: Ord + Clone + Drop,
    P: PublicKey + Drop,
    R: TargetedResolver<Key = K, Subscriber = S, PublicKey = P>,
    requires peers_clone { (x y : P) → P.is_clone x y → y ≡ x }
    ensures asks { CallsOnce (AsksOf R.asks R.asks_of targets fetches.items)
        resolver.old result resolver.new }
    ensures only { IfErr result (λ fault. fault ≢ OutOfMemory → fault ≡ Exhausted) }
{
    let Some(targets) = targets else {
        return resolver.fetch_all(fetches);
    };
    resolver.fetch_all_targeted(each_of(alloc, fetches, &targets)?)
}

/// The fetches, each with these targets.
fn each_of<K: Drop, S: Drop, P: Clone + Drop>(
    alloc: Global,
    fetches: Vec<Fetch<K, S>>,
    targets: &NonEmptyVec<P>,
) -> Result<Vec<(Fetch<K, S>, NonEmptyVec<P>)>, AllocError>
    requires peers_clone { (x y : P) → P.is_clone x y → y ≡ x }
    ensures { IfOk result
        (λ targeted. targeted.items ≡ map (λ fetch. (fetch, targets.now)) fetches.items) }
{
    let mut targeted = Vec::with_capacity(alloc, fetches.len())?;
    for fetch in fetches {
        targeted.push((fetch, targets.clone()?))?;
    }
    Ok(targeted)
}

/// Whether a message was taken.
fn is_taken(answer: &Result<Feedback, Fault>) -> bool
    ensures { result ≡ is_taken answer.now }
{
    match answer {
        Ok(Feedback::Ok | Feedback::Backoff) => true,
        Ok(Feedback::Closed) | Err(_) => false,
    }
}
