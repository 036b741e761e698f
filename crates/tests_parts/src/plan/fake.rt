//! A resolver in memory that writes down what it is told, and refuses one call.

ghost use Rattle.std.specs.Prelude.{◌≡◌, ◌≤◌, ◌+◌, ◌≢◌, IfErr};
ghost use Rattle.resolver_base.specs.declared.fault.Fault.TheVariants.{Exhausted, OutOfMemory};

use resolver_backfill::Without;
use resolver_base::{Fault, Feedback};
use resolver_runtime::{Resolver, TargetedResolver};
use resolver_types::{Fetch, NonEmptyVec};
use std::alloc::{AllocError, Global};
use std::fmt::Write;
use tests_support::names::Letter;

/// What the refused call answers.
#[derive(Clone, Copy, Debug)]
pub enum Refusal {
    Closed,
    OutOfMemory,
}

/// A resolver that counts its calls. What the refused one is told isn't written down.
#[derive(Clone, Drop)]
pub struct Fake {
    pub told: String,
    alloc: Global,
    calls: u64,
    /// Which call is refused, counted from 1; none where it is 0.
    refused: u64,
    refusal: Refusal,
}

impl Fake {
    /// Nothing was told.
    pub fn new(alloc: Global, refused: u64, refusal: Refusal) -> Fake {
        Fake {
            told: String::new(alloc),
            alloc,
            calls: 0,
            refused,
            refusal,
        }
    }

    /// One more call with these words, and its answer.
    fn call(&mut self, words: &str) -> Result<Feedback, Fault>
        ensures once { self.new.calls ≤ self.old.calls + 1 }
        ensures only { IfErr result (λ fault. fault ≡ OutOfMemory) }
    {
        self.calls = self.calls.saturating_add(1);
        if self.calls != self.refused {
            self.told.push_str(words)?;
            self.told.push_str("\n")?;
            return Ok(Feedback::Ok);
        }
        match self.refusal {
            Refusal::Closed => Ok(Feedback::Closed),
            Refusal::OutOfMemory => Err(Fault::OutOfMemory),
        }
    }
}

/// Adds a fetch to some words.
pub fn spell_fetch(words: &mut String, fetch: &Fetch<Letter, u8>) -> Result<(), AllocError> {
    let (key, subscriber, mark) = (fetch.key.0, fetch.subscriber, fetch.mark);
    write!(words, " {key}/{subscriber}/{mark}")
}

/// Adds what lets a subscriber go to some words.
pub fn spell_without(words: &mut String, without: &Without<Letter, u8>) -> Result<(), AllocError> {
    write!(words, " {}", without.subscriber())?;
    for key in without.keys() {
        write!(words, " {}", key.0)?;
    }
    let Some(bound) = without.bound() else {
        return Ok(());
    };
    write!(words, " below {}", bound.0)
}

impl Resolver for Fake {
    type Key = Letter;

    type Subscriber = u8;

    type Predicate = Without<Letter, u8>;

    ghost asks = { λ was _ _ now. now.calls ≤ was.calls + 1 };

    ghost retains = { λ was _ _ now. now.calls ≤ was.calls + 1 };

    fn fetch(&mut self, fetch: Fetch<Letter, u8>) -> Result<Feedback, Fault>
        ensures once { self.new.calls ≤ self.old.calls + 1 }
        ensures only { IfErr result (λ fault. fault ≢ OutOfMemory → fault ≡ Exhausted) }
    {
        let mut words = String::new(self.alloc);
        words.push_str("one")?;
        spell_fetch(&mut words, &fetch)?;
        self.call(words.as_str())
    }

    fn fetch_all(&mut self, fetches: Vec<Fetch<Letter, u8>>) -> Result<Feedback, Fault>
        ensures once { self.new.calls ≤ self.old.calls + 1 }
        ensures only { IfErr result (λ fault. fault ≢ OutOfMemory → fault ≡ Exhausted) }
    {
        let mut words = String::new(self.alloc);
        words.push_str("ask")?;
        for fetch in &fetches {
            spell_fetch(&mut words, fetch)?;
        }
        self.call(words.as_str())
    }

    fn retain(&mut self, keep: Without<Letter, u8>) -> Result<Feedback, Fault>
        ensures once { self.new.calls ≤ self.old.calls + 1 }
        ensures only { IfErr result (λ fault. fault ≢ OutOfMemory → fault ≡ Exhausted) }
    {
        let mut words = String::new(self.alloc);
        words.push_str("let go")?;
        spell_without(&mut words, &keep)?;
        self.call(words.as_str())
    }
}

impl TargetedResolver for Fake {
    type PublicKey = Letter;

    ghost asks_of = { λ was _ _ now. now.calls ≤ was.calls + 1 };

    fn fetch_targeted(
        &mut self,
        fetch: Fetch<Letter, u8>,
        targets: NonEmptyVec<Letter>,
    ) -> Result<Feedback, Fault>
        ensures once { self.new.calls ≤ self.old.calls + 1 }
        ensures only { IfErr result (λ fault. fault ≢ OutOfMemory → fault ≡ Exhausted) }
    {
        let mut words = String::new(self.alloc);
        words.push_str("one")?;
        spell_fetch(&mut words, &fetch)?;
        spell_targets(&mut words, &targets)?;
        self.call(words.as_str())
    }

    fn fetch_all_targeted(
        &mut self,
        fetches: Vec<(Fetch<Letter, u8>, NonEmptyVec<Letter>)>,
    ) -> Result<Feedback, Fault>
        ensures once { self.new.calls ≤ self.old.calls + 1 }
        ensures only { IfErr result (λ fault. fault ≢ OutOfMemory → fault ≡ Exhausted) }
    {
        let mut words = String::new(self.alloc);
        words.push_str("ask")?;
        for (fetch, targets) in &fetches {
            spell_fetch(&mut words, fetch)?;
            spell_targets(&mut words, targets)?;
        }
        self.call(words.as_str())
    }
}

/// Adds whom a fetch may be asked of to some words.
fn spell_targets(words: &mut String, targets: &NonEmptyVec<Letter>) -> Result<(), AllocError> {
    for target in targets.as_slice() {
        write!(words, "@{}", target.0)?;
    }
    Ok(())
}
