//! What answers the questions of a scan.

ghost use Rattle.std.specs.Prelude.{◌≡◌, IfErr, IfOk};
ghost use Rattle.resolver_base.specs.declared.fault.Fault.TheVariants.{OutOfMemory};
ghost use Rattle.resolver_fetch.specs.Fetching.{Says, outside};
ghost use Rattle.resolver_fetch.specs.Progress.{IsAnswerable};

use bytes::Bytes;
use resolver_base::{Draws, Fault, PublicKey, Sender, Span};
use resolver_fetch::fetcher::{Answer, Ask, answer_to};
use std::alloc::Global;

/// The way to the peers, and a source of numbers: what a scan asks is answered at once from these.
#[derive(Drop)]
pub(crate) struct Asking<X, G> {
    pub(crate) sender: X,
    pub(crate) draws: G,
}

impl<X: Sender, G: Draws> Asking<X, G>
where
    X::PublicKey: PublicKey + Drop,
{
    /// Answers a question: what the draws or the sender say to it is the answer. Where memory for a request's bytes
    /// is refused, nothing was sent.
    pub(crate) fn answer<K: Span + Drop>(
        &mut self,
        alloc: Global,
        ask: Ask<K, X::PublicKey>,
    ) -> Result<Answer, Fault>
        requires answerable { IsAnswerable ask }
        ensures says { IfOk result (λ answer. Says
            (outside K.bytes_of X.check_gives X.send_gives G.below_gives) ask answer
            self.old.sender self.old.draws self.new.sender self.new.draws) }
        ensures only { IfErr result (λ fault. fault ≡ OutOfMemory) }
    {
        answer_to(alloc, &mut self.sender, &mut self.draws, ask)
    }

    /// Sends a message, and says whether it is on its way.
    pub(crate) fn send(&mut self, peer: &X::PublicKey, message: Bytes, priority: bool) -> bool {
        self.sender.send(peer, message, priority).is_accepted()
    }
}
