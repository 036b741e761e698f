//! What is known once a delivery is over.

ghost use Rattle.std.specs.Prelude.{◌≡◌, IfOk};

use resolver_types::{Delivery, Outcome};
use std::alloc::AllocError;

/// A delivery that is over.
#[derive(Clone, Debug, Drop, PartialEq, Eq)]
pub struct Completion<K, S, Context> {
    /// The response that was handed out, by the number of the first delivery that carried it.
    pub response: u64,
    /// What was said of the delivery when it began.
    pub context: Context,
    /// What was handed out.
    pub delivery: Delivery<K, S>,
    /// The verdict. There is none where the consumer dropped it.
    pub outcome: Option<Outcome>,
    /// Whether the key was dropped since the delivery began.
    pub canceled: bool,
    /// Whether the response was accepted when the delivery began.
    pub previously_accepted: bool,
}

impl<K: Clone, S: Clone, Context: Clone> Completion<K, S, Context> {
    /// A completion that is the same, marks included. Clones of its parts are to equal them.
    pub fn clone(&self) -> Result<Self, AllocError>
        requires keys_clone { (x y : K) → K.is_clone x y → y ≡ x }
        requires subscribers_clone { (x y : S) → S.is_clone x y → y ≡ x }
        requires contexts_clone { (x y : Context) → Context.is_clone x y → y ≡ x }
        ensures same { IfOk result (λ completion. completion ≡ self.now) }
    {
        Ok(Completion {
            response: self.response,
            context: self.context.clone()?,
            delivery: self.delivery.clone()?,
            outcome: self.outcome,
            canceled: self.canceled,
            previously_accepted: self.previously_accepted,
        })
    }
}

/// No delivery is open under this number, or it was canceled and has no verdict.
#[derive(Clone, Copy, Debug, PartialEq, Eq)]
pub struct Aborted {}
