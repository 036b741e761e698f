//! Who is told what a loop does.

/// What is told of all that a loop's machine takes and wants done, so that a node logs, traces or records what its
/// engine does. `I` is what the machine takes, with its moment, and `E` what it wants done.
///
/// The loop tells of each input once, in order, before the machine takes it; and of each effect that comes of it once,
/// in order, before it is carried out. An input of which no effect is told had none, or was refused: then the loop ends.
/// What is told of is lent, and nothing is answered, so a watcher changes nothing of what the loop does but how
/// long that takes: the loop waits for each call.
pub trait Watcher<I, E> {
    /// The machine takes this input.
    fn takes(&mut self, input: &I);

    /// The machine wants this done, which is done next.
    fn wants(&mut self, effect: &E);
}

/// Nobody: to tell it costs nothing.
#[derive(Clone, Copy, Debug, PartialEq, Eq)]
pub struct Unwatched;

impl<I, E> Watcher<I, E> for Unwatched {
    fn takes(&mut self, _: &I) {}

    fn wants(&mut self, _: &E) {}
}
