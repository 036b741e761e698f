//! Mailboxes that are opened.

ghost use Rattle.std.specs.Prelude.{◌≡◌, [], false, true, None, IfOk, IfErr};
ghost use Rattle.resolver_base.specs.declared.fault.Fault.TheVariants.{OutOfMemory};

use crate::mailbox::counted::{Counted, Seat};
use crate::mailbox::naming::{Naming, Pages, Unrecorded};
use crate::mailbox::receiver::Receiver;
use crate::mailbox::sender::{Sender, Shared};
use crate::mailbox::taken::Taken;
use futures::task::Source;
use resolver_base::{Faithful, Fault};
use resolver_messages::Metadata;
use resolver_types::Predicate;
use std::alloc::Global;
use std::hash::Hash;
use std::num::NonZeroUsize;
use std::sync::{Arc, Mutex};

/// A mailbox with room for this many ready messages. Takes the memory for them.
pub fn new<
    K: Ord + Hash + Faithful + Drop,
    S: Ord + Faithful + Drop,
    M: Metadata + Drop,
    Q: Predicate<K, S> + Faithful + Drop,
    R: Copy,
>(
    rt: R,
    alloc: Global,
    capacity: NonZeroUsize,
) -> Result<
    (
        Sender<K, S, M, Q, Unrecorded, R>,
        Receiver<K, S, M, Q, Unrecorded, R>,
    ),
    Fault,
>
    ensures share { IfOk result (λ ends. ends.0 ≡ None) }
    ensures taken { IfOk result (λ ends. ends.1.taken ≡ []) }
    ensures only { IfErr result (λ fault. fault ≡ OutOfMemory) }
{
    let state = Counted::unrecorded(alloc, capacity)?;
    ends(rt, alloc, state, Taken::unrecorded(alloc))
}

/// The same, with a book of the calls. Its puts and takes are counted in these two ledgers, which
/// `N` names.
pub fn recorded<
    K: Ord + Hash + Faithful + Drop,
    S: Ord + Faithful + Drop,
    M: Metadata + Drop,
    Q: Predicate<K, S> + Faithful + Drop,
    N: Naming,
    R: Copy,
>(
    rt: R,
    alloc: Global,
    pages: Pages,
    capacity: NonZeroUsize,
) -> Result<(Sender<K, S, M, Q, N, R>, Receiver<K, S, M, Q, N, R>), Fault>
    requires recorded { N.is_recorded ≡ true }
    requires puts { pages.puts.name ≡ N.puts }
    requires takes { pages.takes.name ≡ N.takes }
    ensures share { IfOk result (λ ends. ends.0 ≡ None) }
    ensures taken { IfOk result (λ ends. ends.1.taken ≡ []) }
    ensures only { IfErr result (λ fault. fault ≡ OutOfMemory) }
{
    let (state, part) = Counted::recorded(alloc, capacity, pages)?;
    ends(rt, alloc, state, Taken::new(alloc, part))
}

/// The first handle and the receiver of a mailbox of which nothing was taken.
fn ends<
    K: Ord + Hash + Faithful + Drop,
    S: Ord + Faithful + Drop,
    M: Metadata + Drop,
    Q: Predicate<K, S> + Faithful + Drop,
    N: Naming,
    R: Copy,
>(
    rt: R,
    alloc: Global,
    state: Counted<K, S, M, Q, N, R>,
    taken: Taken<K, S, M, Q, N>,
) -> Result<(Sender<K, S, M, Q, N, R>, Receiver<K, S, M, Q, N, R>), Fault>
    requires { taken ≡ [] }
    ensures share { IfOk result (λ ends. ends.0 ≡ None) }
    ensures taken { IfOk result (λ ends. ends.1.taken ≡ []) }
    ensures only { IfErr result (λ fault. fault ≡ OutOfMemory) }
{
    let shared = Shared {
        arrived: Source::new(),
        state: Mutex::new(state),
    };
    let (shared, same) = shared_by_two(alloc, shared)?;
    let sender = Sender {
        alloc,
        shared: same,
        seat: Seat::new(rt),
    };
    let receiver = Receiver {
        rt,
        alloc,
        shared,
        taken,
    };
    Ok((sender, receiver))
}

/// A value that two share.
fn shared_by_two<T: Drop>(alloc: Global, value: T) -> Result<(Arc<T>, Arc<T>), Fault>
    ensures only { IfErr result (λ fault. fault ≡ OutOfMemory) }
{
    let shared = Arc::new(alloc, value)?;
    let same = Arc::try_clone(&shared)?;
    Ok((shared, same))
}
