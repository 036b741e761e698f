//! The calls on a desk, as it keeps them.

ghost use Rattle.std.specs.Prelude.{◌≡◌, ◌<◌, ℕ, map, length, nat_eq, unwrap_or};
ghost use Rattle.std.specs.Vec.{vec_len, vec_capacity};
ghost use Rattle.resolver_desk.specs.Book.{call_of, closes, puts_of};
ghost use Rattle.std.specs.HashMap.{get};

use crate::entry::Entry;
use std::collections::HashMap;

/// The calls on a desk in their order, how many of them are puts of each handle, and the number
/// of the next handle.
#[derive(Drop)]
pub(crate) struct Book<K, S, M, Q> {
    pub(crate) calls: Vec<Entry<K, S, M, Q>>,
    pub(crate) counts: HashMap<u64, u64>,
    pub(crate) next_handle: u64,
    ghost counted: { (h : ℕ)
        → unwrap_or (get nat_eq counts h) 0 ≡ length (puts_of h (map call_of calls.items)) },
    // A close takes no memory.
    ghost closable: { closes (map call_of calls.items) ≡ 0 → vec_len calls < vec_capacity calls },
}
