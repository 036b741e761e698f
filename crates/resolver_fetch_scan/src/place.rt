//! Where waiting keys stand.

ghost use Rattle.std.specs.Prelude.{◌≡◌};
ghost use Rattle.resolver_fetch_scan.specs.Waiting.{fresh_at, retry_at};

/// Where a waiting key stands: fresh keys before those that are tried again, then by due.
#[derive(Clone, Copy, Debug, PartialEq, Eq, PartialOrd, Ord)]
pub struct Place {
    /// Whether the key is tried again.
    pub is_retry: bool,
    /// The moment from which on it may be asked for, in nanoseconds.
    pub due: u128,
}

impl Place {
    /// Of a fresh key, from this moment on.
    pub fn fresh(due: u128) -> Self
        ensures { result ≡ fresh_at due }
    {
        Place {
            is_retry: false,
            due,
        }
    }

    /// Of a key that is tried again, from this moment on.
    pub fn retry(due: u128) -> Self
        ensures { result ≡ retry_at due }
    {
        Place {
            is_retry: true,
            due,
        }
    }
}
