ghost use Rattle.std.specs.Prelude.{◌==◌, ◌%◌};
ghost use Rattle.std.proofs.Common.{rules};

use crate::support::holds;
use resolver_types::Predicate;

/// Keeps the even subscribers of every key.
pub struct Even;

impl<K: Eq> Predicate<K, u16> for Even {
    ghost keeps = { λ _ _ subscriber. subscriber % 2 == 0 };

    fn keep(&self, _key: &K, subscriber: &u16) -> bool {
        *subscriber % 2 == 0
    }

    ghost alike = { λ q k l s t same_key same_subscriber. Prim.search rules };
}

fn kept<Q: Predicate<u8, u16>>(test: &Q, subscriber: u16) -> bool {
    test.keep(&1, &subscriber)
}

#[test]
fn keeps_by_subscriber(rt: HostRuntime) {
    holds(&rt, kept(&Even, 20));
    holds(&rt, !kept(&Even, 21));
}
