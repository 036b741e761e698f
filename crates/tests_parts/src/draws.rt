ghost use Rattle.std.proofs.Common.{arith};

use crate::support::equal;
use resolver_base::{Draws, Seeded};

/// Draws below six bounds in turn.
fn draws<D: Draws + Drop>(mut source: D) -> [u128; 6] {
    [
        source.below(u128::MAX),
        source.below(1 << 64),
        source.below(10),
        source.below(1),
        source.below(1_000_003),
        source.below((1 << 127) + 1),
    ]
}

#[test]
fn draws_the_words_of_pcg64(rt: HostRuntime) {
    let rt = &rt;
    let drawn = draws(Seeded::new(0));
    equal(
        rt,
        &drawn,
        &[
            43439523305282059821465230189755591163,
            718076624554797018,
            7,
            0,
            535579,
            148410868183531303737760908107602825718,
        ],
    );
    let drawn = draws(Seeded::new(42));
    equal(
        rt,
        &drawn,
        &[
            77078215737868028582647199888982792465,
            9736923071240364268,
            8,
            0,
            295199,
            80426172480205520423164005736251822156,
        ],
    );
    let drawn = draws(Seeded::new(u64::MAX));
    equal(
        rt,
        &drawn,
        &[
            286523676920182720572841079429214361626,
            1087246117485832238,
            8,
            0,
            360568,
            39917947942671103271605147773453678389,
        ],
    );
}

/// Draws the greatest number.
#[derive(Drop)]
struct Greatest;

impl Draws for Greatest {
    fn below(&mut self, n: u128) -> u128 {
        n - 1
    }
}

fn die<D: Draws>(draws: &mut D) -> u128 {
    draws.below(6)
}

#[test]
fn draws_below_the_bound(rt: HostRuntime) {
    equal(&rt, &die(&mut Greatest), &5);
}
