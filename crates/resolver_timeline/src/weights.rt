//! Weights as heights.

ghost use Rattle.std.specs.Prelude.{◌≤◌};

/// How high a weight is drawn: 256 for each time that it doubles.
pub fn height_of(weight: u64) -> u64
    ensures { result ≤ 16384 }
{
    let Some(whole) = weight.checked_ilog2() else {
        return 0;
    };
    let whole = u64::from(whole).min(63);
    let part = (weight << (63 - whole)) >> 55;
    (whole * 256 + part % 256).min(16384)
}

/// How many decimal digits a weight has, up to nine.
pub fn digits_of(weight: u64) -> u8
    ensures { result ≤ 9 }
{
    let mut digits: u8 = 1;
    let mut rest = weight;
    for _ in 0..8u8 {
        rest /= 10;
        if rest > 0 {
            digits = digits.saturating_add(1);
        }
    }
    digits.min(9)
}
