//! Laws over lists, which no single call states. They are no part of the surface.

ghost use Rattle.std.specs.Prelude.{◌≡◌, map};
ghost use Rattle.resolver_sampling.specs.ChoiceLaws.{ChoosesOne, ChoosesByWeight};
ghost use Rattle.resolver_sampling.specs.Modes.{FourMeanWeighted};
ghost use Rattle.resolver_sampling.specs.Scores.{averages_of, observation};
ghost use Rattle.resolver_sampling.specs.ScoreLaws.{FadesIn96};

use crate::score::Score;

/// A score that took in some observations, one after another, each its nanoseconds and its bytes,
/// is the score of that list.
pub fn recorded(observations: &[(u128, u64)]) -> Score
    ensures { result ≡ averages_of (map observation observations.now) }
{
    let mut score = Score::default();
    for (elapsed, bytes) in observations {
        score.record(*elapsed, *bytes);
    }
    score
}

/// Once ninety-six observations in a row had no bytes, the weight is 1.
pub fn fades_in_96()
    ensures { FadesIn96 }
{}

/// A number below the total of some weights lies in the interval of the place that it chooses,
/// and in no other.
pub fn chooses_one()
    ensures { ChoosesOne }
{}

/// Of the numbers below the total of some weights, as many as its weight choose each place.
pub fn chooses_by_weight()
    ensures { ChoosesByWeight }
{}

/// Of the numbers below four and a key's retries, four mean a weighted draw.
pub fn four_mean_weighted()
    ensures { FourMeanWeighted }
{}
