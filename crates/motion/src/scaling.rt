// Scaling a pair (docs/01-scope.md, "Scaling a pair"; ccd3.rs: `normalize_centerized_configuration`): its numbers are
// multiplied by 8 and at last by a factor of at most 8, so that the largest, at time 0 or at max_t, is about 0.99.
ghost use Rattle.std.specs.Prelude.{◌≡◌};
ghost use Rattle.motion.specs.Motion as Def;
ghost use Rattle.motion.specs.Inner as Inner;

use crate::factors::{self, Factors};
use crate::record::Pair;
use admission::points::points_finite;
use number::refusal::Refusal;

impl Pair {
    // The factor that brings the largest entry to 0.99.
    #[tactic(auto, unfolding(crate::specs::Motion::first_factor))]
    fn first_factor(self, max_t: f32) -> f32
        ensures { result ≡ Def.first_factor self max_t }
    {
        0.99 / factors::max_entry(self.x, self.dx, max_t)
    }

    // The pair times all the factors.
    #[tactic(auto, unfolding(crate::specs::Motion::scaled_with))]
    fn times(self, by: Factors) -> Pair
        ensures { result ≡ Def.scaled_with by self }
    {
        Pair {
            x: by.times(self.x),
            dx: by.times(self.dx),
        }
    }

    #[tactic(auto, unfolding(crate::specs::Motion::finite_pair))]
    fn is_finite(self) -> bool
        ensures { result ≡ Def.finite_pair self }
    {
        points_finite(self.x) & points_finite(self.dx)
    }
}

// Scaling by value: the product of the factors, and the scaled pair.
fn scaled_pair(pair: Pair, max_t: f32) -> Result<(f32, Pair), Refusal>
    ensures { result ≡ Inner.outcome pair max_t }
{
    admission::admit_time(pair.x, pair.dx, max_t)?;
    let first = pair.first_factor(max_t);
    if !factors::usable(first) {
        return Err(Refusal::NoFactor);
    }
    let by = Factors::of(first);
    let scaled = pair.times(by);
    if !scaled.is_finite() {
        return Err(Refusal::ScaledNotFinite);
    }
    Ok((by.product, scaled))
}

// Scales the lent pair and answers the product of the factors. Refusals 1, 2, 4 and 5; a refused pair stays as it was,
// bit for bit.
pub fn normalize_centerized_configuration(pair: &mut Pair, max_t: f32) -> Result<f32, Refusal>
    ensures { Def.Scales pair.old max_t result pair.new }
{
    let (product, scaled) = scaled_pair(*pair, max_t)?;
    *pair = scaled;
    Ok(product)
}
