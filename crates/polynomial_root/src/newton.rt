// Newton's steps on a cubic (polynomial_root.rs, the loop of `newton`).
ghost use Rattle.std.specs.Prelude.{◌≡◌};
ghost use Rattle.polynomial_root.specs.Roots as Def;

use crate::search::Search;
use number::order::{clamp, size};
use number::refusal::Refusal;

// How many steps at most.
const NEWTON_STEPS: u32 = 20;

impl Search {
    // At most so many steps from the guess, held to 0..t, until the value's size is below epsilon.
    fn descend(self, guess: f32) -> Result<f32, Refusal>
        ensures { result ≡ Def.descend self.p self.t self.epsilon Def.newton_steps guess }
    {
        let mut r = guess;
        for _ in 0..NEWTON_STEPS {
            let f = self.p.value_at(r);
            if size(f) < self.epsilon {
                return Ok(r);
            }
            let d = self.p.slope_at(r);
            if (f == 0.0) & (d == 0.0) {
                return Err(Refusal::NoSlope);
            }
            r = clamp(r - f / d, 0.0, self.t);
        }
        Ok(r)
    }

    // Newton's steps from a guess in 0..t.
    #[tactic(auto, unfolding(crate::specs::Roots::started, number::specs::Number::numbered))]
    pub(crate) fn started(self, guess: f32) -> Result<f32, Refusal>
        ensures { result ≡ Def.started self.p self.t self.epsilon guess }
    {
        if (0.0 <= guess) & (guess <= self.t) {
            self.descend(guess)
        } else {
            Err(Refusal::GuessOutside)
        }
    }
}
