// One step of the walk (ccd3.rs: the body of the first loop of `maximum_safe_time_accurate`).
ghost use Rattle.std.specs.Prelude.{◌≡◌};
ghost use Rattle.ccd3.specs.SafeTime as Def;

use crate::directional::directional_advance;
use crate::walk::Walk;
use crate::{Aim, Visit};
use number::order::larger;
use number::root::root;

// 1 + 2^-22: what makes the norm of a direction err upward.
const NORM_SLACK: f32 = 1.0000002384185791;

impl Walk {
    // The length of the step from a visit.
    #[tactic(auto, unfolding(crate::specs::SafeTime::step_from))]
    fn step_length(&self, here: Visit) -> f32
        ensures { result ≡ (Def.step_from self.now.dx self.now.split self.now.limits here).length }
    {
        let l = self.limits;
        let park = l.offset + l.clearance;
        let dip = l.offset + l.clearance * 0.5;
        let distance = root(here.near.squared);
        let plain = (distance - dip) * (1.0 / l.u_max);
        if here.time + plain <= l.max_t {
            let w = here.near.direction;
            let aim = Aim {
                w,
                norm: distance * NORM_SLACK,
                dip,
                park,
                max_t: l.max_t,
            };
            let x = here.points;
            larger(plain, directional_advance(x, self.dx, self.split, aim))
        } else {
            plain
        }
    }

    // The time after the step.
    pub(crate) fn next_time(&self, here: Visit) -> f32
        ensures { result ≡ Def.next self.now.dx self.now.split self.now.limits here }
    {
        here.time + self.step_length(here)
    }
}
