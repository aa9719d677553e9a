// The halving between a time above the threshold and one that is not (ccd3.rs: the second loop of
// `maximum_safe_time_accurate`).
ghost use Rattle.std.specs.Prelude.{◌≡◌};
ghost use Rattle.ccd3.specs.SafeTime as Def;

use crate::walk::Walk;
use distance::nearest;
use geometry::mat3x4_array_of_cols::add_scaled;

// Where the halving ended: the last time above the threshold and the first that is not, and how many halvings there
// were. A record and no tuple, since both ends are of one type.
#[derive(Clone, Copy)]
pub(crate) struct Closed {
    pub(crate) lower: f32,
    pub(crate) upper: f32,
    pub(crate) count: u32,
}

impl Walk {
    // Whether the squared distance at a time is above the threshold.
    #[tactic(auto, unfolding(crate::specs::SafeTime::above, crate::specs::SafeTime::squared_at))]
    fn is_above(&self, time: f32) -> bool
        ensures { result ≡ Def.above self.now.x0 self.now.dx self.now.split self.now.threshold time }
    {
        nearest::is_above(
            add_scaled(self.x0, self.dx, time),
            self.split,
            self.threshold,
        )
    }

    // Midpoints, until the computed window repeats. The last halving, which moves nothing, is counted.
    pub(crate) fn close_in(&self, from: f32, to: f32) -> Closed
        ensures lower { result.lower
            ≡ (Def.closing self.now.x0 self.now.dx self.now.split self.now.threshold from to).lower }
        ensures upper { result.upper
            ≡ (Def.closing self.now.x0 self.now.dx self.now.split self.now.threshold from to).upper }
        ensures count { result.count
            ≡ (Def.closing self.now.x0 self.now.dx self.now.split self.now.threshold from to).count }
    {
        let mut lower = from;
        let mut upper = to;
        let mut window = upper - lower;
        for made in 0..255u32 {
            let middle = 0.5 * (upper + lower);
            if self.is_above(middle) {
                lower = middle;
            } else {
                upper = middle;
            }
            let narrower = upper - lower;
            if narrower == window {
                return Closed {
                    lower,
                    upper,
                    count: made + 1,
                };
            }
            window = narrower;
        }
        Closed {
            lower,
            upper,
            count: 255,
        }
    }
}
