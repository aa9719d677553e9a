// What one cross pair leaves of the directional step: its gap along the direction, and its time (ccd3.rs: the body of
// the loops of `directional_advance`; docs/01-scope.md, "The directional step").
ghost use Rattle.std.specs.Prelude.{◌≡◌};
ghost use Rattle.geometry.specs.Geometry as Vec3;
ghost use Rattle.ccd3.specs.SafeTime as Def;
ghost use Rattle.ccd3.specs.Inner as Inner;

use crate::Aim;
use geometry::vec3::dot;
use number::order::{larger, size};

// 2^-22, and what a coordinate may be off.
const ROUND_SLACK: f32 = 2.384185791015625e-7;

const COORD_SLACK: f32 = 6.2e-7;

// The largest finite f32.
pub(crate) const LARGEST: f32 = f32::MAX;

// The sizes of the three numbers.
fn sizes(v: [f32; 3]) -> [f32; 3]
    ensures { result ≡ Def.sizes v }
{
    v.map(size)
}

// |a| · |b|
fn dot_of_sizes(a: [f32; 3], b: [f32; 3]) -> f32
    ensures { result ≡ Vec3.dot (Def.sizes a) (Def.sizes b) }
{
    dot(sizes(a), sizes(b))
}

impl Aim {
    // A gap along the direction, less what rounding may have added to it, of columns that are displaced by `rel`
    // against one another.
    #[tactic(auto, unfolding(crate::specs::SafeTime::projected))]
    pub(crate) fn projected(self, gap: [f32; 3], rel: [f32; 3]) -> f32
        ensures { result ≡ Def.projected self gap rel }
    {
        let w = self.w;
        let err = ROUND_SLACK
            * (dot_of_sizes(w, gap) + self.max_t * dot_of_sizes(w, rel) + self.park * self.norm)
            + COORD_SLACK * self.norm;
        dot(w, gap) - err
    }

    // How long columns take to close in at this speed, with this gap left; the largest f32 where they do not close in.
    #[tactic(auto, unfolding(crate::specs::SafeTime::time_to_park, crate::specs::Inner::time_left))]
    pub(crate) fn time_left(self, left: f32, speed: f32) -> f32
        ensures { result ≡ Inner.time_left self left speed }
    {
        if 0.0 < speed {
            larger(left - self.park * self.norm, 0.0) / speed
        } else {
            LARGEST
        }
    }
}
