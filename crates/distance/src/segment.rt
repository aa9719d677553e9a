// A point against a segment (docs/01-scope.md, "Our distance rules").
ghost use Rattle.std.specs.Prelude.{◌≡◌};
ghost use Rattle.distance.specs.Distance as Def;

use geometry::{edge3, vec3};
use number::order;

// The ratio from q0 along d of the place that is taken as the nearest to p: 0 where d has no length.
// The quotient is taken before that test, which a compiler can then make without a branch.
#[tactic(auto, unfolding(crate::specs::Distance::ratio_along))]
fn ratio(p: [f32; 3], q0: [f32; 3], d: [f32; 3]) -> f32
    ensures { result ≡ Def.ratio_along p q0 d }
{
    let length = vec3::dot(d, d);
    let quotient = vec3::dot(vec3::sub(p, q0), d) / length;
    if length == 0.0 {
        0.0
    } else {
        order::clamp(quotient, 0.0, 1.0)
    }
}

// That place on the segment q0 q1.
#[tactic(auto, unfolding(crate::specs::Distance::place_on))]
pub(crate) fn place_on(p: [f32; 3], q0: [f32; 3], q1: [f32; 3]) -> [f32; 3]
    ensures { result ≡ Def.place_on p q0 q1 }
{
    edge3::lerp(q0, q1, ratio(p, q0, vec3::sub(q1, q0)))
}
