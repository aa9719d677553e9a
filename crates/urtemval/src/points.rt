// Calls on lent points: the squared distance of a pair's two sides, the largest distance between points of the two
// sides, and scaling (`pair::separation::squared_distance`, `pair::norm::max_relative_norm`,
// `motion::scaling::normalize_centerized_configuration`).
ghost use Rattle.std.specs.Prelude.{◌≡◌};
ghost use Rattle.number.specs.Number.{answered};
ghost use Rattle.admission.specs.Admission.{split_refusal};
ghost use Rattle.pair.specs.Points.{measured, norm_of, ErrsUpward};
ghost use Rattle.motion.specs.Motion.{scaling_of, leaves};
ghost use Rattle.urtemval.specs.Face as Def;

use crate::answer::{Measured, Value};
use motion::record::Pair;
use motion::scaling::normalize_centerized_configuration;
use pair::norm::max_relative_norm;
use pair::separation::squared_distance;

#[unsafe(no_mangle)]
pub extern "C" fn urtemval_squared_distance(x: &[[f32; 3]; 4], split: usize) -> Measured
    ensures { result ≡ Def.measured_of (measured x.now split) }
{
    Measured::from(squared_distance(*x, split))
}

#[tactic(auto, unfolding(crate::specs::Face::told))]
#[unsafe(no_mangle)]
pub extern "C" fn urtemval_max_relative_norm(x: &[[f32; 3]; 4], split: usize) -> Value
    ensures answer { result ≡ Def.told (answered (split_refusal x.now split) (norm_of x.now split)) }
    ensures upward { result.refusal ≡ 0 → ErrsUpward x.now split result.value }
{
    Value::from(max_relative_norm(*x, split))
}

// The lent points and displacements are copied into a pair record, which is lent to the scaling; they hold the scaled
// ones afterwards. A refused call stores nothing, so that they stay as they were, bit for bit.
#[unsafe(no_mangle)]
pub extern "C" fn urtemval_scale_pair(
    x: &mut [[f32; 3]; 4],
    dx: &mut [[f32; 3]; 4],
    max_t: f32,
) -> Value
    ensures answer { result ≡ Def.told (scaling_of (Def.pair_of x.old dx.old) max_t) }
    ensures points { x.new ≡ (leaves (Def.pair_of x.old dx.old) max_t).x }
    ensures moves { dx.new ≡ (leaves (Def.pair_of x.old dx.old) max_t).dx }
{
    let mut pair = Pair { x: *x, dx: *dx };
    let answer = normalize_centerized_configuration(&mut pair, max_t);
    let scaled = answer.is_ok();
    if scaled {
        *x = pair.x;
        *dx = pair.dx;
    }
    Value::from(answer)
}
