// The directional step (ccd3.rs: `directional_advance`; docs/01-scope.md, "The directional step").
ghost use Rattle.std.specs.Prelude.{◌≡◌, ◌<◌, ◌≤◌};
ghost use Rattle.number.specs.Number.{largest32};
ghost use Rattle.geometry.specs.Geometry.{cross, cross_pairs};
ghost use Rattle.geometry.specs.Geometry as Vec3;
ghost use Rattle.ccd3.specs.SafeTime as Def;
ghost use Rattle.ccd3.specs.Inner as Inner;

use crate::Aim;
use crate::cross_pair::LARGEST;
use geometry::vec3::{dot, sub};
use number::order::smaller;

// The least time over the columns i before the split and j from it, where `left` and `time` have at i, j what that
// pair leaves. The first pair that is not beyond dip ends both loops at once with step 0 (docs/01-scope.md, "Language
// forms by place").
fn over_sides(left: [[f32; 4]; 3], time: [[f32; 4]; 3], split: usize, dip: f32) -> f32
    requires { split ≤ 3 }
    ensures { result ≡ Inner.least_in left time dip (cross_pairs split) largest32 }
{
    let mut step = LARGEST;
    'sides: for i in 0..split {
        let lefts = left[i];
        let times = time[i];
        for j in split..4 {
            if lefts[j] <= dip {
                step = 0.0;
                break 'sides;
            }
            step = smaller(step, times[j]);
        }
    }
    step
}

// What is left of the gap from column i to column j along the direction, where the two are on either side of the split;
// else 0, which is never read.
fn gap<const SPLIT: usize>(x: [[f32; 3]; 4], dx: [[f32; 3]; 4], i: usize, j: usize, a: Aim) -> f32
    requires first { i < 4 }
    requires second { j < 4 }
    ensures { i < SPLIT → SPLIT ≤ j → result ≡ Def.left_of a x dx (cross i j) }
{
    if (i < SPLIT) & (SPLIT <= j) {
        a.projected(sub(x[j], x[i]), sub(dx[i], dx[j]))
    } else {
        0.0
    }
}

// The time of the two, with this gap left.
fn time<const SPLIT: usize>(left: f32, dx: [[f32; 3]; 4], i: usize, j: usize, a: Aim) -> f32
    requires first { i < 4 }
    requires second { j < 4 }
    ensures { i < SPLIT → SPLIT ≤ j → result ≡ Inner.time_left a left (Vec3.dot a.w (Def.rel dx (cross i j))) }
{
    if (i < SPLIT) & (SPLIT <= j) {
        let rel = sub(dx[i], dx[j]);
        a.time_left(left, dot(a.w, rel))
    } else {
        0.0
    }
}

// Over the columns of either side, of a split of 2 or 3; of points, displacements and an aim, as the definition is. What
// each pair of columns leaves is put into tables before the first test, so that a compiler computes all of it side by
// side; with one table of gaps and times a walk takes 8 % longer for a face and a vertex, and 11 % longer for edges.
fn least_over<const SPLIT: usize>(x: [[f32; 3]; 4], dx: [[f32; 3]; 4], a: Aim) -> f32
    requires least { 2 ≤ SPLIT }
    requires most { SPLIT ≤ 3 }
    ensures { result ≡ Def.least_over a x dx (cross_pairs SPLIT) largest32 }
{
    let r02 = gap::<SPLIT>(x, dx, 0, 2, a);
    let r03 = gap::<SPLIT>(x, dx, 0, 3, a);
    let r12 = gap::<SPLIT>(x, dx, 1, 2, a);
    let r13 = gap::<SPLIT>(x, dx, 1, 3, a);
    let r23 = gap::<SPLIT>(x, dx, 2, 3, a);
    let t02 = time::<SPLIT>(r02, dx, 0, 2, a);
    let t03 = time::<SPLIT>(r03, dx, 0, 3, a);
    let t12 = time::<SPLIT>(r12, dx, 1, 2, a);
    let t13 = time::<SPLIT>(r13, dx, 1, 3, a);
    let t23 = time::<SPLIT>(r23, dx, 2, 3, a);
    let left = [
        [0.0, 0.0, r02, r03],
        [0.0, 0.0, r12, r13],
        [0.0, 0.0, 0.0, r23],
    ];
    let time = [
        [0.0, 0.0, t02, t03],
        [0.0, 0.0, t12, t13],
        [0.0, 0.0, 0.0, t23],
    ];
    over_sides(left, time, SPLIT, a.dip * a.norm)
}

// The longest step in which no column of one side can come near one of the other along the direction: 0 where some
// pair of columns is not beyond dip. The split is asked for in a line: it is a number that the caller hands over.
#[tactic(auto, unfolding(crate::specs::SafeTime::directional))]
pub(crate) fn directional_advance(x: [[f32; 3]; 4], dx: [[f32; 3]; 4], split: usize, a: Aim) -> f32
    ensures { result ≡ (Def.directional x dx split a).length }
{
    if split == 2 {
        least_over::<2>(x, dx, a)
    } else {
        least_over::<3>(x, dx, a)
    }
}
