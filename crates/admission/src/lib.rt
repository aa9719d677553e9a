// The tests of four points and of what callers hand over with them (docs/01-scope.md, "What callers hand over, and the
// numbers allowed", "Refusal numbers"). They are admitted, or refused: by 1, some number is NaN or infinite; by 2, none
// is, but one lies beyond its range, the split is neither 2 nor 3, or the allowance is not 1 to 4,096.
// Points and displacements are arrays by value, and no struct of both: 01-scope.md, "Language forms by place".

#![tactic(auto)]

ghost use Rattle.std.specs.Prelude.{◌≡◌, Bool, T};
ghost use Rattle.number.specs.Number.{refusal, answered};
ghost use Rattle.admission.specs.Admission as Def;

use crate::points::{of_three, points_finite, points_in_bound};
use number::range::{in_bound, is_finite, speed_range, verdict, zero_to_bound, zero_to_one};
use number::refusal::Refusal;

// The numbers of points.
pub mod points;

// What the safe time is asked with, beside the pair and its split.
#[repr(C)]
#[derive(Clone, Copy)]
pub struct Limits {
    pub offset: f32,
    pub clearance: f32,
    pub max_t: f32,
    pub u_max: f32,
}

impl Limits {
    #[tactic(auto, unfolding(crate::specs::Admission::finite_limits))]
    fn are_finite(self) -> bool
        ensures { result ≡ Def.finite_limits self }
    {
        is_finite(self.offset)
            & is_finite(self.clearance)
            & is_finite(self.max_t)
            & is_finite(self.u_max)
    }

    #[tactic(auto, unfolding(crate::specs::Admission::ranged_limits))]
    fn in_range(self) -> bool
        ensures { result ≡ Def.ranged_limits self }
    {
        zero_to_bound(self.offset)
            & zero_to_bound(self.clearance)
            & zero_to_one(self.max_t)
            & speed_range(self.u_max)
    }
}

// Two points against two, or three against one: how many columns are on the first side. It is a number and no enum:
// C hands it over, loops end by it, and the definitions take any.
fn is_split(split: usize) -> bool
    ensures { result ≡ Def.is_split split }
{
    matches!(split, 2 | 3)
}

// How many probes a safe time may make: at most so many, and so many where its caller names no other number.
pub const FULL_ALLOWANCE: u32 = 4096;

fn is_allowance(allowance: u32) -> bool
    ensures { result ≡ Def.is_allowance allowance }
{
    (1..=FULL_ALLOWANCE).contains(&allowance)
}

// The verdict by the ranges first: what lies in its range is finite, so that of what is admitted the ranges alone are
// tested. `f` is what each call of `finite` answers, and `r` says whether all lies in its range.
fn by_ranges<F: FnOnce() -> bool>(in_range: bool, finite: F) -> Result<(), Refusal>
    requires { F.IsAlwaysCallable finite }
    ensures { (f r : Bool) → ((b : Bool) → F.post finite b → b ≡ f) → in_range ≡ r → (T r → T f)
        → result ≡ answered (refusal f r) tt }
{
    if in_range {
        Ok(())
    } else {
        verdict(finite(), false)
    }
}

// The safe time: 24 numbers of a pair, its split, four limits, the probes allowed.
pub fn admit_walk(
    x0: [[f32; 3]; 4],
    dx: [[f32; 3]; 4],
    split: usize,
    limits: Limits,
    allowance: u32,
) -> Result<(), Refusal>
    ensures { result ≡ answered (Def.walk_refusal x0 dx split limits allowance) tt }
{
    by_ranges(
        points_in_bound(x0)
            & points_in_bound(dx)
            & limits.in_range()
            & is_split(split)
            & is_allowance(allowance),
        || points_finite(x0) & points_finite(dx) & limits.are_finite(),
    )
}

// Four points.
pub fn admit_points(x: [[f32; 3]; 4]) -> Result<(), Refusal>
    ensures { result ≡ answered (Def.points_refusal x) tt }
{
    by_ranges(points_in_bound(x), || points_finite(x))
}

// Four points and their split: the norm, the distance.
pub fn admit_split(x: [[f32; 3]; 4], split: usize) -> Result<(), Refusal>
    ensures { result ≡ answered (Def.split_refusal x split) tt }
{
    by_ranges(points_in_bound(x) & is_split(split), || points_finite(x))
}

// Four points and a factor.
pub fn admit_factor(x: [[f32; 3]; 4], s: f32) -> Result<(), Refusal>
    ensures { result ≡ answered (Def.factor_refusal x s) tt }
{
    by_ranges(
        points_in_bound(x) & zero_to_bound(s),
        || points_finite(x) & is_finite(s),
    )
}

// The 24 numbers of a pair: coplanar times.
pub fn admit_motion(x: [[f32; 3]; 4], dx: [[f32; 3]; 4]) -> Result<(), Refusal>
    ensures { result ≡ answered (Def.motion_refusal x dx) tt }
{
    by_ranges(
        points_in_bound(x) & points_in_bound(dx),
        || points_finite(x) & points_finite(dx),
    )
}

// The 24 numbers of a pair and a time: moved points, scaling.
pub fn admit_time(x: [[f32; 3]; 4], dx: [[f32; 3]; 4], t: f32) -> Result<(), Refusal>
    ensures { result ≡ answered (Def.time_refusal x dx t) tt }
{
    by_ranges(
        points_in_bound(x) & points_in_bound(dx) & zero_to_one(t),
        || points_finite(x) & points_finite(dx) & is_finite(t),
    )
}

// The ends of a segment and a ratio.
pub fn admit_ratio(p0: [f32; 3], p1: [f32; 3], ratio: f32) -> Result<(), Refusal>
    ensures { result ≡ answered (Def.ratio_refusal p0 p1 ratio) tt }
{
    by_ranges(
        of_three(in_bound, p0) & of_three(in_bound, p1) & zero_to_one(ratio),
        || of_three(is_finite, p0) & of_three(is_finite, p1) & is_finite(ratio),
    )
}
