// The safe time of a lent pair (`ccd3::safe_time::maximum_safe_time_allowing`).
ghost use Rattle.std.specs.Prelude.{◌≡◌};
ghost use Rattle.admission.specs.Admission.{full_allowance};
ghost use Rattle.ccd3.specs.SafeTime.{safe_time_of, Promised};
ghost use Rattle.ccd3.specs.Allowance.{Grows};
ghost use Rattle.urtemval.specs.Face as Def;

use crate::answer::SafeTime;
use admission::{FULL_ALLOWANCE, Limits};
use ccd3::safe_time::maximum_safe_time_allowing;

#[tactic(auto, unfolding(crate::specs::Face::safe_time))]
#[unsafe(no_mangle)]
pub extern "C" fn urtemval_safe_time_allowing(
    x0: &[[f32; 3]; 4],
    dx: &[[f32; 3]; 4],
    split: usize,
    limits: Limits,
    allowance: u32,
) -> SafeTime
    ensures answer { result ≡ Def.safe_time
        (safe_time_of x0.now dx.now split limits allowance) }
    ensures promised { Promised x0.now dx.now split limits allowance
        result.refusal result.kind result.time result.probes result.halvings }
    ensures grows { Grows x0.now dx.now split limits allowance
        result.refusal result.kind result.time result.probes result.halvings }
{
    SafeTime::from(maximum_safe_time_allowing(*x0, *dx, split, limits, allowance))
}

// With as many probes allowed as may be. The pair is lent on, and not copied once more.
#[unsafe(no_mangle)]
pub extern "C" fn urtemval_safe_time(
    x0: &[[f32; 3]; 4],
    dx: &[[f32; 3]; 4],
    split: usize,
    limits: Limits,
) -> SafeTime
    ensures answer { result ≡ Def.safe_time
        (safe_time_of x0.now dx.now split limits full_allowance) }
    ensures promised { Promised x0.now dx.now split limits full_allowance
        result.refusal result.kind result.time result.probes result.halvings }
{
    urtemval_safe_time_allowing(x0, dx, split, limits, FULL_ALLOWANCE)
}
