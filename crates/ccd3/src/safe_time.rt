// The safe time of a pair (ccd3.rs: `maximum_safe_time_accurate`; docs/01-scope.md, "The walk", "The allowance"). Pair,
// split, limits and allowance stay apart, as `urtemval_safe_time_allowing` hands them over.
ghost use Rattle.std.specs.Prelude.{◌≡◌};
ghost use Rattle.std.specs.Float.Ieee.{le};
ghost use Rattle.admission.specs.Admission.{full_allowance, walk_refusal};
ghost use Rattle.ccd3.specs.SafeTime as Def;
ghost use Rattle.ccd3.specs.Allowance.{GrowsFrom};
ghost use Rattle.ccd3.specs.Inner as Inner;

use crate::walk::{Walk, unbracketed};
use crate::{Answer, Counted, SafeTime};
use admission::{FULL_ALLOWANCE, Limits, admit_walk};
use distance::nearest::nearest;
use number::order::{next_down, smaller};

// Whether a pair with this squared distance at the start is touching.
fn touches(l: Limits, first: f32) -> bool
    ensures { result ≡ le first (Def.squared_offset l) }
{
    first <= l.offset * l.offset
}

// What the squared distance has to stay above, from the one at the start.
#[tactic(auto, unfolding(crate::specs::SafeTime::threshold_from))]
fn threshold(l: Limits, first: f32) -> f32
    ensures { result ≡ Def.threshold_from l first }
{
    let park = l.offset + l.clearance;
    smaller(park * park, next_down(first))
}

// An answer with no walk.
fn still(answer: Answer) -> Counted
    ensures { result ≡ Inner.counted_from 0 (Def.still answer) }
{
    let ending = unbracketed(answer, 0.0);
    Counted { ending, probes: 0 }
}

// The walk of numbers that are admitted.
fn admitted(
    x0: [[f32; 3]; 4],
    dx: [[f32; 3]; 4],
    split: usize,
    l: Limits,
    allowance: u32,
) -> Counted
    requires { walk_refusal x0 dx split l allowance ≡ 0 }
    ensures { result ≡ Inner.counted_from 0 (Def.safe_walk x0 dx split l allowance) }
{
    let first = nearest(x0, split);
    let squared = first.squared;
    if touches(l, squared) {
        return still(Answer::Touching(0.0));
    }
    let walk = Walk {
        x0,
        dx,
        split,
        threshold: threshold(l, squared),
        limits: l,
    };
    walk.walk(allowance, first)
}

// The whole record of a call: how it ends, and how many of the probes allowed it makes.
fn safe_walk(
    x0: [[f32; 3]; 4],
    dx: [[f32; 3]; 4],
    split: usize,
    limits: Limits,
    allowance: u32,
) -> Counted
    ensures { result ≡ Inner.counted_from 0 (Def.safe_walk x0 dx split limits allowance) }
{
    match admit_walk(x0, dx, split, limits, allowance) {
        Ok(()) => admitted(x0, dx, split, limits, allowance),
        Err(refusal) => still(Answer::Refused(u32::from(refusal))),
    }
}

// How far along the move dx the pair at x0 may go, with so many probes allowed.
pub fn maximum_safe_time_allowing(
    x0: [[f32; 3]; 4],
    dx: [[f32; 3]; 4],
    split: usize,
    limits: Limits,
    allowance: u32,
) -> SafeTime
    ensures answer { result ≡ Def.safe_time_of x0 dx split limits allowance }
    ensures promised { Def.Promises x0 dx split limits allowance result }
    ensures grows { GrowsFrom x0 dx split limits allowance result }
{
    let c = safe_walk(x0, dx, split, limits, allowance);
    let ending = c.ending;
    let answer = ending.answer;
    SafeTime {
        answer,
        probes: c.probes,
        halvings: ending.halvings,
    }
}

// With as many allowed as may be.
pub fn maximum_safe_time_accurate(
    x0: [[f32; 3]; 4],
    dx: [[f32; 3]; 4],
    split: usize,
    limits: Limits,
) -> SafeTime
    ensures answer { result ≡ Def.safe_time_of x0 dx split limits full_allowance }
    ensures promised { Def.Promises x0 dx split limits full_allowance result }
{
    maximum_safe_time_allowing(x0, dx, split, limits, FULL_ALLOWANCE)
}
