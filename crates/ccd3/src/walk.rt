// The walk from a start above the threshold (ccd3.rs: the loops of `maximum_safe_time_accurate`), for any threshold and
// any number of probes allowed.
ghost use Rattle.std.specs.Prelude.{◌≡◌, eqb};
ghost use Rattle.number.specs.Number.{zero32};
ghost use Rattle.number.specs.Pattern.{bits_of};
ghost use Rattle.ccd3.specs.SafeTime as Def;
ghost use Rattle.ccd3.specs.Inner as Inner;
ghost use Rattle.ccd3.specs.declared.Answer.TheVariants.{Budget};

use crate::{Answer, Counted, Ending, Visit};
use admission::Limits;
use distance::candidate::Nearest;
use distance::nearest::nearest;
use geometry::mat3x4_array_of_cols::add_scaled;
use number::order::written;
use number::pattern::bits_of;

// A pair that is walked along: where its points start, how far each is displaced, the split, what its squared distance
// has to stay above, and the limits.
#[derive(Clone, Copy)]
pub(crate) struct Walk {
    pub(crate) x0: [[f32; 3]; 4],
    pub(crate) dx: [[f32; 3]; 4],
    pub(crate) split: usize,
    pub(crate) threshold: f32,
    pub(crate) limits: Limits,
}

// An ending with no bracket, at a visit of this time.
pub(crate) fn unbracketed(answer: Answer, time: f32) -> Ending
    ensures { result ≡ Def.unbracketed answer time }
{
    Ending {
        answer,
        from: time,
        to: time,
        lower: 0.0,
        upper: 0.0,
        halvings: 0,
    }
}

// The budget, with all the probes that are allowed.
fn spent(time: f32, allowance: u32) -> Counted
    ensures { result ≡ record { ending = Def.unbracketed (Budget time) time; probes = allowance } }
{
    let ending = unbracketed(Answer::Budget(time), time);
    Counted {
        ending,
        probes: allowance,
    }
}

// Whether a step leads nowhere: the next time has the bits of this one. Most times it is later, which is asked first.
fn stays(time: f32, next: f32) -> bool
    ensures { result ≡ eqb (bits_of next) (bits_of time) }
{
    if time < next {
        false
    } else {
        bits_of(next) == bits_of(time)
    }
}

impl Walk {
    // A probe: the points at a time, and what the distance rules say of them.
    fn visit(&self, time: f32) -> Visit
        ensures { result ≡ Def.visit self.now.x0 self.now.dx self.now.split time }
    {
        let points = add_scaled(self.x0, self.dx, time);
        let near = nearest(points, self.split);
        Visit { time, points, near }
    }

    // The probe at `to` is not above the threshold any more: a contact between it and the time before.
    fn met(&self, from: f32, to: f32) -> Ending
        ensures { result ≡ Def.met self.now.x0 self.now.dx self.now.split self.now.threshold from to }
    {
        let closed = self.close_in(from, to);
        let answer = Answer::Contact(closed.lower);
        Ending {
            answer,
            from,
            to,
            lower: closed.lower,
            upper: closed.upper,
            halvings: closed.count,
        }
    }

    // Steps and probes, from time 0 where the distance rules say `first`, until one of the three ends. A step from a
    // probe that leads nowhere would be taken again from there as often as is allowed, so the budget is answered at
    // once. Probes are counted by hand: after the last one a step is taken still, for which a `for` over the probes
    // would need the step twice, and a walk then takes 3 % longer.
    pub(crate) fn walk(&self, allowance: u32, first: Nearest) -> Counted
        ensures { result ≡ Inner.counted_from 0
            (Def.walk self.now.x0 self.now.dx self.now.split self.now.threshold self.now.limits allowance
            (record { time = zero32; points = self.now.x0; near = first })) }
    {
        let points = self.x0;
        let max_t = self.limits.max_t;
        let mut here = Visit {
            time: 0.0,
            points,
            near: first,
        };
        let mut probes: u32 = 0;
        loop {
            let next = self.next_time(here);
            if max_t < next {
                let ending = unbracketed(Answer::Clear(written(max_t)), here.time);
                return Counted { ending, probes };
            }
            if probes == allowance {
                return spent(here.time, allowance);
            }
            if (0 < probes) & stays(here.time, next) {
                return spent(here.time, allowance);
            }
            probes += 1;
            let there = self.visit(next);
            if self.threshold < there.near.squared {
                here = there;
            } else {
                let ending = self.met(here.time, next);
                return Counted { ending, probes };
            }
        }
    }
}
