// The search for the roots in 0..t of a polynomial of degree three at most, for any numbers (polynomial_root.rs,
// `cubic_roots_in_range_zero_to_t`).
ghost use Rattle.std.specs.Prelude.{◌≡◌};
ghost use Rattle.polynomial_root.specs.Roots as Def;

use crate::answer::Roots;
use crate::cubic::Cubic;
use crate::lower::vanishes;
use crate::quadratic::solve;
use number::order::{larger, smaller};
use number::refusal::Refusal;

// The polynomial, the end of the range 0..t, and the size below which a value counts as zero.
#[derive(Clone, Copy)]
pub struct Search {
    pub p: Cubic,
    pub t: f32,
    pub epsilon: f32,
}

impl Search {
    // The parts of 0..t before, between and behind the slope's roots, each where it is there.
    #[tactic(auto, unfolding(crate::specs::Roots::span_roots, crate::specs::Roots::after))]
    fn part_roots(self, e0: f32, e1: f32) -> Result<Roots, Refusal>
        ensures { result ≡ Def.span_roots self.p self.t self.epsilon (Some (e0, e1)) }
    {
        let t = self.t;
        let first = if 0.0 <= e0 {
            self.span_root(self.start(), self.end_at(smaller(t, e0)))?
        } else {
            None
        };
        let middle = if (e0 <= t) & (0.0 <= e1) {
            let from = self.end_at(larger(0.0, e0));
            self.span_root(from, self.end_at(smaller(t, e1)))?
        } else {
            None
        };
        let last = if e1 <= t {
            self.span_root(self.end_at(larger(0.0, e1)), self.end_at(t))?
        } else {
            None
        };
        Ok(Roots::none().joined(first).joined(middle).joined(last))
    }

    // Without roots of the slope 0..t is the one span.
    #[tactic(auto, unfolding(crate::specs::Roots::span_roots, crate::specs::Roots::after))]
    fn span_roots(self, slope: Option<(f32, f32)>) -> Result<Roots, Refusal>
        ensures { result ≡ Def.span_roots self.p self.t self.epsilon slope }
    {
        match slope {
            Some((e0, e1)) => self.part_roots(e0, e1),
            None => {
                let found = self.span_root(self.start(), self.end_at(self.t))?;
                Ok(Roots::none().joined(found))
            }
        }
    }

    // By degree; the slope is c1 + 2 c2 x + 3 c3 x².
    #[tactic(auto, unfolding(crate::specs::Roots::cubic_roots))]
    pub(crate) fn roots(self) -> Result<Roots, Refusal>
        ensures { result ≡ Def.cubic_roots self.p self.t self.epsilon }
    {
        let p = self.p;
        if vanishes(p.c3) {
            self.lower_roots()
        } else {
            self.span_roots(solve(p.c1, 2.0 * p.c2, 3.0 * p.c3))
        }
    }
}
