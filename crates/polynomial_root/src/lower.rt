// The roots in 0..t of a polynomial of degree two at most, and the tests of the degree (polynomial_root.rs,
// `cubic_roots_in_range_zero_to_t` up to "quadratic function"; a linear root goes by docs/01-scope.md, "Roots").
ghost use Rattle.std.specs.Prelude.{◌≡◌, cond};
ghost use Rattle.number.specs.Number.{zero32};
ghost use Rattle.polynomial_root.specs.Roots as Def;

use crate::answer::Roots;
use crate::quadratic::solve;
use crate::search::Search;
use number::order::{clamp, size};
use number::refusal::Refusal;

// A coefficient counts as zero where its size is below 2^-23.
pub(crate) fn vanishes(c: f32) -> bool
    ensures { result ≡ Def.vanishes c }
{
    size(c) < f32::EPSILON
}

fn constant_roots(c0: f32) -> Roots
    ensures { result ≡ cond (Def.vanishes c0) (Def.push Def.none zero32) Def.none }
{
    if vanishes(c0) {
        Roots::none().push(0.0)
    } else {
        Roots::none()
    }
}

// From the values at 0 and at t: a fraction of the range, times t, held to 0..t.
#[tactic(auto, unfolding(crate::specs::Roots::linear_roots, number::specs::Number::numbered))]
fn linear_roots(t: f32, f0: f32, ft: f32) -> Result<Roots, Refusal>
    ensures { result ≡ Def.linear_roots t f0 ft }
{
    if ((f0 <= 0.0) & (0.0 <= ft)) | ((0.0 <= f0) & (ft <= 0.0)) {
        if (f0 == 0.0) & (ft == 0.0) {
            Err(Refusal::ZeroAtBothEnds)
        } else {
            Ok(Roots::none().push(clamp(f0 / (f0 - ft) * t, 0.0, t)))
        }
    } else {
        Ok(Roots::none())
    }
}

// A root is kept where it lies in 0..t.
#[tactic(auto, unfolding(crate::specs::Roots::keep))]
fn keep(t: f32, a: Roots, r: f32) -> Roots
    ensures { result ≡ Def.keep t a r }
{
    if (0.0 <= r) & (r <= t) { a.push(r) } else { a }
}

#[tactic(auto, unfolding(crate::specs::Roots::kept_roots))]
fn kept_roots(t: f32, solved: Option<(f32, f32)>) -> Roots
    ensures { result ≡ Def.kept_roots t solved }
{
    match solved {
        Some((e0, e1)) => keep(t, keep(t, Roots::none(), e0), e1),
        None => Roots::none(),
    }
}

impl Search {
    // By degree, where c3 counts as zero.
    #[tactic(auto, unfolding(crate::specs::Roots::lower_roots))]
    pub(crate) fn lower_roots(self) -> Result<Roots, Refusal>
        ensures { result ≡ Def.lower_roots self.p self.t }
    {
        let p = self.p;
        let t = self.t;
        if vanishes(p.c2) {
            if vanishes(p.c1) {
                Ok(constant_roots(p.c0))
            } else {
                linear_roots(t, p.c0, p.value_at(t))
            }
        } else {
            Ok(kept_roots(t, solve(p.c0, p.c1, p.c2)))
        }
    }
}
