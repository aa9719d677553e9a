// The roots of a quadratic, for any numbers (polynomial_root.rs, `quadratic_root`).
ghost use Rattle.std.specs.Prelude.{◌≡◌, cond};
ghost use Rattle.std.specs.Float.Ieee.{lt, neg};
ghost use Rattle.number.specs.Number.{zero32, one32};
ghost use Rattle.polynomial_root.specs.Roots as Def;

use crate::answer::Roots;
use number::root::root;

// The smaller first.
fn in_order(a: f32, b: f32) -> (f32, f32)
    ensures { result ≡ Def.in_order a b }
{
    if a < b { (a, b) } else { (b, a) }
}

// The sign of c1 as a factor; a zero's is plus.
fn sign_of(c1: f32) -> f32
    ensures { result ≡ cond (lt c1 zero32) (neg one32) one32 }
{
    if c1 < 0.0 { -1.0 } else { 1.0 }
}

// Minus the sum of c1 and the discriminant's root with the sign of c1: nothing cancels in it.
fn stable(c1: f32, d: f32) -> f32
    ensures { result ≡ Def.stable c1 d }
{
    -(c1 + sign_of(c1) * root(d))
}

// The roots of c0 + c1 x + c2 x², none or two.
#[tactic(auto, unfolding(crate::specs::Roots::solved))]
pub(crate) fn solve(c0: f32, c1: f32, c2: f32) -> Option<(f32, f32)>
    ensures { result ≡ Def.solved c0 c1 c2 }
{
    let d = c1 * c1 - 4.0 * c2 * c0;
    if d < 0.0 {
        return None;
    }
    let s = stable(c1, d);
    let direct = s / (2.0 * c2);
    let other = if s == 0.0 { direct } else { 2.0 * c0 / s };
    Some(in_order(other, direct))
}

// The roots as an answer.
#[tactic(auto, unfolding(crate::specs::Roots::solved_roots))]
pub(crate) fn all_roots(solved: Option<(f32, f32)>) -> Roots
    ensures { result ≡ Def.solved_roots solved }
{
    match solved {
        Some((a, b)) => Roots::none().push(a).push(b),
        None => Roots::none(),
    }
}
