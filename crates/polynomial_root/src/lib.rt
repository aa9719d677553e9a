// Roots of polynomials of degree two and three (polynomial_root.rs; docs/01-scope.md, "Roots"). The two functions here
// refuse what is out of range; the modules hold what they rest on, for any numbers.

#![tactic(auto)]

mod admission;
pub mod answer;
pub mod cubic;
mod lower;
mod newton;
mod quadratic;
mod search;
mod span;

ghost use Rattle.std.specs.Prelude.{◌≡◌, IfOk};
ghost use Rattle.polynomial_root.specs.Roots.{cubic_of, Tidy, NoNan, NoneOrTwo, InRange};
ghost use Rattle.polynomial_root.specs.Roots.{OriginalAtOne, quadratic_root, cubic_roots_in_range};

use admission::admit_quadratic;
use answer::Roots;
use cubic::Cubic;
use number::refusal::Refusal;
use search::Search;

// The roots of c0 + c1 x + c2 x²: none or two, the smaller first. Refusals 1, 2, 9.
pub fn quadratic_root(c0: f32, c1: f32, c2: f32) -> Result<Roots, Refusal>
    ensures answer { result ≡ quadratic_root c0 c1 c2 }
    ensures tidy { IfOk result Tidy }
    ensures numbers { IfOk result NoNan }
    ensures two { IfOk result NoneOrTwo }
{
    admit_quadratic(c0, c1, c2)?;
    if c2 == 0.0 {
        return Err(Refusal::NotQuadratic);
    }
    Ok(quadratic::all_roots(quadratic::solve(c0, c1, c2)))
}

// The roots in 0..t of c0 + c1 x + c2 x² + c3 x³, in the order of the spans. Refusals 1, 2, 6, 7, 8.
pub fn cubic_roots_in_range_zero_to_t(
    c0: f32,
    c1: f32,
    c2: f32,
    c3: f32,
    t: f32,
    epsilon: f32,
) -> Result<Roots, Refusal>
    ensures answer { result ≡ cubic_roots_in_range (cubic_of c0 c1 c2 c3) t epsilon }
    ensures tidy { IfOk result Tidy }
    ensures range { IfOk result (InRange t) }
    ensures original { OriginalAtOne (cubic_of c0 c1 c2 c3) t epsilon result }
{
    let p = Cubic { c0, c1, c2, c3 };
    let search = Search { p, t, epsilon };
    search.admit()?;
    search.roots()
}
