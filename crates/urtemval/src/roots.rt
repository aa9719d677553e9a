// The square root, the two root finders, and the times at which a pair's four points lie in one plane
// (`number::root::square_root`, `polynomial_root`, `motion::coplanar::coplanar_time_mat3x4`).
ghost use Rattle.std.specs.Prelude.{◌≡◌};
ghost use Rattle.number.specs.Number.{answered, root_of, root_refusal};
ghost use Rattle.polynomial_root.specs.Roots.{cubic_of, quadratic_root, cubic_roots_in_range};
ghost use Rattle.motion.specs.Motion.{coplanar_times};
ghost use Rattle.urtemval.specs.Face as Def;

use crate::answer::{Roots, Value};
use motion::coplanar;
use number::root;

#[unsafe(no_mangle)]
pub extern "C" fn urtemval_square_root(x: f32) -> Value
    ensures { result ≡ Def.told (answered (root_refusal x) (root_of x)) }
{
    Value::from(root::square_root(x))
}

#[unsafe(no_mangle)]
pub extern "C" fn urtemval_quadratic_roots(c0: f32, c1: f32, c2: f32) -> Roots
    ensures { result ≡ Def.roots_of (quadratic_root c0 c1 c2) }
{
    Roots::from(polynomial_root::quadratic_root(c0, c1, c2))
}

#[unsafe(no_mangle)]
pub extern "C" fn urtemval_cubic_roots(
    c0: f32,
    c1: f32,
    c2: f32,
    c3: f32,
    t: f32,
    epsilon: f32,
) -> Roots
    ensures { result ≡ Def.roots_of (cubic_roots_in_range (cubic_of c0 c1 c2 c3) t epsilon) }
{
    Roots::from(polynomial_root::cubic_roots_in_range_zero_to_t(c0, c1, c2, c3, t, epsilon))
}

#[unsafe(no_mangle)]
pub extern "C" fn urtemval_coplanar_times(x0: &[[f32; 3]; 4], dx: &[[f32; 3]; 4]) -> Roots
    ensures { result ≡ Def.roots_of (coplanar_times x0.now dx.now) }
{
    Roots::from(coplanar::coplanar_time_mat3x4(*x0, *dx))
}
