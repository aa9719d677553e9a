// The times at which the four points of a pair lie in one plane (ccd3.rs: `coplanar_time_mat3x4`; docs/01-scope.md,
// "Roots").
ghost use Rattle.std.specs.Prelude.{◌≡◌, ◌↔◌, not, ◌&&◌, T, IfOk};
ghost use Rattle.number.specs.Number.{one32, refusal_of};
ghost use Rattle.polynomial_root.specs.Roots.{Tidy, InRange};
ghost use Rattle.admission.specs.Admission.{finite_points};
ghost use Rattle.motion.specs.Motion as Def;

use geometry::vec3::{scalar_triple_product, sub};
use number::refusal::Refusal;
use polynomial_root::answer::Roots;
use polynomial_root::cubic::Cubic;
use polynomial_root::cubic_roots_in_range_zero_to_t;

// The volume spanned by three edges that move, as a cubic of the time: of six vectors, as its definition is.
#[tactic(auto, unfolding(crate::specs::Motion::volume))]
fn volume(
    x1: [f32; 3],
    x2: [f32; 3],
    x3: [f32; 3],
    v1: [f32; 3],
    v2: [f32; 3],
    v3: [f32; 3],
) -> Cubic
    ensures { result ≡ Def.volume x1 x2 x3 v1 v2 v3 }
{
    Cubic {
        c0: scalar_triple_product(x3, x1, x2),
        c1: scalar_triple_product(v3, x1, x2)
            + scalar_triple_product(x3, v1, x2)
            + scalar_triple_product(x3, x1, v2),
        c2: scalar_triple_product(v3, v1, x2)
            + scalar_triple_product(v3, x1, v2)
            + scalar_triple_product(x3, v1, v2),
        c3: scalar_triple_product(v3, v1, v2),
    }
}

// The cubic of a pair: columns 1 to 3 as seen from column 0.
#[tactic(auto, unfolding(crate::specs::Motion::motion_cubic))]
fn motion_cubic(x: [[f32; 3]; 4], dx: [[f32; 3]; 4]) -> Cubic
    ensures { result ≡ Def.motion_cubic x dx }
{
    volume(
        sub(x[1], x[0]),
        sub(x[2], x[0]),
        sub(x[3], x[0]),
        sub(dx[1], dx[0]),
        sub(dx[2], dx[0]),
        sub(dx[3], dx[0]),
    )
}

// The times from 0 to 1, in the order of the cubic's spans. Refusals 1, 2, 6, 7, 8; by 1 where, and only where, a
// number handed over is not finite: the coefficients computed from admitted points are.
pub fn coplanar_time_mat3x4(x0: [[f32; 3]; 4], dx: [[f32; 3]; 4]) -> Result<Roots, Refusal>
    ensures answer { result ≡ Def.coplanar_times x0 dx }
    ensures tidy { IfOk result Tidy }
    ensures range { IfOk result (InRange one32) }
    ensures first { (refusal_of result ≡ 1) ↔ T (not (finite_points x0 && finite_points dx)) }
{
    admission::admit_motion(x0, dx)?;
    let p = motion_cubic(x0, dx);
    cubic_roots_in_range_zero_to_t(p.c0, p.c1, p.c2, p.c3, 1.0, 0.0)
}
