// The public calls on points (edge3.rs: `lerp`; mat3x4_array_of_cols.rs: `add_scaled`, `centerize`, `scale_in_place`).
// Each refuses by 1 and 2 alone. Points lent to a refused call stay as they were, bit for bit: nothing is stored.
ghost use Rattle.std.specs.Prelude.{◌≡◌, T, IfOk, OnOk};
ghost use Rattle.number.specs.Number.{is_finite, refusal_of};
ghost use Rattle.admission.specs.Admission as Adm;
ghost use Rattle.pair.specs.Points as Def;

use geometry::{edge3, mat3x4_array_of_cols as columns};
use number::refusal::Refusal;

// A place along a segment: p0 + ratio (p1 - p0).
pub fn lerp(p0: [f32; 3], p1: [f32; 3], ratio: f32) -> Result<[f32; 3], Refusal>
    ensures answer { result ≡ Def.placed p0 p1 ratio }
    ensures finite { IfOk result (λ point. T (Adm.of_three is_finite point)) }
{
    admission::admit_ratio(p0, p1, ratio)?;
    Ok(edge3::lerp(p0, p1, ratio))
}

// The points at time t, x0 + t dx, into lent ones.
pub fn add_scaled(
    x0: [[f32; 3]; 4],
    dx: [[f32; 3]; 4],
    t: f32,
    x: &mut [[f32; 3]; 4],
) -> Result<(), Refusal>
    ensures refusal { refusal_of result ≡ Adm.time_refusal x0 dx t }
    ensures lent { x.new ≡ Def.moved_into x0 dx t x.old }
    ensures finite { OnOk result (T (Adm.finite_points x.new)) }
{
    admission::admit_time(x0, dx, t)?;
    *x = columns::add_scaled(x0, dx, t);
    Ok(())
}

// The lent points minus their centre.
pub fn centerize(x: &mut [[f32; 3]; 4]) -> Result<(), Refusal>
    ensures refusal { refusal_of result ≡ Adm.points_refusal x.old }
    ensures lent { x.new ≡ Def.centred_in x.old }
    ensures finite { OnOk result (T (Adm.finite_points x.new)) }
{
    admission::admit_points(*x)?;
    *x = columns::centerized(*x);
    Ok(())
}

// The lent points times s.
pub fn scale_in_place(x: &mut [[f32; 3]; 4], s: f32) -> Result<(), Refusal>
    ensures refusal { refusal_of result ≡ Adm.factor_refusal x.old s }
    ensures lent { x.new ≡ Def.scaled_in x.old s }
    ensures finite { OnOk result (T (Adm.finite_points x.new)) }
{
    admission::admit_factor(*x, s)?;
    *x = columns::scaled(*x, s);
    Ok(())
}
