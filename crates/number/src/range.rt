// The tests of the ranges that a number handed over must lie in (docs/01-scope.md, "The numbers allowed").
// Both ends are in; minus zero is zero; a NaN lies in none. And the verdict of a call's tests.
ghost use Rattle.std.specs.Prelude.{◌≡◌};
ghost use Rattle.number.specs.Number as Def;

use crate::refusal::Refusal;

// From low to high.
fn between(low: f32, high: f32, x: f32) -> bool
    ensures { result ≡ Def.between low high x }
{
    (low <= x) & (x <= high)
}

// Neither NaN nor an infinity.
pub fn is_finite(x: f32) -> bool
    ensures { result ≡ Def.is_finite x }
{
    x.is_finite()
}

// Coordinates, displacements, coefficients: size at most 2^20.
pub fn in_bound(x: f32) -> bool
    ensures { result ≡ Def.in_bound x }
{
    between(-1048576.0, 1048576.0, x)
}

// Offset, clearance, epsilon, a scale factor: 0 to 2^20.
pub fn zero_to_bound(x: f32) -> bool
    ensures { result ≡ Def.zero_to_bound x }
{
    between(0.0, 1048576.0, x)
}

// Time limit, a moved point's time, a ratio: 0 to 1.
pub fn zero_to_one(x: f32) -> bool
    ensures { result ≡ Def.zero_to_one x }
{
    between(0.0, 1.0, x)
}

// The range of a polynomial: above 0, at most 1.
pub fn above_zero_to_one(x: f32) -> bool
    ensures { result ≡ Def.above_zero_to_one x }
{
    (0.0 < x) & (x <= 1.0)
}

// u_max: 2^-60 to 2^60.
pub fn speed_range(x: f32) -> bool
    ensures { result ≡ Def.speed_range x }
{
    between(8.673617379884035e-19, 1.152921504606847e18, x)
}

// Admitted, or refused: a number that is not finite is told before one beyond its range.
#[tactic(auto, unfolding(crate::specs::Number::answered, crate::specs::Number::numbered))]
pub fn verdict(finite: bool, ranged: bool) -> Result<(), Refusal>
    ensures { result ≡ Def.answered (Def.refusal finite ranged) tt }
{
    if finite {
        if ranged {
            Ok(())
        } else {
            Err(Refusal::BeyondRange)
        }
    } else {
        Err(Refusal::NotFinite)
    }
}
