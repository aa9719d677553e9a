// The correctly rounded square root (docs/01-scope.md, "Square root and norm").
ghost use Rattle.std.specs.Prelude.{◌≡◌, ◌^◌, ◌≤◌, ◌<◌};
ghost use Rattle.number.specs.Number.{refusal_of, value_of, answered};
ghost use Rattle.number.specs.Number as Def;
ghost use Rattle.number.specs.Inner.{RootBits};

use crate::by_hand::Argument;
use crate::refusal::Refusal;
use crate::{by_hand, range};

// The pattern of the f32 nearest to the root of digits * 2 ^ (exponent - 173): 24 digits, and one that rounds.
fn root_bits(a: Argument) -> u32
    requires { (2 ^ 23 ≤ a.digits) × (a.digits < 2 ^ 24) × (a.exponent < 300) }
    ensures { RootBits a.digits a.exponent result }
{
    let s = by_hand::digit(by_hand::worked(by_hand::even(a), 24), 1);
    (((a.exponent >> 1) + 51) << 23) + ((s.twice + 2) >> 2)
}

// The f32 nearest to the exact root of a positive finite x; plus zero for any other x. It is worked out digit by digit,
// as docs/01-scope.md has it, and not by the library's `sqrt`.
pub fn root(x: f32) -> f32
    ensures { result ≡ Def.root_of x }
{
    let a = by_hand::argument_of(x);
    if a.digits == 0 {
        0.0
    } else {
        f32::from_bits(root_bits(a))
    }
}

// The square root with its refusals: 1 for NaN or an infinity, 2 below zero.
pub fn square_root(x: f32) -> Result<f32, Refusal>
    ensures answer { result ≡ answered (Def.root_refusal x) (Def.root_of x) }
    ensures refusal { refusal_of result ≡ Def.root_refusal x }
    ensures value { value_of result ≡ Def.root_of x }
{
    if range::is_finite(x) {
        if x < 0.0 {
            Err(Refusal::BeyondRange)
        } else {
            Ok(root(x))
        }
    } else {
        Err(Refusal::NotFinite)
    }
}
