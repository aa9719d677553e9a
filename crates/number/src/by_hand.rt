// The square root by hand: one binary digit after another, by shifts, comparisons and subtractions (docs/01-scope.md,
// "The root by hand"). The argument is written with 24 digits and its exponent made even; the root then has 24 digits
// and one more, which rounds.
ghost use Rattle.std.specs.Prelude.{◌≡◌, ℕ, ◌+◌, ◌-◌, ◌*◌, ◌%◌, ◌^◌, ◌≤◌, ◌<◌};
ghost use Rattle.number.specs.ByHand as Def;
ghost use Rattle.number.specs.Inner.{OnSheet};

// A number above zero: digits * 2 ^ (exponent - 173), with 24 binary digits. That there are so many is no invariant of
// the type: the definition `ByHand.argument_of` makes the record of its two numbers alone.
#[derive(Clone, Copy)]
pub struct Argument {
    pub digits: u32,
    pub exponent: u32,
}

// What stands on the sheet: twice the digits so far, and what is left, counted in the place of the last digit.
#[derive(Clone, Copy)]
pub struct Sheet {
    pub twice: u32,
    pub left: u32,
}

// The digits and the exponent of a positive finite x; no digits for any other x. (Not an `Option`: the sheet of any x goes
// on from the number 0, as in `ByHand.sheet_after`.)
pub fn argument_of(x: f32) -> Argument
    ensures { result ≡ Def.argument_of x }
{
    if 0.0 < x {
        let b = f32::to_bits(x);
        let field = b >> 23;
        match field {
            0 => {
                let z = u32::leading_zeros(b) - 8;
                let digits = b << z;
                let exponent = 24 - z;
                Argument { digits, exponent }
            }
            1..=254 => {
                let digits = b - ((field - 1) << 23);
                let exponent = field + 23;
                Argument { digits, exponent }
            }
            _ => Argument {
                digits: 0,
                exponent: 0,
            },
        }
    } else {
        Argument {
            digits: 0,
            exponent: 0,
        }
    }
}

// The number whose root is worked out: the digits, doubled where the exponent is odd.
pub(crate) fn even(a: Argument) -> u32
    requires { a.digits < 2 ^ 24 }
    ensures { result ≡ a.digits * 2 ^ (a.exponent % 2) }
{
    a.digits << (a.exponent & 1)
}

// The digit at a place. The trial is twice the digits so far plus the place; what is left, counted in this place, is
// twice what it was. Where the trial fits it is taken away, and the digit is 1.
pub(crate) fn digit(s: Sheet, place: u32) -> Sheet
    requires { (s.left < 2 ^ 31) × (s.twice + 2 * place < 2 ^ 32) }
    ensures { (n : ℕ) → OnSheet n (2 * place) s → OnSheet n place result }
{
    let trial = s.twice + place;
    let left = s.left << 1;
    if left < trial {
        Sheet {
            twice: s.twice,
            left,
        }
    } else {
        Sheet {
            twice: trial + place,
            left: left - trial,
        }
    }
}

// The first digits of the root of n * 2 ^ 25, from the place 2 ^ 24 down.
pub(crate) fn worked(n: u32, turns: u32) -> Sheet
    requires { (n < 2 ^ 25) × (turns ≤ 25) }
    ensures { OnSheet (n * 2 ^ 25) (2 ^ (25 - turns)) result }
{
    let mut s = Sheet { twice: 0, left: n };
    let mut place: u32 = 0x200_0000;
    for _ in 0..turns {
        place = place >> 1;
        s = digit(s, place);
    }
    s
}

// The sheet of x after some digits; the digit after the 24th rounds, and there are no more.
pub fn sheet_after(x: f32, turns: u32) -> Sheet
    ensures sheet { result ≡ Def.sheet_after x turns }
    ensures room { (result.twice < 2 ^ 26) × (result.left < 2 ^ 27) }
{
    let n = even(argument_of(x));
    if turns < 25 {
        worked(n, turns)
    } else {
        worked(n, 25)
    }
}
