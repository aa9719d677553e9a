// The tests of a point's three numbers and of the twelve of four points (docs/01-scope.md, "What callers hand over, and
// the numbers allowed").
ghost use Rattle.std.specs.Prelude.{◌≡◌, Bool, Float};
ghost use Rattle.admission.specs.Admission as Def;
ghost use Rattle.admission.specs.Inner.{Follows};

use number::range;

// The three numbers of a point pass a test. They are tested one by one, as the definition says: an iterator's `all` is
// no shorter, and branches after each number.
pub(crate) fn of_three<F: Fn(f32) -> bool>(test: F, v: [f32; 3]) -> bool
    requires { F.IsAlwaysCallable test }
    ensures { (t : Float → Bool) → Follows (F.post test) t → result ≡ Def.of_three t v }
{
    let [x, y, z] = v;
    test(x) & test(y) & test(z)
}

// The twelve numbers of four points pass a test.
pub(crate) fn of_twelve<F: Fn(f32) -> bool>(test: F, x: [[f32; 3]; 4]) -> bool
    requires { F.IsAlwaysCallable test }
    ensures { (t : Float → Bool) → Follows (F.post test) t → result ≡ Def.of_twelve t x }
{
    let [a, b, c, d] = x;
    of_three(&test, a) & of_three(&test, b) & of_three(&test, c) & of_three(&test, d)
}

// The twelve numbers of four points are finite.
pub fn points_finite(x: [[f32; 3]; 4]) -> bool
    ensures { result ≡ Def.finite_points x }
{
    of_twelve(range::is_finite, x)
}

// The twelve numbers of four points are 2^20 in size at most.
pub(crate) fn points_in_bound(x: [[f32; 3]; 4]) -> bool
    ensures { result ≡ Def.bounded_points x }
{
    of_twelve(range::in_bound, x)
}
