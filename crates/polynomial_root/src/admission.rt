// Which numbers a caller may hand over (docs/01-scope.md, "What callers hand over"): refusals 1 and 2.
ghost use Rattle.std.specs.Prelude.{◌≡◌};
ghost use Rattle.number.specs.Number.{answered};
ghost use Rattle.polynomial_root.specs.Roots as Def;

use crate::search::Search;
use number::range::{above_zero_to_one, in_bound, is_finite, verdict, zero_to_bound};
use number::refusal::Refusal;

// What lies in its range is finite and need not be asked. Said twice here, and once in `admission`: a function over both
// would be public, and ask that the test which it is given can be called.
pub(crate) fn admit_quadratic(c0: f32, c1: f32, c2: f32) -> Result<(), Refusal>
    ensures { result ≡ answered (Def.quadratic_refusal c0 c1 c2) tt }
{
    if in_bound(c0) & in_bound(c1) & in_bound(c2) {
        Ok(())
    } else {
        verdict(is_finite(c0) & is_finite(c1) & is_finite(c2), false)
    }
}

impl Search {
    pub(crate) fn admit(self) -> Result<(), Refusal>
        ensures { result ≡ answered (Def.cubic_refusal self.p self.t self.epsilon) tt }
    {
        let p = self.p;
        if in_bound(p.c0)
            & in_bound(p.c1)
            & in_bound(p.c2)
            & in_bound(p.c3)
            & above_zero_to_one(self.t)
            & zero_to_bound(self.epsilon)
        {
            Ok(())
        } else {
            verdict(
                is_finite(p.c0)
                    & is_finite(p.c1)
                    & is_finite(p.c2)
                    & is_finite(p.c3)
                    & is_finite(self.t)
                    & is_finite(self.epsilon),
                false,
            )
        }
    }
}
