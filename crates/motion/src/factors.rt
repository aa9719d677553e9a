// The factors of a scaling (docs/01-scope.md, "Scaling a pair"; ccd3.rs: `normalize_centerized_configuration`): the
// largest entry of a pair, its first factor taken apart into factors of 8 and a last one, and points times them all.
ghost use Rattle.std.specs.Prelude.{◌≡◌, true};
ghost use Rattle.number.specs.Number.{is_finite};
ghost use Rattle.motion.specs.Motion as Def;

use geometry::mat3x4_array_of_cols as columns;
use number::{order, range};

// The factors of a scaling: how many times 8, the last one, and the product of all.
#[derive(Clone, Copy)]
pub(crate) struct Factors {
    pub eights: u32,
    pub last: f32,
    pub product: f32,
}

impl Factors {
    // f > 8 is taken apart into factors of 8 and a last one. What is left ends the loop; its turns are what is counted.
    pub(crate) fn of(f: f32) -> Factors
        requires { is_finite f ≡ true }
        ensures { result ≡ Def.factors_of f }
    {
        let mut eights = 0;
        let mut last = f;
        let mut product = 1.0;
        while 8.0 < last {
            last = last / 8.0;
            product = product * 8.0;
            eights += 1;
        }
        Factors {
            eights,
            last,
            product: product * last,
        }
    }

    // Four points times all the factors.
    pub(crate) fn times(self, x: [[f32; 3]; 4]) -> [[f32; 3]; 4]
        ensures { result ≡ Def.scaled_by self x }
    {
        let mut y = x;
        for _ in 0..self.eights {
            let more = columns::scaled(y, 8.0);
            y = more;
        }
        columns::scaled(y, self.last)
    }
}

// The largest so far, after |x| and |x + max_t dx|.
#[tactic(auto, unfolding(crate::specs::Motion::larger_entry))]
fn larger_entry(most: f32, x: f32, dx: f32, max_t: f32) -> f32
    ensures { result ≡ Def.larger_entry max_t most x dx }
{
    order::larger(
        order::larger(most, order::size(x)),
        order::size(x + max_t * dx),
    )
}

// The same over a column.
fn larger_column(most: f32, v: [f32; 3], d: [f32; 3], max_t: f32) -> f32
    ensures { result ≡ Def.larger_column max_t most v d }
{
    v.iter()
        .zip(&d)
        .fold(most, |most, (x, dx)| larger_entry(most, *x, *dx, max_t))
}

// The largest size over the twelve places, at time 0 and at max_t.
pub(crate) fn max_entry(x: [[f32; 3]; 4], dx: [[f32; 3]; 4], max_t: f32) -> f32
    ensures { result ≡ Def.max_entry x dx max_t }
{
    x.iter()
        .zip(&dx)
        .fold(0.0, |most, (v, d)| larger_column(most, *v, *d, max_t))
}

// A first factor that can be used: finite and above zero.
#[tactic(auto, unfolding(crate::specs::Motion::usable))]
pub(crate) fn usable(f: f32) -> bool
    ensures { result ≡ Def.usable f }
{
    range::is_finite(f) & (0.0 < f)
}
