// The largest distance between the two sides of a split, as the source computes it, and with a margin above the exact
// one (docs/01-scope.md, "Square root and norm"; ccd3.rs: `max_relative_norm`).
ghost use Rattle.std.specs.Prelude.{◌≡◌, T};
ghost use Rattle.std.specs.Float.Ieee.{le};
ghost use Rattle.number.specs.Number.{zero32, is_finite, refusal_of, value_of, admitted, answered};
ghost use Rattle.admission.specs.Admission.{split_refusal};
ghost use Rattle.pair.specs.Points as Def;

use geometry::vec3;
use number::refusal::Refusal;
use number::{order, root};

// The largest squared difference of a column before the split and a column from it.
fn largest_square(x: [[f32; 3]; 4], split: usize) -> f32
    ensures { result ≡ Def.largest_square x split }
{
    let (first, second) = x.split_at(split.min(4));
    let mut largest = 0.0;
    for p in first {
        for q in second {
            let gap = vec3::sub(*p, *q);
            largest = order::larger(largest, vec3::dot(gap, gap));
        }
    }
    largest
}

// The source norm: its root. Any points and any split are taken: the largest over no column at all is zero.
#[tactic(auto, unfolding(crate::specs::Points::source_norm))]
fn source_norm(x: [[f32; 3]; 4], split: usize) -> f32
    ensures { result ≡ Def.source_norm x split }
{
    root::root(largest_square(x, split))
}

// The least source norm that is raised: 2^-60.
const LEAST_RAISED: f32 = 8.673617379884035e-19;

// What it is raised by: 1 + 2^-21.
const UPWARD: f32 = 1.000000476837158203125;

// The norm, which errs upward.
#[tactic(auto, unfolding(crate::specs::Points::norm_of, crate::specs::Points::raised))]
pub fn norm(x: [[f32; 3]; 4], split: usize) -> f32
    ensures { result ≡ Def.norm_of x split }
{
    let source = source_norm(x, split);
    if source < LEAST_RAISED {
        source
    } else {
        source * UPWARD
    }
}

// The public call: the norm, or a refusal by 1 or 2. A norm of 2^-60 or more is not below the exact largest distance,
// and not above it times 1 + 2^-20.
pub fn max_relative_norm(x: [[f32; 3]; 4], split: usize) -> Result<f32, Refusal>
    ensures answer { result ≡ answered (split_refusal x split) (Def.norm_of x split) }
    ensures refusal { refusal_of result ≡ split_refusal x split }
    ensures value { value_of result ≡ admitted (split_refusal x split) (Def.norm_of x split) zero32 }
    ensures norm { T (is_finite (value_of result)) × T (le zero32 (value_of result)) }
    ensures upward { refusal_of result ≡ 0 → Def.ErrsUpward x split (value_of result) }
{
    admission::admit_split(x, split)?;
    Ok(norm(x, split))
}
