// Candidates for the distance of a pair (docs/01-scope.md, "Our distance rules").
ghost use Rattle.std.specs.Prelude.{◌≡◌, ◌++◌, ◌&&◌, not, fold};
ghost use Rattle.std.specs.Float.Ieee.{lt, le};
ghost use Rattle.distance.specs.Distance.{nearest_from, only};
ghost use Rattle.distance.specs.Distance as Def;

use super::segment;
use geometry::vec3;
use number::order::smaller;

// A squared distance, the direction from the first side to the second, and which candidate it was: by its number, which
// `urtemval_squared_distance` tells C.
#[derive(Clone, Copy)]
pub struct Nearest {
    pub squared: f32,
    pub direction: [f32; 3],
    pub candidate: u32,
}

impl Nearest {
    // Candidate n, from the place p on the first side to the place q on the second.
    #[tactic(auto, unfolding(crate::specs::Distance::from_to))]
    pub(crate) fn from_to(n: u32, p: [f32; 3], q: [f32; 3]) -> Nearest
        ensures { result ≡ Def.from_to n p q }
    {
        let w = vec3::sub(q, p);
        Nearest {
            squared: vec3::dot(w, w),
            direction: w,
            candidate: n,
        }
    }

    // Candidate n, a point of the first side against a segment of the second.
    #[tactic(auto, unfolding(crate::specs::Distance::point_segment))]
    pub(crate) fn point_segment(n: u32, p: [f32; 3], q0: [f32; 3], q1: [f32; 3]) -> Nearest
        ensures { result ≡ Def.point_segment n p q0 q1 }
    {
        Nearest::from_to(n, p, segment::place_on(p, q0, q1))
    }

    // Candidate n, a segment of the first side against a point of the second.
    #[tactic(auto, unfolding(crate::specs::Distance::segment_point))]
    pub(crate) fn segment_point(n: u32, q0: [f32; 3], q1: [f32; 3], p: [f32; 3]) -> Nearest
        ensures { result ≡ Def.segment_point n q0 q1 p }
    {
        Nearest::from_to(n, segment::place_on(p, q0, q1), p)
    }
}

// The first smallest of a first candidate, of others, and last of an interior one where that is there: the last one
// that is nearer than all before it. Both loops go over places: the first one writes at each what the second one, from
// the last place down, reads there. A fold, as in the definition, takes a walk 6 % to 9 % longer.
pub(crate) fn first_smallest<const N: usize>(
    first: Nearest,
    others: [Nearest; N],
    there: bool,
    inner: Nearest,
) -> Nearest
    ensures { result ≡ nearest_from first (others.entry ++ only there inner) }
{
    let mut least = first.squared;
    let mut before = [least; N];
    for i in 0..N {
        before[i] = least;
        least = smaller(least, others[i].squared);
    }
    if there & (inner.squared < least) {
        return inner;
    }
    for i in (0..N).rev() {
        if others[i].squared < before[i] {
            return others[i];
        }
    }
    first
}

// Whether a first squared distance is above a threshold, and none of the others at or below it.
pub(crate) fn all_above<const N: usize>(first: f32, others: [f32; N], threshold: f32) -> bool
    ensures { result ≡ fold (λ above x. above && not (le x threshold)) (lt threshold first) others.entry }
{
    let mut above = threshold < first;
    for squared in others {
        above &= !(squared <= threshold);
    }
    above
}
