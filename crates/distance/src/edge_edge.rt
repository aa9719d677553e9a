// Edge x0 x1 against edge x2 x3 (docs/01-scope.md, "Our distance rules").
ghost use Rattle.std.specs.Prelude.{◌≡◌};
ghost use Rattle.std.specs.Float.Ieee.{lt};
ghost use Rattle.geometry.specs.Geometry.{minus};
ghost use Rattle.distance.specs.Distance as Def;

use super::candidate::{Nearest, all_above, first_smallest};
use super::products::Products;
use geometry::edge3::lerp;
use geometry::vec3::sub;
use number::range::zero_to_one;

// The products of the two edges and the gap from the second to the first.
fn products(x0: [f32; 3], x1: [f32; 3], x2: [f32; 3], x3: [f32; 3]) -> Products
    ensures { result ≡ Def.products_of (minus x1 x0) (minus x3 x2) (minus x0 x2) }
{
    Products::of(sub(x1, x0), sub(x3, x2), sub(x0, x2))
}

// Whether the interior candidate is there.
#[tactic(auto, unfolding(crate::specs::Distance::edges_meet))]
fn edges_meet(p: Products) -> bool
    ensures { result ≡ Def.edges_meet p }
{
    (0.0 < p.det) & zero_to_one(p.be_minus_cd()) & zero_to_one(p.ae_minus_bd())
}

// The interior candidate, whether or not it is there. A flag and a value, since as an `Option` it is computed behind a
// branch, and a walk takes 5 % longer.
#[tactic(auto, unfolding(crate::specs::Distance::edge_interior))]
fn interior(p: Products, x0: [f32; 3], x1: [f32; 3], x2: [f32; 3], x3: [f32; 3]) -> Nearest
    ensures { result ≡ Def.edge_interior p x0 x1 x2 x3 }
{
    let from = lerp(x0, x1, p.be_minus_cd());
    let to = lerp(x2, x3, p.ae_minus_bd());
    Nearest::from_to(4, from, to)
}

// The first smallest of the five candidates.
pub(crate) fn edge_edge(x0: [f32; 3], x1: [f32; 3], x2: [f32; 3], x3: [f32; 3]) -> Nearest
    ensures { result ≡ Def.first_smallest (Def.edge_edge x0 x1 x2 x3) }
{
    let p = products(x0, x1, x2, x3);
    let c0 = Nearest::point_segment(0, x0, x2, x3);
    let c1 = Nearest::point_segment(1, x1, x2, x3);
    let c2 = Nearest::segment_point(2, x0, x1, x2);
    let c3 = Nearest::segment_point(3, x0, x1, x3);
    let inner = interior(p, x0, x1, x2, x3);
    first_smallest(c0, [c1, c2, c3], edges_meet(p), inner)
}

// Whether the squared distance is above a threshold. The interior candidate is asked first: where it is there it is
// often the nearest, and one candidate that is not above settles it. The others are written out here and above: out of
// one function that answers them in an array, a walk takes 4 % longer.
pub(crate) fn edges_above(
    x0: [f32; 3],
    x1: [f32; 3],
    x2: [f32; 3],
    x3: [f32; 3],
    threshold: f32,
) -> bool
    ensures { result ≡ lt threshold (Def.first_smallest (Def.edge_edge x0 x1 x2 x3)).squared }
{
    let p = products(x0, x1, x2, x3);
    let inner = interior(p, x0, x1, x2, x3).squared;
    if edges_meet(p) & (inner <= threshold) {
        return false;
    }
    let d0 = Nearest::point_segment(0, x0, x2, x3).squared;
    let d1 = Nearest::point_segment(1, x1, x2, x3).squared;
    let d2 = Nearest::segment_point(2, x0, x1, x2).squared;
    let d3 = Nearest::segment_point(3, x0, x1, x3).squared;
    all_above(d0, [d1, d2, d3], threshold)
}
