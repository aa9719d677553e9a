// Face x0 x1 x2 against vertex x3 (docs/01-scope.md, "Our distance rules").
ghost use Rattle.std.specs.Prelude.{◌≡◌};
ghost use Rattle.std.specs.Float.Ieee.{lt};
ghost use Rattle.geometry.specs.Geometry.{minus};
ghost use Rattle.distance.specs.Distance as Def;

use super::candidate::{Nearest, all_above, first_smallest};
use super::products::Products;
use geometry::vec3::{along, sub};

// The products of two edges of the face and the gap from their corner to the vertex.
fn products(x0: [f32; 3], x1: [f32; 3], x2: [f32; 3], x3: [f32; 3]) -> Products
    ensures { result ≡ Def.products_of (minus x1 x0) (minus x2 x0) (minus x3 x0) }
{
    Products::of(sub(x1, x0), sub(x2, x0), sub(x3, x0))
}

// Whether the interior candidate is there.
#[tactic(auto, unfolding(crate::specs::Distance::over_face))]
fn over_face(p: Products) -> bool
    ensures { result ≡ Def.over_face p }
{
    let v = p.cd_minus_be();
    let w = p.ae_minus_bd();
    (0.0 < p.det) & (0.0 <= v) & (0.0 <= w) & (v + w <= 1.0)
}

// The interior candidate, whether or not it is there. A flag and a value, since as an `Option` it is computed behind a
// branch, and a walk takes 5 % longer.
#[tactic(auto, unfolding(crate::specs::Distance::face_interior))]
fn interior(p: Products, x0: [f32; 3], x1: [f32; 3], x2: [f32; 3], x3: [f32; 3]) -> Nearest
    ensures { result ≡ Def.face_interior p x0 x1 x2 x3 }
{
    let along_g = along(x0, p.cd_minus_be(), sub(x1, x0));
    let place = along(along_g, p.ae_minus_bd(), sub(x2, x0));
    Nearest::from_to(3, place, x3)
}

// The first smallest of the four candidates.
pub(crate) fn face_vertex(x0: [f32; 3], x1: [f32; 3], x2: [f32; 3], x3: [f32; 3]) -> Nearest
    ensures { result ≡ Def.first_smallest (Def.face_vertex x0 x1 x2 x3) }
{
    let p = products(x0, x1, x2, x3);
    let c0 = Nearest::segment_point(0, x0, x1, x3);
    let c1 = Nearest::segment_point(1, x1, x2, x3);
    let c2 = Nearest::segment_point(2, x2, x0, x3);
    let inner = interior(p, x0, x1, x2, x3);
    first_smallest(c0, [c1, c2], over_face(p), inner)
}

// Whether the squared distance is above a threshold. The interior candidate is asked first: where it is there it is
// often the nearest, and one candidate that is not above settles it. The others are written out here and above: out of
// one function that answers them in an array, a walk takes 6 % longer.
pub(crate) fn face_above(
    x0: [f32; 3],
    x1: [f32; 3],
    x2: [f32; 3],
    x3: [f32; 3],
    threshold: f32,
) -> bool
    ensures { result ≡ lt threshold (Def.first_smallest (Def.face_vertex x0 x1 x2 x3)).squared }
{
    let p = products(x0, x1, x2, x3);
    let inner = interior(p, x0, x1, x2, x3).squared;
    if over_face(p) & (inner <= threshold) {
        return false;
    }
    let d0 = Nearest::segment_point(0, x0, x1, x3).squared;
    let d1 = Nearest::segment_point(1, x1, x2, x3).squared;
    let d2 = Nearest::segment_point(2, x2, x0, x3).squared;
    all_above(d0, [d1, d2], threshold)
}
