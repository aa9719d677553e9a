// The distance of a pair by its split (docs/01-scope.md, "Our distance rules"). The rules are over the points x0 to x3,
// and so is what is called here. The split is asked for in a line each: it is a number that the caller hands over, and a
// trait of the two splits would be chosen by the same test.
ghost use Rattle.std.specs.Prelude.{◌≡◌};
ghost use Rattle.std.specs.Float.Ieee.{lt};
ghost use Rattle.distance.specs.Distance as Def;

use super::candidate::Nearest;
use super::{edge_edge, face_vertex};

// The first smallest candidate: of edge against edge for split 2, of face against vertex for any other.
#[tactic(auto, unfolding(crate::specs::Distance::nearest_of, crate::specs::Distance::candidates_of))]
pub fn nearest(x: [[f32; 3]; 4], split: usize) -> Nearest
    ensures { result ≡ Def.nearest_of split x }
{
    let [x0, x1, x2, x3] = x;
    if split == 2 {
        edge_edge::edge_edge(x0, x1, x2, x3)
    } else {
        face_vertex::face_vertex(x0, x1, x2, x3)
    }
}

// Whether the squared distance is above a threshold, for a caller that wants no more.
#[tactic(auto, unfolding(crate::specs::Distance::nearest_of, crate::specs::Distance::candidates_of))]
pub fn is_above(x: [[f32; 3]; 4], split: usize, threshold: f32) -> bool
    ensures { result ≡ lt threshold (Def.nearest_of split x).squared }
{
    let [x0, x1, x2, x3] = x;
    if split == 2 {
        edge_edge::edges_above(x0, x1, x2, x3, threshold)
    } else {
        face_vertex::face_above(x0, x1, x2, x3, threshold)
    }
}
