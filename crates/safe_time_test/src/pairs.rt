// Points, displacements and limits that several lines have in common.
use crate::line::{Pair, walked};
use admission::Limits;
use std::io;

// Two edges one unit long, the first at height `a`, the second at height `b`.
pub(crate) fn strips(a: f32, b: f32) -> [[f32; 3]; 4] {
    [[0.0, 0.0, a], [1.0, 0.0, a], [0.0, 0.0, b], [1.0, 0.0, b]]
}

// Displacements of edges: the first one goes up by `a`, the second by `b`.
pub(crate) fn raised(a: f32, b: f32) -> [[f32; 3]; 4] {
    [[0.0, 0.0, a], [0.0, 0.0, a], [0.0, 0.0, b], [0.0, 0.0, b]]
}

// Displacements of a face and a vertex: the vertex goes up by `a`.
pub(crate) fn vertex_raised(a: f32) -> [[f32; 3]; 4] {
    [
        [0.0, 0.0, 0.0],
        [0.0, 0.0, 0.0],
        [0.0, 0.0, 0.0],
        [0.0, 0.0, a],
    ]
}

// Displacements of edges: the first one goes by `a` along x.
pub(crate) fn slid(a: f32) -> [[f32; 3]; 4] {
    [
        [a, 0.0, 0.0],
        [a, 0.0, 0.0],
        [0.0, 0.0, 0.0],
        [0.0, 0.0, 0.0],
    ]
}

// Edge against edge; face against vertex.
pub(crate) fn edges(x: [[f32; 3]; 4], dx: [[f32; 3]; 4]) -> Pair {
    Pair { x, dx, split: 2 }
}

pub(crate) fn face_vertex(x: [[f32; 3]; 4], dx: [[f32; 3]; 4]) -> Pair {
    Pair { x, dx, split: 3 }
}

pub(crate) fn limits(offset: f32, clearance: f32, max_t: f32, u_max: f32) -> Limits {
    Limits {
        offset,
        clearance,
        max_t,
        u_max,
    }
}

// A strip at height 4 that comes down by 4 upon one at height 0.
pub(crate) fn strips_meet(rt: &impl Print, name: &str, limits: Limits) -> io::Result<()> {
    walked(rt, name, edges(strips(0.0, 4.0), raised(0.0, -4.0)), limits)
}
