// What travels together (docs/01-scope.md, "What callers hand over, and the numbers allowed"): a pair's numbers.

// Four points of three numbers each, and as many displacements.
#[repr(C)]
#[derive(Clone, Copy)]
pub struct Pair {
    pub x: [[f32; 3]; 4],
    pub dx: [[f32; 3]; 4],
}
