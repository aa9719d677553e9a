// Points and numbers that several lines have in common.

// The bound on coordinates, 2^20, and the next number above it.
pub(crate) const BOUND: f32 = 1048576.0;

pub(crate) const ABOVE_BOUND: f32 = 1048576.125;
// The next number above 1.
pub(crate) const ABOVE_ONE: f32 = 1.0000001;

// Four points of many numbers.
pub(crate) const MANY: [[f32; 3]; 4] = [
    [0.5, -1.25, 3.0],
    [2.0, 0.75, -0.125],
    [-4.0, 1.5, 0.0],
    [1.0, 6.0, -2.5],
];

// Four points with one number.
pub(crate) fn lone(a: f32) -> [[f32; 3]; 4] {
    [
        [0.0, 0.0, 0.0],
        [0.0, a, 0.0],
        [0.0, 0.0, 0.0],
        [0.0, 0.0, 0.0],
    ]
}
