// Calls of `quadratic_root`: c0, c1, c2.
pub(crate) const CALLS: [[f32; 3]; 12] = [
    // two roots, none, a double one, c2 zero of either sign
    [2.0, -3.0, 1.0],
    [1.0, 0.0, 1.0],
    [0.0, 0.0, 1.0],
    [1.0, 1.0, 0.0],
    [1.0, 1.0, -0.0],
    // a NaN beside a number out of range, an infinity, both ends of the range and the next f32 above
    [f32::NAN, 1.7014118e38, 1.0],
    [1.0, f32::NEG_INFINITY, 0.0],
    [1048576.0, -1048576.0, 1048576.0],
    [1048576.1, 0.0, 0.0],
    // one root is infinite
    [0.5229747, -1.0, -4.5918e-41],
    [0.0, 2.0, 1.0e-45],
    [0.00011406284, 1.25, -1.33e-43],
];
