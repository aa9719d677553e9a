// Calls of `cubic_roots_in_range_zero_to_t`, also with leading coefficients missing: c0, c1, c2, c3, t, epsilon.
pub(crate) const CALLS: [[f32; 6]; 21] = [
    // linear: a root at t = 1, one that is minus zero in the original
    [-1.0, 2.0, 0.0, 0.0, 1.0, 0.0],
    [0.0, 1.0, 0.0, 0.0, 1.0, 0.0],
    // shorter ranges: a fraction equal to t, below it, above it with a rounded product, 1; a root between t and 1
    [-0.25, 1.0, 0.0, 0.0, 0.5, 0.0],
    [-0.125, 1.0, 0.0, 0.0, 0.5, 0.0],
    [-0.6, 0.9, 0.0, 0.0, 0.7, 0.0],
    [-1.0, 4.0, 0.0, 0.0, 0.25, 0.0],
    [-0.75, 1.0, 0.0, 0.0, 0.5, 0.0],
    // constants below and at 2^-23
    [1.1920928e-7, 0.0, 0.0, 0.0, 1.0, 0.0],
    [1.1920929e-7, 0.0, 0.0, 0.0, 1.0, 0.0],
    // quadratic: a double root, and one that lies outside 0..t
    [0.25, -1.0, 1.0, 0.0, 1.0, 0.0],
    [0.25, -1.0, 1.0, 0.0, 0.25, 0.0],
    [2.0, -3.0, 1.0, 0.0, 1.0, 0.0],
    // a triple root; roots in the order of the spans, which is not ascending
    [0.0, 0.0, 0.0, 1.0, 1.0, 9.536743e-7],
    [
        -0.14307852,
        1.1446282,
        -2.8615704,
        2.2892563,
        0.75,
        1.1920929e-7,
    ],
    [-0.31582734, 1.771571, -3.3084095, 2.0571527, 1.0, -0.0],
    // the slope is zero and the value is not: the step goes to an end of the range, to which one a zero's sign decides
    [-7.17e-43, 0.0, 0.0, 1.0, 1.0, 0.0],
    [-7.17e-43, -0.0, -0.0, 1.0, 1.0, 0.0],
    [7.17e-43, 0.0, 0.0, -1.0, 1.0, 0.0],
    [7.17e-43, -0.0, -0.0, -1.0, 1.0, 0.0],
    // no root of the slope; the largest coefficients
    [-0.5, 1.0, 0.0, 1.0, 1.0, 0.0],
    [-1048576.0, 1048576.0, -1048576.0, 1048576.0, 1.0, 0.0],
];
