// What is not promised: pairs that pass through in exact arithmetic (docs/GUARANTEES.md, "Pairs that pass through").
use crate::line::walked;
use crate::pairs;
use std::io;

fn near_parallel_edges(rt: &impl Print) -> io::Result<()> {
    let x = [
        [-0.5, 0.0, 0.0],
        [0.5, 0.0, 0.0],
        [-0.5, -6.1035156e-5, 0.5],
        [0.5, 6.1035156e-5, 0.5],
    ];
    let limits = pairs::limits(0.0, 3.0517578e-5, 1.0, 1.0);
    walked(
        rt,
        "passes through, near-parallel edges",
        pairs::edges(x, pairs::raised(0.0, -1.0)),
        limits,
    )
}

fn coarse_coordinates(rt: &impl Print) -> io::Result<()> {
    let x = [
        [524288.0, 524288.0, 524288.0],
        [524296.0, 524288.0, 524288.0],
        [524288.0, 524296.0, 524288.0],
        [5.2429e5, 5.2429e5, 524288.1],
    ];
    let limits = pairs::limits(0.06, 0.001, 1.0, 0.25);
    walked(
        rt,
        "passes through, coarse coordinates",
        pairs::face_vertex(x, pairs::vertex_raised(-0.25)),
        limits,
    )
}

fn det_underflows(rt: &impl Print) -> io::Result<()> {
    let x = [
        [-9.094947e-13, 0.0, 0.0],
        [9.094947e-13, 0.0, 0.0],
        [0.0, -9.094947e-13, 1.8189894e-12],
        [0.0, 9.094947e-13, 1.8189894e-12],
    ];
    let limits = pairs::limits(0.0, 2.2737368e-13, 1.0, 3.637979e-12);
    walked(
        rt,
        "passes through, det underflows",
        pairs::edges(x, pairs::raised(0.0, -3.637979e-12)),
        limits,
    )
}

pub(crate) fn all(rt: &impl Print) -> io::Result<()> {
    near_parallel_edges(rt)?;
    coarse_coordinates(rt)?;
    det_underflows(rt)
}
