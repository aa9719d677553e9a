// Points, displacements and splits that are refused.
use crate::line::{Pair, walked};
use crate::pairs;
use admission::Limits;
use std::io;

fn common() -> Limits {
    pairs::limits(0.0, 1.0, 1.0, 4.0)
}

// The strips that meet, with one number of a displacement.
fn displaced(rt: &impl Print, name: &str, number: f32, limits: Limits) -> io::Result<()> {
    let dx = [
        [0.0, 0.0, 0.0],
        [0.0, 0.0, 0.0],
        [0.0, 0.0, number],
        [0.0, 0.0, -4.0],
    ];
    walked(rt, name, pairs::edges(pairs::strips(0.0, 4.0), dx), limits)
}

fn a_coordinate_above_2_20(rt: &impl Print) -> io::Result<()> {
    let x = [
        [0.0, 0.0, 0.0],
        [1.0, 0.0, 0.0],
        [0.0, 0.0, 1048576.1],
        [1.0, 0.0, 4.0],
    ];
    walked(
        rt,
        "a coordinate above 2^20",
        pairs::edges(x, pairs::raised(0.0, -4.0)),
        common(),
    )
}

pub(crate) fn all(rt: &impl Print) -> io::Result<()> {
    // a NaN is told before a time limit that is out of range
    displaced(rt, "a NaN", f32::NAN, pairs::limits(0.0, 1.0, 2.0, 4.0))?;
    displaced(rt, "an infinity", f32::INFINITY, common())?;
    a_coordinate_above_2_20(rt)?;
    walked(
        rt,
        "split 4",
        Pair {
            x: pairs::strips(0.0, 4.0),
            dx: pairs::raised(0.0, -4.0),
            split: 4,
        },
        common(),
    )
}
