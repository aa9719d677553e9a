// One line for a call: its name, its answer, and what lies there afterwards where something was lent.
use crate::shown::{Answered, Number, Point, Points, Refused};
use admission::{FULL_ALLOWANCE, Limits};
use motion::record::Pair;
use motion::scaling;
use pair::{norm, points, separation};
use std::io;

// Scaling a lent pair.
pub(crate) fn scaled(
    rt: &impl Print,
    name: &str,
    x: [[f32; 3]; 4],
    dx: [[f32; 3]; 4],
    max_t: f32,
) -> io::Result<()> {
    let mut pair = Pair { x, dx };
    let factor = scaling::normalize_centerized_configuration(&mut pair, max_t);
    println!(rt;
        "{name}{}{}{}",
        Answered("factor", factor),
        Points(pair.x),
        Points(pair.dx)
    )
}

// The norm and the distance of points by a split.
pub(crate) fn measured(
    rt: &impl Print,
    name: &str,
    x: [[f32; 3]; 4],
    split: usize,
) -> io::Result<()> {
    let norm = norm::max_relative_norm(x, split);
    let measured = separation::squared_distance(x, split);
    let (squared, direction, candidate) = match measured {
        Ok(nearest) => {
            let direction = nearest.direction;
            (nearest.squared, direction, nearest.candidate)
        }
        Err(_) => (0.0, [0.0; 3], 0),
    };
    println!(rt;
        "{name}{}{}{}{} {candidate:08x}",
        Answered("norm", norm),
        Refused(measured.err()),
        Number(squared),
        Point(direction)
    )
}

// A place along a segment.
pub(crate) fn placed(
    rt: &impl Print,
    name: &str,
    p0: [f32; 3],
    p1: [f32; 3],
    ratio: f32,
) -> io::Result<()> {
    let placed = points::lerp(p0, p1, ratio);
    println!(rt;
        "{name}{}{}",
        Refused(placed.err()),
        Point(placed.unwrap_or([0.0; 3]))
    )
}

// Points moved into lent ones; lent points centred and scaled.
pub(crate) fn moved(
    rt: &impl Print,
    name: &str,
    x0: [[f32; 3]; 4],
    dx: [[f32; 3]; 4],
    t: f32,
    lent: [[f32; 3]; 4],
) -> io::Result<()> {
    let mut x = lent;
    let answer = points::add_scaled(x0, dx, t, &mut x);
    println!(rt; "{name}{}{}", Refused(answer.err()), Points(x))
}

pub(crate) fn centred(rt: &impl Print, name: &str, lent: [[f32; 3]; 4]) -> io::Result<()> {
    let mut x = lent;
    let answer = points::centerize(&mut x);
    println!(rt; "{name}{}{}", Refused(answer.err()), Points(x))
}

pub(crate) fn times(rt: &impl Print, name: &str, lent: [[f32; 3]; 4], s: f32) -> io::Result<()> {
    let mut x = lent;
    let answer = points::scale_in_place(&mut x, s);
    println!(rt; "{name}{}{}", Refused(answer.err()), Points(x))
}

// The admission of a safe time.
pub(crate) fn admitted(
    rt: &impl Print,
    name: &str,
    x: [[f32; 3]; 4],
    split: usize,
    limits: Limits,
) -> io::Result<()> {
    allowed(rt, name, x, split, limits, FULL_ALLOWANCE)
}

// The same, with so many probes allowed.
pub(crate) fn allowed(
    rt: &impl Print,
    name: &str,
    x: [[f32; 3]; 4],
    split: usize,
    limits: Limits,
    allowance: u32,
) -> io::Result<()> {
    let admitted = admission::admit_walk(x, x, split, limits, allowance);
    println!(rt; "{name}{}", Refused(admitted.err()))
}
