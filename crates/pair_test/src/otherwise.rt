// The same pair written otherwise (docs/01-scope.md, "The same pair, written otherwise"): a line has the norm of the
// pair, then that of the pair in another order, with its edges exchanged, with all signs changed, or times a power of
// two.
use crate::shown::{Number, Refused};
use pair::{norm, points};
use std::io;

fn both(rt: &impl Print, x: [[f32; 3]; 4], y: [[f32; 3]; 4], split: usize) -> io::Result<()> {
    println!(rt;
        "{}{}",
        Number(norm::norm(x, split)),
        Number(norm::norm(y, split))
    )
}

// The columns in other orders, by their numbers.
fn ordered<const N: usize>(
    rt: &impl Print,
    x: [[f32; 3]; 4],
    split: usize,
    orders: [[usize; 4]; N],
) -> io::Result<()> {
    for order in orders {
        print!(rt; "columns in another order")?;
        both(rt, x, order.map(|column| x[column % 4]), split)?;
    }
    Ok(())
}

// Every number with the other sign.
fn signs(rt: &impl Print, x: [[f32; 3]; 4], split: usize) -> io::Result<()> {
    print!(rt; "signs changed")?;
    both(rt, x, x.map(|point| point.map(|number| -number)), split)
}

// Every number times a power of two.
fn times(rt: &impl Print, x: [[f32; 3]; 4], split: usize, power: f32) -> io::Result<()> {
    let mut y = x;
    let answer = points::scale_in_place(&mut y, power);
    print!(rt; "times a power of two{}", Refused(answer.err()))?;
    both(rt, x, y, split)
}

// Every order within the sides, both edges exchanged, all signs changed.
fn edges(rt: &impl Print, x: [[f32; 3]; 4]) -> io::Result<()> {
    let orders = [[1, 0, 2, 3], [0, 1, 3, 2], [1, 0, 3, 2], [2, 3, 0, 1]];
    ordered(rt, x, 2, orders)?;
    signs(rt, x, 2)
}

fn face(rt: &impl Print, x: [[f32; 3]; 4]) -> io::Result<()> {
    let orders = [
        [0, 2, 1, 3],
        [1, 0, 2, 3],
        [1, 2, 0, 3],
        [2, 0, 1, 3],
        [2, 1, 0, 3],
    ];
    ordered(rt, x, 3, orders)?;
    signs(rt, x, 3)
}

// Points with one number in the first and one in the last column.
fn with(a: f32, b: f32) -> [[f32; 3]; 4] {
    [
        [a, -1.25, 3.0],
        [2.0, 0.75, -0.125],
        [-4.0, 1.5, 0.0],
        [b, 6.0, -2.5],
    ]
}

// Pairs of numbers, with a NaN, with infinities; the last power of two is too small to be exact.
pub(crate) fn written(rt: &impl Print, x: [[f32; 3]; 4]) -> io::Result<()> {
    edges(rt, x)?;
    face(rt, x)?;
    edges(rt, with(f32::NAN, 1.0))?;
    face(rt, with(1.0, f32::INFINITY))?;
    edges(rt, with(f32::INFINITY, f32::INFINITY))?;
    times(rt, x, 2, 1024.0)?;
    times(rt, x, 3, 9.094947017729282e-13)?;
    times(rt, x, 2, 7.3468396926392969e-40)
}
