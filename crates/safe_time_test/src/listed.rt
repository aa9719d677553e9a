// The four pairs of the listing (docs/01-scope.md, "The listing").
use crate::line::walked;
use crate::pairs;
use std::io;

fn a_shared_corner(rt: &impl Print) -> io::Result<()> {
    let x = [
        [0.0, 0.0, 0.0],
        [0.0, 0.0, 4.0],
        [0.0, 0.0, 4.0],
        [1.0, 0.0, 4.0],
    ];
    let dx = [
        [0.0, 0.0, 0.0],
        [0.0, 0.0, -4.0],
        [0.0, 0.0, -4.0],
        [0.0, 0.0, -4.0],
    ];
    walked(
        rt,
        "a shared corner",
        pairs::edges(x, dx),
        pairs::limits(0.0, 1.0, 1.0, 4.0),
    )
}

fn edges_part(rt: &impl Print) -> io::Result<()> {
    let limits = pairs::limits(0.0, 1.0, 1.0, 4.0);
    walked(
        rt,
        "edges part",
        pairs::edges(pairs::strips(4.0, 9.0), pairs::raised(-4.0, 0.0)),
        limits,
    )
}

fn nothing_moves(rt: &impl Print) -> io::Result<()> {
    let limits = pairs::limits(0.0, 1.0, 1.0, 0.0);
    walked(
        rt,
        "nothing moves",
        pairs::edges(pairs::strips(0.0, 9.0), pairs::raised(0.0, 0.0)),
        limits,
    )
}

pub(crate) fn all(rt: &impl Print) -> io::Result<()> {
    pairs::strips_meet(rt, "edges meet", pairs::limits(0.0, 1.0, 1.0, 4.0))?;
    a_shared_corner(rt)?;
    edges_part(rt)?;
    nothing_moves(rt)
}
