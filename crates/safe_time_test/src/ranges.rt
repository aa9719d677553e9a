// The ends of the ranges of max_t and u_max, and the next number beyond.
use crate::pairs::{limits, strips_meet};
use std::io;

pub(crate) fn all(rt: &impl Print) -> io::Result<()> {
    for (name, max_t, u_max) in [
        ("max_t 1", 1.0, 4.0),
        ("max_t above 1", 1.0000001, 4.0),
        ("max_t minus zero", -0.0, 4.0),
        ("u_max 2^-60", 1.0, 8.6736174e-19),
        ("u_max below 2^-60", 1.0, 8.673617e-19),
        ("u_max 2^60", 1.0, 1.1529215e18),
    ] {
        strips_meet(rt, name, limits(0.0, 1.0, max_t, u_max))?;
    }
    Ok(())
}
