// Starts at or below park (docs/01-scope.md, "The walk"): the sides are 4 apart.
use crate::line::{allowing, walked};
use crate::pairs;
use crate::pairs::{limits, strips_meet};
use admission::Limits;
use std::io;

// A strip at height 4 that goes up by 4 from one at height 0.
fn strips_part(rt: &impl Print, name: &str, limits: Limits) -> io::Result<()> {
    walked(
        rt,
        name,
        pairs::edges(pairs::strips(0.0, 4.0), pairs::raised(0.0, 4.0)),
        limits,
    )
}

fn one_allowed(rt: &impl Print) -> io::Result<()> {
    allowing(
        rt,
        "below dip, 1 probe allowed",
        pairs::edges(pairs::strips(0.0, 4.0), pairs::raised(0.0, 4.0)),
        limits(0.0, 10.0, 1.0, 4.0),
        1,
    )
}

pub(crate) fn all(rt: &impl Print) -> io::Result<()> {
    strips_meet(rt, "inside the offset", limits(5.0, 0.0, 1.0, 4.0))?;
    strips_meet(rt, "exactly at the offset", limits(4.0, 0.0, 1.0, 4.0))?;
    strips_meet(rt, "exactly at park", limits(0.0, 4.0, 1.0, 4.0))?;
    strips_part(
        rt,
        "exactly at park, going apart",
        limits(0.0, 4.0, 1.0, 4.0),
    )?;
    strips_meet(rt, "below park, above dip", limits(0.0, 5.0, 1.0, 4.0))?;
    strips_part(
        rt,
        "below park, above dip, going apart",
        limits(0.0, 5.0, 1.0, 4.0),
    )?;
    strips_part(rt, "exactly at dip", limits(0.0, 8.0, 1.0, 4.0))?;
    strips_part(rt, "below dip", limits(0.0, 10.0, 1.0, 4.0))?;
    one_allowed(rt)
}
