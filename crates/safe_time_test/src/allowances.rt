// The number of probes allowed, from 1 to 4,096, and the next number beyond (docs/01-scope.md, "The allowance").
use crate::line::allowing;
use crate::{pairs, rare};
use std::io;

// Strips 3/2^22 apart, of which the upper one slides along: each step is 2^-21, and nothing is met.
fn sliding(rt: &impl Print, name: &str, allowance: u32) -> io::Result<()> {
    let dx = [
        [0.0, 0.0, 0.0],
        [0.0, 0.0, 0.0],
        [1.0, 0.0, 0.0],
        [1.0, 0.0, 0.0],
    ];
    let limits = pairs::limits(0.0, 4.7683716e-7, 1.0, 1.0);
    allowing(
        rt,
        name,
        pairs::edges(pairs::strips(0.0, 7.1525574e-7), dx),
        limits,
        allowance,
    )
}

// Strips that meet: one probe finds the contact.
fn meeting(
    rt: &impl Print,
    name: &str,
    clearance: f32,
    max_t: f32,
    allowance: u32,
) -> io::Result<()> {
    let limits = pairs::limits(0.0, clearance, max_t, 4.0);
    allowing(
        rt,
        name,
        pairs::edges(pairs::strips(0.0, 4.0), pairs::raised(0.0, -4.0)),
        limits,
        allowance,
    )
}

pub(crate) fn all(rt: &impl Print) -> io::Result<()> {
    for (name, allowance) in [
        ("sliding, 1 probe allowed", 1),
        ("sliding, 2 allowed", 2),
        ("sliding, 3 allowed", 3),
        ("sliding, 4095 allowed", 4095),
        ("sliding, 4096 allowed", 4096),
    ] {
        sliding(rt, name, allowance)?;
    }
    rare::slow_edges_allowing(rt, "slow edges, 4095 allowed", 4095)?;
    rare::slow_edges_allowing(rt, "slow edges, 4096 allowed", 4096)?;
    meeting(rt, "contact, 1 allowed", 1.0, 1.0, 1)?;
    meeting(rt, "none allowed", 1.0, 1.0, 0)?;
    meeting(rt, "4097 allowed", 1.0, 1.0, 4097)?;
    meeting(rt, "none allowed, a NaN", 1.0, f32::NAN, 0)?;
    meeting(rt, "none allowed, in the band", 5.0, 1.0, 0)
}
