// Rare ends of a walk: 4,096 probes, 150 halvings, contact at time 0, steps of length zero.
use crate::line::{Pair, allowing, walked};
use crate::pairs;
use admission::Limits;
use std::io;

// Edges at a right angle that come together slowly.
fn slow_pair() -> Pair {
    let x = [
        [0.0, 0.0, 0.0],
        [4.7683716e-7, 0.0, 0.0],
        [0.0, -4.7683716e-7, 3.3001123e-7],
        [0.0, 4.7683716e-7, 3.3001123e-7],
    ];
    pairs::edges(x, pairs::raised(0.0, -6.6002247e-7))
}

// Probe 4,096 finds the contact.
fn slow_limits() -> Limits {
    pairs::limits(0.0, 4.907129e-8, 1.0, 0.0010722749)
}

fn slow_edges(rt: &impl Print, name: &str, limits: Limits) -> io::Result<()> {
    walked(rt, name, slow_pair(), limits)
}

pub(crate) fn slow_edges_allowing(rt: &impl Print, name: &str, allowance: u32) -> io::Result<()> {
    allowing(rt, name, slow_pair(), slow_limits(), allowance)
}

// The same of a face and a vertex.
fn slow_face(rt: &impl Print, name: &str, limits: Limits) -> io::Result<()> {
    let x = [
        [0.0, 0.0, 0.0],
        [4.7683716e-7, 0.0, 0.0],
        [0.0, 4.7683716e-7, 0.0],
        [1.1920929e-7, 1.1920929e-7, 2.701114e-7],
    ];
    walked(
        rt,
        name,
        pairs::face_vertex(x, pairs::vertex_raised(-5.402228e-7)),
        limits,
    )
}

fn contact_at_time_0(rt: &impl Print) -> io::Result<()> {
    let x = [
        [1.0e-45, 0.0, 0.0],
        [1.0205786, 0.0, 0.0],
        [0.0, -0.15992582, 0.7087226],
        [0.0, 0.65815854, 0.019244552],
    ];
    let limits = pairs::limits(0.0, 0.4388621, 1.0, 0.94499624);
    walked(
        rt,
        "contact at time 0",
        pairs::edges(x, pairs::slid(-0.94499624)),
        limits,
    )
}

fn contact_with_150_halvings(rt: &impl Print) -> io::Result<()> {
    let x = [
        [3.0e-45, 0.0, 0.0],
        [1.8937769, 0.0, 0.0],
        [0.0, 0.96077394, -0.31924868],
        [0.0, 0.21429825, -1.2243204],
    ];
    let limits = pairs::limits(0.0, 0.9443298, 1.0, 0.74016404);
    walked(
        rt,
        "contact with 150 halvings",
        pairs::edges(x, pairs::slid(-0.74016404)),
        limits,
    )
}

fn zero_steps(rt: &impl Print) -> io::Result<()> {
    let x = [
        [0.0, 0.0, 0.0],
        [1.0, 0.0, 0.0],
        [0.0, 0.0003, 1.0],
        [1.0, 0.0003, 1.0],
    ];
    walked(
        rt,
        "zero steps",
        pairs::edges(x, pairs::raised(0.0, -0.5)),
        pairs::limits(1.0, 0.0, 1.0, 0.5),
    )
}

pub(crate) fn all(rt: &impl Print) -> io::Result<()> {
    slow_edges(rt, "slow edges, contact at the last probe", slow_limits())?;
    slow_edges(
        rt,
        "slow edges, clear after the last probe",
        pairs::limits(0.0, 4.907129e-8, 0.40623862, 0.0012867299),
    )?;
    slow_face(
        rt,
        "slow face, contact at the last probe",
        pairs::limits(0.0, 2.5622551e-8, 1.0, 0.00073786423),
    )?;
    slow_face(
        rt,
        "slow face, clear after the last probe",
        pairs::limits(0.0, 2.5622551e-8, 0.43718186, 0.0008854371),
    )?;
    contact_at_time_0(rt)?;
    contact_with_150_halvings(rt)?;
    zero_steps(rt)
}
