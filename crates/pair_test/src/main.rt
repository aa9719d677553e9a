// A test program: the corners of a pair's public calls, one a line (docs/01-scope.md, "Corners to check",
// "Scaling a pair", "Refusal numbers"), and the same pair written otherwise. The lines that it must write are the
// oracle's for the same calls (`oracle ask`, docs/TESTING.md): what the model of the rules gives, and the original
// wherever it answers; norms of 2^-60 and more, and those of a NaN and of infinities, which a public call refuses, are
// 01-scope.md's rule.

#![tactic(auto)]

mod cases;
mod otherwise;
mod shown;
mod values;

use admission::Limits;
use std::io;
use values::{ABOVE_BOUND, ABOVE_ONE, BOUND, MANY, lone};

fn scaling(rt: &impl Print) -> io::Result<()> {
    let zero = lone(0.0);
    for (name, x, dx, max_t) in [
        ("all zero", zero, zero, 1.0),
        ("entry 3f7d70a4", lone(0.99), zero, 1.0),
        ("entry 3dfd70a4", lone(0.12375), zero, 1.0),
        ("entry above that", lone(0.12375002), zero, 1.0),
        ("entry below that", lone(0.12374999), zero, 1.0),
        ("many", MANY, MANY, 0.5),
        ("moving", lone(0.001), MANY, 1.0),
        ("43 times", lone(1.0e-38), lone(-3.0e-39), 0.0),
        ("no factor", lone(1.0e-45), zero, 1.0),
        ("too large", lone(1.0e-37), lone(BOUND), 0.0),
        ("largest", lone(-BOUND), MANY, 1.0),
        ("above the largest", lone(ABOVE_BOUND), MANY, 1.0),
        ("nan", lone(f32::NAN), MANY, 1.0),
        ("infinity", MANY, lone(f32::INFINITY), 1.0),
        ("time minus zero", MANY, MANY, -0.0),
        ("time above one", MANY, MANY, ABOVE_ONE),
        ("nan, time above one", lone(f32::NAN), MANY, ABOVE_ONE),
    ] {
        cases::scaled(rt, name, x, dx, max_t)?;
    }
    Ok(())
}

fn measures(rt: &impl Print) -> io::Result<()> {
    for (name, x, split) in [
        ("edges", MANY, 2),
        ("face", MANY, 3),
        ("split 4", MANY, 4),
        ("split 1, nan", lone(f32::NAN), 1),
        ("edges, above the largest", lone(-ABOVE_BOUND), 2),
        ("face, largest", lone(BOUND), 3),
        ("face, smallest", lone(1.0e-45), 3),
        ("edges, 2^-60", lone(8.673617379884035e-19), 2),
        ("edges, below 2^-60", lone(8.6736168e-19), 2),
    ] {
        cases::measured(rt, name, x, split)?;
    }
    Ok(())
}

fn places(rt: &impl Print) -> io::Result<()> {
    let end = [-2.0, 4.0, 3.0];
    cases::placed(rt, "place", [1.0, 2.0, 3.0], end, 0.25)?;
    cases::placed(
        rt,
        "place, ratio above one",
        [1.0, 2.0, 3.0],
        end,
        ABOVE_ONE,
    )?;
    cases::placed(rt, "place, infinity", [1.0, 2.0, f32::INFINITY], end, 2.0)
}

fn moves(rt: &impl Print) -> io::Result<()> {
    for (name, dx, t) in [
        ("moved", lone(-2.0), 0.75),
        ("moved, time below zero", lone(-2.0), -0.75),
        ("moved, nan", lone(f32::NAN), 0.75),
    ] {
        cases::moved(rt, name, MANY, dx, t, lone(7.0))?;
    }
    cases::centred(rt, "centred", MANY)?;
    cases::centred(rt, "centred, above the largest", lone(ABOVE_BOUND))?;
    cases::centred(rt, "centred, infinity", lone(f32::INFINITY))?;
    cases::times(rt, "times", MANY, BOUND)?;
    cases::times(rt, "times, factor below zero", MANY, -1.0)?;
    cases::times(rt, "times, nan", MANY, f32::NAN)
}

// max_t and u_max as given, offset 0 and clearance 1.
fn limits(max_t: f32, u_max: f32) -> Limits {
    Limits {
        offset: 0.0,
        clearance: 1.0,
        max_t,
        u_max,
    }
}

// The ends of the range of u_max, and the next numbers beyond.
fn speeds(rt: &impl Print) -> io::Result<()> {
    for (name, max_t, u_max) in [
        ("u_max 2^-60", 1.0, 8.673617379884035e-19),
        ("u_max below 2^-60", 1.0, 8.6736168e-19),
        ("u_max 2^60", 0.0, 1.152921504606847e18),
        ("u_max above 2^60", 0.0, 1.1529217e18),
    ] {
        cases::admitted(rt, name, MANY, 3, limits(max_t, u_max))?;
    }
    Ok(())
}

fn admissions(rt: &impl Print) -> io::Result<()> {
    cases::admitted(rt, "max_t 1", MANY, 2, limits(1.0, 1.0))?;
    cases::admitted(rt, "max_t above 1", MANY, 2, limits(ABOVE_ONE, 1.0))?;
    speeds(rt)?;
    cases::admitted(rt, "split 4", MANY, 4, limits(1.0, 1.0))?;
    cases::admitted(rt, "split 4, nan", MANY, 4, limits(f32::NAN, 1.0))
}

fn allowances(rt: &impl Print) -> io::Result<()> {
    for (name, max_t, allowance) in [
        ("allowance 0", 1.0, 0),
        ("allowance 1", 1.0, 1),
        ("allowance 4096", 1.0, 4096),
        ("allowance 4097", 1.0, 4097),
        ("allowance 0, nan", f32::NAN, 0),
    ] {
        cases::allowed(rt, name, MANY, 2, limits(max_t, 1.0), allowance)?;
    }
    Ok(())
}

fn main(rt: HostRuntime) -> io::Result<()> {
    scaling(&rt)?;
    measures(&rt)?;
    places(&rt)?;
    moves(&rt)?;
    admissions(&rt)?;
    allowances(&rt)?;
    otherwise::written(&rt, MANY)
}
