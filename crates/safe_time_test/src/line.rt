// One line of the output.
use admission::Limits;
use ccd3::safe_time::{maximum_safe_time_accurate, maximum_safe_time_allowing};
use ccd3::{Answer, SafeTime};
use std::{fmt, io};

// A pair: its points, their displacements, and its split.
#[derive(Clone, Copy)]
pub(crate) struct Pair {
    pub(crate) x: [[f32; 3]; 4],
    pub(crate) dx: [[f32; 3]; 4],
    pub(crate) split: usize,
}

// The bits of a number, in eight hex digits.
#[derive(Clone, Copy)]
struct Bits(f32);

impl fmt::Display for Bits {
    fn fmt<W: fmt::Write>(&self, f: &mut fmt::Formatter<W>) -> fmt::Result {
        if self.0.is_nan() {
            f.write_str("nan")
        } else {
            write!(f, "{:08x}", self.0.to_bits())
        }
    }
}

// How a call ends, with the time or the refusal's number.
#[derive(Clone, Copy)]
struct Ending(Answer);

impl fmt::Display for Ending {
    fn fmt<W: fmt::Write>(&self, f: &mut fmt::Formatter<W>) -> fmt::Result {
        match self.0 {
            Answer::Touching(t) => write!(f, "touching {}", Bits(t)),
            Answer::Contact(t) => write!(f, "contact {}", Bits(t)),
            Answer::Clear(t) => write!(f, "clear {}", Bits(t)),
            Answer::Budget(t) => write!(f, "budget {}", Bits(t)),
            Answer::Refused(n) => write!(f, "refused {n}"),
        }
    }
}

// A pair's name, how it ends, the probes and the halvings.
fn told(rt: &impl Print, name: &str, r: SafeTime) -> io::Result<()> {
    println!(rt; "{name}: {} {} {}", Ending(r.answer), r.probes, r.halvings)
}

pub(crate) fn walked(rt: &impl Print, name: &str, pair: Pair, limits: Limits) -> io::Result<()> {
    told(
        rt,
        name,
        maximum_safe_time_accurate(pair.x, pair.dx, pair.split, limits),
    )
}

// With so many probes allowed.
pub(crate) fn allowing(
    rt: &impl Print,
    name: &str,
    pair: Pair,
    limits: Limits,
    allowance: u32,
) -> io::Result<()> {
    told(
        rt,
        name,
        maximum_safe_time_allowing(pair.x, pair.dx, pair.split, limits, allowance),
    )
}
