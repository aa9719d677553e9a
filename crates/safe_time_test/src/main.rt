// A test program: safe times, one a line (docs/01-scope.md, "The walk"; docs/GUARANTEES.md). The lines that it must
// write are the oracle's for the same calls (`oracle ask`, docs/TESTING.md): what the model of the rules gives, and the
// original wherever it answers.

#![tactic(auto)]

mod allowances;
mod leaks;
mod line;
mod listed;
mod pairs;
mod ranges;
mod rare;
mod refused;
mod starts;

use std::io;

fn main(rt: HostRuntime) -> io::Result<()> {
    listed::all(&rt)?;
    rare::all(&rt)?;
    leaks::all(&rt)?;
    ranges::all(&rt)?;
    starts::all(&rt)?;
    refused::all(&rt)?;
    allowances::all(&rt)
}
