// A test program: corners and rare answers of the root finders, one a line. The lines that it must write were worked
// out with the original (polynomial_root.rs), a refusal from where and why it stops, or from a NaN among its roots, a
// linear root at t below 1 from the fraction that the original answers.

#![tactic(auto)]

mod cubics;
mod line;
mod quadratics;
mod refused_cubics;

use line::Line;
use polynomial_root::{cubic_roots_in_range_zero_to_t, quadratic_root};
use std::io;

fn cubic(rt: &impl Print, call: [f32; 6]) -> io::Result<()> {
    let [c0, c1, c2, c3, t, epsilon] = call;
    let answer = cubic_roots_in_range_zero_to_t(c0, c1, c2, c3, t, epsilon);
    println!(rt; "{}", Line(answer))
}

fn main(rt: HostRuntime) -> io::Result<()> {
    for [c0, c1, c2] in quadratics::CALLS {
        println!(&rt; "{}", Line(quadratic_root(c0, c1, c2)))?;
    }
    for call in refused_cubics::CALLS {
        cubic(&rt, call)?;
    }
    for call in cubics::CALLS {
        cubic(&rt, call)?;
    }
    Ok(())
}
