// Points with their displacements (docs/01-scope.md, "Scaling a pair", "Roots"): the scaling of a pair, and the times
// at which it lies in one plane. The public calls refuse.

#![tactic(auto)]

// The record of a pair's numbers.
pub mod record;

// Scaling.
mod factors;
pub mod scaling;

// Coplanar times.
pub mod coplanar;
