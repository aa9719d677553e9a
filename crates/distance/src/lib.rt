// How near the two sides of a pair are (docs/01-scope.md, "Our distance rules"): candidates in order, the first
// smallest answered. Nothing here refuses: the numbers are tested where a caller hands them over.

#![tactic(auto)]

pub mod candidate;
mod edge_edge;
mod face_vertex;
pub mod nearest;
mod products;
mod segment;
