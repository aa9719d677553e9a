// Numbers: the helpers that the rest of the product computes with, the tests of the ranges that it takes, bit patterns,
// and the square root (docs/01-scope.md, "Number helpers", "The numbers allowed", "Square root and norm").
// The crate's proofs/ hold the laws of f32 that every other crate cites.

#![tactic(auto)]

pub mod by_hand;
pub mod order;
pub mod pattern;
pub mod range;
pub mod refusal;
pub mod root;
