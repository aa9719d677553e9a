// Vectors, segments and four points: what the distances, the roots and the walk are made of. Nothing here refuses:
// the numbers are tested where a caller hands them over.

#![tactic(auto)]

pub mod edge3;
pub mod mat3x4_array_of_cols;
pub mod vec3;
